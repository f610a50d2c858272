//! A law of what is printed. The function's contract is the law, and its body is empty.

ghost use Rattle.playbill.specs.Law.{OneText};

/// The four words of a rehearsal tell its text.
pub fn there_is_one_text()
    ensures { OneText }
{}
