//! Laws of drills. Each function says its law and does nothing.

ghost use Rattle.drillbook.specs.Law.{ReadIsSpelled, SpelledIsRead, UnnamedSpeaks, SpeaksWithoutOrder};

/// A seat that no order names, and a seat in a round without an order of its own, says its own word.
#[tactic(auto, using(crate::proofs::Ordered::unnamed_speaks, crate::proofs::Ordered::speaks_without_order))]
pub fn who_has_no_order_says_its_own_word()
    ensures unnamed { UnnamedSpeaks }
    ensures no_order { SpeaksWithoutOrder }
{}

/// A line is read as an order exactly where it is that order's spelling: each lawful order's line is read as
/// the order, and each line that is read and says something is the line of a lawful order.
#[tactic(auto, using(crate::proofs::Spelled::spelled_is_read, crate::proofs::Spelled::read_is_spelled))]
pub fn a_line_is_the_spelling_of_its_order()
    ensures spelled { SpelledIsRead }
    ensures read { ReadIsSpelled }
{}
