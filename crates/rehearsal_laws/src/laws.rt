//! Laws of the phases of a rehearsal. Each function's contract is a law, and its body is empty.

ghost use Rattle.rehearsal_laws.specs.Laws.{OneOthers, OnePhases, OneRehearsal, PhasesMakeHistory};

/// The phases of a rehearsal are a history, with the masks of who is exposed in its periods.
pub fn the_phases_make_a_history()
    ensures { PhasesMakeHistory }
{}

/// Two lists of as many phases of one rehearsal are the same: its words tell the masks, where nobody is cut.
pub fn there_is_one_list_of_phases()
    ensures { OnePhases }
{}

/// So the four words of a rehearsal tell all of it: its history, how many instances are accepted in each phase, and the
/// other choices for the wished key.
pub fn there_is_one_rehearsal()
    ensures rehearsal { OneRehearsal }
    ensures others { OneOthers }
{}
