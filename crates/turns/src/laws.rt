//! Laws of a finished phase. Each function says its law and does nothing.
ghost use Rattle.talk.specs.Sync.{ways};
ghost use Rattle.turns.specs.Finished.{EndsInSync, HasAllowedMasks, HasWordsPosts, MoreCutsAllowMore};

use talk::Mind;

/// What members did that each kept an account of all rounds, and whose logs, notes and rings were settled, is the
/// synchronous run under the closed board's masks: the minds are those of the run, the masks are ones that the
/// words allow, and the posts are the words' posts. No order of the members' steps is named.
pub fn a_finished_phase_is_the_synchronous_run<M: Mind>()
    ensures minds { EndsInSync (ways M.word M.after_say M.after_hear) }
    ensures masks { HasAllowedMasks (ways M.word M.after_say M.after_hear) }
    ensures posts { HasWordsPosts (ways M.word M.after_say M.after_hear) }
{}

/// Masks that words allow are allowed where more seats are cut too.
pub fn more_cut_seats_allow_more_masks<M: Mind>()
    ensures { MoreCutsAllowMore (ways M.word M.after_say M.after_hear) }
{}
