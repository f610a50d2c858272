//! Laws on members and plays. Each function's contract is a law, and its body is empty.

ghost use Rattle.talk.specs.Sync.{ways};
ghost use Rattle.members.specs.Laws.{AreDone, DoneIsPlay, EndAsPlay, HonestInMasks, MembersEnd, PlainShares, RunByTheRules};

use talk::Mind;

/// Where nobody is down, the created share of receiver j in a lane is the sum over all dealers of the value of the
/// dealer's grid at 0 and j.
#[tactic(auto, using(crate::proofs::Sums::plain_shares))]
pub fn plain_shares_where_nobody_is_down()
    ensures { PlainShares }
{}

/// A member that has come to the end which a play defines for its receiver has the play's created shares, and counts
/// the play's accepted instances.
pub fn members_have_the_shares_of_their_play()
    ensures { DoneIsPlay }
{}

/// Where members on the honest seats begin a sharing with their own grids, and the honest seats are in the masks, the
/// member of each honest receiver comes to the end that the run's play defines, whatever the others begin with.
pub fn members_end_as_their_play()
    ensures { MembersEnd }
{}

/// Minds that go like members on the honest seats run by the rules of the sharing, and the mind of each honest receiver
/// ends as the play of the run defines, whatever minds sit on the other seats.
pub fn minds_end_as_their_play<M: Mind>()
    ensures rules { RunByTheRules (ways M.word M.after_say M.after_hear) }
    ensures ends { EndAsPlay (ways M.word M.after_say M.after_hear) }
{}

/// The honest seats are in each mask that the words allow, where none of them is cut.
pub fn minds_stay_in_the_masks<M: Mind>()
    ensures { HonestInMasks (ways M.word M.after_say M.after_hear) }
{}

/// After five rounds every member is done, whatever the masks are.
#[tactic(auto, using(crate::proofs::Done::are_done))]
pub fn members_are_done_after_five_rounds()
    ensures { AreDone }
{}
