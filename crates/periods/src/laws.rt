//! Laws on the refresh and the move. Each function's contract is a law, and its body is empty.

ghost use Rattle.std.specs.Prelude.{ℕ};
ghost use Rattle.talk.specs.Sync.{ways};
ghost use Rattle.periods.specs.Runs.{EndAsMove, KeepersGo, MoversEnd, MoversGo, MoversInMasks, MovesAreProper, MovesShare, RunByMovers, SyndromesHeard};
ghost use Rattle.periods.specs.Laws.{ErrorIsDifference, HasConstant, HonestConstant, MoveKeeps, NoneWithin, OneConstant, OneLaneError, OneOpened, OneWithoutResult, OpenedIs, PlacePolynomial, RefreshKeeps, RefreshedByOne, ResultOrNone};

use talk::Mind;

/// In each lane a refresh adds to the share of each honest receiver j the product of j and the value at j of one
/// polynomial of at most the setting's degree. So shares on one polynomial stay on one, with the same constant.
pub fn a_refresh_adds_shares_of_zero()
    ensures one { RefreshedByOne }
    ensures keeps { RefreshKeeps }
{}

/// Each instance in which at most the bound is down shares exactly one constant, an honest dealer's that of its grid.
pub fn instances_share_constants()
    ensures some { (d : ℕ) → HasConstant d }
    ensures one { (d : ℕ) → OneConstant d }
    ensures honest { HonestConstant }
{}

/// What the honest receivers of a move post for a place lies on one polynomial, so no opening fails, and the opened value
/// is the check of the constants that the dealers share.
pub fn no_opening_fails()
    ensures polynomial { PlacePolynomial }
    ensures opened { OpenedIs }
    ensures one { OneOpened }
{}

/// A lane has an error vector exactly where some polynomial of degree at most t differs from the dealers' constants at no
/// more than t dealers; it is that difference, and the moved shares then lie on one polynomial with the same constant.
pub fn a_move_keeps_the_constant()
    ensures one { OneLaneError }
    ensures keeps { MoveKeeps }
    ensures only { ErrorIsDifference }
{}

/// A move has no result for one lane and one syndrome alone, only where the lanes don't have their error vectors, and
/// then no polynomial is that near to the constants of the named lane.
pub fn a_move_without_a_result_names_its_lane()
    ensures far { NoneWithin }
    ensures one { OneWithoutResult }
    ensures apart { ResultOrNone }
{}

/// Where the honest seats go by movers for six rounds, whatever the others say, the first five go by the rules of the
/// sharing, the mover of each honest receiver ends as the play of these words defines, and has heard the play's posts of
/// the sixth round. With at most the new committee's bound down the play is a move as the laws above ask.
pub fn movers_end_as_their_play()
    ensures shares { MovesShare }
    ensures proper { MovesAreProper }
    ensures ends { MoversEnd }
    ensures heard { SyndromesHeard }
{}

/// Minds that go like movers on the honest seats run by the words of movers, and the mind of each honest receiver ends as
/// the play of the run defines, whatever minds sit on the other seats.
pub fn minds_end_as_their_move<M: Mind>()
    ensures words { RunByMovers (ways M.word M.after_say M.after_hear) }
    ensures ends { EndAsMove (ways M.word M.after_say M.after_hear) }
{}

/// The honest seats are in each of the six masks that the words allow, where none of them is cut.
pub fn movers_stay_in_the_masks<M: Mind>()
    ensures { MoversInMasks (ways M.word M.after_say M.after_hear) }
{}

/// Seats that take part in a refresh go like members, each with the old shares of its own seat; seats that take part in a
/// move go like movers. Who is away goes like nobody.
pub fn parties_go_by_the_rules()
    ensures refresh { KeepersGo }
    ensures moves { MoversGo }
{}
