//! Laws on the members of a refresh. Each function's contract is a law, and its body is empty.

ghost use Rattle.std.specs.Prelude.{ℕ, List};
ghost use Rattle.algebra61.specs.Field.{Fp};
ghost use Rattle.talk.specs.Part.{part_is};
ghost use Rattle.talk.specs.Sync.{ways};
ghost use Rattle.machines.specs.Machines.{GoesLike};
ghost use Rattle.members.specs.Member.{member_turn, member_ways};
ghost use Rattle.periods.specs.Keeper.{IsKeeper};
ghost use Rattle.zeroshare.specs.Refresh.{EndsRefreshed};

use crate::Refresh;
use talk::Mind;

/// Members that take part in a refresh go like members of the sharing, each with the old shares of its own seat, whatever
/// these are. So they run by the rules of the sharing, and each ends where the play of its run defines.
pub fn refreshes_go_like_members<const N: usize>()
    ensures { (old : ℕ → List Fp) → GoesLike (ways ⟦<Refresh<N> as Mind>⟧.word ⟦<Refresh<N> as Mind>⟧.after_say ⟦<Refresh<N> as Mind>⟧.after_hear) member_ways (part_is (IsKeeper old)) member_turn }
{}

/// A member that ends where a play defines has the play's refreshed shares of its old ones, and counts the play's
/// accepted instances.
pub fn members_have_the_refreshed_shares_of_their_play()
    ensures { EndsRefreshed }
{}
