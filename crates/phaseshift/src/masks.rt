//! Members by their bits in a mask.

ghost use Rattle.std.specs.Prelude.{◌≡◌, ◌+◌, ◌≤◌};
ghost use Rattle.sharing61.specs.Count.{how_many};
ghost use Rattle.talk.specs.Sync.{has};
ghost use Rattle.choices61.specs.Sets.{lowest_out};
ghost use Rattle.phaseshift.specs.Members.{behind};

use talk::in_mask;

// How many of the members 1 to `members` a mask names, where that of member k stands `shift` places further on.
pub(crate) fn count_in(mask: u32, shift: u32, members: u32) -> u32
    requires { shift + members ≤ 30 }
    ensures { result ≡ how_many members (behind mask shift) }
{
    let mut count = 0;
    for member in 1..members + 1 {
        if in_mask(mask, shift + member) {
            count += 1;
        }
    }
    count
}

// The lowest of the members 1 to `members` that a mask doesn't name, 0 where it names all.
pub(crate) fn lowest_out(mask: u32, members: u32) -> u32
    requires { members ≤ 30 }
    ensures { result ≡ lowest_out members (has mask) }
{
    for member in 1..members + 1 {
        if !in_mask(mask, member) {
            return member;
        }
    }
    0
}
