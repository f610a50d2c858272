//! Members of a committee: sizes, masks and their circle.

ghost use Rattle.std.specs.Prelude.{◌≡◌, ◌+◌, ◌-◌, ◌^◌, ◌<◌, ◌≤◌, cond};
ghost use Rattle.sharing61.specs.Count.{how_many};
ghost use Rattle.talk.specs.Sync.{has};
ghost use Rattle.scenes.specs.Members.{first_unnamed, largest_bound, size_after};

use sizes::Committee;
use talk::in_mask;

// The committee to which a key moves: of the size that follows in the circle 4, 5, 7, 10, 13, with the largest bound.
pub(crate) fn committee_after(members: u32) -> Committee
    ensures size { result.members ≡ size_after members }
    ensures bound { result.bound ≡ largest_bound (size_after members) }
{
    let members = match members {
        4 => 5,
        5 => 7,
        7 => 10,
        10 => 13,
        _ => 4,
    };
    Committee {
        members,
        bound: (members - 1) / 3,
    }
}

// How many of the members 1 to `members` a mask names.
pub(crate) fn count_in(mask: u32, members: u32) -> u32
    requires { members ≤ 30 }
    ensures { result ≡ how_many members (has mask) }
{
    let mut count = 0;
    for member in 1..members + 1 {
        if in_mask(mask, member) {
            count += 1;
        }
    }
    count
}

// The first member in the circle, from the one with index `1 + first % members` on, whom a mask doesn't name.
pub(crate) fn first_unnamed(members: u32, first: u32, mask: u32) -> Option<u32>
    requires members { (1 ≤ members) × (members ≤ 30) }
    requires first { first < 2 ^ 31 }
    ensures { result ≡ first_unnamed members first (has mask) }
{
    for steps in 0..members {
        let member = 1 + (first + steps) % members;
        if !in_mask(mask, member) {
            return Some(member);
        }
    }
    None
}

// A mask of lower members, with a member put in where it is named.
pub(crate) fn with_member(mask: u32, member: u32, named: bool) -> u32
    requires member { (1 ≤ member) × (member ≤ 30) }
    requires lower { mask < 2 ^ (member - 1) }
    ensures { result ≡ mask + cond named (2 ^ (member - 1)) 0 }
{
    if named {
        mask + (1 << (member - 1))
    } else {
        mask
    }
}
