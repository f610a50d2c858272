//! Who is exposed.

ghost use Rattle.std.specs.Prelude.{◌≡◌, ◌+◌, ◌-◌, ◌≤◌, ◌||◌, true, cond, nat_lt, IfOk, map};
ghost use Rattle.sizes.specs.Committees.{is_bound, is_size};
ghost use Rattle.talk.specs.Basics.{places};
ghost use Rattle.scenes.specs.Exposed.{exposed_at, exposed_on};
ghost use Rattle.scenes.specs.Scenes.{is_down_on};

use crate::members::with_member;
use crate::{Side, scenes_of};
use lists::{List, OutOfMemory};
use sizes::Committee;
use std::alloc::Global;

// Of a committee that holds a key: those who are down in a phase, and the lowest others, so that they are as many as the bound.
fn exposed_on(holding: &Side, seen: &Side) -> u32
    requires members { holding.now.members ≡ seen.now.members }
    requires few { seen.now.members ≤ 30 }
    ensures { result ≡ exposed_on holding.now (is_down_on seen.now) }
{
    let mut wanting = holding.bound.saturating_sub(seen.down_count());
    let mut mask = 0;
    for member in 1..holding.members + 1 {
        let down = seen.is_down(member);
        mask = with_member(mask, member, is_taken(down, wanting));
        wanting = wanting_after(down, wanting);
    }
    mask
}

// Whether a member is taken where so many others are wanting.
fn is_taken(down: bool, wanting: u32) -> bool
    ensures { result ≡ (down || nat_lt 0 wanting) }
{
    down || wanting > 0
}

// How many others are wanting behind a member.
fn wanting_after(down: bool, wanting: u32) -> u32
    ensures { result ≡ cond down wanting (wanting - 1) }
{
    if down {
        wanting
    } else {
        wanting.saturating_sub(1)
    }
}

/// The masks of who is exposed in the periods of the rehearsal from a number that a committee begins: of the members of the
/// committee that holds the key in a period, those who are down in the phase that ends it, or for the last period in the one
/// that begins it, and the lowest others, so that they are as many as the bound. The error is want of memory.
pub fn exposed_masks(
    alloc: Global,
    committee: Committee,
    periods: u32,
    number: u32,
) -> Result<List<u32>, OutOfMemory>
    requires size { is_size committee.members ≡ true }
    requires bound { is_bound committee.members committee.bound ≡ true }
    requires periods { periods ≤ 64 }
    ensures { IfOk result (λ masks. masks ≡ map (exposed_at committee.members committee.bound number periods) (places (periods + 1))) }
{
    let scenes = scenes_of(alloc, committee, periods, number)?;
    let mut masks = List::new(alloc);
    for phase in 0..periods {
        let holding = scenes[phase as usize].new_side();
        let seen = scenes[phase as usize + 1].old_side();
        masks.push(exposed_on(&holding, &seen))?;
    }
    let last = scenes[periods as usize].new_side();
    masks.push(exposed_on(&last, &last))?;
    Ok(masks)
}
