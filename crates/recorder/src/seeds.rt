//! The seeds of the members of a drawn phase.

ghost use Rattle.std.specs.Prelude.{◌≡◌, ◌≤◌, IfOk};
ghost use Rattle.rehearsal_laws.specs.Standing.{first_seeds, later_seeds};

use lists::OutOfMemory;
use scenes::{Side, seed_of};
use std::alloc::Global;
use talk::in_mask;

/// Those of a create among so many members: one for each, by index. The error is want of memory.
pub(crate) fn first_seeds(
    alloc: Global,
    number: u32,
    members: u32,
) -> Result<Vec<[u8; 32]>, OutOfMemory>
    requires { members ≤ 30 }
    ensures { IfOk result (λ seeds. seeds.items ≡ first_seeds number members) }
{
    let mut seeds = Vec::new(alloc);
    for member in 1..members + 1 {
        seeds.push(seed_of(number, 0, member))?;
    }
    Ok(seeds)
}

/// Those of a later phase, which this committee begins: one for each member that has shares, by index. The error is want
/// of memory.
pub(crate) fn later_seeds(
    alloc: Global,
    number: u32,
    place: u32,
    side: &Side,
) -> Result<Vec<[u8; 32]>, OutOfMemory>
    requires { side.now.members ≤ 30 }
    ensures { IfOk result (λ seeds. seeds.items ≡ later_seeds number place side.now) }
{
    let mut seeds = Vec::new(alloc);
    for member in 1..side.members + 1 {
        if !in_mask(side.shareless, member) {
            seeds.push(seed_of(number, place, member))?;
        }
    }
    Ok(seeds)
}
