//! What is heard in a move of the seats that are down.

ghost use Rattle.std.specs.Prelude.{◌≡◌, length, IfOk};
ghost use Rattle.talk.specs.Shape.{rounds};
ghost use Rattle.drillbook.specs.Orders.{AllLawful};
ghost use Rattle.hearsay.specs.Said.{Marks, said_in};
ghost use Rattle.commands.specs.Late.{down_after};
ghost use Rattle.commands.specs.Move.{down_moving, moving_of, play_moved};
ghost use Rattle.commands.specs.MovePhase.{MayMove};
ghost use Rattle.commands.specs.Phase.{standing_of};
ghost use Rattle.commands.specs.Standing.{seeds_for};

use commands::{Asked, Bounds, move_minds};
use field61::NumberList;
use hearsay::said_of;
use lists::OutOfMemory;
use playback::SaidList;
use sizes::Committee;
use std::alloc::Global;
use talk::Setting;

/// What is heard in a move to a committee by these masks of the seats of `down`. The error is want of memory.
pub(crate) fn moved_said(
    alloc: Global,
    asked: &Asked,
    committee: Committee,
    seeds: &[[u8; 32]],
    masks: &NumberList,
    down: u32,
) -> Result<SaidList, OutOfMemory>
    requires may { MayMove (standing_of asked.now) committee.members committee.bound }
    requires lines { AllLawful (moving_of (standing_of asked.now) committee.members committee.bound) asked.now.drill }
    requires seeds { length seeds.now ≡ seeds_for (standing_of asked.now) }
    requires rounds { length masks.now ≡ rounds (moving_of (standing_of asked.now) committee.members committee.bound) }
    requires marks { Marks (moving_of (standing_of asked.now) committee.members committee.bound) down (down_after (down_moving (standing_of asked.now)) masks.now) }
    ensures { IfOk result (λ said. said ≡ said_in (play_moved (standing_of asked.now) committee.members committee.bound seeds.now masks.now)) }
{
    let bound = asked.file.t;
    match asked.file.n {
        4 => said_from::<4>(alloc, bound, asked, committee, seeds, masks, down),
        5 => said_from::<5>(alloc, bound, asked, committee, seeds, masks, down),
        7 => said_from::<7>(alloc, bound, asked, committee, seeds, masks, down),
        10 => said_from::<10>(alloc, bound, asked, committee, seeds, masks, down),
        _ => said_from::<13>(alloc, bound, asked, committee, seeds, masks, down),
    }
}

// The same from N members.
fn said_from<const N: usize>(
    alloc: Global,
    bound: u32,
    asked: &Asked,
    committee: Committee,
    seeds: &[[u8; 32]],
    masks: &NumberList,
    down: u32,
) -> Result<SaidList, OutOfMemory>
    requires old { N ≡ asked.now.file.n }
    requires bound { bound ≡ asked.now.file.t }
    requires may { MayMove (standing_of asked.now) committee.members committee.bound }
    requires lines { AllLawful (moving_of (standing_of asked.now) committee.members committee.bound) asked.now.drill }
    requires seeds { length seeds.now ≡ seeds_for (standing_of asked.now) }
    requires rounds { length masks.now ≡ rounds (moving_of (standing_of asked.now) committee.members committee.bound) }
    requires marks { Marks (moving_of (standing_of asked.now) committee.members committee.bound) down (down_after (down_moving (standing_of asked.now)) masks.now) }
    ensures { IfOk result (λ said. said ≡ said_in (play_moved (standing_of asked.now) committee.members committee.bound seeds.now masks.now)) }
{
    match committee.members {
        4 => said_among::<N, 4>(alloc, bound, asked, committee, seeds, masks, down),
        5 => said_among::<N, 5>(alloc, bound, asked, committee, seeds, masks, down),
        7 => said_among::<N, 7>(alloc, bound, asked, committee, seeds, masks, down),
        10 => said_among::<N, 10>(alloc, bound, asked, committee, seeds, masks, down),
        _ => said_among::<N, 13>(alloc, bound, asked, committee, seeds, masks, down),
    }
}

// The same from N members to M.
fn said_among<const N: usize, const M: usize>(
    alloc: Global,
    bound: u32,
    asked: &Asked,
    committee: Committee,
    seeds: &[[u8; 32]],
    masks: &NumberList,
    down: u32,
) -> Result<SaidList, OutOfMemory>
    requires old { N ≡ asked.now.file.n }
    requires new { M ≡ committee.members }
    requires bound { bound ≡ asked.now.file.t }
    requires may { MayMove (standing_of asked.now) committee.members committee.bound }
    requires lines { AllLawful (moving_of (standing_of asked.now) committee.members committee.bound) asked.now.drill }
    requires seeds { length seeds.now ≡ seeds_for (standing_of asked.now) }
    requires rounds { length masks.now ≡ rounds (moving_of (standing_of asked.now) committee.members committee.bound) }
    requires marks { Marks (moving_of (standing_of asked.now) committee.members committee.bound) down (down_after (down_moving (standing_of asked.now)) masks.now) }
    ensures { IfOk result (λ said. said ≡ said_in (play_moved (standing_of asked.now) committee.members committee.bound seeds.now masks.now)) }
{
    let bounds = Bounds {
        old: bound,
        new: committee.bound,
    };
    let setting = Setting::moving(N as u32, bound, M as u32, committee.bound);
    let minds = move_minds::<N, M>(alloc, bounds, asked, seeds)?;
    let said = said_of(alloc, minds, masks, down, &setting)?;
    Ok(said)
}
