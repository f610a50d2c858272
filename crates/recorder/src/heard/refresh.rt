//! What is heard in a refresh of the seats that are down.

ghost use Rattle.std.specs.Prelude.{◌≡◌, length, IfOk};
ghost use Rattle.talk.specs.Shape.{rounds};
ghost use Rattle.drillbook.specs.Orders.{AllLawful};
ghost use Rattle.hearsay.specs.Said.{Marks, said_in};
ghost use Rattle.commands.specs.Late.{down_after};
ghost use Rattle.commands.specs.Phase.{IsReady, standing_of};
ghost use Rattle.commands.specs.Refresh.{play_refreshed, setting_of};
ghost use Rattle.commands.specs.Standing.{down_in, seeds_for};

use commands::{Asked, refresh_minds};
use field61::NumberList;
use hearsay::said_of;
use lists::OutOfMemory;
use playback::SaidList;
use std::alloc::Global;
use talk::Setting;

/// What is heard in a refresh by these masks of the seats of `down`. The error is want of memory.
pub(crate) fn refreshed_said(
    alloc: Global,
    asked: &Asked,
    seeds: &[[u8; 32]],
    masks: &NumberList,
    down: u32,
) -> Result<SaidList, OutOfMemory>
    requires ready { IsReady (standing_of asked.now) }
    requires lines { AllLawful (setting_of (standing_of asked.now)) asked.now.drill }
    requires seeds { length seeds.now ≡ seeds_for (standing_of asked.now) }
    requires rounds { length masks.now ≡ rounds (setting_of (standing_of asked.now)) }
    requires marks { Marks (setting_of (standing_of asked.now)) down (down_after (down_in (standing_of asked.now)) masks.now) }
    ensures { IfOk result (λ said. said ≡ said_in (play_refreshed (standing_of asked.now) seeds.now masks.now)) }
{
    let bound = asked.file.t;
    match asked.file.n {
        4 => said_among::<4>(alloc, bound, asked, seeds, masks, down),
        5 => said_among::<5>(alloc, bound, asked, seeds, masks, down),
        7 => said_among::<7>(alloc, bound, asked, seeds, masks, down),
        10 => said_among::<10>(alloc, bound, asked, seeds, masks, down),
        _ => said_among::<13>(alloc, bound, asked, seeds, masks, down),
    }
}

// The same among N members.
fn said_among<const N: usize>(
    alloc: Global,
    bound: u32,
    asked: &Asked,
    seeds: &[[u8; 32]],
    masks: &NumberList,
    down: u32,
) -> Result<SaidList, OutOfMemory>
    requires size { N ≡ asked.now.file.n }
    requires bound { bound ≡ asked.now.file.t }
    requires ready { IsReady (standing_of asked.now) }
    requires lines { AllLawful (setting_of (standing_of asked.now)) asked.now.drill }
    requires seeds { length seeds.now ≡ seeds_for (standing_of asked.now) }
    requires rounds { length masks.now ≡ rounds (setting_of (standing_of asked.now)) }
    requires marks { Marks (setting_of (standing_of asked.now)) down (down_after (down_in (standing_of asked.now)) masks.now) }
    ensures { IfOk result (λ said. said ≡ said_in (play_refreshed (standing_of asked.now) seeds.now masks.now)) }
{
    let setting = Setting::refresh(N as u32, bound);
    let minds = refresh_minds::<N>(alloc, bound, &asked.drill, &asked.files, seeds)?;
    let said = said_of(alloc, minds, masks, down, &setting)?;
    Ok(said)
}
