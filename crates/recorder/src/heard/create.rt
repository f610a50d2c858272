//! What is heard in a create of the seats that are down.

ghost use Rattle.std.specs.Prelude.{◌≡◌, true, length, IfOk};
ghost use Rattle.sizes.specs.Committees.{is_bound, is_size};
ghost use Rattle.talk.specs.Shape.{create_shape, rounds};
ghost use Rattle.drillbook.specs.Orders.{AllLawful, names};
ghost use Rattle.hearsay.specs.Said.{Marks, said_in};
ghost use Rattle.commands.specs.Create.{play_created};
ghost use Rattle.commands.specs.Late.{down_after};

use commands::create_minds;
use drillbook::Drill;
use field61::NumberList;
use hearsay::said_of;
use lists::OutOfMemory;
use playback::SaidList;
use sizes::Committee;
use std::alloc::Global;
use talk::Setting;

/// What is heard in a create by these masks of the seats of `down`. The error is want of memory.
pub(crate) fn created_said(
    alloc: Global,
    committee: Committee,
    drill: &Drill,
    seeds: &[[u8; 32]],
    masks: &NumberList,
    down: u32,
) -> Result<SaidList, OutOfMemory>
    requires size { is_size committee.members ≡ true }
    requires bound { is_bound committee.members committee.bound ≡ true }
    requires lines { AllLawful (create_shape committee.members committee.bound) drill.now }
    requires seeds { length seeds.now ≡ committee.members }
    requires rounds { length masks.now ≡ rounds (create_shape committee.members committee.bound) }
    requires marks { Marks (create_shape committee.members committee.bound) down (down_after (names drill.now) masks.now) }
    ensures { IfOk result (λ said. said ≡ said_in (play_created committee.members committee.bound drill.now seeds.now masks.now)) }
{
    match committee.members {
        4 => said_among::<4>(alloc, committee, drill, seeds, masks, down),
        5 => said_among::<5>(alloc, committee, drill, seeds, masks, down),
        7 => said_among::<7>(alloc, committee, drill, seeds, masks, down),
        10 => said_among::<10>(alloc, committee, drill, seeds, masks, down),
        _ => said_among::<13>(alloc, committee, drill, seeds, masks, down),
    }
}

// The same among N members.
fn said_among<const N: usize>(
    alloc: Global,
    committee: Committee,
    drill: &Drill,
    seeds: &[[u8; 32]],
    masks: &NumberList,
    down: u32,
) -> Result<SaidList, OutOfMemory>
    requires members { N ≡ committee.members }
    requires size { is_size committee.members ≡ true }
    requires bound { is_bound committee.members committee.bound ≡ true }
    requires lines { AllLawful (create_shape committee.members committee.bound) drill.now }
    requires seeds { length seeds.now ≡ committee.members }
    requires rounds { length masks.now ≡ rounds (create_shape committee.members committee.bound) }
    requires marks { Marks (create_shape committee.members committee.bound) down (down_after (names drill.now) masks.now) }
    ensures { IfOk result (λ said. said ≡ said_in (play_created committee.members committee.bound drill.now seeds.now masks.now)) }
{
    let setting = Setting::create(committee.members, committee.bound);
    let minds = create_minds::<N>(alloc, committee.bound, drill, seeds)?;
    let said = said_of(alloc, minds, masks, down, &setting)?;
    Ok(said)
}
