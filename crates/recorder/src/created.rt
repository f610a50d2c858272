//! A drawn create, played and recorded.

ghost use Rattle.std.specs.Prelude.{◌≡◌, ◌+◌, ◌-◌, ◌^◌, ℕ, List, Option, min, IfOk, IfErr};
ghost use Rattle.algebra61.specs.Field.{Fp};
ghost use Rattle.members.specs.Shares.{accepted_count};
ghost use Rattle.playback.specs.Recorded.{play_of};
ghost use Rattle.commands.specs.Causes.{IsFromCrew};
ghost use Rattle.commands.specs.Crews.{Lent};
ghost use Rattle.scenes.specs.declared.scene.Scene.TheVariants as scene;
ghost use Rattle.scenes.specs.Law.{AreSides};
ghost use Rattle.scenes.specs.Lawful.{AreOrders};
ghost use Rattle.rehearsal_laws.specs.Played.{IsPlayed};

use crate::down::down_seats;
use crate::grids::created_grids;
use crate::heard::created_said;
use crate::recorded::Recorded;
use crate::seeds::first_seeds;
use commands::{drilled_marks, run_create};
use keyroom::Status;
use party_crew::{Crew, StillPace};
use playback::{Phase, PhaseKind};
use scenes::{Scene, Side};
use sizes::Committee;
use std::alloc::Global;
use std::sync::Wait;
use std::thread::Threads;

/// Plays the create of this committee and records it, as `record_phase` does.
pub(crate) fn record_create<C: Crew, R: Threads + Wait + Sync>(
    rt: &R,
    alloc: Global,
    number: u32,
    side: Side,
    crew: &mut C,
) -> Result<Recorded, Status>
    requires sides { AreSides (scene.Create side) }
    requires told { AreOrders (scene.Create side) }
    ensures played { IfOk result (λ recorded. (place : ℕ) (shares : List (Option (List Fp))) → IsPlayed number place (scene.Create side) shares recorded.phase) }
    ensures accepted { IfOk result (λ recorded. recorded.accepted ≡ accepted_count (play_of recorded.phase)) }
    ensures lent { Lent C.fault_count C.attended_count C.calm crew.old crew.new }
    ensures attended { IfOk result (λ _. C.attended_count crew.new ≡ min (C.attended_count crew.old + side.members) (2 ^ 64 - 1)) }
    ensures cause { IfErr result (IsFromCrew (C.fault_count crew.old) (C.fault_count crew.new)) }
{
    let scene = Scene::Create { side };
    let committee = Committee {
        members: side.members,
        bound: side.bound,
    };
    let seeds = first_seeds(alloc, number, side.members)?;
    let drill = scene.drill(alloc)?;
    let drilled = drilled_marks(alloc, &drill, side.members)?;
    let mut pace = StillPace::new();
    let run = run_create(
        rt, alloc, committee, &drill, &drilled, &seeds, crew, &mut pace,
    )?;
    let down = down_seats(&scene);
    let said = created_said(alloc, committee, &drill, &seeds, &run.masks, down)?;
    let grids = created_grids(alloc, &side, &seeds)?;
    Ok(Recorded {
        phase: Phase {
            kind: PhaseKind::Create,
            setting: scene.setting(),
            down,
            grids,
            said,
        },
        accepted: run.accepted,
    })
}
