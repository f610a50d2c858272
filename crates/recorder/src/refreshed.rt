//! A drawn refresh, played and recorded.

ghost use Rattle.std.specs.Prelude.{◌≡◌, ◌+◌, ◌-◌, ◌^◌, min, IfOk, IfErr};
ghost use Rattle.members.specs.Shares.{accepted_count};
ghost use Rattle.playback.specs.Recorded.{play_of};
ghost use Rattle.commands.specs.Causes.{IsFromCrew};
ghost use Rattle.commands.specs.Crews.{Lent};
ghost use Rattle.scenes.specs.declared.scene.Scene.TheVariants as scene;
ghost use Rattle.scenes.specs.Law.{AreSides};
ghost use Rattle.scenes.specs.Lawful.{AreOrders};
ghost use Rattle.rehearsal_laws.specs.Played.{IsPlayed};
ghost use Rattle.recorder.specs.Begun.{IsBegun};

use crate::down::down_seats;
use crate::grids::refreshed_grids;
use crate::heard::refreshed_said;
use crate::readied::readied;
use crate::recorded::Recorded;
use crate::seeds::later_seeds;
use commands::{down_marks, run_refresh};
use field61::Fe;
use keyroom::Status;
use party_crew::{Crew, StillPace};
use playback::{Phase, PhaseKind};
use scenes::{Scene, Side};
use std::alloc::Global;
use std::sync::Wait;
use std::thread::Threads;

/// Plays the refresh of this committee, whose members have these shares, and records it, as `record_phase` does.
pub(crate) fn record_refresh<C: Crew, R: Threads + Wait + Sync>(
    rt: &R,
    alloc: Global,
    number: u32,
    place: u32,
    side: Side,
    shares: &[Option<[Fe; 5]>],
    crew: &mut C,
) -> Result<Recorded, Status>
    requires sides { AreSides (scene.Refresh side) }
    requires told { AreOrders (scene.Refresh side) }
    requires begun { IsBegun place (scene.Refresh side) shares.now }
    ensures played { IfOk result (λ recorded. IsPlayed number place (scene.Refresh side) shares.now recorded.phase) }
    ensures accepted { IfOk result (λ recorded. recorded.accepted ≡ accepted_count (play_of recorded.phase)) }
    ensures lent { Lent C.fault_count C.attended_count C.calm crew.old crew.new }
    ensures attended { IfOk result (λ _. C.attended_count crew.new ≡ min (C.attended_count crew.old + side.members) (2 ^ 64 - 1)) }
    ensures cause { IfErr result (IsFromCrew (C.fault_count crew.old) (C.fault_count crew.new)) }
{
    let scene = Scene::Refresh { side };
    let asked = readied(alloc, place, &scene, shares)?;
    let seeds = later_seeds(alloc, number, place, &side)?;
    let before = down_marks(alloc, &asked.files, &asked.drill)?;
    let mut pace = StillPace::new();
    let run = run_refresh(rt, alloc, &asked, &before, &seeds, crew, &mut pace)?;
    let down = down_seats(&scene);
    let said = refreshed_said(alloc, &asked, &seeds, &run.masks, down)?;
    let grids = refreshed_grids(alloc, &side, shares, &seeds)?;
    Ok(Recorded {
        phase: Phase {
            kind: PhaseKind::Refresh,
            setting: scene.setting(),
            down,
            grids,
            said,
        },
        accepted: run.accepted,
    })
}
