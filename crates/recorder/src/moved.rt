//! A drawn move, played and recorded.

ghost use Rattle.std.specs.Prelude.{◌≡◌, ◌+◌, ◌-◌, ◌^◌, min, IfOk, IfErr};
ghost use Rattle.members.specs.Shares.{accepted_count};
ghost use Rattle.playback.specs.Recorded.{play_of};
ghost use Rattle.commands.specs.Causes.{IsFromCrew};
ghost use Rattle.commands.specs.Crews.{Lent};
ghost use Rattle.scenes.specs.declared.scene.Scene.TheVariants as scene;
ghost use Rattle.scenes.specs.Law.{AreSides};
ghost use Rattle.scenes.specs.Lawful.{AreOrders};
ghost use Rattle.rehearsal_laws.specs.Played.{IsPlayed};
ghost use Rattle.recorder.specs.Begun.{IsBegun};

use crate::down::down_seats;
use crate::grids::moved_grids;
use crate::heard::moved_said;
use crate::readied::readied;
use crate::recorded::Recorded;
use crate::seeds::later_seeds;
use commands::{moving_marks, run_move};
use field61::Fe;
use keyroom::Status;
use party_crew::{Crew, StillPace};
use playback::{Phase, PhaseKind};
use scenes::{Scene, Side};
use sizes::Committee;
use std::alloc::Global;
use std::sync::Wait;
use std::thread::Threads;

/// Plays the move of a key from one committee, whose members have these shares, to another, and records it, as
/// `record_phase` does.
pub(crate) fn record_move<C: Crew, R: Threads + Wait + Sync>(
    rt: &R,
    alloc: Global,
    number: u32,
    place: u32,
    old: Side,
    new: Side,
    shares: &[Option<[Fe; 5]>],
    crew: &mut C,
) -> Result<Recorded, Status>
    requires sides { AreSides (scene.Move old new) }
    requires told { AreOrders (scene.Move old new) }
    requires begun { IsBegun place (scene.Move old new) shares.now }
    ensures played { IfOk result (λ recorded. IsPlayed number place (scene.Move old new) shares.now recorded.phase) }
    ensures accepted { IfOk result (λ recorded. recorded.accepted ≡ accepted_count (play_of recorded.phase)) }
    ensures lent { Lent C.fault_count C.attended_count C.calm crew.old crew.new }
    ensures attended { IfOk result (λ _. C.attended_count crew.new ≡ min (C.attended_count crew.old + (old.members + new.members)) (2 ^ 64 - 1)) }
    ensures cause { IfErr result (IsFromCrew (C.fault_count crew.old) (C.fault_count crew.new)) }
{
    let scene = Scene::Move { old, new };
    let committee = Committee {
        members: new.members,
        bound: new.bound,
    };
    let asked = readied(alloc, place, &scene, shares)?;
    let seeds = later_seeds(alloc, number, place, &old)?;
    let before = moving_marks(alloc, &asked.files, &asked.drill, new.members)?;
    let mut pace = StillPace::new();
    let run = run_move(
        rt, alloc, &asked, committee, &before, &seeds, crew, &mut pace,
    )?;
    let down = down_seats(&scene);
    let said = moved_said(alloc, &asked, committee, &seeds, &run.masks, down)?;
    let grids = moved_grids(alloc, &old, &new, &asked.drill, shares, &seeds)?;
    Ok(Recorded {
        phase: Phase {
            kind: PhaseKind::Move,
            setting: scene.setting(),
            down,
            grids,
            said,
        },
        accepted: run.accepted,
    })
}
