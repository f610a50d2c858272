//! A drawn phase that is played and recorded.

ghost use Rattle.std.specs.Prelude.{◌≡◌, ◌+◌, ◌-◌, ◌^◌, min, IfOk, IfErr};
ghost use Rattle.talk.specs.Shape.{seats};
ghost use Rattle.members.specs.Shares.{accepted_count};
ghost use Rattle.playback.specs.Recorded.{play_of};
ghost use Rattle.commands.specs.Crews.{Lent};
ghost use Rattle.commands.specs.Causes.{IsFromCrew};
ghost use Rattle.scenes.specs.Law.{AreSides};
ghost use Rattle.scenes.specs.Lawful.{AreOrders};
ghost use Rattle.scenes.specs.Orders.{shape_of};
ghost use Rattle.rehearsal_laws.specs.Played.{IsPlayed};
ghost use Rattle.recorder.specs.Begun.{IsBegun};

use crate::created::record_create;
use crate::moved::record_move;
use crate::refreshed::record_refresh;
use field61::Fe;
use keyroom::Status;
use party_crew::Crew;
use playback::Phase;
use scenes::Scene;
use std::alloc::Global;
use std::sync::Wait;
use std::thread::Threads;

/// A phase that was played, and how many of its instances were accepted.
#[derive(Drop)]
pub struct Recorded {
    /// Its record.
    pub phase: Phase,
    /// How many instances were accepted.
    pub accepted: u32,
}

/// Plays a drawn phase of the rehearsal from a number, each member on a thread of its own, and records it. `place` is the
/// number of the phase, from 0, and `shares` are those that its old members begin with, by index; a create begins with none.
///
/// Nobody is cut. It refuses with `NoThread` only where the crew's count of faults rose; else the error is want of memory.
pub fn record_phase<C: Crew, R: Threads + Wait + Sync>(
    rt: &R,
    alloc: Global,
    number: u32,
    place: u32,
    scene: &Scene,
    shares: &[Option<[Fe; 5]>],
    crew: &mut C,
) -> Result<Recorded, Status>
    requires sides { AreSides scene.now }
    requires told { AreOrders scene.now }
    requires begun { IsBegun place scene.now shares.now }
    ensures played { IfOk result (λ recorded. IsPlayed number place scene.now shares.now recorded.phase) }
    ensures accepted { IfOk result (λ recorded. recorded.accepted ≡ accepted_count (play_of recorded.phase)) }
    ensures lent { Lent C.fault_count C.attended_count C.calm crew.old crew.new }
    ensures attended { IfOk result (λ _. C.attended_count crew.new ≡ min (C.attended_count crew.old + seats (shape_of scene.now)) (2 ^ 64 - 1)) }
    ensures cause { IfErr result (IsFromCrew (C.fault_count crew.old) (C.fault_count crew.new)) }
{
    match *scene {
        Scene::Create { side } => record_create(rt, alloc, number, side, crew),
        Scene::Refresh { side } => record_refresh(rt, alloc, number, place, side, shares, crew),
        Scene::Move { old, new } => record_move(rt, alloc, number, place, old, new, shares, crew),
    }
}
