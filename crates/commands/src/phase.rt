//! A phase: the members' minds, drilled, each on a thread of its own, and what is read off them in the end.
ghost use Rattle.std.specs.Prelude.{◌≡◌, ◌≤◌, ◌+◌, ◌-◌, ◌^◌, ℕ, List, length, false, min, IfOk, IfErr};
ghost use Rattle.algebra61.specs.Field.{Fp};
ghost use Rattle.talk.specs.Hears.{Hearing, Seated};
ghost use Rattle.talk.specs.Shape.{seats};
ghost use Rattle.talk.specs.Sync.{ways};
ghost use Rattle.commands.specs.Causes.{IsFromCrew};
ghost use Rattle.commands.specs.Crews.{Lent};
ghost use Rattle.commands.specs.Late.{cuts_in};
ghost use Rattle.commands.specs.Phase.{marked, unless_down, AllDone, shares_in, accepted_first, EndDone, IsReadOff};

use crate::down::is_marked;
use crate::lateness::down_after;
use crate::running::run_minds;
use drillbook::Drilled;
use field61::{Fe, NumberList};
use keyroom::Status;
use lists::OutOfMemory;
use party_crew::{Crew, Pace};
use std::alloc::Global;
use std::sync::Wait;
use std::thread::Threads;
use talk::{Mind, Setting};

/// A receiver's mind in a phase.
pub(crate) trait Party: Mind {
    /// Its part is done.
    ghost is_done: { Self → Type 0 };

    /// How many instances are accepted then.
    ghost count: { Self → ℕ };

    /// How many instances are accepted in the end.
    fn end_accepted(&self) -> u32
        requires { is_done self.now }
        ensures { result ≡ count self.now };
}

/// One that has shares in any case when its part is done.
pub(crate) trait Keeps: Party {
    /// Its shares then, lane by lane.
    ghost lanes: { Self → List Fp };

    /// Its shares in the end, lane by lane.
    fn end_shares(&self) -> [Fe; 5]
        requires { Self.is_done self.now }
        ensures { result ≡ lanes self.now };
}

/// What a phase leaves.
#[derive(Drop)]
pub struct Phase {
    /// The mask of each round.
    pub masks: NumberList,
    /// Who is down after it, by index: who was before, and who is late.
    pub down: Vec<bool>,
    /// How many instances were accepted.
    pub accepted: u32,
    /// The shares of each member, by index; none for one that was down.
    pub shares: Vec<Option<[Fe; 5]>>,
}

/// What a member gets: its shares, or nothing where it is down.
fn share_of<M: Keeps>(down: &[bool], seat: u32, mind: &Drilled<M>) -> Option<[Fe; 5]>
    requires seat { 1 ≤ seat }
    requires done { marked down.now seat ≡ false → M.is_done mind.now.inner }
    ensures { result ≡ unless_down (marked down.now seat) (M.lanes mind.now.inner) }
{
    if is_marked(down, seat) {
        None
    } else {
        Some(mind.inner().end_shares())
    }
}

/// The shares that the minds have, by seat.
fn shares_of<M: Keeps>(
    alloc: Global,
    down: &[bool],
    minds: &[Drilled<M>],
) -> Result<Vec<Option<[Fe; 5]>>, OutOfMemory>
    requires few { length minds.now ≤ 15 }
    requires done { AllDone M.is_done (marked down.now) 1 minds.now }
    ensures { IfOk result (λ shares. shares.items ≡ shares_in M.lanes (marked down.now) 1 minds.now) }
{
    let mut shares = Vec::new(alloc);
    let mut seat = 1;
    for mind in minds {
        shares.push(share_of(down, seat, mind))?;
        seat += 1;
    }
    Ok(shares)
}

/// How many instances are accepted, by the first mind that isn't down: all of these agree.
pub(crate) fn accepted_by<M: Party>(down: &[bool], minds: &[Drilled<M>]) -> u32
    requires few { length minds.now ≤ 15 }
    requires done { AllDone M.is_done (marked down.now) 1 minds.now }
    ensures { result ≡ accepted_first M.count (marked down.now) 1 minds.now }
{
    let mut seat = 1;
    for mind in minds {
        if !is_marked(down, seat) {
            return mind.inner().end_accepted();
        }
        seat += 1;
    }
    0
}

/// Runs a phase over fresh minds of a setting, by seat; who was down before it is marked. The minds on the seats that aren't
/// down after it have their shares then, whatever the others say. It refuses with `NoThread` only where the crew's count of
/// faults rose; else the error is want of memory.
pub(crate) fn phase_of<
    M: Keeps + Send,
    C: Crew,
    Q: Pace + Send,
    R: Threads + Wait + Sync,
    const S: usize,
>(
    rt: &R,
    alloc: Global,
    minds: Vec<Drilled<M>>,
    before: &[bool],
    setting: &Setting,
    crew: &mut C,
    pace: &mut Q,
) -> Result<Phase, Status>
    requires some { 2 ≤ S }
    requires few { length minds.items ≤ 15 }
    requires seats { seats setting.now ≡ S }
    requires all { length minds.items ≡ seats setting.now }
    requires fresh { Hearing (λ d round. M.may_say d.inner round) 1 minds.items }
    requires made { Seated (λ d s seat. (d.shape ≡ s) × (d.seat ≡ seat) × M.made_for d.inner s seat) setting.now 1 minds.items }
    requires marks { length before.now ≡ length minds.items }
    requires ends { EndDone (ways M.word M.after_say M.after_hear) M.is_done setting.now (marked before.now) minds.items }
    ensures left { IfOk result (IsReadOff (ways M.word M.after_say M.after_hear) M.lanes M.count setting.now (marked before.now) (cuts_in Q.answered_count Q.cuts_of pace.old pace.new) minds.items) }
    ensures lent { Lent C.fault_count C.attended_count C.calm crew.old crew.new }
    ensures attended { IfOk result (λ _. C.attended_count crew.new ≡ min (C.attended_count crew.old + S) (2 ^ 64 - 1)) }
    ensures cause { IfErr result (IsFromCrew (C.fault_count crew.old) (C.fault_count crew.new)) }
{
    let ran = run_minds::<Drilled<M>, C, Q, R, S>(rt, alloc, minds, setting, crew, pace)?;
    let down = down_after(alloc, before, &ran.masks)?;
    let accepted = accepted_by(&down, &ran.minds);
    let shares = shares_of(alloc, &down, &ran.minds)?;
    Ok(Phase {
        masks: ran.masks,
        down,
        accepted,
        shares,
    })
}
