//! Running members beside one another.
ghost use Rattle.std.specs.Prelude.{◌≡◌, ◌⊎◌, ℕ, ◌+◌, ◌-◌, ◌^◌, ◌≤◌, length, IfOk, IsOk, Err, min};
ghost use Rattle.counters.specs.Counts.{Rose};
ghost use Rattle.crews.specs.Crews.{AllReady, EachAttended};

use crate::starts::{Halt, Plan, Stop, run_members};
use crate::{Crew, CrewFault, Member};
use std::alloc::Global;
use std::sync::Wait;
use std::thread::Threads;

/// The right to ask a crew for starts and to tell it who attended. `run_all` alone makes one, so nobody else can raise a crew's counts.
#[derive(Drop)]
pub struct Running {
    _own: (),
}

// How many members are left at the first start that the crew refuses; 0 where it refuses none.
fn barred_at<C: Crew>(crew: &mut C, running: &Running, members: usize) -> usize
    ensures faults { C.fault_count crew.old ≤ C.fault_count crew.new }
    ensures attended { C.attended_count crew.new ≡ C.attended_count crew.old }
    ensures calm { C.calm crew.old → C.calm crew.new }
    ensures cause { 1 ≤ result → Rose (C.fault_count crew.old) (C.fault_count crew.new) }
{
    for started in 0..members {
        if crew.next_is_refused(running) {
            return members - started;
        }
    }
    0
}

/// Lets each member attend once, beside the others, and gives them back in order. When all members were started, the calling thread attends `own` once, and then it joins the members.
///
/// # Errors
/// `NoThread` only where the crew's count of faults rose, and `OutOfMemory`. A member whose start was refused was released in place of being attended, and `own` was not attended after a refused start. Each member that was started has come to its end, and the members are gone.
///
/// Whatever the answer, the crew counts the members that attended; `own` is not counted.
pub fn run_all<C: Crew, M: Member, D: Member, R: Threads + Wait + Sync>(
    crew: &mut C,
    rt: &R,
    alloc: Global,
    members: Vec<M>,
    own: &mut D,
) -> Result<Vec<M>, CrewFault>
    requires ready { AllReady M.ready members.items }
    requires own { D.ready own.old }
    ensures faults { C.fault_count crew.old ≤ C.fault_count crew.new }
    ensures attended { C.attended_count crew.old ≤ C.attended_count crew.new }
    ensures few { C.attended_count crew.new ≤ C.attended_count crew.old + length members.items }
    ensures calm { C.calm crew.old → C.calm crew.new }
    ensures own { IsOk result → D.attends own.old own.new }
    ensures each { IfOk result (λ v. EachAttended M.attends members.items v.items) }
    ensures counted { IsOk result → C.attended_count crew.new ≡ min (C.attended_count crew.old + length members.items) (2 ^ 64 - 1) }
    ensures cause { result ≡ Err CrewFault.NoThread → Rose (C.fault_count crew.old) (C.fault_count crew.new) }
{
    let running = Running { _own: () };
    let count = members.len();
    let barred = barred_at(crew, &running, count);
    let plan = Plan {
        barred,
        patient: crew.is_patient(),
    };
    let held = crew.hold(&running);
    match run_members(rt, alloc, plan, held, members, own) {
        Ok(members) => {
            crew.count(&running, count as u64);
            Ok(members)
        }
        Err(Halt { stop, attended }) => {
            crew.count(&running, attended);
            Err(fault_of(crew, &running, stop))
        }
    }
}

// What a stop is to the crew.
fn fault_of<C: Crew>(crew: &mut C, running: &Running, stop: Stop) -> CrewFault
    ensures faults { C.fault_count crew.old ≤ C.fault_count crew.new }
    ensures attended { C.attended_count crew.new ≡ C.attended_count crew.old }
    ensures calm { C.calm crew.old → C.calm crew.new }
    ensures cause { result ≡ CrewFault.NoThread → (stop ≡ Stop.Barred) ⊎ Rose (C.fault_count crew.old) (C.fault_count crew.new) }
{
    match stop {
        Stop::Barred => CrewFault::NoThread,
        Stop::NoThread => {
            if crew.has_no_thread(running) {
                CrewFault::NoThread
            } else {
                CrewFault::OutOfMemory
            }
        }
        Stop::NoMemory => CrewFault::OutOfMemory,
    }
}
