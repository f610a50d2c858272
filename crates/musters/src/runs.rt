//! Runs of crews.
ghost use Rattle.std.specs.Prelude.{◌≡◌, ◌+◌, ◌-◌, ◌^◌, min};

use crews::{Crew, CrewFault, FailCrew, HoldCrew, Member, ThreadCrew, run_all};
use std::alloc::Global;
use std::sync::atomic::AtomicBool;
use std::sync::atomic::Ordering::SeqCst;
use std::sync::{Arc, Wait};
use std::test::Fail;
use std::thread::Threads;

// A member that raises its number by 1.
#[derive(Drop)]
struct Counter {
    number: u64,
}

impl Member for Counter {
    ghost ready = { λ m. Unit {0} };

    ghost attends = { λ a b. b.number ≡ min (a.number + 1) (2 ^ 64 - 1) };

    fn attend<R: Wait>(&mut self, _rt: &R) {
        self.number = self.number.saturating_add(1);
    }

    fn release(&mut self) {}
}

// Four members with the numbers 10 to 13.
fn four(alloc: Global) -> Result<Vec<Counter>, Fail> {
    let mut members = Vec::new(alloc);
    for number in 10..14u64 {
        members.push(Counter { number })?;
    }
    Ok(members)
}

// Whether the numbers are 11 to 14, in order.
fn are_raised(members: &[Counter]) -> bool {
    let mut wanted = 11u64;
    for member in members {
        if member.number != wanted {
            return false;
        }
        wanted = wanted.saturating_add(1);
    }
    wanted == 15
}

#[test]
fn all_members_attend_once_and_come_back_in_order(rt: HostRuntime) -> Result<(), Fail> {
    let mut crew = ThreadCrew::new();
    let mut own = Counter { number: 0 };
    let members = four(rt.alloc())?;
    let Ok(ended) = run_all(&mut crew, &rt, rt.alloc(), members, &mut own) else {
        return Err(Fail::from("the crew gave nobody back"));
    };
    assert!(rt; are_raised(&ended));
    assert_eq!(rt; own.number, 1);
    assert_eq!(rt; crew.attended(), 4);
    assert_eq!(rt; crew.faults(), 0);
    Ok(())
}

// A crew that refuses this start alone. Answers how many members attended before it was refused, or none where
// something else came of it.
fn attended_before<R: Threads + Wait + Sync>(
    rt: &R,
    alloc: Global,
    start: u64,
) -> Result<Option<u64>, Fail> {
    let mut crew = FailCrew::new(Vec::from_elem(alloc, start, 1)?);
    let mut own = Counter { number: 0 };
    let fault = run_all(&mut crew, rt, alloc, four(alloc)?, &mut own).err();
    if fault != Some(CrewFault::NoThread) || crew.faults() != 1 || own.number != 0 {
        return Ok(None);
    }
    Ok(Some(crew.attended()))
}

#[test]
fn a_refused_start_ends_the_run_and_leaves_the_count_of_those_that_attended(
    rt: HostRuntime,
) -> Result<(), Fail> {
    for start in 0..4u64 {
        assert_eq!(rt; attended_before(&rt, rt.alloc(), start)?, Some(start));
    }
    assert_eq!(rt; attended_before(&rt, rt.alloc(), 4)?, None);
    Ok(())
}

// A member that sets a flag, or notes whether the flag was set when it attended.
#[derive(Drop)]
struct Signal {
    flag: Arc<AtomicBool, Global>,
    sets: bool,
    saw: bool,
}

impl Member for Signal {
    ghost ready = { λ m. Unit {0} };

    ghost attends = { λ a b. Unit {0} };

    fn attend<R: Wait>(&mut self, _rt: &R) {
        if self.sets {
            self.flag.store(true, SeqCst);
        }
        self.saw = self.flag.load(SeqCst);
    }

    fn release(&mut self) {}
}

fn signal_on(flag: &Arc<AtomicBool, Global>, sets: bool) -> Result<Signal, Fail> {
    Ok(Signal {
        flag: Arc::try_clone(flag)?,
        sets,
        saw: false,
    })
}

#[test]
fn a_held_member_attends_when_its_flag_is_set(rt: HostRuntime) -> Result<(), Fail> {
    let flag = Arc::new(rt.alloc(), AtomicBool::new(false))?;
    let mut crew = HoldCrew::new(1, Arc::try_clone(&flag)?);
    let mut own = signal_on(&flag, true)?;
    let mut members = Vec::new(rt.alloc());
    members.push(signal_on(&flag, false)?)?;
    members.push(signal_on(&flag, false)?)?;
    let ended = run_all(&mut crew, &rt, rt.alloc(), members, &mut own);
    let saw = ended
        .ok()
        .and_then(|ended| ended.get(1).map(|held| held.saw));
    assert_eq!(rt; saw, Some(true));
    assert_eq!(rt; crew.attended(), 2);
    Ok(())
}
