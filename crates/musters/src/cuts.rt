//! What paces cut.
use paces::{HoldPace, Pace, ScriptPace, StillPace, TurnPace};
use std::alloc::Global;
use std::sync::atomic::AtomicBool;
use std::sync::atomic::Ordering::SeqCst;
use std::sync::{Arc, Wait};
use std::test::Fail;

// What a pace answers to these calls, each a round from 1 to 8 and the seats that are missing.
fn answers<Q: Pace, R: Wait>(
    rt: &R,
    alloc: Global,
    pace: &mut Q,
    calls: &[(u32, u32)],
) -> Result<Vec<u32>, Fail> {
    let mut answers = Vec::new(alloc);
    for call in calls {
        let (round, missing) = *call;
        if 1 <= round && round <= 8 {
            answers.push(pace.cut(rt, round, missing))?;
        }
    }
    Ok(answers)
}

#[test]
fn a_still_pace_cuts_nobody(rt: HostRuntime) -> Result<(), Fail> {
    let mut pace = StillPace::new();
    let found = answers(&rt, rt.alloc(), &mut pace, &[(1, 15), (1, 4), (8, 1)])?;
    assert_eq!(rt; found.as_slice(), [0, 0, 0].as_slice());
    assert_eq!(rt; (pace.asked(1), pace.asked(8), pace.cuts(1)), (2, 1, 0));
    assert_eq!(rt; pace.answered(), 0);
    Ok(())
}

#[test]
fn a_turn_pace_gives_each_round_its_turns_anew_in_each_phase(rt: HostRuntime) -> Result<(), Fail> {
    let mut pace = TurnPace::new(2);
    let calls = [(1, 6), (1, 6), (1, 4), (2, 1)];
    let found = answers(&rt, rt.alloc(), &mut pace, &calls)?;
    assert_eq!(rt; found.as_slice(), [0, 0, 4, 0].as_slice());
    pace.begin();
    assert_eq!(rt; (pace.cuts(1), pace.asked(1), pace.answered()), (0, 0, 1));
    let found = answers(&rt, rt.alloc(), &mut pace, &calls)?;
    assert_eq!(rt; found.as_slice(), [0, 0, 4, 0].as_slice());
    assert_eq!(rt; pace.answered(), 2);
    Ok(())
}

#[test]
fn a_script_pace_cuts_what_is_listed_and_missing(rt: HostRuntime) -> Result<(), Fail> {
    let mut list = Vec::new(rt.alloc());
    list.push((1u32, 2u32))?;
    list.push((1, 4))?;
    list.push((3, 1))?;
    list.push((1, 40))?;
    list.push((1, 0))?;
    let mut pace = ScriptPace::new(list);
    let calls = [(1, 7), (1, 15), (2, 15), (3, 15)];
    let found = answers(&rt, rt.alloc(), &mut pace, &calls)?;
    assert_eq!(rt; found.as_slice(), [2, 10, 0, 1].as_slice());
    assert_eq!(rt; (pace.cuts(1), pace.answered()), (10, 3));
    Ok(())
}

#[test]
fn a_hold_pace_cuts_its_seat_when_it_alone_is_missing(rt: HostRuntime) -> Result<(), Fail> {
    let flag = Arc::new(rt.alloc(), AtomicBool::new(false))?;
    let mut pace = HoldPace::new(3, Arc::try_clone(&flag)?);
    let found = answers(&rt, rt.alloc(), &mut pace, &[(1, 12), (1, 4)])?;
    assert_eq!(rt; found.as_slice(), [0, 4].as_slice());
    assert!(rt; !flag.load(SeqCst));
    let found = answers(&rt, rt.alloc(), &mut pace, &[(2, 4)])?;
    assert_eq!(rt; found.as_slice(), [0].as_slice());
    assert!(rt; flag.load(SeqCst));
    Ok(())
}
