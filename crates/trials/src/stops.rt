//! Commands that are stopped at each call of the outside.

use crate::desk::{
    BOTH, CREATED_KEY, Failing, LETTER, PUT_CALLS, PUT_KEY, count_files, done, has_bytes, has_key,
    holds, is_stopped, put_key, run_on, seven_seeds, shelf_failing,
};
use committee::Status;
use crews::FailCrew;
use shelf::{MemoryShelf, MemorySink, Shelf};
use std::sync::Wait;
use std::test::Fail;
use std::thread::Threads;

/// A shelf with a key of which a later call fails.
fn key_failing<R: AllocGlobal>(rt: &R, failing: Failing, call: u64) -> Result<MemoryShelf, Fail> {
    let mut shelf = shelf_failing(rt, failing, call.saturating_add(PUT_CALLS))?;
    put_key(rt, &mut shelf)?;
    Ok(shelf)
}

/// Sees that the key goes on: the next refresh is done, keeps the key, and leaves the now file, the new period's share
/// files, the drill and the letter.
fn goes_on<R: Threads + Wait + Sync + AllocGlobal>(
    rt: &R,
    shelf: &mut MemoryShelf,
) -> Result<(), Fail> {
    has_key(rt, shelf, PUT_KEY)?;
    done(rt, shelf, &["refresh", "k1"])?;
    has_key(rt, shelf, PUT_KEY)?;
    if shelf.len() as u64 == count_files(rt, shelf)? + 2 {
        Ok(())
    } else {
        Err("a file too many or too few".into())
    }
}

/// Whether a refresh or move is stopped at a call. Then the key goes on. Where it isn't stopped, the call is still to
/// fail, so nothing more is asked of this shelf; and so below.
fn next_period<R: Threads + Wait + Sync + AllocGlobal>(
    rt: &R,
    failing: Failing,
    texts: &[&str],
    call: u64,
) -> Result<bool, Fail> {
    let mut shelf = key_failing(rt, failing, call)?;
    if !is_stopped(rt, &mut shelf, texts)? {
        return Ok(false);
    }
    goes_on(rt, &mut shelf)?;
    Ok(true)
}

/// At how many calls a refresh or move can be stopped.
fn stops_of_next_period<R: Threads + Wait + Sync + AllocGlobal>(
    rt: &R,
    failing: Failing,
    texts: &[&str],
) -> Result<u64, Fail> {
    for call in 0..100u64 {
        if !next_period(rt, failing, texts, call)? {
            return Ok(call);
        }
    }
    Err("a command without an end".into())
}

#[test]
fn a_refresh_stopped_at_any_call_leaves_the_key(rt: HostRuntime) -> Result<(), Fail> {
    for failing in BOTH {
        let stops = stops_of_next_period(&rt, failing, &["refresh", "k1"])?;
        assert_eq!(rt; stops, 55);
    }
    Ok(())
}

#[test]
fn a_drilled_refresh_stopped_at_any_call_leaves_the_key(rt: HostRuntime) -> Result<(), Fail> {
    for failing in BOTH {
        let stops = stops_of_next_period(&rt, failing, &["refresh", "k1", "d"])?;
        assert_eq!(rt;
            stops,
            55,
            "the drill is read, and one share file isn't put"
        );
    }
    Ok(())
}

#[test]
fn a_move_stopped_at_any_call_leaves_the_key(rt: HostRuntime) -> Result<(), Fail> {
    for failing in BOTH {
        let stops = stops_of_next_period(&rt, failing, &["move", "k1", "5", "1"])?;
        assert_eq!(rt; stops, 56, "five share files are put");
    }
    Ok(())
}

#[test]
fn a_drilled_move_stopped_at_any_call_leaves_the_key(rt: HostRuntime) -> Result<(), Fail> {
    for failing in BOTH {
        let stops = stops_of_next_period(&rt, failing, &["move", "k1", "5", "1", "d"])?;
        assert_eq!(rt; stops, 57, "the drill is read");
    }
    Ok(())
}

/// Whether a create is stopped at a call. Where it has left no now file, the next create is
/// done. Then the key is there.
fn create<R: Threads + Wait + Sync + AllocGlobal>(
    rt: &R,
    failing: Failing,
    texts: &[&str],
    call: u64,
) -> Result<bool, Fail> {
    let alloc = rt.alloc();
    let mut shelf = shelf_failing(rt, failing, call.saturating_add(1))?;
    shelf.put(alloc, "d", b"2 5 veto\n")?;
    if !is_stopped(rt, &mut shelf, texts)? {
        return Ok(false);
    }
    if !holds(rt, &mut shelf, "k1.now")? {
        done(rt, &mut shelf, texts)?;
    }
    has_key(rt, &mut shelf, CREATED_KEY)?;
    Ok(true)
}

/// At how many calls a create can be stopped.
fn stops_of_create<R: Threads + Wait + Sync + AllocGlobal>(
    rt: &R,
    failing: Failing,
    texts: &[&str],
) -> Result<u64, Fail> {
    for call in 0..100u64 {
        if !create(rt, failing, texts, call)? {
            return Ok(call);
        }
    }
    Err("a command without an end".into())
}

#[test]
fn a_create_stopped_at_any_call_can_be_made_again(rt: HostRuntime) -> Result<(), Fail> {
    for failing in BOTH {
        let plain = stops_of_create(&rt, failing, &["create", "k1", "4", "1"])?;
        assert_eq!(rt; plain, 21);
        let drilled = stops_of_create(&rt, failing, &["create", "k1", "4", "1", "d"])?;
        assert_eq!(rt;
            drilled,
            21,
            "the drill is read, and one share file isn't put"
        );
    }
    Ok(())
}

/// Whether a seal is stopped at a call. The next one is done, under a number that no box has yet.
fn seal<R: Threads + Wait + Sync + AllocGlobal>(
    rt: &R,
    failing: Failing,
    call: u64,
) -> Result<bool, Fail> {
    let mut shelf = key_failing(rt, failing, call)?;
    let words = ["seal", "k1", "letter.txt", "one.box"];
    if !is_stopped(rt, &mut shelf, &words)? {
        return Ok(false);
    }
    let used = holds(rt, &mut shelf, "one.box")?;
    let out = done(rt, &mut shelf, &["seal", "k1", "letter.txt", "two.box"])?;
    if used {
        if out.bytes() != b"seal k1 number 1 bytes 14\n".as_slice() {
            return Err("a number used twice".into());
        }
        done(rt, &mut shelf, &["open", "k1", "one.box", "one.txt"])?;
        has_bytes(rt, &mut shelf, "one.txt", LETTER)?;
    }
    done(rt, &mut shelf, &["open", "k1", "two.box", "two.txt"])?;
    has_bytes(rt, &mut shelf, "two.txt", LETTER)?;
    Ok(true)
}

/// How many calls the seal before an open makes.
const SEAL_CALLS: u64 = 9;

/// Whether an open is stopped at a call. It leaves no part of the letter, and the next one is done.
fn open<R: Threads + Wait + Sync + AllocGlobal>(
    rt: &R,
    failing: Failing,
    call: u64,
) -> Result<bool, Fail> {
    let mut shelf = key_failing(rt, failing, call.saturating_add(SEAL_CALLS))?;
    done(rt, &mut shelf, &["seal", "k1", "letter.txt", "one.box"])?;
    let words = ["open", "k1", "one.box", "one.txt"];
    if !is_stopped(rt, &mut shelf, &words)? {
        return Ok(false);
    }
    if holds(rt, &mut shelf, "one.txt")? {
        has_bytes(rt, &mut shelf, "one.txt", LETTER)?;
    }
    done(rt, &mut shelf, &["open", "k1", "one.box", "two.txt"])?;
    has_bytes(rt, &mut shelf, "two.txt", LETTER)?;
    Ok(true)
}

#[test]
fn a_seal_stopped_at_any_call_uses_no_number_twice(rt: HostRuntime) -> Result<(), Fail> {
    for failing in BOTH {
        for call in 0..10u64 {
            let stopped = seal(&rt, failing, call)?;
            assert_eq!(rt; stopped, call < SEAL_CALLS);
        }
    }
    Ok(())
}

#[test]
fn an_open_stopped_at_any_call_leaves_no_part_of_a_letter(rt: HostRuntime) -> Result<(), Fail> {
    for failing in BOTH {
        for call in 0..9u64 {
            let stopped = open(&rt, failing, call)?;
            assert_eq!(rt; stopped, call < 8);
        }
    }
    Ok(())
}

/// Whether the seed with the number is asked for and fails. Then nothing is changed or printed, and the command is done
/// when it is given again.
fn seedless<R: Threads + Wait + Sync + AllocGlobal>(
    rt: &R,
    shelf: &mut MemoryShelf,
    texts: &[&str],
    seed: u64,
) -> Result<bool, Fail> {
    let alloc = rt.alloc();
    let names = shelf.len();
    let mut entropy = seven_seeds(rt, &[seed])?;
    let mut out = MemorySink::new(alloc, Vec::new(alloc));
    let mut crew = FailCrew::new(Vec::new(alloc));
    match run_on(rt, texts, shelf, &mut entropy, &mut crew, &mut out)? {
        Status::Done => Ok(false),
        Status::EntropyFault if shelf.len() == names && out.bytes().is_empty() => {
            done(rt, shelf, texts)?;
            Ok(true)
        }
        _ => Err("another answer".into()),
    }
}

#[test]
fn a_seed_that_fails_changes_nothing(rt: HostRuntime) -> Result<(), Fail> {
    let alloc = rt.alloc();
    for seed in 0..5u64 {
        let mut shelf = shelf_failing(&rt, Failing::Kept, u64::MAX)?;
        let asked = seedless(&rt, &mut shelf, &["create", "k1", "4", "1"], seed)?;
        assert_eq!(rt; asked, seed < 4);
        has_key(&rt, &mut shelf, CREATED_KEY)?;
        let mut shelf = key_failing(&rt, Failing::Kept, 1000)?;
        let asked = seedless(&rt, &mut shelf, &["refresh", "k1"], seed)?;
        assert_eq!(rt; asked, seed < 4);
        goes_on(&rt, &mut shelf)?;
        let mut shelf = key_failing(&rt, Failing::Kept, 1000)?;
        let asked = seedless(&rt, &mut shelf, &["move", "k1", "5", "1"], seed)?;
        assert_eq!(rt; asked, seed < 4);
        goes_on(&rt, &mut shelf)?;
    }
    Ok(())
}

/// Whether the thread with the number is asked for and refused. Then nothing is changed or printed, and the command is
/// done when it is given again.
fn threadless<R: Threads + Wait + Sync + AllocGlobal>(
    rt: &R,
    shelf: &mut MemoryShelf,
    texts: &[&str],
    start: u64,
) -> Result<bool, Fail> {
    let alloc = rt.alloc();
    let names = shelf.len();
    let mut entropy = seven_seeds(rt, &[])?;
    let mut out = MemorySink::new(alloc, Vec::new(alloc));
    let mut crew = FailCrew::new([start].to_vec(alloc)?);
    match run_on(rt, texts, shelf, &mut entropy, &mut crew, &mut out)? {
        Status::Done => Ok(false),
        Status::NoThread if shelf.len() == names && out.bytes().is_empty() => {
            done(rt, shelf, texts)?;
            Ok(true)
        }
        _ => Err("another answer".into()),
    }
}

#[test]
fn a_start_that_fails_changes_nothing(rt: HostRuntime) -> Result<(), Fail> {
    for start in 0..10u64 {
        let mut shelf = shelf_failing(&rt, Failing::Kept, u64::MAX)?;
        let refused = threadless(&rt, &mut shelf, &["create", "k1", "4", "1"], start)?;
        assert_eq!(rt; refused, start < 4);
        has_key(&rt, &mut shelf, CREATED_KEY)?;
        let mut shelf = key_failing(&rt, Failing::Kept, 1000)?;
        let refused = threadless(&rt, &mut shelf, &["refresh", "k1"], start)?;
        assert_eq!(rt; refused, start < 4);
        goes_on(&rt, &mut shelf)?;
        let mut shelf = key_failing(&rt, Failing::Kept, 1000)?;
        let refused = threadless(&rt, &mut shelf, &["move", "k1", "5", "1"], start)?;
        assert_eq!(rt; refused, start < 9);
        goes_on(&rt, &mut shelf)?;
    }
    Ok(())
}

/// Runs a command whose text can't be put out.
fn mute<R: Threads + Wait + Sync + AllocGlobal>(
    rt: &R,
    shelf: &mut MemoryShelf,
    texts: &[&str],
) -> Result<(), Fail> {
    let alloc = rt.alloc();
    let mut out = MemorySink::new(alloc, [0].to_vec(alloc)?);
    let mut entropy = seven_seeds(rt, &[])?;
    let mut crew = FailCrew::new(Vec::new(alloc));
    match run_on(rt, texts, shelf, &mut entropy, &mut crew, &mut out)? {
        Status::SinkFault => Ok(()),
        _ => Err("another answer".into()),
    }
}

#[test]
fn a_text_that_fails_leaves_all_changes(rt: HostRuntime) -> Result<(), Fail> {
    let alloc = rt.alloc();
    let mut shelf = shelf_failing(&rt, Failing::Kept, u64::MAX)?;
    mute(&rt, &mut shelf, &["create", "k1", "4", "1"])?;
    has_key(&rt, &mut shelf, CREATED_KEY)?;
    for texts in [["refresh", "k1"].as_slice(), &["move", "k1", "5", "1"]] {
        let mut shelf = key_failing(&rt, Failing::Kept, 1000)?;
        mute(&rt, &mut shelf, texts)?;
        goes_on(&rt, &mut shelf)?;
    }
    let mut shelf = key_failing(&rt, Failing::Kept, 1000)?;
    mute(&rt, &mut shelf, &["seal", "k1", "letter.txt", "one.box"])?;
    mute(&rt, &mut shelf, &["open", "k1", "one.box", "one.txt"])?;
    has_bytes(&rt, &mut shelf, "one.txt", LETTER)?;
    Ok(())
}
