//! Drills under which a seat posts late: whether it is heard hangs on how the threads run.
ghost use Rattle.std.specs.Prelude.{◌≤◌};

use super::{put_share, runs, seven_seeds, shelf_of, words};
use committee::{Status, run};
use crews::ThreadCrew;
use paces::StillPace;
use shelf::{MemoryShelf, MemorySink, Shelf};
use std::alloc::Global;
use std::sync::Wait;
use std::test::Fail;
use std::thread::Threads;

/// The lines of the masks, where a seat is missing from this round on.
fn masks_from(
    alloc: Global,
    rounds: u32,
    missing: u32,
    all: u32,
    without: u32,
) -> Result<String, Fail>
    requires { rounds ≤ 6 }
{
    let mut text = String::new(alloc);
    for round in 1..rounds + 1 {
        let mask = if round < missing { all } else { without };
        write!(text, "round {round} mask {mask}\n")?;
    }
    Ok(text)
}

/// Runs a command over the drill `d`, and answers its status and its text.
fn drilled<R: Threads + Wait + Sync>(
    rt: &R,
    alloc: Global,
    shelf: &mut MemoryShelf,
    drill: &str,
    texts: &[&str],
) -> Result<(Status, Vec<u8>), Fail> {
    shelf.put(alloc, "d", drill.as_bytes())?;
    let mut entropy = seven_seeds(alloc, &[])?;
    let mut crew = ThreadCrew::new();
    let mut pace = StillPace::new();
    let mut out = MemorySink::new(alloc, Vec::new(alloc));
    let words = words(alloc, texts)?;
    let status = run(
        rt,
        alloc,
        &words,
        shelf,
        &mut entropy,
        &mut crew,
        &mut pace,
        &mut out,
    );
    Ok((status, out.bytes().to_vec(alloc)?))
}

/// Runs a command in which a seat posts late in a round, and fails where it prints neither the one nor the other text.
fn runs_late<R: Threads + Wait + Sync>(
    rt: &R,
    alloc: Global,
    shelf: &mut MemoryShelf,
    drill: &str,
    texts: &[&str],
    heard: &str,
    missed: &str,
) -> Result<(), Fail> {
    let (status, text) = drilled(rt, alloc, shelf, drill, texts)?;
    if status.code() != 0 {
        return Err("a refusal".into());
    }
    if text.as_slice() != heard.as_bytes() && text.as_slice() != missed.as_bytes() {
        return Err("another text".into());
    }
    Ok(())
}

/// What a create prints in which member 2 is drilled, and missing from this round on.
fn created(alloc: Global, missing: u32) -> Result<String, Fail> {
    let masks = masks_from(alloc, 5, missing, 15, 13)?;
    let text = format!(in alloc;
        "create k1 4 1 period 1\n{masks}accepted 20 of 20\nshares 1 3 4\n"
    )?;
    Ok(text)
}

#[test]
fn a_late_member_of_a_create_is_heard_or_missing_from_then_on(rt: HostRuntime) -> Result<(), Fail> {
    let alloc = rt.alloc();
    let heard = created(alloc, 6)?;
    let states = "check k1 4 1 period 1\nmember 1 ok\nmember 2 missing\nmember 3 ok\nmember 4 ok\n";
    for round in 1..6u32 {
        let mut shelf = MemoryShelf::new(alloc, Vec::new(alloc));
        let drill = format!(in alloc; "2 {round} late")?;
        let missed = created(alloc, round)?;
        let texts = ["create", "k1", "4", "1", "d"];
        runs_late(&rt, alloc, &mut shelf, &drill, &texts, &heard, &missed)?;
        runs(&rt, alloc, &mut shelf, &["check", "k1"], "", states)?;
    }
    Ok(())
}

#[test]
fn a_member_that_dealt_falsely_and_reveals_late_is_heard_or_its_deals_are_dropped(
    rt: HostRuntime,
) -> Result<(), Fail> {
    let alloc = rt.alloc();
    let mut shelf = MemoryShelf::new(alloc, Vec::new(alloc));
    let heard = created(alloc, 6)?;
    let masks = masks_from(alloc, 5, 4, 15, 13)?;
    let missed = format!(in alloc;
        "create k1 4 1 period 1\n{masks}accepted 15 of 20\nshares 1 3 4\n"
    )?;
    let texts = ["create", "k1", "4", "1", "d"];
    let drill = "2 1 skew 5\n2 4 late";
    runs_late(&rt, alloc, &mut shelf, drill, &texts, &heard, &missed)
}

/// What a refresh prints in which member 2 is drilled, and missing from this round on.
fn refreshed(alloc: Global, missing: u32) -> Result<String, Fail> {
    let masks = masks_from(alloc, 5, missing, 15, 13)?;
    let text = format!(in alloc;
        "refresh k1 4 1 period 2\n{masks}accepted 20 of 20\nshares 1 3 4\n"
    )?;
    Ok(text)
}

#[test]
fn a_late_member_of_a_refresh_is_heard_or_missing_from_then_on(
    rt: HostRuntime,
) -> Result<(), Fail> {
    let alloc = rt.alloc();
    let heard = refreshed(alloc, 6)?;
    for round in 1..6u32 {
        let mut shelf = shelf_of(alloc, 16)?;
        let drill = format!(in alloc; "2 {round} late")?;
        let missed = refreshed(alloc, round)?;
        let texts = ["refresh", "k1", "d"];
        runs_late(&rt, alloc, &mut shelf, &drill, &texts, &heard, &missed)?;
    }
    Ok(())
}

/// What a move of four members to four prints under these masks.
fn moved(alloc: Global, masks: &str, corrected: &str, shares: &str) -> Result<String, Fail> {
    let text = format!(in alloc;
        "move k1 4 1 to 4 1 period 2\n{masks}accepted 20 of 20\ncorrected {corrected}\nshares {shares}\n"
    )?;
    Ok(text)
}

#[test]
fn a_late_old_member_of_a_move_is_heard_or_missing_from_then_on(
    rt: HostRuntime,
) -> Result<(), Fail> {
    let alloc = rt.alloc();
    let all = masks_from(alloc, 6, 7, 255, 253)?;
    let heard = moved(alloc, &all, "none", "1 2 3 4")?;
    for round in [1u32, 2, 4, 6] {
        let mut shelf = shelf_of(alloc, 16)?;
        let drill = format!(in alloc; "2 {round} late")?;
        let masks = masks_from(alloc, 6, round, 255, 253)?;
        // A member that was missing when it had to deal is taken to share 0.
        let corrected = if round == 1 { "2" } else { "none" };
        let missed = moved(alloc, &masks, corrected, "1 2 3 4")?;
        let texts = ["move", "k1", "4", "1", "d"];
        runs_late(&rt, alloc, &mut shelf, &drill, &texts, &heard, &missed)?;
    }
    Ok(())
}

#[test]
fn a_late_new_member_of_a_move_is_heard_or_missing_from_then_on(
    rt: HostRuntime,
) -> Result<(), Fail> {
    let alloc = rt.alloc();
    let all = masks_from(alloc, 6, 7, 255, 223)?;
    let heard = moved(alloc, &all, "none", "1 3 4")?;
    for round in 1..7u32 {
        let mut shelf = shelf_of(alloc, 16)?;
        let drill = format!(in alloc; "6 {round} late")?;
        let masks = masks_from(alloc, 6, round, 255, 223)?;
        let missed = moved(alloc, &masks, "none", "1 3 4")?;
        let texts = ["move", "k1", "4", "1", "d"];
        runs_late(&rt, alloc, &mut shelf, &drill, &texts, &heard, &missed)?;
    }
    Ok(())
}

#[test]
fn a_late_old_member_beside_a_wrong_share_decides_whether_a_move_has_a_result(
    rt: HostRuntime,
) -> Result<(), Fail> {
    let alloc = rt.alloc();
    let mut shelf = shelf_of(alloc, 16)?;
    put_share(alloc, &mut shelf, "k1.1.1.share", 1, 11)?;
    let texts = ["move", "k1", "4", "1", "d"];
    let (status, text) = drilled(&rt, alloc, &mut shelf, "4 1 late", &texts)?;
    let line = status.line(alloc)?;
    if status.code() == 0 {
        let masks = masks_from(alloc, 6, 7, 255, 247)?;
        let heard = moved(alloc, &masks, "1", "1 2 3 4")?;
        assert!(rt; text.as_slice() == heard.as_bytes());
    } else {
        let missed = "refused 6 lane 0 syndrome 768614336404564647 1921535841011411613";
        assert!(rt; line.as_str() == missed);
        assert_eq!(rt; text.len(), 0);
    }
    Ok(())
}
