//! Commands in which one member's thread is held in the first round until the member was cut.
ghost use Rattle.std.specs.Prelude.{◌≤◌, ◌<◌};

use super::{runs_with, shelf_of};
use crews::HoldCrew;
use paces::{HoldPace, Pace};
use shelf::{MemoryShelf, Shelf};
use std::alloc::Global;
use std::sync::atomic::AtomicBool;
use std::sync::{Arc, Wait};
use std::test::Fail;
use std::thread::Threads;

/// Runs a command while the member on this seat is held, and fails where its line or its text is another, or the member
/// wasn't cut.
fn runs_held<R: Threads + Wait + Sync>(
    rt: &R,
    alloc: Global,
    shelf: &mut MemoryShelf,
    seat: u32,
    texts: &[&str],
    line: &str,
    text: &str,
) -> Result<(), Fail>
    requires { (1 ≤ seat) × (seat ≤ 30) }
{
    let flag = Arc::new(alloc, AtomicBool::new(false))?;
    let mut crew = HoldCrew::new(seat - 1, Arc::try_clone(&flag)?);
    let mut pace = HoldPace::new(seat, flag);
    runs_with(rt, alloc, shelf, &mut crew, &mut pace, texts, line, text)?;
    if pace.answered() != 1 {
        return Err("a member that wasn't cut".into());
    }
    Ok(())
}

#[test]
fn a_late_member_of_a_create_gets_no_share(rt: HostRuntime) -> Result<(), Fail> {
    let alloc = rt.alloc();
    let mut shelf = MemoryShelf::new(alloc, Vec::new(alloc));
    let text = "create k1 4 1 period 1\n\
        round 1 mask 11\nround 2 mask 11\nround 3 mask 11\nround 4 mask 11\nround 5 mask 11\n\
        accepted 20 of 20\nshares 1 2 4\n";
    let words = ["create", "k1", "4", "1"];
    runs_held(&rt, alloc, &mut shelf, 3, &words, "", text)?;
    assert_eq!(rt; shelf.len(), 4);
    assert!(rt; shelf.get(alloc, "k1.1.3.share")?.is_none());
    Ok(())
}

#[test]
fn a_late_member_of_a_refresh_gets_no_share(rt: HostRuntime) -> Result<(), Fail> {
    let alloc = rt.alloc();
    let mut shelf = shelf_of(alloc, 16)?;
    let text = "refresh k1 4 1 period 2\n\
        round 1 mask 11\nround 2 mask 11\nround 3 mask 11\nround 4 mask 11\nround 5 mask 11\n\
        accepted 20 of 20\nshares 1 2 4\n";
    runs_held(&rt, alloc, &mut shelf, 3, &["refresh", "k1"], "", text)?;
    assert_eq!(rt; shelf.len(), 4);
    Ok(())
}

#[test]
fn a_late_old_member_of_a_move_is_corrected(rt: HostRuntime) -> Result<(), Fail> {
    let alloc = rt.alloc();
    let mut shelf = shelf_of(alloc, 16)?;
    let text = "move k1 4 1 to 4 1 period 2\n\
        round 1 mask 251\nround 2 mask 251\nround 3 mask 251\nround 4 mask 251\nround 5 mask 251\n\
        round 6 mask 251\naccepted 20 of 20\ncorrected 3\nshares 1 2 3 4\n";
    runs_held(
        &rt,
        alloc,
        &mut shelf,
        3,
        &["move", "k1", "4", "1"],
        "",
        text,
    )?;
    assert_eq!(rt; shelf.len(), 5);
    Ok(())
}

#[test]
fn a_late_new_member_of_a_move_gets_no_share(rt: HostRuntime) -> Result<(), Fail> {
    let alloc = rt.alloc();
    let mut shelf = shelf_of(alloc, 16)?;
    let text = "move k1 4 1 to 4 1 period 2\n\
        round 1 mask 191\nround 2 mask 191\nround 3 mask 191\nround 4 mask 191\nround 5 mask 191\n\
        round 6 mask 191\naccepted 20 of 20\ncorrected none\nshares 1 2 4\n";
    runs_held(
        &rt,
        alloc,
        &mut shelf,
        7,
        &["move", "k1", "4", "1"],
        "",
        text,
    )?;
    assert_eq!(rt; shelf.len(), 4);
    Ok(())
}

/// Runs a command under a drill of one silent member while another is held: too few are left, and nothing changes.
fn leaves_too_few<R: Threads + Wait + Sync>(
    rt: &R,
    alloc: Global,
    shelf: &mut MemoryShelf,
    drill: &str,
    seat: u32,
    texts: &[&str],
) -> Result<(), Fail>
    requires { (1 ≤ seat) × (seat ≤ 30) }
{
    shelf.put(alloc, "d", drill.as_bytes())?;
    let held = shelf.len();
    let line = "refused 5 sound 2 needed 3";
    runs_held(rt, alloc, shelf, seat, texts, line, "")?;
    if shelf.len() != held {
        return Err("a changed shelf".into());
    }
    Ok(())
}

#[test]
fn where_a_late_member_leaves_too_few_nothing_changes(rt: HostRuntime) -> Result<(), Fail> {
    let alloc = rt.alloc();
    let mut shelf = MemoryShelf::new(alloc, Vec::new(alloc));
    let words = ["create", "k1", "4", "1", "d"];
    leaves_too_few(&rt, alloc, &mut shelf, "1 1 silent", 3, &words)?;
    let mut shelf = shelf_of(alloc, 16)?;
    let words = ["refresh", "k1", "d"];
    leaves_too_few(&rt, alloc, &mut shelf, "1 1 silent", 3, &words)?;
    let words = ["move", "k1", "4", "1", "d"];
    leaves_too_few(&rt, alloc, &mut shelf, "1 1 silent", 3, &words)?;
    leaves_too_few(&rt, alloc, &mut shelf, "5 1 silent", 7, &words)
}
