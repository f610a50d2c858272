//! Rehearsals. What they print was computed by the implementation in `samples/rehearse.py`.

use super::{is_usage, runs_with};
use committee::Crew;
use crews::ThreadCrew;
use paces::StillPace;
use shelf::MemoryShelf;
use std::test::Fail;

#[test]
fn a_rehearsal_prints_its_phases_and_touches_no_file(rt: HostRuntime) -> Result<(), Fail> {
    let alloc = rt.alloc();
    let mut shelf = MemoryShelf::new(alloc, Vec::new(alloc));
    let mut crew = ThreadCrew::new();
    let mut pace = StillPace::new();
    let words = ["rehearse", "4", "1", "3", "7"];
    let text = "create 4 1 faulty 1 accepted 20 of 20\n\
        refresh 4 1 faulty 1 accepted 20 of 20\n\
        refresh 4 1 faulty 1 accepted 20 of 20\n\
        move 4 1 to 5 1 faulty 1 1 accepted 20 of 20\n\
        key 3ccc023113ac5f7e1fb3d43f0a403f7c4aeb5e452af1f41245a29b8f56fe6177\n\
        other d9ee026d9acde1860afa25fad364700d8c353391195c64d17c5d8ee3ec0dc6b1\n\
        views 4 same\n";
    runs_with(
        &rt, alloc, &mut shelf, &mut crew, &mut pace, &words, "", text,
    )?;
    assert_eq!(rt; shelf.len(), 0);
    assert_eq!(rt; crew.attended(), 21);
    Ok(())
}

#[test]
fn words_that_are_no_rehearsal_are_usage(rt: HostRuntime) -> Result<(), Fail> {
    let alloc = rt.alloc();
    for words in [
        ["6", "1", "3", "7"],
        ["4", "0", "3", "7"],
        ["4", "2", "3", "7"],
        ["4", "1", "0", "7"],
        ["4", "1", "65", "7"],
        ["4", "1", "03", "7"],
        ["4", "1", "3", "-7"],
        ["4", "1", "3", "4294967296"],
    ] {
        let [members, bound, periods, number] = words;
        is_usage(&rt, alloc, &["rehearse", members, bound, periods, number])?;
    }
    is_usage(&rt, alloc, &["rehearse", "4", "1", "3"])?;
    is_usage(&rt, alloc, &["rehearse", "4", "1", "3", "7", "d"])
}
