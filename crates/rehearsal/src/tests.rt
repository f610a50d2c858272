//! A rehearsal of four members with one later period. Its counts were computed by another implementation of the rules.

use super::*;
use party_crew::{Crew, ThreadCrew};
use sizes::Committee;
use std::test::Fail;
use viewshift::key_of;

#[test]
fn a_create_and_a_refresh_are_accepted_whole_and_the_other_key_is_one_greater(
    rt: HostRuntime,
) -> Result<(), Fail> {
    let alloc = rt.alloc();
    let committee = Committee {
        members: 4,
        bound: 1,
    };
    let mut crew = ThreadCrew::new();
    let Ok(rehearsed) = rehearse_run(&rt, alloc, committee, 1, 0, &mut crew) else {
        return Err("a refusal".into());
    };
    assert_eq!(rt; rehearsed.accepted.as_slice(), [20, 20].as_slice());
    assert_eq!(rt; crew.attended(), 8);
    let key = key_of(alloc, &rehearsed.history)?;
    let other = key_of(alloc, &rehearsed.other)?;
    for lane in 0..5 {
        assert!(rt; key[lane].get() + 1 == other[lane].get() || other[lane].get() == 0);
    }
    Ok(())
}
