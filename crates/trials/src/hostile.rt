//! One party of a create misbehaves, in each way and round.

use crate::desk::{Failing, done, shelf_failing};
use shelf::Shelf;
use std::sync::Wait;
use std::test::Fail;
use std::thread::Threads;

/// What `check` prints behind its first line, where the member has no file.
fn states_without<R: AllocGlobal>(rt: &R, party: u32) -> Result<String, Fail> {
    let alloc = rt.alloc();
    let mut text = String::new(alloc);
    for member in 1..5u32 {
        let state = if member == party { "missing" } else { "ok" };
        text.push_str(format!(in alloc; "member {member} {state}\n")?.as_str())?;
    }
    Ok(text)
}

/// Creates a key with one line of a drill for a party. The others have share files, and so many instances are accepted.
fn create_with<R: Threads + Wait + Sync + AllocGlobal>(
    rt: &R,
    party: u32,
    order: &str,
    accepted: &str,
) -> Result<(), Fail> {
    let alloc = rt.alloc();
    let mut shelf = shelf_failing(rt, Failing::Kept, u64::MAX)?;
    let line = format!(in alloc; "{party} {order}\n")?;
    shelf.put(alloc, "d", line.as_bytes())?;
    let out = done(rt, &mut shelf, &["create", "k1", "4", "1", "d"])?;
    let told = String::from_utf8_lossy(alloc, out.bytes())?;
    if !told.contains(accepted) || shelf.len() != 5 {
        return Err("another create".into());
    }
    let out = done(rt, &mut shelf, &["check", "k1"])?;
    if out.bytes().ends_with(states_without(rt, party)?.as_bytes()) {
        Ok(())
    } else {
        Err("another state".into())
    }
}

/// The orders that a party may have in a round of a create.
fn orders_in(round: u32) -> &'static [&'static str] {
    match round {
        1 => &["1 silent", "1 late", "1 skew 1"],
        2 => &["2 silent", "2 late", "2 garble", "2 skew 1"],
        3 => &["3 silent", "3 late", "3 garble"],
        4 => &["4 silent", "4 late", "4 garble", "4 skew 1"],
        _ => &["5 silent", "5 late", "5 garble", "5 veto"],
    }
}

#[test]
fn a_party_that_misbehaves_once_gets_no_share(rt: HostRuntime) -> Result<(), Fail> {
    let alloc = rt.alloc();
    for party in 1..5u32 {
        for round in 1..6u32 {
            for order in orders_in(round) {
                create_with(&rt, party, order, "\naccepted 20 of 20\n")?;
            }
        }
        let accused = format!(in alloc; "3 accuse {}", party % 4 + 1)?;
        create_with(&rt, party, accused.as_str(), "\naccepted 20 of 20\n")?;
        create_with(&rt, party, "1 garble", "\naccepted 15 of 20\n")?;
    }
    Ok(())
}
