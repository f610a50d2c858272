use commands::{plan_create, plan_move, plan_refresh};
use crews::{Crew, ThreadCrew};
use keyroom::{Plan, Status, carry_out};
use paces::StillPace;
use sharefile::KeyName;
use shelf::{MemoryEntropy, MemoryShelf, MemorySink, Shelf};
use sizes::Committee;
use std::alloc::Global;
use std::test::Fail;

/// The entropy with four seeds: 32 bytes 1, 32 bytes 2, and so on.
fn four_seeds(alloc: Global) -> Result<MemoryEntropy, Fail> {
    let mut seeds = Vec::new(alloc);
    for byte in 1..5u8 {
        seeds.push([byte; 32])?;
    }
    Ok(MemoryEntropy::new(seeds, Vec::new(alloc)))
}

/// Carries a plan out, and fails where it is a refusal or its text is another.
fn carries(
    alloc: Global,
    plan: Result<Plan, Status>,
    shelf: &mut MemoryShelf,
    text: &str,
) -> Result<(), Fail> {
    let plan = plan.ok().ok_or("a plan")?;
    let mut out = MemorySink::new(alloc, Vec::new(alloc));
    let status = carry_out(alloc, &plan, shelf, &mut out);
    if status.code() != 0 || out.bytes() != text.as_bytes() {
        return Err("another status or text".into());
    }
    Ok(())
}

const CREATED: &str = "create k1 4 1 period 1\n\
    round 1 mask 15\nround 2 mask 15\nround 3 mask 15\nround 4 mask 15\nround 5 mask 15\n\
    accepted 20 of 20\nshares 1 2 3 4\n";

const REFRESHED: &str = "refresh k1 4 1 period 2\n\
    round 1 mask 15\nround 2 mask 15\nround 3 mask 15\nround 4 mask 15\nround 5 mask 15\n\
    accepted 20 of 20\nshares 1 2 3 4\n";

const MOVED: &str = "move k1 4 1 to 5 1 period 3\n\
    round 1 mask 511\nround 2 mask 511\nround 3 mask 511\nround 4 mask 511\nround 5 mask 511\n\
    round 6 mask 511\naccepted 20 of 20\ncorrected none\nshares 1 2 3 4 5\n";

#[test]
fn a_key_is_created_refreshed_and_moved(rt: HostRuntime) -> Result<(), Fail> {
    let alloc = rt.alloc();
    let name = KeyName::from_text("k1").ok_or("a name")?;
    let four = Committee {
        members: 4,
        bound: 1,
    };
    let mut shelf = MemoryShelf::new(alloc, Vec::new(alloc));
    let mut crew = ThreadCrew::new();
    let mut pace = StillPace::new();
    let mut seeds = four_seeds(alloc)?;
    let plan = plan_create(
        &rt, alloc, &name, four, None, &mut shelf, &mut seeds, &mut crew, &mut pace,
    );
    assert_eq!(rt; shelf.len(), 0);
    carries(alloc, plan, &mut shelf, CREATED)?;
    let mut seeds = four_seeds(alloc)?;
    let plan = plan_refresh(
        &rt, alloc, &name, None, &mut shelf, &mut seeds, &mut crew, &mut pace,
    );
    carries(alloc, plan, &mut shelf, REFRESHED)?;
    let five = Committee {
        members: 5,
        bound: 1,
    };
    let mut seeds = four_seeds(alloc)?;
    let plan = plan_move(
        &rt, alloc, &name, five, None, &mut shelf, &mut seeds, &mut crew, &mut pace,
    );
    carries(alloc, plan, &mut shelf, MOVED)?;
    assert_eq!(rt; shelf.len(), 6);
    assert_eq!(rt; crew.attended(), 17);
    Ok(())
}
