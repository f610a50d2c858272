//! Phases of rehearsals of four members. What they come to was computed by another implementation of the rules.

ghost use Rattle.std.specs.Prelude.{◌≡◌, ◌≤◌, List, replicate, Option, IfOk};
ghost use Rattle.algebra61.specs.Field.{Fp, oneₚ};
ghost use Rattle.talk.specs.Sync.{has};
ghost use Rattle.commands.specs.Phase.{unless_down};
ghost use Rattle.scenes.specs.Law.{AreSides};
ghost use Rattle.scenes.specs.Lawful.{AreOrders};
ghost use Rattle.scenes.specs.Scenes.{old_side};
ghost use Rattle.recorder.specs.Begun.{HaveShares, IsBegun};

use super::*;
use field61::Fe;
use lists::OutOfMemory;
use party_crew::{Crew, ThreadCrew};
use scenes::{Scene, Side, scenes_of};
use sizes::Committee;
use std::alloc::Global;
use std::sync::Wait;
use std::test::Fail;
use std::thread::Threads;
use talk::in_mask;

// What is heard of a seat that is down, as round, seat and receiving seat, 0 for a post.
type Told = (u32, u32, u32);

// A phase: how many instances are accepted, the mask of who is down, how many grids it has, and what is heard.
type Shown<'a> = (u32, u32, usize, &'a [Told]);

// The phase with this number of the rehearsal that four members with bound 1 begin.
fn scene(alloc: Global, number: u32, place: u32) -> Result<Scene, OutOfMemory>
    requires { place ≤ 64 }
    ensures sides { IfOk result AreSides }
    ensures told { IfOk result AreOrders }
    ensures begins { IfOk result (λ scene. (shares : List (Option (List Fp))) → HaveShares (old_side scene) shares → IsBegun place scene shares) }
{
    let committee = Committee {
        members: 4,
        bound: 1,
    };
    let scenes = scenes_of(alloc, committee, place, number)?;
    Ok(scenes[place as usize])
}

// The shares of a member, where it isn't without: 1 in each lane.
fn share_of(side: &Side, member: u32) -> Option<[Fe; 5]>
    requires { (1 ≤ member) × (member ≤ 30) }
    ensures { result ≡ unless_down (has side.now.shareless member) (replicate 5 oneₚ) }
{
    if in_mask(side.shareless, member) {
        None
    } else {
        Some([Fe::ONE; 5])
    }
}

// Those of all members, by index.
fn shares_of(alloc: Global, side: &Side) -> Result<Vec<Option<[Fe; 5]>>, OutOfMemory>
    requires { side.now.members ≤ 30 }
    ensures { IfOk result (λ shares. HaveShares side.now shares.items) }
{
    let mut shares = Vec::new(alloc);
    for member in 1..side.members + 1 {
        shares.push(share_of(side, member))?;
    }
    Ok(shares)
}

// Records a phase of the rehearsal from a number, and fails where it is another one.
fn records<R: Threads + Wait + Sync>(
    rt: &R,
    alloc: Global,
    number: u32,
    place: u32,
    seats: u64,
    shown: Shown,
) -> Result<(), Fail>
    requires { place ≤ 64 }
{
    let scene = scene(alloc, number, place)?;
    let shares = shares_of(alloc, &scene.old_side())?;
    let mut crew = ThreadCrew::new();
    let Ok(recorded) = record_phase(rt, alloc, number, place, &scene, &shares, &mut crew) else {
        return Err("a refusal".into());
    };
    let mut told = Vec::new(alloc);
    for item in recorded.phase.said.as_slice() {
        told.push((item.round, item.seat, item.to))?;
    }
    let (down, grids) = (recorded.phase.down, recorded.phase.grids.len());
    if (recorded.accepted, down, grids, told.as_slice()) != shown || crew.attended() != seats {
        return Err("another phase".into());
    }
    Ok(())
}

#[test]
fn nothing_is_heard_of_one_who_is_silent_and_one_without_a_share(
    rt: HostRuntime,
) -> Result<(), Fail> {
    let alloc = rt.alloc();
    for place in 0..2 {
        records(&rt, alloc, 0, place, 4, (20, 8, 15, &[]))?;
    }
    Ok(())
}

#[test]
fn a_false_dealer_and_a_false_complaint_are_heard(rt: HostRuntime) -> Result<(), Fail> {
    let alloc = rt.alloc();
    let created = [
        (1, 3, 1),
        (1, 3, 2),
        (1, 3, 4),
        (2, 3, 1),
        (2, 3, 2),
        (2, 3, 4),
        (3, 3, 0),
        (4, 3, 0),
        (5, 3, 0),
    ];
    records(&rt, alloc, 1, 0, 4, (20, 4, 15, &created))?;
    let moved = [
        (2, 9, 5),
        (2, 9, 6),
        (2, 9, 7),
        (2, 9, 8),
        (3, 9, 0),
        (5, 9, 0),
        (6, 9, 0),
    ];
    records(&rt, alloc, 1, 3, 9, (20, 260, 15, &moved))
}
