//! Tests of a sharer: seats of two committees, of which nobody says anything. A create by sharers of one committee is
//! tested with the minds that hold them.

ghost use Rattle.std.specs.Prelude.{◌≡◌, ℕ, ◌+◌, ◌*◌, ◌<◌, ◌≤◌, All, IfOk, OnOk, length, true};
ghost use Rattle.talk.specs.Shape.{Shape, receives, seats};
ghost use Rattle.talk.specs.Hears.{Fits};
ghost use Rattle.plays.specs.Stage.{AtReady, IsTurn};
ghost use Rattle.bivar61.specs.Grids.{IsGrid};
ghost use Rattle.vss_core.specs.States.{FiveGrids};
ghost use Rattle.members.specs.Shares.{IsDone};

use super::*;
use bivar61::{Grid, GridList};
use field61::Fe;
use lists::OutOfMemory;
use std::alloc::Global;
use talk::{Heard, Post, PostList, Ring, RingList, Say, Setting};

// The setting of a move from four members to four others, with bound 1.
fn two_committees() -> Setting
    ensures apart { result.shift ≡ result.dealers }
    ensures degree { result.degree ≡ 1 }
    ensures dealers { result.dealers ≡ 4 }
    ensures receivers { result.receivers ≡ 4 }
{
    Setting::moving(4, 1, 4, 1)
}

// What is heard in a round in which nobody says anything.
fn silence(alloc: Global, s: &Setting) -> Result<Heard, OutOfMemory>
    ensures { IfOk result (λ h. (seat round : ℕ) → Fits s.now seat round h) }
{
    let mut posts = PostList::new(alloc);
    let mut rings = RingList::new(alloc);
    for _seat in 0..s.seats() {
        posts.push(Post::Quiet)?;
        rings.push(Ring::Nothing)?;
    }
    Ok(Heard { posts, rings })
}

// Hears the round in which nobody says anything.
#[tactic(auto, using(members::proofs::Turns::speaks_next))]
fn hear_silence(alloc: Global, sharer: &mut Sharer, round: u32) -> Result<(), OutOfMemory>
    requires { IsTurn round sharer.old.stage }
    ensures next { OnOk result (round < 5 → IsTurn (round + 1) sharer.new.stage) }
    ensures done { OnOk result (round ≡ 5 → IsDone sharer.new.stage) }
    ensures seat { OnOk result ((sharer.new.shape ≡ sharer.old.shape) × (sharer.new.seat ≡ sharer.old.seat)) }
{
    let heard = silence(alloc, sharer.setting())?;
    sharer.hear(alloc, &heard)
}

// Hears that many rounds, up to four, in which nobody says anything.
fn hear_silences(alloc: Global, sharer: &mut Sharer, rounds: u32) -> Result<(), OutOfMemory>
    requires fresh { IsTurn 1 sharer.old.stage }
    requires few { rounds ≤ 4 }
    ensures next { OnOk result (IsTurn (rounds + 1) sharer.new.stage) }
    ensures seat { OnOk result ((sharer.new.shape ≡ sharer.old.shape) × (sharer.new.seat ≡ sharer.old.seat)) }
{
    for round in 1..rounds + 1 {
        hear_silence(alloc, sharer, round)?;
    }
    Ok(())
}

// The grids of a dealer: 7 + lane + 2 * y + x + 3 * x * y.
fn grids(alloc: Global) -> Result<GridList, OutOfMemory>
    ensures { IfOk result (FiveGrids 1) }
{
    let mut list = GridList::new(alloc);
    for lane in 0..5 {
        let constant = Fe::reduce(7 + lane);
        let others = (Fe::reduce(2), Fe::reduce(1), Fe::reduce(3));
        let grid = Grid::from_elements(alloc, 1, &[constant, others.0, others.1, others.2])?;
        list.push(grid)?;
    }
    Ok(list)
}

// The old member on seat 2.
fn old_member(alloc: Global) -> Result<Sharer, OutOfMemory>
    ensures { IfOk result (λ m. IsTurn 1 m.stage) }
{
    let grids = grids(alloc)?;
    Ok(Sharer::dealing(two_committees(), 2, grids))
}

// The old member after three rounds in which nobody says anything.
fn old_member_after_three(alloc: Global) -> Result<Sharer, OutOfMemory> {
    let mut sharer = old_member(alloc)?;
    hear_silences(alloc, &mut sharer, 3)?;
    Ok(sharer)
}

// The first new member, on seat 5.
fn new_member() -> Sharer
    ensures fresh { IsTurn 1 result.stage }
    ensures receives { receives result.shape result.seat ≡ true }
    ensures dealers { result.shape.dealers ≡ 4 }
{
    Sharer::receiving(two_committees(), 1)
}

// The new member after four rounds in which nobody says anything.
fn new_member_after_four(alloc: Global) -> Result<Sharer, OutOfMemory>
    ensures turn { IfOk result (λ m. IsTurn 5 m.stage) }
    ensures receives { IfOk result (λ m. receives m.shape m.seat ≡ true) }
    ensures dealers { IfOk result (λ m. m.shape.dealers ≡ 4) }
{
    let mut sharer = new_member();
    hear_silences(alloc, &mut sharer, 4)?;
    Ok(sharer)
}

// The new member after all five.
fn new_member_in_the_end(alloc: Global) -> Result<Sharer, OutOfMemory>
    ensures done { IfOk result (λ m. IsDone m.stage) }
    ensures receives { IfOk result (λ m. receives m.shape m.seat ≡ true) }
    ensures dealers { IfOk result (λ m. m.shape.dealers ≡ 4) }
{
    let mut sharer = new_member_after_four(alloc)?;
    hear_silence(alloc, &mut sharer, 5)?;
    Ok(sharer)
}

// How many ring messages of a word are deals.
fn deals_in(word: &Say) -> usize {
    match word {
        Say::Speak { rings, .. } => rings
            .as_slice()
            .iter()
            .filter(|ring| matches!(ring, Ring::Dealt { .. }))
            .count(),
        _ => 0,
    }
}

#[test]
fn an_old_member_deals_to_the_new_ones_alone(rt: HostRuntime) -> Result<(), OutOfMemory> {
    let alloc = rt.alloc();
    let sharer = old_member(alloc)?;
    let word = sharer.say(alloc)?;
    assert_eq!(rt; sharer.seat(), 2);
    assert_eq!(rt; deals_in(&word), 4);
    Ok(())
}

#[test]
fn an_old_member_has_the_complaints(rt: HostRuntime) -> Result<(), OutOfMemory> {
    let sharer = old_member_after_three(rt.alloc())?;
    assert_eq!(rt; sharer.round(), 4);
    assert!(rt; sharer.third().is_some());
    assert!(rt; sharer.fourth().is_none());
    Ok(())
}

#[test]
fn a_new_member_has_the_reveals(rt: HostRuntime) -> Result<(), OutOfMemory> {
    let sharer = new_member_after_four(rt.alloc())?;
    assert_eq!(rt; sharer.round(), 5);
    assert!(rt; sharer.third().is_none());
    assert!(rt; sharer.fourth().is_some());
    Ok(())
}

// Where nobody says anything, no instance is accepted, and all shares are 0.
#[test]
fn a_new_member_has_nothing_of_silence(rt: HostRuntime) -> Result<(), OutOfMemory> {
    let sharer = new_member_in_the_end(rt.alloc())?;
    assert_eq!(rt; sharer.round(), 6);
    assert_eq!(rt; sharer.accepted(), 0);
    assert!(rt; !sharer.accepts(3));
    assert_eq!(rt; sharer.share(3).get(), 0);
    assert_eq!(rt; sharer.shares()[2].get(), 0);
    Ok(())
}
