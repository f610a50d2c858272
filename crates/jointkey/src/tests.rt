//! Tests of a member's mind: a create by four members, of whom one may be faulty.

ghost use Rattle.std.specs.Prelude.{◌≡◌, ℕ, ◌+◌, ◌*◌, ◌<◌, ◌≤◌, IfOk, All, length};
ghost use Rattle.talk.specs.Hears.{Hearing, Seated};
ghost use Rattle.talk.specs.Part.{part_made_for, part_may, part_ways};
ghost use Rattle.plays.specs.Stage.{AtReady, IsTurn};
ghost use Rattle.bivar61.specs.Grids.{IsGrid};
ghost use Rattle.vss_core.specs.States.{FiveGrids};
ghost use Rattle.members.specs.Laws.{EndAsPlay, HonestInMasks};
ghost use Rattle.members.specs.Member.{member_ways};
ghost use Rattle.members.specs.Shares.{IsDone};
ghost use Rattle.sharer.specs.Sharer.{MadeFor};
ghost use Rattle.talk.specs.Shape.{create_shape};

use super::*;
use bivar61::{Grid, GridList};
use chance61::Chance;
use driver::drive;
use field61::Fe;
use lists::OutOfMemory;
use std::alloc::Global;
use talk::{Driven, Part, Setting};

// The grid of a member in a lane: 100 * me + lane + me * y + 7 * x + 3 * x * y.
fn grid(alloc: Global, me: u32, lane: u32) -> Result<Grid, OutOfMemory>
    requires { (me ≤ 4) × (lane < 5) }
    ensures { IfOk result (IsGrid 1) }
{
    let constant = Fe::reduce(u64::from(100 * me + lane));
    let in_y = Fe::reduce(u64::from(me));
    Grid::from_elements(alloc, 1, &[constant, in_y, Fe::reduce(7), Fe::reduce(3)])
}

// The five grids of a member.
fn grids(alloc: Global, me: u32) -> Result<GridList, OutOfMemory>
    requires { me ≤ 4 }
    ensures { IfOk result (FiveGrids 1) }
{
    let mut list = GridList::new(alloc);
    for lane in 0..5 {
        list.push(grid(alloc, me, lane)?)?;
    }
    Ok(list)
}

// A member with these grids.
fn member(alloc: Global, me: u32) -> Result<Create<4>, OutOfMemory>
    requires { (1 ≤ me) × (me ≤ 4) }
    ensures ready { IfOk result (λ m. m.stage ≡ AtReady) }
    ensures speaks { IfOk result (λ m. IsTurn 1 m.stage) }
    ensures made { IfOk result (λ m. MadeFor m (create_shape 4 1) me) }
{
    Create::with_grids(alloc, 1, me, grids(alloc, me)?)
}

// All four members.
fn four(alloc: Global) -> Result<Vec<Create<4>>, OutOfMemory>
    ensures ready { IfOk result (λ v. All (λ m. m.stage ≡ AtReady) v.items) }
    ensures speaks { IfOk result (λ v. Hearing (λ m round. IsTurn round m.stage) 1 v.items) }
    ensures made { IfOk result (λ v. Seated MadeFor (create_shape 4 1) 1 v.items) }
    ensures all { IfOk result (λ v. length v.items ≡ 4) }
{
    let mut minds = Vec::new(alloc);
    minds.push(member(alloc, 1)?)?;
    minds.push(member(alloc, 2)?)?;
    minds.push(member(alloc, 3)?)?;
    minds.push(member(alloc, 4)?)?;
    Ok(minds)
}

// The create by all four.
fn created(alloc: Global) -> Result<Driven<Create<4>>, OutOfMemory>
    ensures { IfOk result (λ d. All (λ m. IsDone m.stage) d.minds.items) }
{
    let minds = four(alloc)?;
    let driven = drive(alloc, minds, &Setting::create(4, 1))?;
    Ok(driven)
}

// The grids of a lane have at 0 and j the sum 1000 + 4 * lane + 10 * j: member 1 has 1010, 1014, 1018, 1022 and 1026,
// and each next member has ten more.
#[test]
fn members_have_the_sums_of_all_grids(rt: HostRuntime) -> Result<(), OutOfMemory> {
    let driven = created(rt.alloc())?;
    assert!(rt; driven.masks.as_slice() == [15, 15, 15, 15, 15].as_slice());
    assert_eq!(rt; driven.minds.len(), 4);
    let mut first = Fe::reduce(1000);
    for mind in driven.minds.iter() {
        first = first.add(Fe::reduce(10));
        let mut wanted = first;
        assert_eq!(rt; mind.accepted(), 20);
        let shares = mind.shares();
        for share in shares.iter() {
            assert_eq!(rt; share.get(), wanted.get());
            wanted = wanted.add(Fe::reduce(4));
        }
    }
    Ok(())
}

#[test]
fn a_member_draws_twenty_elements(rt: HostRuntime) -> Result<(), OutOfMemory> {
    let alloc = rt.alloc();
    let mut chance = Chance::from_seed([0; 32]);
    let member = Create::<4>::new(alloc, 1, 3, &mut chance);
    assert!(rt; member.is_ok());
    let mut plain = Chance::from_seed([0; 32]);
    for _element in 0..20 {
        plain.draw();
    }
    assert_eq!(rt; chance.draw().get(), plain.draw().get());
    Ok(())
}

// A member that takes part.
fn taking_part(alloc: Global, me: u32) -> Result<Part<Create<4>>, OutOfMemory>
    requires { (1 ≤ me) × (me ≤ 4) }
    ensures speaks { IfOk result (λ p. part_may (λ m round. IsTurn round m.stage) p 1) }
    ensures made { IfOk result (λ p. part_made_for MadeFor p (create_shape 4 1) me) }
{
    let mind = member(alloc, me)?;
    Ok(Part::In { mind })
}

// Three members take part, and the fourth is away.
fn three(alloc: Global) -> Result<Vec<Part<Create<4>>>, OutOfMemory>
    ensures speaks { IfOk result (λ v. Hearing (part_may (λ m round. IsTurn round m.stage)) 1 v.items) }
    ensures made { IfOk result (λ v. Seated (part_made_for MadeFor) (create_shape 4 1) 1 v.items) }
    ensures all { IfOk result (λ v. length v.items ≡ 4) }
{
    let mut minds = Vec::new(alloc);
    minds.push(taking_part(alloc, 1)?)?;
    minds.push(taking_part(alloc, 2)?)?;
    minds.push(taking_part(alloc, 3)?)?;
    minds.push(Part::Away)?;
    Ok(minds)
}

// The create by these three.
fn created_by_three(alloc: Global) -> Result<Driven<Part<Create<4>>>, OutOfMemory> {
    let minds = three(alloc)?;
    let setting = Setting::create(4, 1);
    let driven = drive(alloc, minds, &setting)?;
    Ok(driven)
}

// Who is away is in no mask, and the others are in each.
#[test]
fn a_member_that_is_away_passes(rt: HostRuntime) -> Result<(), OutOfMemory> {
    let alloc = rt.alloc();
    let driven = created_by_three(alloc)?;
    assert!(rt; driven.masks.as_slice() == [7, 7, 7, 7, 7].as_slice());
    assert_eq!(rt;
        driven
            .minds
            .iter()
            .filter(|part| part.mind().is_some())
            .count(),
        3
    );
    Ok(())
}

// The law on minds, at a create's member.
fn creates_end_as_their_play()
    ensures { EndAsPlay member_ways }
{
    members::laws::minds_end_as_their_play::<Create<4>>();
}

// The same of the masks, at a member that may be away.
fn parts_stay_in_the_masks()
    ensures { HonestInMasks (part_ways member_ways) }
{
    members::laws::minds_stay_in_the_masks::<Part<Create<4>>>();
}

#[test]
fn laws_on_minds_hold_of_members() {
    creates_end_as_their_play();
    parts_stay_in_the_masks();
    machines::laws::minds_go_like_their_machines::<Part<Create<4>>, Create<4>>();
    machines::laws::who_speaks_stays_in_the_masks::<Part<Create<4>>, Create<4>>();
    machines::laws::machines_are_heard::<Create<4>>();
}
