//! Tests of a member's mind: refreshes by four members, of whom one may be faulty or away.

ghost use Rattle.std.specs.Prelude.{◌≡◌, ℕ, ◌+◌, ◌*◌, ◌<◌, ◌≤◌, IfOk, All, length};
ghost use Rattle.talk.specs.Hears.{Hearing, Seated};
ghost use Rattle.talk.specs.Part.{part_made_for, part_may, part_ways};
ghost use Rattle.talk.specs.Shape.{refresh_shape};
ghost use Rattle.bivar61.specs.Grids.{IsGrid};
ghost use Rattle.vss_core.specs.States.{FiveGrids};
ghost use Rattle.zeroshare.specs.Refresh.{keeper_made_for, keeper_may};

use super::*;
use bivar61::{Grid, GridList};
use chance61::Chance;
use driver::drive;
use field61::Fe;
use lists::OutOfMemory;
use std::alloc::Global;
use talk::{Driven, Setting};

// The five grids of a member, of degree 0: in each lane the number 4 * me + lane - 9.
fn grids(alloc: Global, me: u32) -> Result<GridList, OutOfMemory>
    requires { me ≤ 4 }
    ensures { IfOk result (FiveGrids 0) }
{
    let mut list = GridList::new(alloc);
    for lane in 0..5 {
        let number = Fe::reduce(u64::from(4 * me + lane)).sub(Fe::reduce(9));
        list.push(Grid::from_elements(alloc, 0, &[number])?)?;
    }
    Ok(list)
}

// The share of a member in a lane: 7 + lane + 3 * me, so that the key of the lane is 7 + lane.
fn old_share(me: u32, lane: u32) -> Fe
    requires { (me ≤ 4) × (lane < 5) }
{
    Fe::reduce(u64::from(7 + lane + 3 * me))
}

// Its shares.
fn old(me: u32) -> [Fe; 5]
    requires { me ≤ 4 }
{
    [
        old_share(me, 0),
        old_share(me, 1),
        old_share(me, 2),
        old_share(me, 3),
        old_share(me, 4),
    ]
}

// A member that takes part with these grids and these shares.
fn member(alloc: Global, me: u32) -> Result<Refresh<4>, OutOfMemory>
    requires { (1 ≤ me) × (me ≤ 4) }
    ensures speaks { IfOk result (λ m. part_may keeper_may m 1) }
    ensures made { IfOk result (λ m. part_made_for keeper_made_for m (refresh_shape 4 1) me) }
{
    Refresh::with_grids(alloc, 1, me, old(me), grids(alloc, me)?)
}

// The first three members, and a fourth.
fn four(alloc: Global, fourth: Refresh<4>) -> Result<Vec<Refresh<4>>, OutOfMemory>
    requires speaks { part_may keeper_may fourth 1 }
    requires made { part_made_for keeper_made_for fourth (refresh_shape 4 1) 4 }
    ensures speaks { IfOk result (λ v. Hearing (part_may keeper_may) 1 v.items) }
    ensures made { IfOk result (λ v. Seated (part_made_for keeper_made_for) (refresh_shape 4 1) 1 v.items) }
    ensures all { IfOk result (λ v. length v.items ≡ 4) }
{
    let mut minds = Vec::new(alloc);
    minds.push(member(alloc, 1)?)?;
    minds.push(member(alloc, 2)?)?;
    minds.push(member(alloc, 3)?)?;
    minds.push(fourth)?;
    Ok(minds)
}

// The refresh by these.
fn refreshed(alloc: Global, fourth: Refresh<4>) -> Result<Driven<Refresh<4>>, OutOfMemory>
    requires speaks { part_may keeper_may fourth 1 }
    requires made { part_made_for keeper_made_for fourth (refresh_shape 4 1) 4 }
{
    let minds = four(alloc, fourth)?;
    let setting = Setting::refresh(4, 1);
    let driven = drive(alloc, minds, &setting)?;
    Ok(driven)
}

// Whether a member in the end counts 20 accepted instances and has, in each lane, the share that member `me` has on the
// line 7 + lane + me * (rise + more * lane).
fn is_on_line(mind: &Refresh<4>, me: Fe, rise: u64, more: u64) -> bool {
    if !mind.has_result() || mind.accepted() != 20 {
        return false;
    }
    let mut start = Fe::reduce(7);
    let mut slope = Fe::reduce(rise);
    for share in mind.shares().iter() {
        if share.get() != start.add(slope.mul(me)).get() {
            return false;
        }
        start = start.add(Fe::ONE);
        slope = slope.add(Fe::reduce(more));
    }
    true
}

// The four numbers of a lane have the sum 4 + 4 * lane. So the share of member j, which was 7 + lane + 3 * j, is then
// 7 + lane + (7 + 4 * lane) * j, in the first lane 14, 21, 28 and 35: at 0 the line still has 7 + lane.
#[test]
fn shares_stay_on_a_line_with_the_same_key(rt: HostRuntime) -> Result<(), OutOfMemory> {
    let alloc = rt.alloc();
    let driven = refreshed(alloc, member(alloc, 4)?)?;
    assert!(rt; driven.masks.as_slice() == [15, 15, 15, 15, 15].as_slice());
    let mut me = Fe::ZERO;
    for mind in driven.minds.iter() {
        me = me.add(Fe::ONE);
        assert!(rt; is_on_line(mind, me, 7, 4), "member {}", me.get());
    }
    assert_eq!(rt; me.get(), 4);
    Ok(())
}

// The fourth member is away, so its instances are accepted with 0. The numbers of the other three have the sum
// 3 * lane - 3, so the share of member j is then 7 + lane + 3 * lane * j.
#[test]
fn a_member_that_is_away_adds_nothing(rt: HostRuntime) -> Result<(), OutOfMemory> {
    let alloc = rt.alloc();
    let driven = refreshed(alloc, Refresh::away(1, 4))?;
    assert!(rt; driven.masks.as_slice() == [7, 7, 7, 7, 7].as_slice());
    let mut me = Fe::ZERO;
    for mind in driven.minds.iter() {
        me = me.add(Fe::ONE);
        assert_eq!(rt; mind.has_result(), me.get() < 4, "member {}", me.get());
        assert_eq!(rt;
            is_on_line(mind, me, 0, 3),
            me.get() < 4,
            "member {}",
            me.get()
        );
    }
    assert_eq!(rt; me.get(), 4);
    Ok(())
}

// With a bound of 1 the grids have degree 0, and so one element each.
#[test]
fn a_member_draws_five_elements(rt: HostRuntime) -> Result<(), OutOfMemory> {
    let alloc = rt.alloc();
    let mut chance = Chance::from_seed([0; 32]);
    let member = Refresh::<4>::new(alloc, 1, 3, old(3), &mut chance)?;
    assert!(rt; !member.has_result());
    let mut plain = Chance::from_seed([0; 32]);
    for _element in 0..5 {
        plain.draw();
    }
    assert_eq!(rt; chance.draw().get(), plain.draw().get());
    Ok(())
}

#[test]
fn laws_on_minds_hold_of_refreshes() {
    laws::refreshes_go_like_members::<4>();
    members::laws::minds_end_as_their_play::<Refresh<4>>();
    members::laws::minds_stay_in_the_masks::<Refresh<4>>();
    machines::laws::minds_go_like_their_machines::<Refresh<4>, Refresh<4>>();
}
