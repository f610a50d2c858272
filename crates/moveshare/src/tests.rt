//! Tests of a move from four members to four others, of whom one may be faulty on each side.

ghost use Rattle.std.specs.Prelude.{◌≡◌, ℕ, ◌+◌, ◌≤◌, IfOk, length};
ghost use Rattle.talk.specs.Hears.{Hearing, Seated};
ghost use Rattle.talk.specs.Shape.{move_shape};
ghost use Rattle.bivar61.specs.Grids.{IsGrid};
ghost use Rattle.vss_core.specs.States.{FiveGrids};
ghost use Rattle.moveshare.specs.Minds.{mind_made_for, mind_may};

use super::*;
use bivar61::{Grid, GridList};
use chance61::Chance;
use driver::drive;
use field61::{Fe, FeList};
use lists::OutOfMemory;
use std::alloc::Global;
use talk::{Driven, Setting};

type Mind = MoveMind<4, 4>;

// The grid share + y + 7 * x + 3 * x * y: receiver j gets share + j.
fn grid(alloc: Global, share: u64) -> Result<Grid, OutOfMemory>
    ensures { IfOk result (IsGrid 1) }
{
    let constant = Fe::reduce(share);
    Grid::from_elements(alloc, 1, &[constant, Fe::ONE, Fe::reduce(7), Fe::reduce(3)])
}

// The five grids of an old member with this share in the first lane, and 0 in the others.
fn grids(alloc: Global, share: u64) -> Result<GridList, OutOfMemory>
    ensures { IfOk result (FiveGrids 1) }
{
    let mut list = GridList::new(alloc);
    for lane in 0..5_u32 {
        let constant = if lane == 0 { share } else { 0 };
        list.push(grid(alloc, constant)?)?;
    }
    Ok(list)
}

// The old member with this share, or away.
fn old(alloc: Global, me: u32, share: Option<u64>) -> Result<Mind, OutOfMemory>
    requires { (1 ≤ me) × (me ≤ 4) }
    ensures speaks { IfOk result (λ m. mind_may m 1) }
    ensures made { IfOk result (λ m. mind_made_for m (move_shape 4 1 4 1) me) }
{
    match share {
        Some(share) => {
            let grids = grids(alloc, share)?;
            let mind = MoveOld::with_grids(alloc, 1, me, 4, 1, grids)?;
            Ok(MoveMind::Old(mind))
        }
        None => Ok(MoveMind::Old(MoveOld::away(1, me, 4, 1))),
    }
}

// The new member.
fn new(me: u32) -> Mind
    requires { (1 ≤ me) × (me ≤ 4) }
    ensures speaks { mind_may result 1 }
    ensures made { mind_made_for result (move_shape 4 1 4 1) (4 + me) }
{
    MoveMind::New(MoveNew::new(1, 1, me))
}

// The minds of all eight seats.
fn minds(alloc: Global, shares: &[Option<u64>; 4]) -> Result<Vec<Mind>, OutOfMemory>
    ensures speaks { IfOk result (λ v. Hearing mind_may 1 v.items) }
    ensures made { IfOk result (λ v. Seated mind_made_for (move_shape 4 1 4 1) 1 v.items) }
    ensures all { IfOk result (λ v. length v.items ≡ 8) }
{
    let mut minds = Vec::new(alloc);
    minds.push(old(alloc, 1, shares[0])?)?;
    minds.push(old(alloc, 2, shares[1])?)?;
    minds.push(old(alloc, 3, shares[2])?)?;
    minds.push(old(alloc, 4, shares[3])?)?;
    minds.push(new(1))?;
    minds.push(new(2))?;
    minds.push(new(3))?;
    minds.push(new(4))?;
    Ok(minds)
}

// The move of these shares.
fn moved(alloc: Global, shares: &[Option<u64>; 4]) -> Result<Driven<Mind>, OutOfMemory> {
    let minds = minds(alloc, shares)?;
    let driven = drive(alloc, minds, &Setting::moving(4, 1, 4, 1))?;
    Ok(driven)
}

// What a new member comes to, where it counts all 20 instances as accepted; none of an old member.
fn out_of(alloc: Global, mind: &Mind) -> Result<Option<MoveOut>, OutOfMemory> {
    match mind {
        MoveMind::New(mind) if mind.has_result() && mind.accepted() == 20 => {
            Ok(Some(mind.result(alloc)?))
        }
        _ => Ok(None),
    }
}

// Whether these are the shares of receiver j: 7 + j in the first lane, and j in the others.
fn are_shares(shares: &[Fe; 5], receiver: u64) -> bool {
    let other = Fe::reduce(receiver);
    shares[0] == other.add(Fe::reduce(7))
        && shares[1] == other
        && shares[2] == other
        && shares[3] == other
        && shares[4] == other
}

// Whether each new member comes to its shares, with this mask of the old ones that were corrected.
fn all_have_shares(alloc: Global, minds: &[Mind], mask: u32) -> Result<bool, OutOfMemory> {
    for index in 4..minds.len() {
        let right = match out_of(alloc, &minds[index])? {
            Some(MoveOut::Shares { shares, corrected }) => {
                corrected == mask && are_shares(&shares, index as u64 - 3)
            }
            _ => false,
        };
        if !right {
            return Ok(false);
        }
    }
    Ok(minds.len() == 8)
}

// Whether the list holds exactly these numbers.
fn holds(list: &FeList, numbers: &[u64]) -> bool {
    list.len() == numbers.len()
        && list
            .as_slice()
            .iter()
            .zip(numbers.iter())
            .all(|(a, b)| a.get() == *b)
}

// 10, 13, 16 and 19 are the values of 7 + 3 * i. With the grids' coefficients of y, new member j has 7 + j.
#[test]
fn the_error_of_one_old_share_is_taken_off(rt: HostRuntime) -> Result<(), OutOfMemory> {
    let alloc = rt.alloc();
    let driven = moved(alloc, &[Some(11), Some(13), Some(16), Some(19)])?;
    assert!(rt; driven.masks.as_slice() == [255, 255, 255, 255, 255, 255].as_slice());
    let right = all_have_shares(alloc, driven.minds.as_slice(), 1)?;
    assert!(rt; right);
    Ok(())
}

// The instances of who is away count as sharings of 0, which is wrong by 19.
#[test]
fn who_is_away_is_corrected(rt: HostRuntime) -> Result<(), OutOfMemory> {
    let alloc = rt.alloc();
    let driven = moved(alloc, &[Some(10), Some(13), Some(16), None])?;
    assert!(rt; driven.masks.as_slice() == [247, 247, 247, 247, 247, 247].as_slice());
    let right = all_have_shares(alloc, driven.minds.as_slice(), 8)?;
    assert!(rt; right);
    Ok(())
}

// The syndrome of 11, 14, 16 and 19 is a third and five sixths.
#[test]
fn two_wrong_old_shares_leave_no_result(rt: HostRuntime) -> Result<(), OutOfMemory> {
    let alloc = rt.alloc();
    let driven = moved(alloc, &[Some(11), Some(14), Some(16), Some(19)])?;
    let named = match driven.minds.last() {
        Some(mind) => match out_of(alloc, mind)? {
            Some(MoveOut::NoWord { lane: 0, syndrome }) => {
                holds(&syndrome, &[1537228672809129301, 384307168202282326])
            }
            _ => false,
        },
        None => false,
    };
    assert!(rt; named);
    Ok(())
}

// The constants are its shares, and aren't drawn.
#[test]
fn an_old_member_draws_fifteen_elements(rt: HostRuntime) -> Result<(), OutOfMemory> {
    let alloc = rt.alloc();
    let mut chance = Chance::from_seed([0; 32]);
    let member = MoveOld::<4>::new(alloc, 1, 3, 4, 1, [Fe::ONE; 5], &mut chance);
    assert!(rt; member.is_ok());
    let mut plain = Chance::from_seed([0; 32]);
    for _element in 0..15 {
        plain.draw();
    }
    assert_eq!(rt; chance.draw().get(), plain.draw().get());
    Ok(())
}

#[test]
fn laws_on_movers_hold_of_these_minds() {
    periods::laws::minds_end_as_their_move::<Mind>();
    periods::laws::movers_stay_in_the_masks::<Mind>();
    laws::minds_of_a_move_go_like_movers();
    laws::members_come_to_what_their_play_defines();
}
