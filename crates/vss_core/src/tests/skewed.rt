//! What becomes of a row that is sent wrong. Of four members with bound 1, dealer 2 sends receiver 1 in each lane a row
//! whose constant is 5 too big. All else that it does is honest. The other dealers are silent: what they send reads as
//! `Nothing`, so that everybody holds zeros of them.
//!
//! In lane k dealer 2 has the grid S (x, y) = (7 + k) + 2 y + x + 3 x y. So the row of receiver 1 is
//! S (x, 1) = (9 + k) + 4 x, its column is S (1, y) = (8 + k) + 5 y, and the row that it is sent is (14 + k) + 4 x.

ghost use Rattle.std.specs.Prelude.{◌≡◌, IfOk};
ghost use Rattle.talk.specs.Shape.{seats, instances};
ghost use Rattle.vss_core.specs.States.{FiveGrids, IsReceiver, RoundPosts};

use super::*;
use bivar61::{Grid, GridList};

// The grids of dealer 2.
fn grids(alloc: Global) -> Result<GridList, OutOfMemory>
    ensures { IfOk result (FiveGrids 1) }
{
    let mut list = GridList::new(alloc);
    for lane in 0..5 {
        let constant = Fe::reduce(7 + lane);
        let others = (Fe::reduce(2), Fe::reduce(1), Fe::reduce(3));
        let grid = Grid::from_elements(alloc, 1, &[constant, others.0, others.1, others.2])?;
        list.push(grid)?;
    }
    Ok(list)
}

// Dealer 2 of four members with bound 1.
fn dealer_two(alloc: Global) -> Result<Dealer, OutOfMemory>
    ensures four { IfOk result (λ d. seats d.shape ≡ 4) }
    ensures all { IfOk result (λ d. d.shape.receivers ≡ 4) }
    ensures instances { IfOk result (λ d. instances d.shape ≡ 20) }
{
    Ok(Dealer::new(Setting::create(4, 1), 2, grids(alloc)?))
}

// The message of the first round to a receiver, with the constants of the rows changed: a lane has the two coefficients
// of its row, then those of its column.
fn skewed(alloc: Global, honest: &FeList) -> Result<FeList, OutOfMemory> {
    let five = Fe::reduce(5);
    let mut list = FeList::new(alloc);
    for (k, element) in honest.as_slice().iter().enumerate() {
        let sent = if k % 4 == 0 {
            element.add(five)
        } else {
            *element
        };
        list.push(sent)?;
    }
    Ok(list)
}

// What dealer 2 sends to a receiver in the first round.
fn sent_by_two(alloc: Global, dealer: &Dealer, to: u32) -> Result<Ring, OutOfMemory>
    requires { IsReceiver dealer.now.shape to }
{
    let honest = dealer.deal_for(alloc, to)?;
    match to {
        1 => Ok(Ring::Dealt {
            list: skewed(alloc, &honest)?,
        }),
        2 => Ok(Ring::Nothing),
        _ => Ok(Ring::Dealt { list: honest }),
    }
}

// A receiver after the first round. Receiver 2 hears of its own dealer.
fn dealt(alloc: Global, dealer: &Dealer, me: u32) -> Result<Dealt, OutOfMemory>
    requires four { seats dealer.now.shape ≡ 4 }
    requires receiver { IsReceiver dealer.now.shape me }
    ensures { IfOk result (λ d. (d.shape ≡ dealer.now.shape) × (d.me ≡ me)) }
{
    let s = dealer.setting();
    let sent = sent_by_two(alloc, dealer, me)?;
    let items = (Ring::Nothing, sent, Ring::Nothing, Ring::Nothing);
    let rings = four_rings(alloc, s, 1, me, items)?;
    let own = if me == 2 { Some(dealer) } else { None };
    let Ok(dealt) = Ready::new(*s, me).hear_deals(alloc, &rings, own) else {
        return Err(OutOfMemory);
    };
    Ok(dealt)
}

// The message of the second round from one receiver to another, none to itself.
fn cross_from(alloc: Global, dealer: &Dealer, from: u32, to: u32) -> Result<Ring, OutOfMemory>
    requires four { seats dealer.now.shape ≡ 4 }
    requires from { IsReceiver dealer.now.shape from }
    requires to { IsReceiver dealer.now.shape to }
{
    if from == to {
        return Ok(Ring::Nothing);
    }
    cross(alloc, &dealt(alloc, dealer, from)?, to)
}

// A receiver after the second round.
fn crossed(alloc: Global, dealer: &Dealer, me: u32) -> Result<Crossed, OutOfMemory>
    requires four { seats dealer.now.shape ≡ 4 }
    requires all { dealer.now.shape.receivers ≡ 4 }
    requires receiver { IsReceiver dealer.now.shape me }
    ensures { IfOk result (λ d. d.shape ≡ dealer.now.shape) }
{
    let items = (
        cross_from(alloc, dealer, 1, me)?,
        cross_from(alloc, dealer, 2, me)?,
        cross_from(alloc, dealer, 3, me)?,
        cross_from(alloc, dealer, 4, me)?,
    );
    let before = dealt(alloc, dealer, me)?;
    hear_second(alloc, dealer.setting(), me, before, items)
}

// A receiver's post of the third round.
fn complaints_of(alloc: Global, dealer: &Dealer, me: u32) -> Result<Post, OutOfMemory>
    requires four { seats dealer.now.shape ≡ 4 }
    requires all { dealer.now.shape.receivers ≡ 4 }
    requires receiver { IsReceiver dealer.now.shape me }
{
    complaints(alloc, &crossed(alloc, dealer, me)?)
}

// The posts of the third round.
fn third(alloc: Global, dealer: &Dealer) -> Result<PostList, OutOfMemory>
    requires four { seats dealer.now.shape ≡ 4 }
    requires all { dealer.now.shape.receivers ≡ 4 }
    ensures { IfOk result (λ l. RoundPosts dealer.now.shape 3 l) }
{
    let posts = (
        complaints_of(alloc, dealer, 1)?,
        complaints_of(alloc, dealer, 2)?,
        complaints_of(alloc, dealer, 3)?,
        complaints_of(alloc, dealer, 4)?,
    );
    four_posts(alloc, dealer.setting(), 3, posts)
}

// The posts of the fourth round: dealer 2's reveals.
fn fourth(alloc: Global, dealer: &Dealer) -> Result<PostList, OutOfMemory>
    requires four { seats dealer.now.shape ≡ 4 }
    requires all { dealer.now.shape.receivers ≡ 4 }
    ensures { IfOk result (λ l. RoundPosts dealer.now.shape 4 l) }
{
    let reveals = Post::Reveals {
        list: dealer.reveals(alloc, &third(alloc, dealer)?)?,
    };
    let posts = (Post::Quiet, reveals, Post::Quiet, Post::Quiet);
    four_posts(alloc, dealer.setting(), 4, posts)
}

// A receiver after the fourth round.
fn revealed(alloc: Global, dealer: &Dealer, me: u32) -> Result<Revealed, OutOfMemory>
    requires four { seats dealer.now.shape ≡ 4 }
    requires all { dealer.now.shape.receivers ≡ 4 }
    requires receiver { IsReceiver dealer.now.shape me }
    ensures { IfOk result (λ d. d.shape ≡ dealer.now.shape) }
{
    let before = crossed(alloc, dealer, me)?;
    let third = third(alloc, dealer)?;
    let fourth = fourth(alloc, dealer)?;
    hear_fourth(alloc, dealer.setting(), before, &third, &fourth)
}

// A receiver's post of the fifth round.
fn votes_of(alloc: Global, dealer: &Dealer, me: u32) -> Result<Post, OutOfMemory>
    requires four { seats dealer.now.shape ≡ 4 }
    requires all { dealer.now.shape.receivers ≡ 4 }
    requires receiver { IsReceiver dealer.now.shape me }
{
    votes(alloc, &revealed(alloc, dealer, me)?)
}

// A receiver after the votes.
fn done(alloc: Global, dealer: &Dealer, me: u32) -> Result<Done, OutOfMemory>
    requires four { seats dealer.now.shape ≡ 4 }
    requires all { dealer.now.shape.receivers ≡ 4 }
    requires receiver { IsReceiver dealer.now.shape me }
    ensures { IfOk result (λ d. instances d.shape ≡ instances dealer.now.shape) }
{
    let posts = (
        votes_of(alloc, dealer, 1)?,
        votes_of(alloc, dealer, 2)?,
        votes_of(alloc, dealer, 3)?,
        votes_of(alloc, dealer, 4)?,
    );
    let s = dealer.setting();
    let fifth = four_posts(alloc, s, 5, posts)?;
    hear_fifth(alloc, s, revealed(alloc, dealer, me)?, &fifth)
}

// In each of dealer 2's instances receiver 1 complains of everybody, itself too, and each other receiver of receiver 1.
#[test]
fn the_skewed_row_brings_complaints(rt: HostRuntime) -> Result<(), OutOfMemory> {
    let alloc = rt.alloc();
    let dealer = dealer_two(alloc)?;
    for me in 1..5 {
        let list = crossed(alloc, &dealer, me)?.complaints(alloc)?;
        let of_each = if me == 1 { 4 } else { 1 };
        assert_eq!(rt; list.len(), 5 * of_each);
        for (k, complaint) in list.as_slice().iter().enumerate() {
            assert_eq!(rt; complaint.instance as usize, 5 + k / of_each);
            assert_eq!(rt; complaint.against as usize, 1 + k % of_each);
        }
    }
    Ok(())
}

// Dealer 2 reveals the true pair of receiver 1 in each lane, and no other.
#[test]
fn the_true_pair_is_revealed(rt: HostRuntime) -> Result<(), OutOfMemory> {
    let alloc = rt.alloc();
    let dealer = dealer_two(alloc)?;
    let list = dealer.reveals(alloc, &third(alloc, &dealer)?)?;
    assert_eq!(rt; list.len(), 5);
    for (k, reveal) in list.as_slice().iter().enumerate() {
        let lane = k as u64;
        let row = elements(alloc, &[9 + lane, 4])?;
        let column = elements(alloc, &[8 + lane, 5])?;
        assert_eq!(rt; u64::from(reveal.lane), lane);
        assert_eq!(rt; reveal.receiver, 1);
        assert_eq!(rt; reveal.row.as_slice(), row.as_slice());
        assert_eq!(rt; reveal.column.as_slice(), column.as_slice());
    }
    Ok(())
}

// Receiver 1 votes no on dealer 2's instances, since it is revealed. The others vote yes.
#[test]
fn only_the_revealed_receiver_votes_no(rt: HostRuntime) -> Result<(), OutOfMemory> {
    let alloc = rt.alloc();
    let dealer = dealer_two(alloc)?;
    for me in 1..5 {
        let list = revealed(alloc, &dealer, me)?.votes(alloc)?;
        assert_eq!(rt; list.len(), 20);
        for (i, vote) in list.as_slice().iter().enumerate() {
            assert_eq!(rt; *vote, me != 1 || i / 5 != 1, "receiver {me}, instance {i}");
        }
    }
    Ok(())
}

// Three yes votes of four accept each instance, and receiver 1 ends with its revealed pair.
#[test]
fn the_revealed_pair_is_kept(rt: HostRuntime) -> Result<(), OutOfMemory> {
    let alloc = rt.alloc();
    let dealer = dealer_two(alloc)?;
    let done = done(alloc, &dealer, 1)?;
    for instance in 0..20 {
        assert!(rt; done.accepted(instance));
    }
    for lane in 0..5 {
        let instance = 5 + lane;
        let constant = 9 + u64::from(lane);
        assert_eq!(rt; done.share(instance).get(), constant);
        assert_eq!(rt; done.row(instance).eval(Fe::ONE).get(), constant + 4);
        assert_eq!(rt; done.column(instance).eval(Fe::ZERO).get(), constant - 1);
        assert_eq!(rt; done.column(instance).eval(Fe::ONE).get(), constant + 4);
    }
    Ok(())
}
