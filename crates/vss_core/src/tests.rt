//! Tests of the steps: worked examples with committees of four, bound 1.

ghost use Rattle.std.specs.Prelude.{◌≡◌, ◌≤◌, IfOk};
ghost use Rattle.talk.specs.Shape.{seats, instances};
ghost use Rattle.vss_core.specs.States.{IsReceiver, RoundPosts, RoundRings};

mod skewed;

use super::*;
use field61::{Fe, FeList, P};
use lists::OutOfMemory;
use std::alloc::Global;
use talk::{
    Post, PostList, Reveal, RevealList, Ring, RingList, Setting, VoteList, as_read, ring_as_read,
};

fn elements(alloc: Global, numbers: &[u64]) -> Result<FeList, OutOfMemory> {
    let mut list = FeList::new(alloc);
    for number in numbers {
        list.push(Fe::reduce(*number))?;
    }
    Ok(list)
}

// The posts of the four seats in a round, as read.
#[tactic(auto, using(talk::proofs::Fit::read_ok))]
fn four_posts(
    alloc: Global,
    setting: &Setting,
    round: u32,
    posts: (Post, Post, Post, Post),
) -> Result<PostList, OutOfMemory>
    requires { seats setting.now ≡ 4 }
    ensures { IfOk result (λ l. RoundPosts setting.now round l) }
{
    let mut list = PostList::new(alloc);
    list.push(as_read(posts.0, round, 1, setting))?;
    list.push(as_read(posts.1, round, 2, setting))?;
    list.push(as_read(posts.2, round, 3, setting))?;
    list.push(as_read(posts.3, round, 4, setting))?;
    Ok(list)
}

// The ring messages of the four seats to receiver `me` in a round, as read.
#[tactic(auto, using(talk::proofs::Fit::ring_read_ok))]
fn four_rings(
    alloc: Global,
    setting: &Setting,
    round: u32,
    me: u32,
    items: (Ring, Ring, Ring, Ring),
) -> Result<RingList, OutOfMemory>
    requires four { seats setting.now ≡ 4 }
    requires receiver { IsReceiver setting.now me }
    ensures { IfOk result (λ l. RoundRings setting.now round me l) }
{
    let to = setting.seat_of(me);
    let mut list = RingList::new(alloc);
    list.push(ring_as_read(items.0, round, 1, to, setting))?;
    list.push(ring_as_read(items.1, round, 2, to, setting))?;
    list.push(ring_as_read(items.2, round, 3, to, setting))?;
    list.push(ring_as_read(items.3, round, 4, to, setting))?;
    Ok(list)
}

// A receiver to whom dealer 4 deals a row and a column of degree 1 in lane 0, zeros in the others, and nobody else
// deals anything.
fn deal_to(alloc: Global, setting: &Setting, me: u32, pair: [u64; 4]) -> Result<Dealt, OutOfMemory>
    requires four { seats setting.now ≡ 4 }
    requires receiver { IsReceiver setting.now me }
    ensures same { IfOk result (λ d. (d.shape ≡ setting.now) × (d.me ≡ me)) }
    ensures receivers { IfOk result (λ d. d.shape.receivers ≡ setting.now.receivers) }
{
    let mut list = elements(alloc, &pair)?;
    for _ in 0..16 {
        list.push(Fe::ZERO)?;
    }
    let items = (
        Ring::Nothing,
        Ring::Nothing,
        Ring::Nothing,
        Ring::Dealt { list },
    );
    let rings = four_rings(alloc, setting, 1, me, items)?;
    let Ok(dealt) = Ready::new(*setting, me).hear_deals(alloc, &rings, None) else {
        return Err(OutOfMemory);
    };
    Ok(dealt)
}

// The message of the second round from one receiver to another.
fn cross(alloc: Global, from: &Dealt, to: u32) -> Result<Ring, OutOfMemory>
    requires { IsReceiver from.now.shape to }
{
    Ok(Ring::Cross {
        list: from.cross_for(alloc, to)?,
    })
}

// The receiver after the second round.
fn hear_second(
    alloc: Global,
    setting: &Setting,
    me: u32,
    dealt: Dealt,
    items: (Ring, Ring, Ring, Ring),
) -> Result<Crossed, OutOfMemory>
    requires four { seats setting.now ≡ 4 }
    requires receiver { IsReceiver setting.now me }
    requires same { (dealt.shape ≡ setting.now) × (dealt.me ≡ me) }
    ensures { IfOk result (λ d. d.shape ≡ setting.now) }
{
    let rings = four_rings(alloc, setting, 2, me, items)?;
    let Ok(crossed) = dealt.hear_crosses(alloc, &rings) else {
        return Err(OutOfMemory);
    };
    Ok(crossed)
}

// The receiver after the fourth round.
fn hear_fourth(
    alloc: Global,
    setting: &Setting,
    crossed: Crossed,
    third: &PostList,
    fourth: &PostList,
) -> Result<Revealed, OutOfMemory>
    requires same { crossed.shape ≡ setting.now }
    requires third { RoundPosts setting.now 3 third.now }
    requires fourth { RoundPosts setting.now 4 fourth.now }
    ensures { IfOk result (λ d. d.shape ≡ setting.now) }
{
    let Ok(complained) = crossed.hear_complaints(alloc, third) else {
        return Err(OutOfMemory);
    };
    let Ok(revealed) = complained.hear_reveals(alloc, fourth) else {
        return Err(OutOfMemory);
    };
    Ok(revealed)
}

// The receiver after the votes.
fn hear_fifth(
    alloc: Global,
    setting: &Setting,
    revealed: Revealed,
    fifth: &PostList,
) -> Result<Done, OutOfMemory>
    requires same { revealed.shape ≡ setting.now }
    requires fifth { RoundPosts setting.now 5 fifth.now }
    ensures { IfOk result (λ d. instances d.shape ≡ instances setting.now) }
{
    let Ok(done) = revealed.hear_votes(alloc, fifth) else {
        return Err(OutOfMemory);
    };
    Ok(done)
}

fn complaints(alloc: Global, crossed: &Crossed) -> Result<Post, OutOfMemory> {
    Ok(Post::Complaints {
        list: crossed.complaints(alloc)?,
    })
}

fn votes(alloc: Global, revealed: &Revealed) -> Result<Post, OutOfMemory> {
    Ok(Post::Votes {
        list: revealed.votes(alloc)?,
    })
}

// Dealer 4 deals pairs whose values agree wherever two receivers meet, and which lie on no grid of degree 1: each
// receiver's row and column differ at its own point. Each complains of itself, so the instance is not accepted.
#[test]
fn pairs_that_only_differ_from_themselves_are_not_accepted(
    rt: HostRuntime,
) -> Result<(), OutOfMemory> {
    let alloc = rt.alloc();
    let s = Setting::create(4, 1);
    let one = deal_to(alloc, &s, 1, [0, 0, P - 4, 2])?;
    let two = deal_to(alloc, &s, 2, [0, 0, P - 1, 1])?;
    let three = deal_to(alloc, &s, 3, [2, 0, 0, 0])?;
    let to_one = (
        Ring::Nothing,
        cross(alloc, &two, 1)?,
        cross(alloc, &three, 1)?,
        Ring::Nothing,
    );
    let to_two = (
        cross(alloc, &one, 2)?,
        Ring::Nothing,
        cross(alloc, &three, 2)?,
        Ring::Nothing,
    );
    let to_three = (
        cross(alloc, &one, 3)?,
        cross(alloc, &two, 3)?,
        Ring::Nothing,
        Ring::Nothing,
    );
    let one = hear_second(alloc, &s, 1, one, to_one)?;
    let two = hear_second(alloc, &s, 2, two, to_two)?;
    let three = hear_second(alloc, &s, 3, three, to_three)?;
    for (me, crossed) in [(1, &one), (2, &two), (3, &three)] {
        let list = crossed.complaints(alloc)?;
        let mut of_dealer_four = list.as_slice().iter().filter(|c| c.instance == 15);
        assert!(rt; of_dealer_four.next().is_some_and(|c| c.against == me));
        assert!(rt; of_dealer_four.next().is_some_and(|c| c.against == 4));
        assert!(rt; of_dealer_four.next().is_none());
    }
    let third = four_posts(
        alloc,
        &s,
        3,
        (
            complaints(alloc, &one)?,
            complaints(alloc, &two)?,
            complaints(alloc, &three)?,
            Post::Quiet,
        ),
    )?;
    let fourth = four_posts(
        alloc,
        &s,
        4,
        (Post::Quiet, Post::Quiet, Post::Quiet, Post::Quiet),
    )?;
    let one = hear_fourth(alloc, &s, one, &third, &fourth)?;
    let two = hear_fourth(alloc, &s, two, &third, &fourth)?;
    let three = hear_fourth(alloc, &s, three, &third, &fourth)?;
    let fifth = four_posts(
        alloc,
        &s,
        5,
        (
            votes(alloc, &one)?,
            votes(alloc, &two)?,
            votes(alloc, &three)?,
            Post::Quiet,
        ),
    )?;
    let done = hear_fifth(alloc, &s, three, &fifth)?;
    for instance in 0..20 {
        assert_eq!(rt;
            done.accepted(instance),
            instance != 15,
            "instance {instance}"
        );
        assert_eq!(rt; done.share(instance).get(), 0, "instance {instance}");
    }
    Ok(())
}

fn zeros(alloc: Global, setting: &Setting, me: u32) -> Result<Dealt, OutOfMemory>
    requires four { seats setting.now ≡ 4 }
    requires receiver { IsReceiver setting.now me }
    ensures { IfOk result (λ d. (d.shape ≡ setting.now) × (d.me ≡ me)) }
{
    let nothing = (Ring::Nothing, Ring::Nothing, Ring::Nothing, Ring::Nothing);
    let rings = four_rings(alloc, setting, 1, me, nothing)?;
    let Ok(dealt) = Ready::new(*setting, me).hear_deals(alloc, &rings, None) else {
        return Err(OutOfMemory);
    };
    Ok(dealt)
}

// The votes of a receiver that says yes to everything.
fn all_yes(alloc: Global) -> Result<Post, OutOfMemory> {
    let mut list = VoteList::new(alloc);
    for _ in 0..20 {
        list.push(true)?;
    }
    Ok(Post::Votes { list })
}

// The reveal of a pair of receiver 2 in lane 0: the row x - 1 and the column 0.
fn false_reveal(alloc: Global) -> Result<Post, OutOfMemory> {
    let mut list = RevealList::new(alloc);
    list.push(Reveal {
        lane: 0,
        receiver: 2,
        row: elements(alloc, &[P - 1, 1])?,
        column: elements(alloc, &[0, 0])?,
    })?;
    Ok(Post::Reveals { list })
}

// Receiver `me`, 1 or 2, after the second round, with what the other of the two says: both hold zeros alone.
fn crossed_zeros(
    alloc: Global,
    setting: &Setting,
    me: u32,
    other: u32,
) -> Result<Crossed, OutOfMemory>
    requires four { seats setting.now ≡ 4 }
    requires receiver { IsReceiver setting.now me }
    requires other { IsReceiver setting.now other }
    ensures { IfOk result (λ d. d.shape ≡ setting.now) }
{
    let dealt = zeros(alloc, setting, me)?;
    let said = cross(alloc, &zeros(alloc, setting, other)?, me)?;
    let items = if other == 1 {
        (said, Ring::Nothing, Ring::Nothing, Ring::Nothing)
    } else {
        (Ring::Nothing, said, Ring::Nothing, Ring::Nothing)
    };
    hear_second(alloc, setting, me, dealt, items)
}

// The posts of the third round. In each instance 1 and 2 complain of 3 and 4, of whom they hear nothing, and nobody
// complains of 1 or 2; 3 and 4 post nothing.
fn zeros_third(alloc: Global, setting: &Setting) -> Result<PostList, OutOfMemory>
    requires four { seats setting.now ≡ 4 }
    requires all { setting.now.receivers ≡ 4 }
    ensures { IfOk result (λ l. RoundPosts setting.now 3 l) }
{
    let one = complaints(alloc, &crossed_zeros(alloc, setting, 1, 2)?)?;
    let two = complaints(alloc, &crossed_zeros(alloc, setting, 2, 1)?)?;
    four_posts(alloc, setting, 3, (one, two, Post::Quiet, Post::Quiet))
}

// Receiver `me` after the fourth round, in which dealer 4 reveals a false pair of receiver 2.
fn revealed_zeros(alloc: Global, setting: &Setting, me: u32) -> Result<Revealed, OutOfMemory>
    requires four { seats setting.now ≡ 4 }
    requires all { setting.now.receivers ≡ 4 }
    requires receiver { (1 ≤ me) × (me ≤ 2) }
    ensures { IfOk result (λ d. d.shape ≡ setting.now) }
{
    let crossed = crossed_zeros(alloc, setting, me, 3 - me)?;
    let third = zeros_third(alloc, setting)?;
    let reveal = false_reveal(alloc)?;
    let fourth = four_posts(
        alloc,
        setting,
        4,
        (Post::Quiet, Post::Quiet, Post::Quiet, reveal),
    )?;
    hear_fourth(alloc, setting, crossed, &third, &fourth)
}

// The posts of the last round: the votes of 1 and 2, and yes to everything by 3 and 4.
fn zeros_fifth(alloc: Global, setting: &Setting) -> Result<PostList, OutOfMemory>
    requires four { seats setting.now ≡ 4 }
    requires all { setting.now.receivers ≡ 4 }
    ensures { IfOk result (λ l. RoundPosts setting.now 5 l) }
{
    let one = votes(alloc, &revealed_zeros(alloc, setting, 1)?)?;
    let two = votes(alloc, &revealed_zeros(alloc, setting, 2)?)?;
    four_posts(
        alloc,
        setting,
        5,
        (one, two, all_yes(alloc)?, all_yes(alloc)?),
    )
}

// The limit of agreement: of four receivers with bound 1 two are faulty, 3 and 4, and 4 deals. Everybody holds zeros.
// Dealer 4 reveals a pair of receiver 2 that agrees with what receiver 1 holds, and 3 and 4 vote yes. The instance is
// accepted, and the revealed pair differs from itself at its own point, so it is on no grid.
#[test]
fn two_faulty_receivers_of_four_break_agreement(rt: HostRuntime) -> Result<(), OutOfMemory> {
    let alloc = rt.alloc();
    let s = Setting::create(4, 1);
    let two = revealed_zeros(alloc, &s, 2)?;
    let fifth = zeros_fifth(alloc, &s)?;
    let done = hear_fifth(alloc, &s, two, &fifth)?;
    let own = Fe::reduce(2);
    assert!(rt; done.accepted(15));
    assert_eq!(rt; done.row(15).eval(own).get(), 1);
    assert_eq!(rt; done.column(15).eval(own).get(), 0);
    Ok(())
}
