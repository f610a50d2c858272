//! What a seat says in a round.

ghost use Rattle.std.specs.Prelude.{◌≡◌, ℕ, ◌+◌, ◌-◌, ◌≤◌, [], cond, get_or, length, IfOk};
ghost use Rattle.sharing61.specs.Rules.{pair_on};
ghost use Rattle.talk.specs.Shape.{deals, seats};
ghost use Rattle.plays.specs.Said.{dealt_list};
ghost use Rattle.plays.specs.Stage.{AtComplained, stage_post, stage_ring};
ghost use Rattle.members.specs.Member.{rings_said};
ghost use Rattle.vss_core.specs.States.{IsReceiver};
ghost use Rattle.sharer.specs.View.{Belongs, DealsOn, IsPlace, grids_of, stage_of};

use crate::at::At;
use crate::place::Place;
use crate::turn::Turn;
use lists::OutOfMemory;
use std::alloc::Global;
use talk::{Post, PostList, Ring, RingList};

// The post of the round.
pub(crate) fn post_of(alloc: Global, place: &Place, at: &At) -> Result<Post, OutOfMemory>
    requires place { IsPlace place.now }
    requires belongs { Belongs place.now.setting place.now.seat at.now }
    ensures { IfOk result
        (λ p. p ≡ stage_post place.now.setting place.now.seat (grids_of place.now.dealer) (stage_of at.now)) }
{
    match at {
        At::Crossed(crossed) => Ok(Post::Complaints {
            list: crossed.complaints(alloc)?,
        }),
        At::Complained(complained) => reveals_of(alloc, place, complained.third()),
        At::Revealed(revealed) => Ok(Post::Votes {
            list: revealed.votes(alloc)?,
        }),
        At::Deals(Turn::Fourth { third }) => reveals_of(alloc, place, third),
        _ => Ok(Post::Quiet),
    }
}

// What the dealer on the seat reveals, where one sits there.
fn reveals_of(alloc: Global, place: &Place, third: &PostList) -> Result<Post, OutOfMemory>
    requires dealer { DealsOn place.now.setting place.now.seat place.now.dealer }
    requires all { length third.now ≡ seats place.now.setting }
    ensures { IfOk result
        (λ p. p ≡ stage_post place.now.setting place.now.seat (grids_of place.now.dealer)
        (AtComplained [] third.now)) }
{
    match &place.dealer {
        Some(dealer) => Ok(Post::Reveals {
            list: dealer.reveals(alloc, third)?,
        }),
        None => Ok(Post::Quiet),
    }
}

// The ring messages of the round, one for each seat.
pub(crate) fn rings_of(alloc: Global, place: &Place, at: &At) -> Result<RingList, OutOfMemory>
    requires place { IsPlace place.now }
    requires belongs { Belongs place.now.setting place.now.seat at.now }
    ensures { IfOk result
        (λ l. l ≡ rings_said place.now.setting place.now.seat (grids_of place.now.dealer) (stage_of at.now)) }
{
    let mut rings = RingList::new(alloc);
    for to in 1..place.setting.seats() + 1 {
        rings.push(ring_for(alloc, place, at, to)?)?;
    }
    Ok(rings)
}

// The ring message of the round to one seat.
fn ring_for(alloc: Global, place: &Place, at: &At, to: u32) -> Result<Ring, OutOfMemory>
    requires place { IsPlace place.now }
    requires belongs { Belongs place.now.setting place.now.seat at.now }
    requires to { (1 ≤ to) × (to ≤ seats place.now.setting) }
    ensures { IfOk result
        (λ r. r ≡ stage_ring place.now.setting place.now.seat (grids_of place.now.dealer) (stage_of at.now) to) }
{
    if to == place.seat || !place.setting.receives(to) {
        return Ok(Ring::Nothing);
    }
    let receiver = to - place.setting.shift();
    match at {
        At::Ready(_) | At::Deals(Turn::First) => deal_for(alloc, place, receiver),
        At::Dealt(dealt) => Ok(Ring::Cross {
            list: dealt.cross_for(alloc, receiver)?,
        }),
        _ => Ok(Ring::Nothing),
    }
}

// What the dealer on the seat deals to a receiver, where one sits there.
fn deal_for(alloc: Global, place: &Place, receiver: u32) -> Result<Ring, OutOfMemory>
    requires dealer { DealsOn place.now.setting place.now.seat place.now.dealer }
    requires receiver { IsReceiver place.now.setting receiver }
    ensures { IfOk result
        (λ r. r ≡ cond (deals place.now.setting place.now.seat)
        (Ring.Dealt
        (dealt_list place.now.setting.degree
        (λ l. pair_on (get_or (grids_of place.now.dealer) l []) receiver))) Ring.Nothing) }
{
    match &place.dealer {
        Some(dealer) => Ok(Ring::Dealt {
            list: dealer.deal_for(alloc, receiver)?,
        }),
        None => Ok(Ring::Nothing),
    }
}
