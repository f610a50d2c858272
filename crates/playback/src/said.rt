//! What a recorded phase tells of a seat that is down.

ghost use Rattle.std.specs.Prelude.{◌≡◌, ℕ, map, IfOk};
ghost use Rattle.talk.specs.Shape.{seats};
ghost use Rattle.plays.specs.Said.{points_up_to};
ghost use Rattle.playback.specs.Recorded.{is_item, said_post, said_ring};

use crate::phase::SaidItem;
use lists::{OutOfMemory, TryCopy};
use std::alloc::Global;
use talk::{Post, Ring, RingList, Setting};

// What a seat posted in a round.
pub(crate) fn said_post(
    alloc: Global,
    said: &[SaidItem],
    round: u32,
    seat: u32,
) -> Result<Post, OutOfMemory>
    ensures { IfOk result (λ p. p ≡ said_post said.now round seat) }
{
    for item in said {
        if is_item(item, round, seat, 0) {
            return item.post.copy(alloc);
        }
    }
    Ok(Post::Quiet)
}

// What a seat sent to another in a round.
fn said_ring(
    alloc: Global,
    said: &[SaidItem],
    round: u32,
    seat: u32,
    to: u32,
) -> Result<Ring, OutOfMemory>
    ensures { IfOk result (λ r. r ≡ said_ring said.now round seat to) }
{
    for item in said {
        if is_item(item, round, seat, to) {
            return item.ring.copy(alloc);
        }
    }
    Ok(Ring::Nothing)
}

// What a seat sent to each seat in a round.
pub(crate) fn said_rings(
    alloc: Global,
    said: &[SaidItem],
    round: u32,
    seat: u32,
    setting: &Setting,
) -> Result<RingList, OutOfMemory>
    ensures { IfOk result (λ l. l ≡ map (said_ring said.now round seat) (points_up_to (seats setting.now))) }
{
    let mut rings = RingList::new(alloc);
    for to in 1..setting.seats() + 1 {
        rings.push(said_ring(alloc, said, round, seat, to)?)?;
    }
    Ok(rings)
}

// Whether the item tells of this round, seat and receiving seat.
fn is_item(item: &SaidItem, round: u32, seat: u32, to: u32) -> bool
    ensures { result ≡ is_item round seat to item.now }
{
    item.round == round && item.seat == seat && item.to == to
}
