//! How a seat goes from one round to the next.

ghost use Rattle.std.specs.Prelude.{◌≡◌, ℕ};
ghost use Rattle.sharer.specs.Sharer.{MayHear};
ghost use Rattle.sharer.specs.View.{Belongs, IsPlace, StepsTo, member_in};

use crate::at::At;
use crate::place::Place;
use crate::turn::Turn;
use std::alloc::Global;
use talk::Heard;
use vss_core::{Complained, Crossed, Dealt, Ready, Revealed};

// The state after hearing a round. Where memory is wanting, the old state comes back.
pub(crate) fn next(alloc: Global, at: At, place: &Place, heard: &Heard) -> Result<At, At>
    requires belongs { Belongs place.now.setting place.now.seat at }
    requires may { MayHear (member_in place.now at) heard.now }
    ensures { StepsTo place.now heard.now at result }
{
    match at {
        At::Ready(ready) => first(alloc, ready, place, heard),
        At::Dealt(dealt) => second(alloc, dealt, place, heard),
        At::Crossed(crossed) => third(alloc, crossed, place, heard),
        At::Complained(complained) => fourth(alloc, complained, place, heard),
        At::Revealed(revealed) => fifth(alloc, revealed, place, heard),
        At::Deals(turn) => deals(alloc, turn, place, heard),
        done => Ok(done),
    }
}

// Hears the deals, its own dealer's among them.
fn first(alloc: Global, ready: Ready, place: &Place, heard: &Heard) -> Result<At, At>
    requires belongs { Belongs place.now.setting place.now.seat (At.Ready ready) }
    requires may { MayHear (member_in place.now (At.Ready ready)) heard.now }
    ensures { StepsTo place.now heard.now (At.Ready ready) result }
{
    match ready.hear_deals(alloc, &heard.rings, place.dealer.as_ref()) {
        Ok(dealt) => Ok(At::Dealt(dealt)),
        Err(kept) => Err(At::Ready(kept.state)),
    }
}

// Hears the crossing pairs.
fn second(alloc: Global, dealt: Dealt, place: &Place, heard: &Heard) -> Result<At, At>
    requires belongs { Belongs place.now.setting place.now.seat (At.Dealt dealt) }
    requires may { MayHear (member_in place.now (At.Dealt dealt)) heard.now }
    ensures { StepsTo place.now heard.now (At.Dealt dealt) result }
{
    match dealt.hear_crosses(alloc, &heard.rings) {
        Ok(crossed) => Ok(At::Crossed(crossed)),
        Err(kept) => Err(At::Dealt(kept.state)),
    }
}

// Hears the complaints.
fn third(alloc: Global, crossed: Crossed, place: &Place, heard: &Heard) -> Result<At, At>
    requires belongs { Belongs place.now.setting place.now.seat (At.Crossed crossed) }
    requires may { MayHear (member_in place.now (At.Crossed crossed)) heard.now }
    ensures { StepsTo place.now heard.now (At.Crossed crossed) result }
{
    match crossed.hear_complaints(alloc, &heard.posts) {
        Ok(complained) => Ok(At::Complained(complained)),
        Err(kept) => Err(At::Crossed(kept.state)),
    }
}

// Hears the reveals.
fn fourth(alloc: Global, complained: Complained, place: &Place, heard: &Heard) -> Result<At, At>
    requires belongs { Belongs place.now.setting place.now.seat (At.Complained complained) }
    requires may { MayHear (member_in place.now (At.Complained complained)) heard.now }
    ensures { StepsTo place.now heard.now (At.Complained complained) result }
{
    match complained.hear_reveals(alloc, &heard.posts) {
        Ok(revealed) => Ok(At::Revealed(revealed)),
        Err(kept) => Err(At::Complained(kept.state)),
    }
}

// Hears the votes.
fn fifth(alloc: Global, revealed: Revealed, place: &Place, heard: &Heard) -> Result<At, At>
    requires belongs { Belongs place.now.setting place.now.seat (At.Revealed revealed) }
    requires may { MayHear (member_in place.now (At.Revealed revealed)) heard.now }
    ensures { StepsTo place.now heard.now (At.Revealed revealed) result }
{
    match revealed.hear_votes(alloc, &heard.posts) {
        Ok(done) => Ok(At::Done(done)),
        Err(kept) => Err(At::Revealed(kept.state)),
    }
}

// Hears a round on a seat that only deals.
fn deals(alloc: Global, turn: Turn, place: &Place, heard: &Heard) -> Result<At, At>
    requires belongs { Belongs place.now.setting place.now.seat (At.Deals turn) }
    requires may { MayHear (member_in place.now (At.Deals turn)) heard.now }
    ensures { StepsTo place.now heard.now (At.Deals turn) result }
{
    match turn.next(alloc, heard) {
        Ok(turn) => Ok(At::Deals(turn)),
        Err(turn) => Err(At::Deals(turn)),
    }
}
