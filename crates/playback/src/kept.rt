//! Whether a recorded phase keeps what every phase has to keep.

ghost use Rattle.std.specs.Prelude.{◌≡◌, ℕ, ◌+◌, ◌*◌, ◌^◌, ◌<◌, ◌≤◌, ◌↔◌, true, length, All};
ghost use Rattle.std.specs.List.{list_all};
ghost use Rattle.bivar61.specs.Grids.{IsGrid};
ghost use Rattle.talk.specs.Shape.{seats, within};
ghost use Rattle.talk.specs.Read.{ascends};
ghost use Rattle.playback.specs.Recorded.{up_to};
ghost use Rattle.playback.specs.Kept.{IsKept, is_nothing, is_quiet, item_before, item_ok, message_ok};

use crate::phase::{Phase, SaidItem};
use bivar61::Grid;
use sizes::LANES;
use talk::{Post, Ring, Setting, all_in, in_mask, ring_ok, shape_ok};

/// Whether a phase keeps what it has to, whatever came before it: no stranger is down, there are five grids of the
/// setting's degree for each dealer that isn't down, and what is said ascends strictly by round, seat and `to`, each item
/// of a seat that is down, in a round of the phase, with one message of the right shape or none.
pub fn is_kept(phase: &Phase) -> bool
    ensures { (result ≡ true) ↔ IsKept phase.now }
{
    let grids = LANES * count_up(phase.down, phase.setting.dealers());
    phase.down <= all_in(&phase.setting)
        && phase.grids.len() == grids as usize
        && are_of_degree(phase.grids.as_slice(), phase.setting.degree())
        && ascend(phase.said.as_slice())
        && all_fit(phase.said.as_slice(), &phase.setting, phase.down)
}

// How many of the dealers 1 to `dealers` aren't down.
pub(crate) fn count_up(down: u32, dealers: u32) -> u32
    requires { dealers ≤ 30 }
    ensures count { result ≡ up_to down dealers }
    ensures few { result ≤ dealers }
{
    let mut count = 0;
    for dealer in 1..dealers + 1 {
        if !in_mask(down, dealer) {
            count += 1;
        }
    }
    count
}

// Whether all grids have this degree.
fn are_of_degree(grids: &[Grid], degree: u32) -> bool
    ensures { (result ≡ true) ↔ All (IsGrid degree) grids.now }
{
    for grid in grids {
        if grid.degree() != degree {
            return false;
        }
    }
    true
}

// Whether the items ascend strictly.
fn ascend(said: &[SaidItem]) -> bool
    ensures { result ≡ ascends item_before said.now }
{
    for place in 1..said.len() {
        if !comes_before(&said[place - 1], &said[place]) {
            return false;
        }
    }
    true
}

// Whether an item comes before another.
fn comes_before(one: &SaidItem, other: &SaidItem) -> bool
    ensures { result ≡ item_before one.now other.now }
{
    one.round < other.round
        || (one.round == other.round
            && (one.seat < other.seat || (one.seat == other.seat && one.to < other.to)))
}

// Whether each item may stand in a phase of this setting with these seats down.
fn all_fit(said: &[SaidItem], setting: &Setting, down: u32) -> bool
    ensures { result ≡ list_all (item_ok setting.now down) said.now }
{
    for item in said {
        if !item_fits(item, setting, down) {
            return false;
        }
    }
    true
}

// Whether the item is of a seat that is down, in a round of the phase, and its messages fit.
fn item_fits(item: &SaidItem, setting: &Setting, down: u32) -> bool
    ensures { result ≡ item_ok setting.now down item.now }
{
    1 <= item.round
        && item.round <= setting.rounds()
        && is_seat(item.seat, setting)
        && in_mask(down, item.seat)
        && messages_fit(item, setting)
}

// Whether the message that the item means has its shape, and the other one says nothing.
fn messages_fit(item: &SaidItem, setting: &Setting) -> bool
    ensures { result ≡ message_ok setting.now item.now }
{
    if item.to == 0 {
        says_nothing(&item.ring) && shape_ok(&item.post, item.round, item.seat, setting)
    } else {
        is_seat(item.to, setting)
            && item.to != item.seat
            && is_quiet(&item.post)
            && ring_ok(&item.ring, item.round, item.seat, item.to, setting)
    }
}

// Whether it is a seat of the setting.
fn is_seat(seat: u32, setting: &Setting) -> bool
    ensures is { result ≡ within 1 seat (seats setting.now) }
    ensures few { result ≡ true → (1 ≤ seat) × (seat ≤ 30) }
{
    1 <= seat && seat <= setting.seats()
}

fn is_quiet(post: &Post) -> bool
    ensures { result ≡ is_quiet post.now }
{
    matches!(post, Post::Quiet)
}

fn says_nothing(ring: &Ring) -> bool
    ensures { result ≡ is_nothing ring.now }
{
    matches!(ring, Ring::Nothing)
}
