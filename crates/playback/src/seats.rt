//! The seats of a recorded phase: each that isn't down is a sharer, which goes through the rounds.

ghost use Rattle.std.specs.Prelude.{◌≡◌, ℕ, zero, ◌+◌, ◌-◌, ◌<◌, ◌≤◌, false, map, IfOk, OnOk};
ghost use Rattle.talk.specs.Shape.{Lawful, deals, seats};
ghost use Rattle.talk.specs.Sync.{has};
ghost use Rattle.plays.specs.Said.{points_up_to};
ghost use Rattle.playback.specs.Recorded.{play_of};
ghost use Rattle.playback.specs.Kept.{IsKept};
ghost use Rattle.playback.specs.Playing.{dealt_by_seat, seat_after, seats_after, words_read};

use crate::phase::Phase;
use crate::words::heard_on;
use bivar61::GridList;
use lists::{OutOfMemory, TryCopy};
use sharer::Sharer;
use sizes::LANES;
use std::alloc::Global;
use talk::{Say, in_mask};

// All seats before the first round.
pub(crate) fn begin(alloc: Global, phase: &Phase) -> Result<Vec<Option<Sharer>>, OutOfMemory>
    requires kept { IsKept phase.now }
    requires setting { Lawful phase.now.setting }
    ensures { IfOk result (λ v. v.items ≡ seats_after (play_of phase.now) zero) }
{
    let mut list = Vec::new(alloc);
    for seat in 1..phase.setting.seats() + 1 {
        list.push(fresh(alloc, phase, seat)?)?;
    }
    Ok(list)
}

// A seat before the first round.
fn fresh(alloc: Global, phase: &Phase, seat: u32) -> Result<Option<Sharer>, OutOfMemory>
    requires kept { IsKept phase.now }
    requires setting { Lawful phase.now.setting }
    requires seat { (1 ≤ seat) × (seat ≤ seats phase.now.setting) }
    ensures { IfOk result (λ s. s ≡ seat_after (play_of phase.now) zero seat) }
{
    let _seats = phase.setting.seats();
    if in_mask(phase.down, seat) {
        return Ok(None);
    }
    if phase.setting.deals(seat) {
        let grids = own_grids(alloc, phase, seat)?;
        return Ok(Some(Sharer::dealing(phase.setting, seat, grids)));
    }
    let receiver = seat - phase.setting.shift();
    Ok(Some(Sharer::receiving(phase.setting, receiver)))
}

// The grids that a dealer which isn't down deals, lane by lane.
fn own_grids(alloc: Global, phase: &Phase, dealer: u32) -> Result<GridList, OutOfMemory>
    requires kept { IsKept phase.now }
    requires dealer { (1 ≤ dealer) × (dealer ≤ phase.now.setting.dealers) }
    requires up { has phase.now.down dealer ≡ false }
    ensures { IfOk result (λ l. l ≡ dealt_by_seat (play_of phase.now) dealer) }
{
    let mut list = GridList::new(alloc);
    for lane in 0..LANES {
        list.push(phase.grid(dealer, lane).copy(alloc)?)?;
    }
    Ok(list)
}

// Each seat that isn't down hears what is read in a round.
pub(crate) fn hear_all(
    alloc: Global,
    phase: &Phase,
    states: &mut Vec<Option<Sharer>>,
    words: &[Say],
    round: u32,
) -> Result<(), OutOfMemory>
    requires kept { IsKept phase.now }
    requires setting { Lawful phase.now.setting }
    requires round { (1 ≤ round) × (round ≤ 5) }
    requires words { words.now ≡ words_read (play_of phase.now) round }
    requires states { states.old.items ≡ seats_after (play_of phase.now) (round - 1) }
    ensures { OnOk result (states.new.items ≡ seats_after (play_of phase.now) round) }
{
    let _seats = phase.setting.seats();
    let mut seat = 1;
    for state in states.iter_mut() {
        hear_one(alloc, phase, state, words, round, seat)?;
        seat += 1;
    }
    Ok(())
}

// A seat that isn't down hears it.
fn hear_one(
    alloc: Global,
    phase: &Phase,
    state: &mut Option<Sharer>,
    words: &[Say],
    round: u32,
    seat: u32,
) -> Result<(), OutOfMemory>
    requires kept { IsKept phase.now }
    requires setting { Lawful phase.now.setting }
    requires round { (1 ≤ round) × (round ≤ 5) }
    requires seat { (1 ≤ seat) × (seat ≤ seats phase.now.setting) }
    requires words { words.now ≡ words_read (play_of phase.now) round }
    requires state { state.old ≡ seat_after (play_of phase.now) (round - 1) seat }
    ensures { OnOk result (state.new ≡ seat_after (play_of phase.now) round seat) }
{
    match state {
        Some(sharer) => {
            let heard = heard_on(alloc, phase, words, round, seat)?;
            sharer.hear(alloc, &heard)
        }
        None => Ok(()),
    }
}
