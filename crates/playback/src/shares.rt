//! The shares that a played phase leaves.

ghost use Rattle.std.specs.Prelude.{◌≡◌, ℕ, ◌+◌, ◌-◌, ◌<◌, ◌≤◌, List, [], get_or, length, IfOk};
ghost use Rattle.algebra61.specs.Field.{Fp};
ghost use Rattle.talk.specs.Shape.{Lawful, seats};
ghost use Rattle.plays.specs.Play.{created_share};
ghost use Rattle.periods.specs.Refresh.{refreshed_share};
ghost use Rattle.periods.specs.Move.{syndromes_heard, HaveErrors, IsMove, moved_share};
ghost use Rattle.histories61.specs.Phases.{receivers_down};
ghost use Rattle.playback.specs.Recorded.{play_of};
ghost use Rattle.playback.specs.Kept.{IsKept};
ghost use Rattle.playback.specs.Playing.{seat_after};
ghost use Rattle.playback.specs.Shares.{AreMoved, HasBefore, IsPlayed, refreshed_of, shares_at, shares_by, sums_of};

use crate::phase::Phase;
use crate::played::Played;
use field61::Fe;
use lists::OutOfMemory;
use moveshare::{LaneFault, LaneList, lane_errors, shares_without};
use sharer::Sharer;
use std::alloc::Global;

/// The shares that a phase creates, by index.
pub fn created_shares(
    alloc: Global,
    phase: &Phase,
    played: &Played,
) -> Result<Vec<Option<[Fe; 5]>>, OutOfMemory>
    requires kept { IsKept phase.now }
    requires setting { Lawful phase.now.setting }
    requires played { IsPlayed (play_of phase.now) played.now }
    ensures { IfOk result (λ v. v.items ≡ shares_by (play_of phase.now) (created_share (play_of phase.now))) }
{
    let mut list = Vec::new(alloc);
    for receiver in 1..phase.setting.receivers() + 1 {
        list.push(created_at(phase, played, receiver))?;
    }
    Ok(list)
}

// The shares that the phase creates for a receiver.
fn created_at(phase: &Phase, played: &Played, receiver: u32) -> Option<[Fe; 5]>
    requires kept { IsKept phase.now }
    requires setting { Lawful phase.now.setting }
    requires played { IsPlayed (play_of phase.now) played.now }
    requires receiver { (1 ≤ receiver) × (receiver ≤ phase.now.setting.receivers) }
    ensures { result ≡ shares_at (play_of phase.now) (created_share (play_of phase.now)) receiver }
{
    let state = end_of(phase, played, phase.setting.seat_of(receiver));
    match state {
        Some(sharer) => Some(sharer.shares()),
        None => None,
    }
}

// What stands on a seat once the sharing is done.
fn end_of<'a>(phase: &Phase, played: &'a Played, seat: u32) -> &'a Option<Sharer>
    requires played { IsPlayed (play_of phase.now) played.now }
    requires seat { (1 ≤ seat) × (seat ≤ seats phase.now.setting) }
    ensures { result.now ≡ seat_after (play_of phase.now) 5 seat }
{
    let _seats = phase.setting.seats();
    let states = played.seats.as_slice();
    &states[seat as usize - 1]
}

/// The shares that a refresh leaves, by index, where these are the shares before it: who is down before stays down.
pub fn refreshed_shares(
    alloc: Global,
    phase: &Phase,
    played: &Played,
    before: &[Option<[Fe; 5]>],
) -> Result<Vec<Option<[Fe; 5]>>, OutOfMemory>
    requires kept { IsKept phase.now }
    requires setting { Lawful phase.now.setting }
    requires played { IsPlayed (play_of phase.now) played.now }
    requires all { length before.now ≡ phase.now.setting.receivers }
    ensures { IfOk result (λ v. (share : ℕ → ℕ → Fp) → HasBefore phase.now.setting.receivers (receivers_down (play_of phase.now)) share before.now
        → v.items ≡ shares_by (play_of phase.now) (λ lane receiver. refreshed_share (play_of phase.now) lane receiver (share lane receiver))) }
{
    let created = created_shares(alloc, phase, played)?;
    let made = created.as_slice();
    let mut list = Vec::new(alloc);
    for place in 0..made.len() {
        list.push(refreshed_at(&before[place], &made[place], place as u64 + 1))?;
    }
    Ok(list)
}

// The shares of a receiver: its point times what is created is added.
fn refreshed_at(
    before: &Option<[Fe; 5]>,
    created: &Option<[Fe; 5]>,
    receiver: u64,
) -> Option<[Fe; 5]>
    ensures { result ≡ refreshed_of receiver before.now created.now }
{
    match before {
        Some(old) => match created {
            Some(new) => Some(refreshed(old, new, Fe::reduce(receiver))),
            None => None,
        },
        None => None,
    }
}

// Each old share with the point times the created one added.
fn refreshed(old: &[Fe; 5], new: &[Fe; 5], point: Fe) -> [Fe; 5]
    ensures { result ≡ sums_of point old.now new.now }
{
    [
        old[0].add(point.mul(new[0])),
        old[1].add(point.mul(new[1])),
        old[2].add(point.mul(new[2])),
        old[3].add(point.mul(new[3])),
        old[4].add(point.mul(new[4])),
    ]
}

/// The shares that a move leaves, by index. No opening fails, and each lane has its error vector.
pub fn moved_shares(
    alloc: Global,
    phase: &Phase,
    played: &Played,
) -> Result<Vec<Option<[Fe; 5]>>, OutOfMemory>
    requires kept { IsKept phase.now }
    requires moving { (bound : ℕ) × IsMove bound (play_of phase.now) }
    requires played { IsPlayed (play_of phase.now) played.now }
    requires errors { (errors : List (List Fp)) × HaveErrors phase.now.setting
        (syndromes_heard (play_of phase.now)) errors }
    ensures { IfOk result (λ v. AreMoved (play_of phase.now) v.items) }
{
    match lane_errors(alloc, &played.last, &phase.setting) {
        Ok(errors) => moved_with(alloc, phase, played, &errors),
        Err(fault) => Err(memory_alone(fault)),
    }
}

// Where there are error vectors, nothing but memory can be wanting.
fn memory_alone(_fault: LaneFault) -> OutOfMemory
    requires { _fault ≡ LaneFault.OutOfMemory }
{
    OutOfMemory
}

// The moved shares under these error vectors.
fn moved_with(
    alloc: Global,
    phase: &Phase,
    played: &Played,
    errors: &LaneList,
) -> Result<Vec<Option<[Fe; 5]>>, OutOfMemory>
    requires kept { IsKept phase.now }
    requires moving { (bound : ℕ) × IsMove bound (play_of phase.now) }
    requires played { IsPlayed (play_of phase.now) played.now }
    requires errors { HaveErrors phase.now.setting (syndromes_heard (play_of phase.now)) errors.now }
    ensures { IfOk result
        (λ v. v.items ≡ shares_by (play_of phase.now)
        (λ lane j. moved_share (play_of phase.now) lane (get_or errors.now lane []) j)) }
{
    let mut list = Vec::new(alloc);
    for receiver in 1..phase.setting.receivers() + 1 {
        list.push(moved_at(alloc, phase, played, errors, receiver)?)?;
    }
    Ok(list)
}

// The moved shares of a receiver.
fn moved_at(
    alloc: Global,
    phase: &Phase,
    played: &Played,
    errors: &LaneList,
    receiver: u32,
) -> Result<Option<[Fe; 5]>, OutOfMemory>
    requires kept { IsKept phase.now }
    requires moving { (bound : ℕ) × IsMove bound (play_of phase.now) }
    requires played { IsPlayed (play_of phase.now) played.now }
    requires errors { HaveErrors phase.now.setting (syndromes_heard (play_of phase.now)) errors.now }
    requires receiver { (1 ≤ receiver) × (receiver ≤ phase.now.setting.receivers) }
    ensures { IfOk result
        (λ o. o ≡ shares_at (play_of phase.now)
        (λ lane j. moved_share (play_of phase.now) lane (get_or errors.now lane []) j) receiver) }
{
    let state = end_of(phase, played, phase.setting.seat_of(receiver));
    match state {
        Some(sharer) => Ok(Some(shares_without(alloc, sharer, errors)?)),
        None => Ok(None),
    }
}
