//! The phases of a history, one after another.

ghost use Rattle.std.specs.Prelude.{◌≡◌, ℕ, ◌+◌, ◌-◌, ◌^◌, ◌<◌, ◌≤◌, ◌↔◌, true, length, IfOk, MatchOption};
ghost use Rattle.playback.specs.Recorded.{play_of};
ghost use Rattle.playback.specs.Shares.{IsPlayed};
ghost use Rattle.viewshift.specs.Listed.{phase_at};
ghost use Rattle.viewshift.specs.Fits.{AllFit, FitsAt, IsFirstUnfit};
ghost use Rattle.viewshift.specs.Walk.{IsAt};

use crate::fitting::{first_fits, next_fits};
use field61::Fe;
use lists::OutOfMemory;
use playback::{
    PhaseKind, PhaseList, Played, created_shares, is_kept, moved_shares, play, refreshed_shares,
};
use std::alloc::Global;

// The place of the first phase that doesn't fit, 0 where there is no phase, or none where all fit.
pub(crate) fn first_unfit(alloc: Global, phases: &PhaseList) -> Result<Option<u32>, OutOfMemory>
    requires { length phases.now < 2 ^ 32 }
    ensures { IfOk result (λ o. MatchOption o (AllFit phases.now) (IsFirstUnfit phases.now)) }
{
    if phases.len() == 0 {
        return Ok(Some(0));
    }
    let mut shares = Vec::new(alloc);
    for place in 0..phases.len() {
        if !fits_at(phases, place, shares.as_slice()) {
            return Ok(Some(place as u32));
        }
        let played = play_at(alloc, phases, place)?;
        shares = shares_left(alloc, phases, place, &played, shares.as_slice())?;
    }
    Ok(None)
}

// Whether the phase at a place fits, where those before it do and left these shares.
fn fits_at(phases: &PhaseList, place: usize, shares: &[Option<[Fe; 5]>]) -> bool
    requires place { place < length phases.now }
    requires before { IsAt phases.now place shares.now }
    ensures { (result ≡ true) ↔ FitsAt phases.now place }
{
    let phase = phases.at(place);
    if !is_kept(phase) {
        return false;
    }
    if place == 0 {
        first_fits(phase)
    } else {
        next_fits(phases.at(place - 1), phase, shares)
    }
}

/// Plays the phase at a place, counted from 0, where it and those before it fit.
pub fn play_at(alloc: Global, phases: &PhaseList, place: usize) -> Result<Played, OutOfMemory>
    requires place { place < length phases.now }
    requires fits { (k : ℕ) → k ≤ place → FitsAt phases.now k }
    ensures { IfOk result (IsPlayed (play_of (phase_at phases.now place))) }
{
    play(alloc, phases.at(place))
}

/// The shares that the phase at a place leaves, by the index of the member: five lanes for each that the sharing reached.
/// `played` is that phase, played, and `before` are the shares that the phases before it left.
pub fn shares_left(
    alloc: Global,
    phases: &PhaseList,
    place: usize,
    played: &Played,
    before: &[Option<[Fe; 5]>],
) -> Result<Vec<Option<[Fe; 5]>>, OutOfMemory>
    requires place { place < length phases.now }
    requires fits { FitsAt phases.now place }
    requires before { IsAt phases.now place before.now }
    requires played { IsPlayed (play_of (phase_at phases.now place)) played.now }
    ensures { IfOk result (λ v. IsAt phases.now (place + 1) v.items) }
{
    let phase = phases.at(place);
    match phase.kind {
        PhaseKind::Create => created_shares(alloc, phase, played),
        PhaseKind::Refresh => refreshed_shares(alloc, phase, played, before),
        PhaseKind::Move => moved_shares(alloc, phase, played),
    }
}
