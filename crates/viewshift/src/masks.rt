//! Masks of members: who is exposed in a period.

ghost use Rattle.std.specs.Prelude.{◌≡◌, ℕ, ◌+◌, ◌-◌, ◌^◌, ◌<◌, ◌≤◌, ◌↔◌, true, length, get_or, IfOk, MatchOption};
ghost use Rattle.sharing61.specs.Count.{how_many};
ghost use Rattle.talk.specs.Sync.{has};
ghost use Rattle.histories61.specs.Phases.{Within};
ghost use Rattle.viewshift.specs.Listed.{mask_at};
ghost use Rattle.viewshift.specs.Members.{behind};
ghost use Rattle.viewshift.specs.Fits.{AllMasksFit, HasNext, IsFirstBad, IsMaskAfter, MaskFits};

use playback::{Phase, PhaseList};
use talk::in_mask;

// The mask of the period that the phase at a place begins; 0 where there is none.
pub(crate) fn mask_at(exposed: &[u32], place: usize) -> u32
    ensures { result ≡ mask_at exposed.now place }
{
    match exposed.get(place) {
        Some(mask) => *mask,
        None => 0,
    }
}

// How many of the members 1 to `members` a mask names, where that of member k stands `shift` places further on.
pub(crate) fn count_in(mask: u32, shift: u32, members: u32) -> u32
    requires { shift + members ≤ 30 }
    ensures { result ≡ how_many members (behind mask shift) }
{
    let mut count = 0;
    for member in 1..members + 1 {
        if in_mask(mask, shift + member) {
            count += 1;
        }
    }
    count
}

// Whether each of the members 1 to `members` that the first mask names, from `shift` on, is named by the second too.
pub(crate) fn is_within(members: u32, some: u32, shift: u32, all: u32) -> bool
    requires { shift + members ≤ 30 }
    ensures { (result ≡ true) ↔ Within members (behind some shift) (has all) }
{
    for member in 1..members + 1 {
        if in_mask(some, shift + member) && !in_mask(all, member) {
            return false;
        }
    }
    true
}

// Whether the mask of the period that a phase begins fits.
fn mask_fits(phases: &PhaseList, exposed: &[u32], place: usize) -> bool
    requires { place < length phases.now }
    ensures { (result ≡ true) ↔ MaskFits phases.now exposed.now place }
{
    let mask = mask_at(exposed, place);
    if !names_few(phases.at(place), mask) {
        return false;
    }
    has_next(phases, place, mask)
}

// Whether a mask names no stranger to those who receive in the phase, at most the bound of them, and all who are down.
fn names_few(phase: &Phase, mask: u32) -> bool
    ensures { (result ≡ true) ↔ IsMaskAfter phase.now mask }
{
    let members = phase.setting.receivers();
    let bound = phase.setting.bound();
    let shift = phase.setting.shift();
    let end = past_bits(members);
    if mask >= end {
        return false;
    }
    if count_in(mask, 0, members) > bound {
        return false;
    }
    is_within(members, phase.down, shift, mask)
}

// The least mask with a bit past those of the members.
fn past_bits(members: u32) -> u32
    requires { members ≤ 15 }
    ensures { result ≡ 2 ^ members }
{
    1 << members
}

// Whether a mask names all who are down in the phase that ends the period, where there is one.
fn has_next(phases: &PhaseList, place: usize, mask: u32) -> bool
    requires { place < length phases.now }
    ensures { (result ≡ true) ↔ HasNext phases.now place mask }
{
    let count = phases.len();
    let next = place + 1;
    if next >= count {
        return true;
    }
    let members = phases.at(place).setting.receivers();
    is_within(members, phases.at(next).down, 0, mask)
}

// The first period, counted from 1, whose mask doesn't fit, or the one past the last where it has a mask.
pub(crate) fn first_bad(phases: &PhaseList, exposed: &[u32]) -> Option<u32>
    requires phases { length phases.now < 2 ^ 32 }
    requires masks { length exposed.now < 2 ^ 32 }
    ensures { MatchOption result (AllMasksFit phases.now exposed.now) (IsFirstBad phases.now exposed.now) }
{
    for place in 0..phases.len() {
        if !mask_fits(phases, exposed, place) {
            return Some(place as u32 + 1);
        }
    }
    if exposed.len() > phases.len() {
        return Some(phases.len() as u32 + 1);
    }
    None
}
