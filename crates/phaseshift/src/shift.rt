//! The other phase.

ghost use Rattle.std.specs.Prelude.{◌≡◌, ℕ, ◌++◌, ◌<◌, ◌≤◌, ◌↔◌, true, false, get_or, IfOk, OnOk};
ghost use Rattle.algebra61.specs.Field.{zeroₚ};
ghost use Rattle.talk.specs.Sync.{has};
ghost use Rattle.choices61.specs.Translation.{is_translated};
ghost use Rattle.playback.specs.Recorded.{kind_of};
ghost use Rattle.playback.specs.Kept.{IsKept};
ghost use Rattle.phaseshift.specs.Factors.{HavePlace, dealer_with, grid_with, grids_with};
ghost use Rattle.phaseshift.specs.Shift.{HasRoom, down_among, other_phase};

use crate::factors::Factors;
use crate::masks::{count_in, lowest_out};
use bivar61::{Grid, GridList};
use field61::Fe;
use lists::{OutOfMemory, TryCopy};
use playback::{Phase, PhaseKind};
use sizes::LANES;
use std::alloc::Global;
use talk::in_mask;

/// Whether the products of a translation are of the degree of the phase's grids, where these members are exposed in the
/// periods that it ends and begins: member `i` has bit `i - 1`. A phase of a history and its masks have room.
pub fn has_room(phase: &Phase, before: u32, after: u32) -> bool
    ensures { (result ≡ true) ↔ HasRoom (kind_of phase.now.kind) phase.now.setting (has phase.now.down) (has before) (has after) }
{
    let setting = &phase.setting;
    let degree = setting.degree();
    let exposed = count_in(after, 0, setting.receivers());
    match phase.kind {
        PhaseKind::Create => down_among(phase) <= degree && exposed <= degree,
        PhaseKind::Refresh => {
            count_in(before, 0, setting.dealers()) <= degree + 1 && exposed <= degree + 1
        }
        PhaseKind::Move => down_among(phase) <= degree && exposed <= degree,
    }
}

/// The phase that differs from this one in grids alone, so that the key becomes greater by the difference, lane by lane, and
/// nobody who is down or exposed can tell. `before` and `after` are the members who are exposed in the periods that the
/// phase ends and begins: member `i` has bit `i - 1`. A create doesn't read `before`.
///
/// In a create and a refresh the grids of the lowest dealer that isn't down change, in a move those of each. A refresh in
/// which as many are down as its grids have degrees, and one more, stays as it is.
///
/// The error is want of memory.
pub fn other_phase(
    alloc: Global,
    phase: &Phase,
    before: u32,
    after: u32,
    difference: &[Fe; 5],
) -> Result<Phase, OutOfMemory>
    requires kept { IsKept phase.now }
    requires room { HasRoom (kind_of phase.now.kind) phase.now.setting (has phase.now.down) (has before) (has after) }
    ensures { IfOk result (λ p. p ≡ other_phase phase.now (has before) (has after) (λ lane. get_or difference.now lane zeroₚ)) }
{
    let factors = Factors::of(alloc, phase, before, after)?;
    let grids = other_grids(alloc, phase, &factors, difference)?;
    let said = phase.said.copy(alloc)?;
    Ok(Phase {
        kind: phase.kind,
        setting: phase.setting,
        down: phase.down,
        grids,
        said,
    })
}

// The grids with the products, by dealer and lane.
fn other_grids(
    alloc: Global,
    phase: &Phase,
    factors: &Factors,
    difference: &[Fe; 5],
) -> Result<GridList, OutOfMemory>
    requires kept { IsKept phase.now }
    requires place { HavePlace phase.now factors.now }
    ensures { IfOk result (λ g. g ≡ grids_with phase.now factors.now (λ lane. get_or difference.now lane zeroₚ)) }
{
    let mut grids = GridList::new(alloc);
    for dealer in 1..phase.setting.dealers() + 1 {
        push_grids(alloc, phase, factors, difference, dealer, &mut grids)?;
    }
    Ok(grids)
}

// Puts those of a dealer at the end, none where it is down.
fn push_grids(
    alloc: Global,
    phase: &Phase,
    factors: &Factors,
    difference: &[Fe; 5],
    dealer: u32,
    grids: &mut GridList,
) -> Result<(), OutOfMemory>
    requires kept { IsKept phase.now }
    requires place { HavePlace phase.now factors.now }
    requires dealer { (1 ≤ dealer) × (dealer ≤ phase.now.setting.dealers) }
    ensures { OnOk result (grids.new ≡ grids.old ++ dealer_with phase.now factors.now (λ lane. get_or difference.now lane zeroₚ) dealer) }
{
    let _dealers = phase.setting.dealers();
    if in_mask(phase.down, dealer) {
        return Ok(());
    }
    for lane in 0..LANES {
        grids.push(other_grid(alloc, phase, factors, difference, dealer, lane)?)?;
    }
    Ok(())
}

// The grid of a dealer in a lane, with the product where it gets one.
fn other_grid(
    alloc: Global,
    phase: &Phase,
    factors: &Factors,
    difference: &[Fe; 5],
    dealer: u32,
    lane: u32,
) -> Result<Grid, OutOfMemory>
    requires kept { IsKept phase.now }
    requires place { HavePlace phase.now factors.now }
    requires dealer { (1 ≤ dealer) × (dealer ≤ phase.now.setting.dealers) }
    requires lane { lane < 5 }
    requires up { has phase.now.down dealer ≡ false }
    ensures { IfOk result (λ g. g ≡ grid_with phase.now factors.now (λ lane. get_or difference.now lane zeroₚ) dealer lane) }
{
    let grid = phase.grid(dealer, lane);
    if !is_translated(phase, dealer) {
        return grid.copy(alloc);
    }
    let in_y = factors.multiplied(alloc, difference[lane as usize], dealer)?;
    grid.add_product(alloc, &factors.in_x, &in_y)
}

// Whether the grids of a dealer get products.
fn is_translated(phase: &Phase, dealer: u32) -> bool
    requires { (1 ≤ dealer) × (dealer ≤ phase.now.setting.dealers) }
    ensures { result ≡ is_translated (kind_of phase.now.kind) phase.now.setting (has phase.now.down) dealer }
{
    let dealers = phase.setting.dealers();
    let lowest = lowest_out(phase.down, dealers);
    match phase.kind {
        PhaseKind::Create => dealer == lowest,
        PhaseKind::Refresh => dealer == lowest && down_among(phase) <= phase.setting.degree(),
        PhaseKind::Move => dealer <= dealers && !in_mask(phase.down, dealer),
    }
}

// How many receivers are down.
fn down_among(phase: &Phase) -> u32
    ensures { result ≡ down_among phase.now.setting (has phase.now.down) }
{
    count_in(phase.down, phase.setting.shift(), phase.setting.receivers())
}
