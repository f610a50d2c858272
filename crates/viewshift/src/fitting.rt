//! Whether a phase may stand where it stands.

ghost use Rattle.std.specs.Prelude.{◌≡◌, ℕ, ◌+◌, ◌*◌, ◌-◌, ◌<◌, ◌≤◌, ◌↔◌, List, true, false, length, get_or, map};
ghost use Rattle.algebra61.specs.Field.{Fp};
ghost use Rattle.talk.specs.Sync.{has};
ghost use Rattle.plays.specs.Law.{FewDown};
ghost use Rattle.plays.specs.Said.{places};
ghost use Rattle.histories61.specs.Phases.{Created, FirstFits, MoveFits, NextFits, RefreshFits, Within, receivers_down};
ghost use Rattle.playback.specs.Recorded.{kind_of, play_of, up_to};
ghost use Rattle.playback.specs.Kept.{IsKept};
ghost use Rattle.playback.specs.Shares.{shares_by};
ghost use Rattle.viewshift.specs.Constants.{ConstantsFit, LanesFit, share_in};

use crate::masks::{count_in, is_within};
use field61::Fe;
use playback::{Phase, PhaseKind};
use sizes::LANES;
use talk::{Setting, in_mask};

// Whether two settings are the same.
fn is_same(one: &Setting, other: &Setting) -> bool
    ensures { (result ≡ true) ↔ (one.now ≡ other.now) }
{
    one.receivers() == other.receivers()
        && one.bound() == other.bound()
        && one.degree() == other.degree()
        && one.dealers() == other.dealers()
        && one.shift() == other.shift()
        && one.checks() == other.checks()
}

// Whether at most the bound of the receivers is down.
fn few_down(phase: &Phase) -> bool
    ensures { (result ≡ true) ↔ FewDown (play_of phase.now) }
{
    let setting = &phase.setting;
    count_in(phase.down, setting.shift(), setting.receivers()) <= setting.bound()
}

// Whether who was down of the receivers before is down as a member now.
fn stays(old: &Phase, phase: &Phase) -> bool
    ensures { (result ≡ true) ↔ Within old.now.setting.receivers (receivers_down (play_of old.now)) (has phase.now.down) }
{
    is_within(
        old.setting.receivers(),
        old.down,
        old.setting.shift(),
        phase.down,
    )
}

// Whether the phase may be the first.
pub(crate) fn first_fits(phase: &Phase) -> bool
    requires { IsKept phase.now }
    ensures { (result ≡ true) ↔ FirstFits (kind_of phase.now.kind) (play_of phase.now) }
{
    match phase.kind {
        PhaseKind::Create => create_fits(phase),
        PhaseKind::Refresh => false,
        PhaseKind::Move => false,
    }
}

// Whether a create has its setting, and few enough are down.
fn create_fits(phase: &Phase) -> bool
    requires { IsKept phase.now }
    ensures { (result ≡ true) ↔ FirstFits Created (play_of phase.now) }
{
    let members = phase.setting.receivers();
    let bound = phase.setting.bound();
    let setting = Setting::create(members, bound);
    if !is_same(&phase.setting, &setting) {
        return false;
    }
    few_down(phase)
}

// Whether a phase may follow another that left these shares, by index.
pub(crate) fn next_fits(old: &Phase, phase: &Phase, shares: &[Option<[Fe; 5]>]) -> bool
    requires kept { IsKept phase.now }
    requires all { length shares.now ≡ old.now.setting.receivers }
    ensures { (share : ℕ → ℕ → Fp) → shares.now ≡ shares_by (play_of old.now) share
        → (result ≡ true) ↔ NextFits (kind_of phase.now.kind) (play_of old.now) (play_of phase.now) share }
{
    match phase.kind {
        PhaseKind::Create => false,
        PhaseKind::Refresh => refresh_fits(old, phase),
        PhaseKind::Move => move_fits(old, phase, shares),
    }
}

// Whether a refresh may follow another phase.
fn refresh_fits(old: &Phase, phase: &Phase) -> bool
    requires { IsKept phase.now }
    ensures { (result ≡ true) ↔ RefreshFits (play_of old.now) (play_of phase.now) }
{
    let members = old.setting.receivers();
    let bound = old.setting.bound();
    let setting = Setting::refresh(members, bound);
    if !is_same(&phase.setting, &setting) {
        return false;
    }
    if !few_down(phase) {
        return false;
    }
    stays(old, phase)
}

// Whether a move may follow another phase that left these shares.
fn move_fits(old: &Phase, phase: &Phase, shares: &[Option<[Fe; 5]>]) -> bool
    requires kept { IsKept phase.now }
    requires all { length shares.now ≡ old.now.setting.receivers }
    ensures { (share : ℕ → ℕ → Fp) → shares.now ≡ shares_by (play_of old.now) share
        → (result ≡ true) ↔ MoveFits (play_of old.now) (play_of phase.now) share }
{
    let members = old.setting.receivers();
    let bound = old.setting.bound();
    let receivers = phase.setting.receivers();
    let new_bound = phase.setting.bound();
    let setting = Setting::moving(members, bound, receivers, new_bound);
    if !is_same(&phase.setting, &setting) {
        return false;
    }
    if count_in(phase.down, 0, members) > bound {
        return false;
    }
    if !few_down(phase) {
        return false;
    }
    if !stays(old, phase) {
        return false;
    }
    constants_fit(phase, shares)
}

// Whether the grids of each dealer that isn't down have its shares as constants.
fn constants_fit(phase: &Phase, shares: &[Option<[Fe; 5]>]) -> bool
    requires kept { IsKept phase.now }
    requires all { length shares.now ≡ phase.now.setting.dealers }
    ensures { (result ≡ true) ↔ ConstantsFit (play_of phase.now) shares.now }
{
    for dealer in 1..phase.setting.dealers() + 1 {
        if !in_mask(phase.down, dealer) && !lanes_fit(phase, dealer, &shares[dealer as usize - 1]) {
            return false;
        }
    }
    true
}

// Whether the grids of a dealer have these shares as constants.
fn lanes_fit(phase: &Phase, dealer: u32, shares: &Option<[Fe; 5]>) -> bool
    requires kept { IsKept phase.now }
    requires dealer { (1 ≤ dealer) × (dealer ≤ phase.now.setting.dealers) }
    requires up { has phase.now.down dealer ≡ false }
    ensures { (result ≡ true) ↔ LanesFit (play_of phase.now) dealer 5 shares.now }
{
    for lane in 0..LANES {
        let constant = phase.grid(dealer, lane).at(Fe::ZERO, Fe::ZERO);
        if constant != share_in(shares, lane) {
            return false;
        }
    }
    true
}

// The share of a lane; 0 where there are none.
fn share_in(shares: &Option<[Fe; 5]>, lane: u32) -> Fe
    requires { lane < 5 }
    ensures { result ≡ share_in shares.now lane }
{
    match shares {
        Some(values) => values[lane as usize],
        None => Fe::ZERO,
    }
}
