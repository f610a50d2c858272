//! Masks of seats.

ghost use Rattle.std.specs.Prelude.{◌≡◌, ℕ, ◌+◌, ◌-◌, ◌^◌, ◌<◌, ◌≤◌};
ghost use Rattle.talk.specs.Shape.{seats};
ghost use Rattle.talk.specs.Sync.{all_seats, has};

use crate::Setting;

/// Whether a seat is in a mask: the bit of seat `k` is bit `k - 1`.
pub fn in_mask(mask: u32, seat: u32) -> bool
    requires { (1 ≤ seat) × (seat ≤ 30) }
    ensures { result ≡ has mask seat }
{
    (mask >> (seat - 1)) & 1 == 1
}

/// The mask of all seats of a setting.
pub fn all_in(setting: &Setting) -> u32
    ensures is { result ≡ all_seats setting.now }
    ensures mask { result < 2 ^ seats setting.now }
    ensures few { seats setting.now ≤ 30 }
{
    let shift = setting.seats();
    (1 << shift) - 1
}

/// A mask of lower seats, with a seat put in where `named` holds.
pub fn mask_with(mask: u32, seat: u32, named: bool) -> u32
    requires seat { (1 ≤ seat) × (seat ≤ 30) }
    requires lower { mask < 2 ^ (seat - 1) }
    ensures below { result < 2 ^ seat }
    ensures own { has result seat ≡ named }
    ensures others { (other : ℕ) → 1 ≤ other → other < seat → has result other ≡ has mask other }
{
    let place = seat - 1;
    if named { mask | (1 << place) } else { mask }
}
