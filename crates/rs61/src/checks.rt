//! Syndromes by the parity check at the points 1 to n.

ghost use Rattle.std.specs.Prelude.{◌≡◌, ℕ, ◌+◌, ◌-◌, ◌≤◌, length, cond, eqb, IfOk};
ghost use Rattle.algebra61.specs.Field.{Fp, fe, zeroₚ, oneₚ, ◌-ₚ◌};
ghost use Rattle.algebra61.specs.Inverse.{invₚ};
ghost use Rattle.checks61.specs.Checks.{others_product, check_entry, check_of, syndrome_of, entry};

use field61::{Fe, FeList};
use lists::OutOfMemory;
use std::alloc::Global;

// The inverse of an element other than 0.
fn inverse(x: Fe) -> Fe
    requires { x ≡ zeroₚ → ⊥ }
    ensures { result ≡ invₚ x }
{
    match x.inv() {
        Some(inverse) => inverse,
        None => Fe::ZERO,
    }
}

// What the point `other` gives to the product over the points other than `point`.
fn factor(other: u32, point: u32, x: Fe) -> Fe
    ensures { result ≡ cond (eqb other point) oneₚ (x -ₚ fe other) }
{
    if other == point {
        Fe::ONE
    } else {
        x.sub(Fe::reduce(u64::from(other)))
    }
}

// The product of `x` - j over the points j of 1 to `points` other than `point`.
pub fn others_product(points: u32, point: u32, x: Fe) -> Fe
    requires { points ≤ 30 }
    ensures { result ≡ others_product points point x }
{
    let mut product = Fe::ONE;
    for k in 0..points {
        product = product.mul(factor(k + 1, point, x));
    }
    product
}

// The entry of the parity check in a row and in the column of a point.
fn check_entry(points: u32, row: u32, point: u32) -> Fe
    requires { (points ≤ 30) × (point ≤ 30) }
    ensures { result ≡ check_entry points row point }
{
    let x = Fe::reduce(u64::from(point));
    inverse(others_product(points, point, x)).mul(x.pow(u64::from(row)))
}

// A row of the parity check times the values.
fn check_value(values: &[Fe], points: u32, row: u32) -> Fe
    requires all { length values.now ≡ points }
    requires few { points ≤ 30 }
    ensures { result ≡ check_of points row (entry values.now) }
{
    let mut sum = Fe::ZERO;
    for k in 0..points {
        sum = sum.add(check_entry(points, row, k + 1).mul(values[k as usize]));
    }
    sum
}

/// The syndrome of the values at the points 1 to n, by the parity check of a code of degree `bound`: n - `bound` - 1
/// elements, at least one and for at most 30 values. All of them are zero exactly where the values are those of a
/// polynomial of degree at most `bound`.
pub fn syndrome(alloc: Global, values: &[Fe], bound: u32) -> Result<FeList, OutOfMemory>
    requires some { bound + 2 ≤ length values.now }
    requires few { length values.now ≤ 30 }
    ensures { IfOk result (λ l. l ≡ syndrome_of (length values.now) (length values.now - bound - 1) (entry values.now)) }
{
    let points = values.len() as u32;
    let mut list = FeList::new(alloc);
    for row in 0..points - bound - 1 {
        list.push(check_value(values, points, row))?;
    }
    Ok(list)
}
