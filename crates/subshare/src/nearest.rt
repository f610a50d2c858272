//! The polynomial nearest to a list of values.

ghost use Rattle.std.specs.Prelude.{◌≡◌, ℕ, ◌+◌, ◌≤◌, ◌↔◌, [], true, length, take, IfOk, MatchOption};
ghost use Rattle.algebra61.specs.Polynomial.{Polynomial};
ghost use Rattle.algebra61.specs.Nearest.{wrong, IsNearest};
ghost use Rattle.rs61.specs.Decoding.{present_pairs};
ghost use Rattle.subshare.specs.Opening.{Agree};

use field61::Fe;
use lists::OutOfMemory;
use poly61::{Poly, interpolate};
use rs61::{DecodeFault, decode};
use std::alloc::Global;

// The first `count` of the values that are there, with their points; all of them where there are fewer.
fn first_present(
    alloc: Global,
    values: &[Option<Fe>],
    count: usize,
) -> Result<Vec<(Fe, Fe)>, OutOfMemory>
    requires { length values.now ≤ 30 }
    ensures { IfOk result (λ v. v.items ≡ take count (present_pairs 1 values.now)) }
{
    let mut list = Vec::new(alloc);
    let mut point = 1;
    for value in values {
        if list.len() == count {
            return Ok(list);
        }
        if let Some(v) = value {
            list.push((Fe::reduce(point), *v))?;
        }
        point += 1;
    }
    Ok(list)
}

// Whether each value that is there is the polynomial's.
fn is_right(poly: &Poly, values: &[Option<Fe>]) -> bool
    requires { length values.now ≤ 30 }
    ensures { (result ≡ true) ↔ (wrong poly.now.coeffs 1 values.now ≡ []) }
{
    let mut point = 1;
    for value in values {
        if let Some(v) = value {
            if poly.eval(Fe::reduce(point)) != *v {
                return false;
            }
        }
        point += 1;
    }
    true
}

// The polynomial of degree at most `degree` on which all values that are there lie; none where there is none, or where
// at most `degree` values are there. Its cost is quadratic in the degree.
fn agreed(alloc: Global, values: &[Option<Fe>], degree: u32) -> Result<Option<Poly>, OutOfMemory>
    requires { length values.now ≤ 30 }
    ensures { IfOk result
        (λ o. MatchOption o ((p : Polynomial) → Agree degree values.now p → ⊥) (λ p. Agree degree values.now p)) }
{
    let count = degree as usize + 1;
    let list = first_present(alloc, values, count)?;
    let first = list.as_slice();
    if first.len() < count {
        return Ok(None);
    }
    let poly = interpolate(alloc, first)?;
    if is_right(&poly, values) {
        Ok(Some(poly))
    } else {
        Ok(None)
    }
}

// The polynomial of degree at most `degree` that is nearest to the values; none where there is none. It is looked for by
// elimination only where the values don't agree.
pub fn nearest_to(
    alloc: Global,
    values: &[Option<Fe>],
    degree: u32,
) -> Result<Option<Poly>, OutOfMemory>
    requires few { length values.now ≤ 30 }
    requires low { degree ≤ 14 }
    ensures { IfOk result
        (λ o. MatchOption o ((p : Polynomial) → IsNearest degree values.now p → ⊥)
        (λ p. IsNearest degree values.now p)) }
{
    let agreed = agreed(alloc, values, degree)?;
    if let Some(poly) = agreed {
        return Ok(Some(poly));
    }
    match decode(alloc, values, degree) {
        Ok(found) => Ok(Some(found.poly)),
        Err(DecodeFault::NoPolynomial) => Ok(None),
        Err(DecodeFault::OutOfMemory) => Err(OutOfMemory),
    }
}
