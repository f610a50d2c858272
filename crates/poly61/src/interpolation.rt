//! Polynomials by their values.

ghost use Rattle.std.specs.Prelude.{◌≡◌, ℕ, ◌+◌, ◌<◌, ◌≤◌, length, max, All, IfOk};
ghost use Rattle.algebra61.specs.Field.{Fp, ◌+ₚ◌, ◌-ₚ◌, ◌*ₚ◌, zeroₚ};
ghost use Rattle.algebra61.specs.Poly.{eval, points, Distinct};
ghost use Rattle.poly61.specs.Points.{pairs, IsThrough, AllDiffer, IsVanisher};

use crate::Poly;
use field61::Fe;
use lists::OutOfMemory;
use std::alloc::Global;

// `found` plus the multiple of `product` that gives the sum the value `y` at `x`.
fn corrected(alloc: Global, found: &Poly, product: &Poly, x: Fe, y: Fe) -> Result<Poly, OutOfMemory>
    requires { eval product.now.coeffs x ≡ zeroₚ → ⊥ }
    ensures short { IfOk result (λ p. length p.coeffs ≤ max (length found.now.coeffs) (length product.now.coeffs)) }
    ensures value { IfOk result (λ p. eval p.coeffs x ≡ y) }
    ensures same { IfOk result (λ p. (z : Fp) → eval product.now.coeffs z ≡ zeroₚ → eval p.coeffs z ≡ eval found.now.coeffs z) }
{
    let inverse = product.eval(x).inv().unwrap();
    let factor = y.sub(found.eval(x)).mul(inverse);
    let multiple = product.scale(alloc, factor)?;
    found.plus(alloc, &multiple)
}

// `product` times the polynomial x - `root`.
fn with_root(alloc: Global, product: &Poly, root: Fe) -> Result<Poly, OutOfMemory>
    ensures short { IfOk result (λ p. length p.coeffs ≤ max (length product.now.coeffs) 1 + 1) }
    ensures values { IfOk result (λ p. (z : Fp) → eval p.coeffs z ≡ (z -ₚ root) *ₚ eval product.now.coeffs z) }
{
    let factor = Poly::from_coeffs(alloc, &[root.neg(), Fe::ONE])?;
    factor.times(alloc, product)
}

/// The interpolant: the polynomial that is no longer than the list of points and has at each
/// first part the value of the second part. There is exactly one.
pub fn interpolate(alloc: Global, list: &[(Fe, Fe)]) -> Result<Poly, OutOfMemory>
    requires { Distinct (points (pairs list.now)) }
    ensures { IfOk result (λ p. IsThrough (pairs list.now) p) }
{
    let mut found = Poly::from_coeffs(alloc, &[])?;
    let mut product = Poly::from_coeffs(alloc, &[Fe::ONE])?;
    let mut k = list.len();
    while k > 0 {
        k -= 1;
        let point = list[k];
        found = corrected(alloc, &found, &product, point.0, point.1)?;
        product = with_root(alloc, &product, point.0)?;
    }
    Ok(found)
}

/// The polynomial of degree at most the set's size that has the value 1 at 0 and the value 0
/// at each number of the set.
pub fn vanisher(alloc: Global, set: &[u32]) -> Result<Poly, OutOfMemory>
    requires differ { AllDiffer set.now }
    requires within { All (λ i. (1 ≤ i) × (i ≤ 30)) set.now }
    ensures { IfOk result (λ p. IsVanisher set.now p) }
{
    let mut points = Vec::new(alloc);
    points.push((Fe::ZERO, Fe::ONE))?;
    for i in set {
        points.push((Fe::reduce(u64::from(*i)), Fe::ZERO))?;
    }
    interpolate(alloc, points.as_slice())
}
