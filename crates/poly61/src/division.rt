//! Division with remainder.

ghost use Rattle.std.specs.Prelude.{◌≡◌, ℕ, ◌+◌, ◌<◌, ◌≤◌, [], ◌∷◌, ◌++◌, length, replicate, IfOk};
ghost use Rattle.algebra61.specs.Field.{zeroₚ, ◌-ₚ◌};
ghost use Rattle.algebra61.specs.Poly.{coeff, mul_list};
ghost use Rattle.algebra61.specs.Polynomial.{poly};
ghost use Rattle.poly61.specs.Division.{IsDivision};

use crate::Poly;
use field61::{Fe, FeList};
use lists::{OutOfMemory, TryCopy};
use std::alloc::Global;

// The polynomial `c` times x^`k`.
fn term(alloc: Global, c: Fe, k: usize) -> Result<Poly, OutOfMemory>
    ensures { IfOk result (λ p. p ≡ poly (replicate k zeroₚ ++ c ∷ [])) }
{
    let mut coeffs = FeList::new(alloc);
    for _ in 0..k {
        coeffs.push(Fe::ZERO)?;
    }
    coeffs.push(c)?;
    Poly::from_coeffs(alloc, coeffs.as_slice())
}

// What is left of `rest` without the product of `factor` and `other`.
fn take_off(alloc: Global, rest: &Poly, factor: &Poly, other: &Poly) -> Result<Poly, OutOfMemory>
    ensures coeffs { IfOk result (λ p. (k : ℕ) → coeff p.coeffs k ≡ coeff rest.now.coeffs k -ₚ coeff (mul_list factor.now.coeffs other.now.coeffs) k) }
{
    let multiple = factor.times(alloc, other)?;
    let negative = multiple.scale(alloc, Fe::ONE.neg())?;
    rest.plus(alloc, &negative)
}

impl Poly {
    /// The quotient and the remainder of a division by `other`: this polynomial is the quotient
    /// times `other` plus the remainder, which is shorter than `other`.
    pub fn div_rem(&self, alloc: Global, other: &Poly) -> Result<(Poly, Poly), OutOfMemory>
        requires { 0 < length other.now.coeffs }
        ensures { IfOk result (λ parts. IsDivision self.now other.now parts.0 parts.1) }
    {
        let size = other.len();
        let inverse = other.coeff(size - 1).inv().unwrap();
        let mut quotient = Poly::from_coeffs(alloc, &[])?;
        let mut rest = self.copy(alloc)?;
        let mut len = self.len();
        while len >= size {
            let factor = rest.coeff(len - 1).mul(inverse);
            let next = term(alloc, factor, len - size)?;
            rest = take_off(alloc, &rest, &next, other)?;
            quotient = quotient.plus(alloc, &next)?;
            len = rest.len();
        }
        Ok((quotient, rest))
    }
}
