//! Polynomials over the field of 2^61 - 1 elements.
#![tactic(auto)]

ghost use Rattle.std.specs.Prelude.{◌≡◌, ℕ, ◌+◌, ◌<◌, ◌≤◌, List, [], ◌∷◌, ◌++◌, length, IfOk, IfErr, MatchResult, slice_index_or, get_or, take};
ghost use Rattle.algebra61.specs.Field.{Fp, zeroₚ};
ghost use Rattle.algebra61.specs.Poly.{eval, coeff, add_list, scale_list, mul_list};
ghost use Rattle.algebra61.specs.Polynomial.{poly};
ghost use Rattle.algebra61.specs.Trim.{trim};

mod division;
mod interpolation;
mod list;
mod weights;

use field61::{Fe, FeList};
pub use interpolation::{interpolate, vanisher};
pub use list::PolyList;
use lists::{OutOfMemory, TryCopy};
use std::alloc::Global;
use std::marker::Model;
pub use weights::weights_at_zero;

/// A polynomial, seen as the list of its coefficients, the constant first, whose last is not 0.
/// The zero polynomial is the empty list. Degree at most d means a length of at most d + 1.
#[derive(Drop)]
pub struct Poly {
    list: FeList,
}

impl Model for Poly {
    ghost use Rattle.std.specs.Prelude.{◌≡◌};
    ghost use Rattle.algebra61.specs.Polynomial.{Polynomial, polynomial_code, poly};
    ghost use Rattle.algebra61.specs.Trim.{trim};

    ghost Value = { Polynomial };

    ghost coded = { polynomial_code };

    ghost view = { λ a. poly a.list };

    ghost invariant = { λ a. trim a.list ≡ a.list };
}

// The length without zeros at the end.
fn trimmed_len(coeffs: &[Fe]) -> usize
    ensures within { result ≤ length coeffs.now }
    ensures trimmed { take result coeffs.now ≡ trim coeffs.now }
{
    let mut len = coeffs.len();
    while len > 0 {
        if coeffs[len - 1].get() != 0 {
            return len;
        }
        len -= 1;
    }
    0
}

// The entry at place `k`, which is 0 past the end.
fn coeff_of(list: &FeList, k: usize) -> Fe
    ensures { result ≡ coeff list.now k }
{
    if k < list.len() {
        *list.at(k)
    } else {
        Fe::ZERO
    }
}

// The multiple of `list` by `factor`, with `sum` added one place further on.
fn shifted_sum(
    alloc: Global,
    factor: Fe,
    list: &FeList,
    sum: &FeList,
) -> Result<FeList, OutOfMemory>
    ensures { IfOk result (λ l. l ≡ add_list (scale_list factor list.now) (zeroₚ ∷ sum.now)) }
{
    let mut sums = FeList::new(alloc);
    sums.push(factor.mul(coeff_of(list, 0)))?;
    let more = list.len().saturating_sub(1).max(sum.len());
    for k in 0..more {
        sums.push(factor.mul(coeff_of(list, k + 1)).add(coeff_of(sum, k)))?;
    }
    Ok(sums)
}

impl TryCopy for Poly {
    fn copy(&self, alloc: Global) -> Result<Poly, OutOfMemory> {
        Ok(Poly {
            list: self.list.copy(alloc)?,
        })
    }
}

impl Poly {
    /// The polynomial with these coefficients, the constant first. Zeros at the end are dropped.
    pub fn from_coeffs(alloc: Global, coeffs: &[Fe]) -> Result<Poly, OutOfMemory>
        ensures { IfOk result (λ p. p ≡ poly coeffs.now) }
    {
        let kept = &coeffs[..trimmed_len(coeffs)];
        let mut list = FeList::new(alloc);
        for c in kept {
            list.push(*c)?;
        }
        Ok(Poly { list })
    }

    /// The number of coefficients up to the last that is not 0.
    pub fn len(&self) -> usize
        ensures { result ≡ length self.now.coeffs }
    {
        self.list.len()
    }

    /// The coefficient of x^`k`, which is 0 past the end.
    pub fn coeff(&self, k: usize) -> Fe
        ensures { result ≡ coeff self.now.coeffs k }
    {
        coeff_of(&self.list, k)
    }

    /// The value at `x`.
    pub fn eval(&self, x: Fe) -> Fe
        ensures { result ≡ eval self.now.coeffs x }
    {
        let mut value = Fe::ZERO;
        let mut k = self.list.len();
        while k > 0 {
            k -= 1;
            value = self.list.at(k).add(x.mul(value));
        }
        value
    }

    /// The sum.
    pub fn plus(&self, alloc: Global, other: &Poly) -> Result<Poly, OutOfMemory>
        ensures { IfOk result (λ p. p ≡ poly (add_list self.now.coeffs other.now.coeffs)) }
    {
        let len = self.len().max(other.len());
        let mut sums = FeList::new(alloc);
        for k in 0..len {
            sums.push(self.coeff(k).add(other.coeff(k)))?;
        }
        Poly::from_coeffs(alloc, sums.as_slice())
    }

    /// The multiple by `factor`.
    pub fn scale(&self, alloc: Global, factor: Fe) -> Result<Poly, OutOfMemory>
        ensures { IfOk result (λ p. p ≡ poly (scale_list factor self.now.coeffs)) }
    {
        let mut multiples = FeList::new(alloc);
        for k in 0..self.len() {
            multiples.push(factor.mul(self.coeff(k)))?;
        }
        Poly::from_coeffs(alloc, multiples.as_slice())
    }

    /// The product.
    pub fn times(&self, alloc: Global, other: &Poly) -> Result<Poly, OutOfMemory>
        ensures { IfOk result (λ p. p ≡ poly (mul_list self.now.coeffs other.now.coeffs)) }
    {
        let mut product = FeList::new(alloc);
        let mut k = self.list.len();
        while k > 0 {
            k -= 1;
            product = shifted_sum(alloc, *self.list.at(k), &other.list, &product)?;
        }
        Poly::from_coeffs(alloc, product.as_slice())
    }
}

#[cfg(test)]
mod tests {
    use super::*;

    // The polynomial a + b * x.
    fn line(alloc: Global, a: u64, b: u64) -> Result<Poly, OutOfMemory> {
        Poly::from_coeffs(alloc, &[Fe::reduce(a), Fe::reduce(b)])
    }

    // Whether the polynomial has exactly these coefficients.
    fn has(p: &Poly, coeffs: &[u64]) -> bool {
        let mut same = p.len() == coeffs.len();
        for (k, c) in coeffs.iter().enumerate() {
            same = same && p.coeff(k).get() == *c;
        }
        same
    }

    #[test]
    fn sums_and_multiples_drop_zeros(rt: HostRuntime) -> Result<(), OutOfMemory> {
        let p = line(rt.alloc(), 7, 3)?;
        let sum = p.plus(rt.alloc(), &line(rt.alloc(), 0, field61::P - 3)?)?;
        assert!(rt; has(&sum, &[7]));
        let multiple = p.copy(rt.alloc())?.scale(rt.alloc(), Fe::ZERO)?;
        assert!(rt; has(&multiple, &[]));
        Ok(())
    }

    #[test]
    fn a_product_divides_into_its_factors(rt: HostRuntime) -> Result<(), OutOfMemory> {
        let factor = line(rt.alloc(), 1, 1)?;
        let product = line(rt.alloc(), 7, 3)?.times(rt.alloc(), &factor)?;
        assert!(rt; has(&product, &[7, 10, 3]));
        assert!(rt; factor.len() == 2);
        let (quotient, rest) = product.div_rem(rt.alloc(), &factor)?;
        assert!(rt; has(&quotient, &[7, 3]));
        assert!(rt; has(&rest, &[]));
        Ok(())
    }

    #[test]
    fn two_values_give_a_line(rt: HostRuntime) -> Result<(), OutOfMemory> {
        let one = Fe::reduce(1);
        let two = Fe::reduce(2);
        let points = [(one, Fe::reduce(10)), (two, Fe::reduce(13))];
        let mut found = PolyList::new(rt.alloc());
        found.push(interpolate(rt.alloc(), &points)?)?;
        let copied = found.copy(rt.alloc())?;
        assert!(rt; copied.len() == 1);
        assert!(rt; has(copied.at(0), &[7, 3]));
        assert!(rt; copied.at(0).eval(Fe::reduce(4)).get() == 19);
        Ok(())
    }

    #[test]
    fn weights_and_vanisher_at_zero(rt: HostRuntime) -> Result<(), OutOfMemory> {
        let one = Fe::reduce(1);
        let two = Fe::reduce(2);
        let weights = weights_at_zero(rt.alloc(), &[one, two])?;
        let weights = Poly::from_coeffs(rt.alloc(), weights.as_slice())?;
        assert!(rt; has(&weights, &[2, field61::P - 1]));
        let one_root = vanisher(rt.alloc(), &[2])?;
        assert!(rt; has(&one_root, &[1, 1152921504606846975]));
        Ok(())
    }
}
