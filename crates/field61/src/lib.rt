//! Arithmetic modulo the prime 2^61 - 1, and lists of elements.
#![tactic(auto)]

ghost use Rattle.std.specs.Prelude.{◌≡◌, ℕ, ◌+◌, ◌-◌, ◌*◌, ◌<◌, ◌≤◌, ◌%◌, ◌↔◌, IsTrue, MatchOption, IfSome};
ghost use Rattle.std.specs.Int.{to_be_bytes, from_be_bytes, w64};
ghost use Rattle.algebra61.specs.Field.{Fp, fe, ◌+ₚ◌, ◌*ₚ◌, ◌-ₚ◌, negₚ, zeroₚ, oneₚ, powₚ};

pub mod laws;
mod list;

pub use list::{FeList, NumberList};
use lists::TryCopy;
use std::marker::Model;

/// The number of elements of the field, the Mersenne prime 2^61 - 1.
pub const P: u64 = 2305843009213693951;

/// An element of the field of `P` elements: a whole number below `P`, with arithmetic modulo `P`.
///
/// No call of `Fe` takes memory.
#[tactic(auto, using(crate::proofs::Steps::number_is))]
#[derive(Clone, Copy, Debug, Drop, PartialEq, Eq)]
pub struct Fe {
    number: u64,
}

impl Model for Fe {
    ghost use Rattle.std.specs.Prelude.{◌<◌, ◌≡◌};
    ghost use Rattle.algebra61.specs.Field.{Fp, fe, fp_code, Prime};
    ghost use Rattle.algebra61.proofs.Ring.{num-fe_small};
    ghost use Rattle.std.proofs.Common.{ap};

    ghost Value = { Fp };

    ghost coded = { fp_code };

    ghost view = { λ a. fe a.number };

    ghost invariant = { λ a. a.number < Prime };

    ghost inverse = { λ v. record { number = v.num } };

    ghost inverse_ok = { λ a h. ap (λ n. record { number = n }) (num-fe_small a.number h) };
}

// The element that a number below 2 * P leaves.
fn fold(sum: u64) -> Fe
    requires { sum < 2 * P }
    ensures { result ≡ fe sum }
{
    if sum < P {
        Fe { number: sum }
    } else {
        Fe { number: sum - P }
    }
}

impl Fe {
    /// The element 0.
    pub const ZERO: Fe = Fe { number: 0 };

    /// The element 1.
    pub const ONE: Fe = Fe { number: 1 };

    /// The element `v`. `None` exactly where `v` is `P` or more.
    pub fn from_u64(v: u64) -> Option<Fe>
        ensures { MatchOption result (P ≤ v) (λ x. x.num ≡ v) }
    {
        if v < P { Some(Fe { number: v }) } else { None }
    }

    /// The element that `v` leaves modulo `P`.
    pub fn reduce(v: u64) -> Fe
        ensures { result ≡ fe v }
    {
        Fe { number: v % P }
    }

    /// The element as a number below `P`.
    pub fn get(self) -> u64
        ensures { result ≡ self.num }
    {
        self.number
    }

    /// The sum modulo `P`.
    pub fn add(self, other: Fe) -> Fe
        ensures { result ≡ self +ₚ other }
    {
        fold(self.number + other.number)
    }

    /// The negative modulo `P`: the element whose sum with this one is 0.
    pub fn neg(self) -> Fe
        ensures { result ≡ negₚ self }
    {
        fold(P - self.number)
    }

    /// The difference modulo `P`.
    pub fn sub(self, other: Fe) -> Fe
        ensures { result ≡ self -ₚ other }
    {
        self.add(other.neg())
    }

    /// The product modulo `P`.
    pub fn mul(self, other: Fe) -> Fe
        ensures { result ≡ self *ₚ other }
    {
        // 2^61 leaves 1 modulo `P`, so the bits from 61 on count as a number of their own.
        let product = self.number as u128 * other.number as u128;
        let low = (product & 0x1fff_ffff_ffff_ffff) as u64;
        let high = (product >> 61) as u64;
        fold(low + high)
    }

    /// The inverse: the element whose product with this one is 1. `None` exactly at 0.
    pub fn inv(self) -> Option<Fe>
        ensures { MatchOption result (self ≡ zeroₚ) (λ x. self *ₚ x ≡ oneₚ) }
    {
        if self.number == 0 {
            return None;
        }
        let mut rest = self.number;
        // `rest` is this element times `factor`. `P` is prime, so no remainder on the way is 0.
        let mut factor = Fe::ONE;
        while rest > 1 {
            factor = factor.mul(Fe::reduce(P / rest)).neg();
            rest = P % rest;
        }
        Some(factor)
    }

    /// The power with this exponent. Every element to the power 0 is 1.
    pub fn pow(self, exponent: u64) -> Fe
        ensures { result ≡ powₚ self exponent }
    {
        let mut base = self;
        let mut left = exponent;
        let mut product = Fe::ONE;
        while left > 0 {
            if left % 2 == 1 {
                product = product.mul(base);
            }
            base = base.mul(base);
            left /= 2;
        }
        product
    }

    /// The number as eight bytes, the most significant first.
    pub fn to_bytes(self) -> [u8; 8]
        ensures { result ≡ to_be_bytes w64 self.num }
    {
        self.get().to_be_bytes()
    }

    /// The element with these bytes, the most significant first. `None` exactly where they spell
    /// `P` or more, so each element has one spelling.
    pub fn from_bytes(bytes: [u8; 8]) -> Option<Fe>
        ensures { MatchOption result (P ≤ from_be_bytes w64 bytes) (λ x. x.num ≡ from_be_bytes w64 bytes) }
    {
        Fe::from_u64(u64::from_be_bytes(bytes))
    }
}

#[cfg(test)]
mod tests {
    use super::*;
    use lists::{OutOfMemory, TryCopy};

    // The number of an inverse, and `P` where there is none.
    fn inverse_of(v: u64) -> u64 {
        Fe::reduce(v).inv().map(|x| x.get()).unwrap_or(P)
    }

    #[test]
    fn arithmetic_wraps_at_p(rt: HostRuntime) {
        let last = Fe::reduce(P - 1);
        assert!(rt; last.add(Fe::ONE) == Fe::ZERO);
        assert!(rt; last.mul(last) == Fe::ONE);
        assert!(rt; Fe::ZERO.sub(Fe::ONE) == last);
        assert!(rt; Fe::ONE.neg() == last && Fe::ZERO.neg() == Fe::ZERO);
        assert!(rt; inverse_of(2) == 1152921504606846976 && inverse_of(0) == P);
        assert!(rt; Fe::from_u64(P).is_none() && Fe::reduce(P) == Fe::ZERO);
        assert!(rt; Fe::ZERO.pow(0) == Fe::ONE && Fe::reduce(2).pow(61) == Fe::ONE);
    }

    #[test]
    fn each_element_has_one_spelling(rt: HostRuntime) {
        let last = [0x1f, 0xff, 0xff, 0xff, 0xff, 0xff, 0xff, 0xfe];
        assert!(rt; Fe::from_bytes([0x1f, 0xff, 0xff, 0xff, 0xff, 0xff, 0xff, 0xff]).is_none());
        assert!(rt; Fe::from_bytes(last) == Some(Fe::reduce(P - 1)));
        assert!(rt; Fe::reduce(P - 1).to_bytes() == last);
    }

    #[test]
    fn lists_grow_and_are_copied(rt: HostRuntime) -> Result<(), OutOfMemory> {
        let mut elements = FeList::new(rt.alloc());
        let mut numbers = NumberList::new(rt.alloc());
        for k in 0..3u32 {
            elements.push(Fe::reduce(10 + k as u64))?;
            numbers.push(20 + k)?;
        }
        let elements = FeList::from_vec(elements.copy(rt.alloc())?.into_vec());
        let numbers = NumberList::from_vec(numbers.copy(rt.alloc())?.into_vec());
        assert!(rt; elements.len() == 3 && numbers.len() == 3);
        for k in 0..3usize {
            assert!(rt; elements.as_slice().get(k).map(|x| x.get()) == Some(10 + k as u64));
            assert!(rt; numbers.as_slice().get(k).copied() == Some(20 + k as u32));
        }
        Ok(())
    }
}
