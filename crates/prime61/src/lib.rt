//! That 2^61 - 1 is prime, by a certificate in Pocklington's way: only numbers, with no definition of a field.
#![tactic(auto)]

ghost use Rattle.prime61.specs.Divisor.{NoDivisor};

/// The Mersenne number 2^61 - 1.
pub const P: u64 = 2305843009213693951;

/// `P` is prime: no whole number from 2 to `P` - 1 divides it (Pocklington's criterion, over the
/// factors 61, 151, 331 and 1321 of `P` - 1).
#[tactic(auto, using(crate::proofs::Prime::prime_p))]
pub fn no_divisor()
    ensures { NoDivisor P }
{}
