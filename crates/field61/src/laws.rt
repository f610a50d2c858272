//! Laws of the field.

ghost use Rattle.prime61.specs.Divisor.{NoDivisor};

use crate::P;

/// The number of elements is prime: no whole number from 2 to `P` - 1 divides `P`.
#[tactic(auto, using(prime61::proofs::Prime::prime_p))]
pub fn p_is_prime()
    ensures { NoDivisor P }
{}
