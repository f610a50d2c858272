//! The polynomials that are 1 at 0, and 0 at the members that a mask names.

ghost use Rattle.std.specs.Prelude.{◌≡◌, ◌+◌, ◌≤◌, IfOk};
ghost use Rattle.algebra61.specs.Polynomial.{poly};
ghost use Rattle.choices61.specs.Sets.{over_y, vanisher_of, vanishing_at};
ghost use Rattle.phaseshift.specs.Members.{behind};

use field61::{Fe, FeList};
use lists::OutOfMemory;
use poly61::Poly;
use std::alloc::Global;
use talk::in_mask;

// The polynomial of degree 1 that is 1 at 0, and 0 at a member.
fn vanishing_at(alloc: Global, member: u32) -> Result<Poly, OutOfMemory>
    requires { (1 ≤ member) × (member ≤ 30) }
    ensures { IfOk result (λ p. p ≡ poly (vanishing_at member)) }
{
    let inverse = Fe::reduce(u64::from(member)).inv().unwrap();
    Poly::from_coeffs(alloc, &[Fe::ONE, inverse.neg()])
}

// The polynomial that is 1 at 0, and 0 at those of the members 1 to `members` that a mask names, where that of member k
// stands `shift` places further on. Its degree is their number.
pub(crate) fn vanisher_of(
    alloc: Global,
    mask: u32,
    shift: u32,
    members: u32,
) -> Result<Poly, OutOfMemory>
    requires { shift + members ≤ 30 }
    ensures { IfOk result (λ p. p ≡ poly (vanisher_of members (behind mask shift))) }
{
    let mut product = Poly::from_coeffs(alloc, &[Fe::ONE])?;
    for member in 1..members + 1 {
        if in_mask(mask, shift + member) {
            product = vanishing_at(alloc, member)?.times(alloc, &product)?;
        }
    }
    Ok(product)
}

// The polynomial without its constant, divided by y.
pub(crate) fn over_y(alloc: Global, p: &Poly) -> Result<Poly, OutOfMemory>
    ensures { IfOk result (λ q. q ≡ poly (over_y p.now.coeffs)) }
{
    let mut higher = FeList::new(alloc);
    for k in 1..p.len() {
        higher.push(p.coeff(k))?;
    }
    Poly::from_coeffs(alloc, higher.as_slice())
}
