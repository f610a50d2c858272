//! The weights of interpolation.

ghost use Rattle.std.specs.Prelude.{◌≡◌, ℕ, IfOk};
ghost use Rattle.algebra61.specs.Field.{zeroₚ};
ghost use Rattle.algebra61.specs.Poly.{eval, Distinct, WeighsAt};
ghost use Rattle.algebra61.proofs.Dual.{others};
ghost use Rattle.algebra61.proofs.Interpolate.{vanish};

use field61::{Fe, FeList};
use lists::OutOfMemory;
use std::alloc::Global;

// The product of `y` - z over the points z other than `x`.
fn differences(xs: &[Fe], x: Fe, y: Fe) -> Fe
    ensures { result ≡ eval (vanish (others x xs.now)) y }
{
    let mut product = Fe::ONE;
    for z in xs {
        if *z != x {
            product = product.mul(y.sub(*z));
        }
    }
    product
}

/// The weights of interpolation at 0: for each list of values at the points `xs`, the sum of
/// weight times value is the value at 0 of the polynomial that is no longer than `xs` and has
/// these values (Lagrange).
pub fn weights_at_zero(alloc: Global, xs: &[Fe]) -> Result<FeList, OutOfMemory>
    requires { Distinct xs.now }
    ensures { IfOk result (λ w. WeighsAt zeroₚ xs.now w) }
{
    let mut weights = FeList::new(alloc);
    for x in xs {
        let inverse = differences(xs, *x, *x).inv().unwrap();
        weights.push(differences(xs, *x, Fe::ZERO).mul(inverse))?;
    }
    Ok(weights)
}
