//! The share that is left when the errors are taken off.

ghost use Rattle.std.specs.Prelude.{◌≡◌, ℕ, ◌+◌, ◌<◌, ◌≤◌, ◌^◌, length, map, IfOk};
ghost use Rattle.std.specs.List.{range_with_len};
ghost use Rattle.algebra61.specs.Field.{Fp, fe};
ghost use Rattle.checks61.specs.Checks.{entry, corrected};

use field61::Fe;
use lists::OutOfMemory;
use poly61::weights_at_zero;
use std::alloc::Global;

// The points 1 to `count`.
fn first_points(alloc: Global, count: usize) -> Result<Vec<Fe>, OutOfMemory>
    ensures { IfOk result (λ v. v.items ≡ map fe (range_with_len 1 count)) }
{
    let mut list = Vec::new(alloc);
    for index in 0..count {
        list.push(Fe::reduce(index as u64 + 1))?;
    }
    Ok(list)
}

/// The new share: the value at 0, by the points 1 to `bound` + 1, of what the errors leave of the subshares. There is one
/// error for each subshare, and there are more than `bound` of both.
pub fn correct(alloc: Global, shares: &[Fe], errors: &[Fe], bound: u32) -> Result<Fe, OutOfMemory>
    requires same { length errors.now ≡ length shares.now }
    requires enough { bound < length shares.now }
    ensures { IfOk result (λ x. x ≡ corrected (bound + 1) (entry shares.now) (entry errors.now)) }
{
    let count = bound as usize + 1;
    let points = first_points(alloc, count)?;
    let weights = weights_at_zero(alloc, points.as_slice())?;
    let mut sum = Fe::ZERO;
    for k in 0..count {
        sum = sum.add(weights.at(k).mul(shares[k].sub(errors[k])));
    }
    Ok(sum)
}
