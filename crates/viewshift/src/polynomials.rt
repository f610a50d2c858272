//! The polynomials on which the shares of a period lie.

ghost use Rattle.std.specs.Prelude.{◌≡◌, ◌+◌, ◌<◌, ◌≤◌, length, map, IfOk};
ghost use Rattle.algebra61.specs.Poly.{eval};
ghost use Rattle.plays.specs.Said.{places};
ghost use Rattle.viewshift.specs.Through.{AreThrough, coeffs_in, shared_points};

use field61::Fe;
use lists::OutOfMemory;
use poly61::{PolyList, interpolate};
use sizes::LANES;
use std::alloc::Global;

// The interpolants of the shares that are there, lane by lane.
pub(crate) fn polynomials_of(
    alloc: Global,
    shares: &[Option<[Fe; 5]>],
) -> Result<PolyList, OutOfMemory>
    requires { length shares.now ≤ 30 }
    ensures { IfOk result (AreThrough shares.now) }
{
    let mut list = PolyList::new(alloc);
    for lane in 0..LANES {
        let points = shared_points(alloc, shares, lane)?;
        list.push(interpolate(alloc, points.as_slice())?)?;
    }
    Ok(list)
}

// The points of the shares that are there in a lane: each member's number, and its share.
fn shared_points(
    alloc: Global,
    shares: &[Option<[Fe; 5]>],
    lane: u32,
) -> Result<Vec<(Fe, Fe)>, OutOfMemory>
    requires few { length shares.now ≤ 30 }
    requires lane { lane < 5 }
    ensures { IfOk result (λ v. v.items ≡ shared_points lane 1 shares.now) }
{
    let mut list = Vec::new(alloc);
    let mut member = 1;
    for share in shares {
        if let Some(values) = share {
            list.push((Fe::reduce(member), values[lane as usize]))?;
        }
        member += 1;
    }
    Ok(list)
}

// The values of five polynomials at a point, lane by lane.
pub(crate) fn values_at(polynomials: &PolyList, point: Fe) -> [Fe; 5]
    requires { length polynomials.now ≡ 5 }
    ensures { result ≡ map (λ lane. eval (coeffs_in polynomials.now lane) point) (places 5) }
{
    [
        polynomials.at(0).eval(point),
        polynomials.at(1).eval(point),
        polynomials.at(2).eval(point),
        polynomials.at(3).eval(point),
        polynomials.at(4).eval(point),
    ]
}
