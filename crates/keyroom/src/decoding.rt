//! A key's lanes, decoded from the members' files.
ghost use Rattle.std.specs.Prelude.{◌≡◌, ◌<◌, ◌≤◌, length, IfOk};
ghost use Rattle.algebra61.specs.Field.{zeroₚ};
ghost use Rattle.algebra61.specs.Poly.{eval};
ghost use Rattle.keyroom.specs.Decoding.{value_in, values_in, lane_of, DecodesLane, Decodes, key_of, agrees_in, agrees, state_of, states_of};

use crate::state::{MemberState, StateList};
use crate::status::Status;
use crate::steps::Found;
use field61::Fe;
use lists::OutOfMemory;
use poly61::{Poly, PolyList};
use rs61::{DecodeFault, decode};
use sharefile::{NowFile, ShareFile};
use std::alloc::Global;

/// The value of a lane that a file has, if it is valid.
fn value_in(lane: usize, found: &Found) -> Option<Fe>
    requires { lane < 5 }
    ensures { result ≡ value_in lane found.now }
{
    match found {
        Found::Absent => None,
        Found::Invalid => None,
        Found::Valid(file) => Some(file.lanes[lane]),
    }
}

/// The values of a lane, by member.
fn values_in(alloc: Global, lane: usize, files: &[Found]) -> Result<Vec<Option<Fe>>, OutOfMemory>
    requires { lane < 5 }
    ensures { IfOk result (λ values. values.items ≡ values_in lane files.now) }
{
    Ok(
        files
            .iter()
            .map(|found| value_in(lane, found))
            .collect(alloc)?,
    )
}

/// The polynomial of degree at most `t` that is nearest to a lane's values.
fn decode_lane(alloc: Global, t: u32, lane: u32, files: &[Found]) -> Result<Poly, Status>
    requires within { lane < 5 }
    requires degree { t ≤ 14 }
    requires few { length files.now ≤ 30 }
    ensures { DecodesLane t lane files.now result }
{
    let values = values_in(alloc, lane as usize, files)?;
    match decode(alloc, &values, t) {
        Ok(decoded) => Ok(decoded.poly),
        Err(DecodeFault::NoPolynomial) => Err(Status::NoKey { lane }),
        Err(DecodeFault::OutOfMemory) => Err(Status::OutOfMemory),
    }
}

/// The polynomials of the five lanes that are nearest to the committee's files.
pub(crate) fn decode_all(alloc: Global, t: u32, files: &[Found]) -> Result<PolyList, Status>
    requires degree { t ≤ 14 }
    requires few { length files.now ≤ 30 }
    ensures { Decodes t files.now result }
{
    let mut polys = PolyList::new(alloc);
    for lane in 0..5 {
        let poly = decode_lane(alloc, t, lane, files)?;
        polys.push(poly)?;
    }
    Ok(polys)
}

fn value_at_zero(polys: &PolyList, lane: usize) -> Fe
    requires { lane < length polys.now }
    ensures { result ≡ eval (lane_of polys.now lane).coeffs zeroₚ }
{
    polys.at(lane).eval(Fe::ZERO)
}

/// The key: the value of each lane's polynomial at 0.
pub(crate) fn key_of(polys: &PolyList) -> [Fe; 5]
    requires { length polys.now ≡ 5 }
    ensures { result ≡ key_of polys.now }
{
    [
        value_at_zero(polys, 0),
        value_at_zero(polys, 1),
        value_at_zero(polys, 2),
        value_at_zero(polys, 3),
        value_at_zero(polys, 4),
    ]
}

/// Whether a lane's polynomial has the file's value at the member's point.
fn agrees_in(polys: &PolyList, index: u64, file: &ShareFile, lane: usize) -> bool
    requires known { length polys.now ≡ 5 }
    requires within { lane < 5 }
    ensures { result ≡ agrees_in polys.now index file.now lane }
{
    polys.at(lane).eval(Fe::reduce(index)).get() == file.lanes[lane].get()
}

/// Whether it is so in every lane.
fn agrees(polys: &PolyList, index: u64, file: &ShareFile) -> bool
    requires { length polys.now ≡ 5 }
    ensures { result ≡ agrees polys.now index file.now }
{
    agrees_in(polys, index, file, 0)
        && agrees_in(polys, index, file, 1)
        && agrees_in(polys, index, file, 2)
        && agrees_in(polys, index, file, 3)
        && agrees_in(polys, index, file, 4)
}

/// The state of a member.
fn state_of(polys: &PolyList, index: u64, found: &Found) -> MemberState
    requires { length polys.now ≡ 5 }
    ensures { result ≡ state_of polys.now index found.now }
{
    match found {
        Found::Absent => MemberState::Missing,
        Found::Invalid => MemberState::Damaged,
        Found::Valid(file) => {
            if agrees(polys, index, file) {
                MemberState::Fine
            } else {
                MemberState::Wrong
            }
        }
    }
}

/// The states of the members, from member 1 on.
pub(crate) fn states_of(
    alloc: Global,
    polys: &PolyList,
    files: &[Found],
) -> Result<StateList, OutOfMemory>
    requires { length polys.now ≡ 5 }
    ensures { IfOk result (λ states. states ≡ states_of polys.now 1 files.now) }
{
    let mut states = StateList::new(alloc);
    for (k, found) in files.iter().enumerate() {
        states.push(state_of(polys, k as u64 + 1, found))?;
    }
    Ok(states)
}
