//! Error vectors of syndromes. A word with the syndrome is decoded: what it has more than the nearest polynomial is the error.

ghost use Rattle.std.specs.Prelude.{◌≡◌, ℕ, ◌+◌, ◌-◌, ◌*◌, ◌<◌, ◌≤◌, List, length, map, cond, eqb, Some, IfOk};
ghost use Rattle.std.specs.List.{range_with_len};
ghost use Rattle.algebra61.specs.Field.{Fp, zeroₚ, oneₚ};
ghost use Rattle.algebra61.specs.Polynomial.{poly};
ghost use Rattle.checks61.specs.Checks.{entry, difference_from};
ghost use Rattle.checks61.specs.Word.{dot_to, basis, word_entry};
ghost use Rattle.rs61.specs.Errors.{basis_point, IsWordOf, ErrorAnswers};

use crate::checks::others_product;
use crate::nearest::decode;
use crate::{DecodeFault, ErrorFault};
use field61::{Fe, FeList};
use lists::OutOfMemory;
use poly61::{Poly, interpolate};
use std::alloc::Global;

// 1 at `peak`, 0 at each other point.
fn unit_at(point: u32, peak: u32) -> Fe
    ensures { result ≡ cond (eqb point peak) oneₚ zeroₚ }
{
    if point == peak { Fe::ONE } else { Fe::ZERO }
}

// The points 1 to `points`, with the value 1 at `peak` and 0 elsewhere.
fn basis_points(alloc: Global, points: u32, peak: u32) -> Result<Vec<(Fe, Fe)>, OutOfMemory>
    requires { points ≤ 30 }
    ensures { IfOk result (λ v. v.items ≡ map (basis_point peak) (range_with_len 1 points)) }
{
    let mut list = Vec::new(alloc);
    for k in 0..points {
        let value = unit_at(k + 1, peak);
        list.push((Fe::reduce(u64::from(k + 1)), value))?;
    }
    Ok(list)
}

// The polynomial with at most `points` coefficients that is 1 at `peak` and 0 at the others of the points 1 to `points`.
fn basis(alloc: Global, points: u32, peak: u32) -> Result<Poly, OutOfMemory>
    requires point { (1 ≤ peak) × (peak ≤ points) }
    requires few { points ≤ 30 }
    ensures { IfOk result (λ p. p ≡ poly (basis points peak)) }
{
    let list = basis_points(alloc, points, peak)?;
    let poly = interpolate(alloc, list.as_slice())?;
    Ok(poly)
}

// The sum of the products of the coefficients and the values.
fn dot(poly: &Poly, values: &[Fe]) -> Fe
    ensures { result ≡ dot_to (length values.now) poly.now.coeffs values.now }
{
    let mut sum = Fe::ZERO;
    for k in 0..values.len() {
        sum = sum.add(poly.coeff(k).mul(values[k]));
    }
    sum
}

// The entry at a point of the word with this syndrome.
fn word_entry(alloc: Global, syndrome: &[Fe], points: u32, point: u32) -> Result<Fe, OutOfMemory>
    requires few { points ≤ 30 }
    requires short { length syndrome.now ≤ points }
    requires from { 1 ≤ point }
    ensures { IfOk result (λ x. x ≡ word_entry points (length syndrome.now) syndrome.now point) }
{
    let rows = syndrome.len() as u32;
    if rows < point {
        return Ok(Fe::ZERO);
    }
    let basis = basis(alloc, rows, point)?;
    let x = Fe::reduce(u64::from(point));
    Ok(others_product(points, point, x).mul(dot(&basis, syndrome)))
}

// A word with this syndrome.
fn word(alloc: Global, syndrome: &[Fe], points: u32) -> Result<FeList, OutOfMemory>
    requires few { points ≤ 30 }
    requires short { length syndrome.now ≤ points }
    ensures { IfOk result (λ l. IsWordOf points syndrome.now l) }
{
    let mut list = FeList::new(alloc);
    for k in 0..points {
        list.push(word_entry(alloc, syndrome, points, k + 1)?)?;
    }
    Ok(list)
}

// All values, none missing.
fn all_present(alloc: Global, word: &FeList) -> Result<Vec<Option<Fe>>, OutOfMemory>
    ensures { IfOk result (λ v. v.items ≡ map Some word.now) }
{
    let mut list = Vec::new(alloc);
    for value in word.as_slice() {
        list.push(Some(*value))?;
    }
    Ok(list)
}

// The differences of the word from the polynomial's values.
fn differences(alloc: Global, word: &FeList, poly: &Poly) -> Result<FeList, OutOfMemory>
    requires { length word.now ≤ 30 }
    ensures { IfOk result (λ l. l ≡ difference_from (length word.now) (entry word.now) poly.now.coeffs) }
{
    let mut list = FeList::new(alloc);
    for k in 0..word.len() {
        let x = Fe::reduce(k as u64 + 1);
        list.push(word.at(k).sub(poly.eval(x)))?;
    }
    Ok(list)
}

/// The error vector of a syndrome: the vector of `points` entries of which at most `bound` are not 0 and whose syndrome is
/// this one. With 3 * `bound` below `points` there is at most one. A syndrome has `points` - `bound` - 1 elements, and there
/// are at most 30 points.
///
/// `NoError` is answered exactly where there is none.
pub fn error_of(
    alloc: Global,
    syndrome: &[Fe],
    points: u32,
    bound: u32,
) -> Result<FeList, ErrorFault>
    requires third { 3 * bound < points }
    requires few { points ≤ 30 }
    requires long { length syndrome.now ≡ points - bound - 1 }
    ensures { ErrorAnswers points bound syndrome.now result }
{
    let word = word(alloc, syndrome, points)?;
    let values = all_present(alloc, &word)?;
    let found = match decode(alloc, values.as_slice(), bound) {
        Ok(found) => found,
        Err(DecodeFault::NoPolynomial) => return Err(ErrorFault::NoError),
        Err(DecodeFault::OutOfMemory) => return Err(ErrorFault::OutOfMemory),
    };
    if found.wrong.len() > bound as usize {
        return Err(ErrorFault::NoError);
    }
    let error = differences(alloc, &word, &found.poly)?;
    Ok(error)
}

#[cfg(test)]
mod tests {
    use super::*;
    use crate::checks::syndrome;

    // The elements with these numbers.
    fn elements(alloc: Global, numbers: &[u64]) -> Result<FeList, OutOfMemory> {
        let mut list = FeList::new(alloc);
        for number in numbers {
            list.push(Fe::reduce(*number))?;
        }
        Ok(list)
    }

    // Whether the list holds exactly these numbers.
    fn holds(list: &FeList, numbers: &[u64]) -> bool {
        list.len() == numbers.len()
            && list
                .as_slice()
                .iter()
                .zip(numbers.iter())
                .all(|(a, b)| a.get() == *b)
    }

    // The syndrome of four values by the check of degree 1.
    fn syndrome_of_four(alloc: Global, numbers: &[u64; 4]) -> Result<FeList, OutOfMemory> {
        let values = elements(alloc, numbers.as_slice())?;
        if values.len() == 4 {
            syndrome(alloc, values.as_slice(), 1)
        } else {
            Ok(values)
        }
    }

    // What error_of answers for four points, of which one may be wrong.
    fn error_of_four(alloc: Global, syndrome: &FeList) -> Result<FeList, ErrorFault> {
        if syndrome.len() == 2 {
            error_of(alloc, syndrome.as_slice(), 4, 1)
        } else {
            Err(ErrorFault::NoError)
        }
    }

    #[test]
    fn one_wrong_value_of_four_is_found(rt: HostRuntime) -> Result<(), OutOfMemory> {
        let found = syndrome_of_four(rt.alloc(), &[11, 13, 16, 19])?;
        assert!(rt; holds(&found, &[384307168202282325, 384307168202282325]));
        match error_of_four(rt.alloc(), &found) {
            Ok(vector) => assert!(rt; holds(&vector, &[1, 0, 0, 0])),
            Err(_) => assert!(rt; false),
        }
        Ok(())
    }

    #[test]
    fn two_wrong_values_of_four_have_no_error_vector(rt: HostRuntime) -> Result<(), OutOfMemory> {
        let found = syndrome_of_four(rt.alloc(), &[11, 14, 16, 19])?;
        assert!(rt; holds(&found, &[1537228672809129301, 384307168202282326]));
        let none = matches!(error_of_four(rt.alloc(), &found), Err(ErrorFault::NoError));
        assert!(rt; none);
        Ok(())
    }
}
