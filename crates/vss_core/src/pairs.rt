//! Rows with their columns.

ghost use Rattle.std.specs.Prelude.{◌≡◌, ◌+◌, ◌*◌, ◌<◌, ◌≤◌, ◌++◌, length, IfOk};
ghost use Rattle.algebra61.specs.Field.{Fp};
ghost use Rattle.algebra61.specs.Polynomial.{poly};
ghost use Rattle.sharing61.specs.Rules.{Pair, at_point, pair_on, zero_pair};
ghost use Rattle.plays.specs.Read.{dealt_in, part};
ghost use Rattle.vss_core.specs.States.{DealtLong};
ghost use Rattle.plays.specs.Said.{padded, pair_list};

use bivar61::Grid;
use field61::{Fe, FeList};
use lists::{List, OutOfMemory, TryCopy};
use poly61::Poly;
use sharing61::Crossing;
use std::alloc::Global;
use std::marker::Model;
use talk::Ring;

/// A row and a column: what a receiver holds of an instance.
#[derive(Drop)]
pub struct PolyPair {
    row: Poly,
    column: Poly,
}

impl Model for PolyPair {
    ghost use Rattle.sharing61.specs.Rules.{Pair};
    ghost use Rattle.plays.specs.Seat.{pair_code};

    ghost Value = { Pair };

    ghost coded = { pair_code };

    ghost view = { λ p. record { row = p.row; column = p.column } };
}

impl PolyPair {
    /// The pair of these two.
    pub fn new(row: Poly, column: Poly) -> PolyPair
        ensures { result ≡ record { row = row; column = column } }
    {
        PolyPair { row, column }
    }

    /// Two zero polynomials.
    pub fn zero(alloc: Global) -> Result<PolyPair, OutOfMemory>
        ensures { IfOk result (λ p. p ≡ zero_pair) }
    {
        Ok(PolyPair {
            row: Poly::from_coeffs(alloc, &[])?,
            column: Poly::from_coeffs(alloc, &[])?,
        })
    }

    /// The row and the column of a receiver on a grid.
    pub fn on_grid(alloc: Global, grid: &Grid, receiver: u32) -> Result<PolyPair, OutOfMemory>
        ensures { IfOk result (λ p. p ≡ pair_on grid.now receiver) }
    {
        Ok(PolyPair {
            row: grid.row(alloc, receiver)?,
            column: grid.column(alloc, receiver)?,
        })
    }

    /// The row.
    pub fn row(&self) -> &Poly
        ensures { result.now ≡ self.now.row }
    {
        &self.row
    }

    /// The column.
    pub fn column(&self) -> &Poly
        ensures { result.now ≡ self.now.column }
    {
        &self.column
    }

    /// The values of the row and of the column at a receiver's point.
    pub fn at(&self, receiver: u32) -> Crossing
        ensures { result ≡ at_point self.now receiver }
    {
        let x = Fe::reduce(u64::from(receiver));
        Crossing {
            row: self.row.eval(x),
            column: self.column.eval(x),
        }
    }
}

impl TryCopy for PolyPair {
    fn copy(&self, alloc: Global) -> Result<PolyPair, OutOfMemory> {
        Ok(PolyPair {
            row: self.row.copy(alloc)?,
            column: self.column.copy(alloc)?,
        })
    }
}

/// Pairs, one for each instance. Contracts see the list of them.
pub type PairList = List<PolyPair>;

// The first `count` coefficients of a polynomial, zeros past the last, at the end of the list.
pub(crate) fn push_padded(
    list: &mut FeList,
    polynomial: &Poly,
    count: usize,
) -> Result<(), OutOfMemory>
    ensures { IfOk result (λ _. list.new ≡ list.old ++ padded count polynomial.now.coeffs) }
{
    for k in 0..count {
        list.push(polynomial.coeff(k))?;
    }
    Ok(())
}

// The first `count` coefficients of a polynomial, zeros past the last.
pub(crate) fn padded(alloc: Global, polynomial: &Poly, count: usize) -> Result<FeList, OutOfMemory>
    ensures { IfOk result (λ l. l ≡ padded count polynomial.now.coeffs) }
{
    let mut list = FeList::new(alloc);
    push_padded(&mut list, polynomial, count)?;
    Ok(list)
}

// The pair of a lane in a dealer's message of a degree, zeros where it sent nothing.
pub(crate) fn dealt_pair(
    alloc: Global,
    ring: &Ring,
    degree: usize,
    lane: usize,
) -> Result<PolyPair, OutOfMemory>
    requires lane { lane < 5 }
    requires degree { degree ≤ 4 }
    requires long { DealtLong degree ring.now }
    ensures { IfOk result (λ p. p ≡ dealt_in degree lane ring.now) }
{
    match ring {
        Ring::Dealt { list } => Ok(PolyPair {
            row: dealt_part(alloc, list, degree + 1, 2 * lane)?,
            column: dealt_part(alloc, list, degree + 1, 2 * lane + 1)?,
        }),
        _ => PolyPair::zero(alloc),
    }
}

// The polynomial of the part at a place, of `count` coefficients each; places count from 0.
fn dealt_part(alloc: Global, list: &FeList, count: usize, place: usize) -> Result<Poly, OutOfMemory>
    requires parts { place < 10 }
    requires size { count ≤ 5 }
    requires long { length list.now ≡ 10 * count }
    ensures { IfOk result (λ p. p ≡ poly (part count place list.now)) }
{
    let coeffs = list.as_slice();
    Poly::from_coeffs(alloc, &coeffs[place * count..place * count + count])
}
