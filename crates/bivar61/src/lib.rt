//! Grids: polynomials in two variables over the field of 2^61 - 1 elements.
#![tactic(auto)]

ghost use Rattle.std.specs.Prelude.{◌≡◌, ℕ, ◌+◌, ◌*◌, ◌<◌, ◌≤◌, List, [], ◌∷◌, length, IfOk, get_or, slice_index_or};
ghost use Rattle.algebra61.specs.Field.{Fp, fe, zeroₚ, ◌+ₚ◌, ◌*ₚ◌};
ghost use Rattle.algebra61.specs.Poly.{eval, coeff};
ghost use Rattle.algebra61.specs.Polynomial.{poly};
ghost use Rattle.algebra61.specs.Grid.{row, column, grid_at};
ghost use Rattle.bivar61.specs.Grids.{IsGrid, coefficient, grid_of, rows_of, multiple_added};
ghost use Rattle.bivar61.specs.Sums.{grid_sum};

mod laws;
mod list;

use field61::{Fe, FeList};
pub use laws::sums_law;
pub use list::GridList;
use lists::{OutOfMemory, TryCopy};
use poly61::Poly;
use std::alloc::Global;
use std::marker::Model;

/// A polynomial S(x, y) of degree at most d in each variable, d at most 14.
///
/// A contract sees it as a list of d + 1 lists of d + 1 coefficients: the list at place a has the
/// coefficients of x^a, that of y^b at place b. Zeros are kept, so the lengths tell d.
#[derive(Drop)]
pub struct Grid {
    degree: u32,
    rows: Vec<FeList>,
}

impl Model for Grid {
    ghost use Rattle.std.specs.Prelude.{List};
    ghost use Rattle.std.specs.Coded.{coded_list};
    ghost use Rattle.algebra61.specs.Field.{Fp, fp_code};
    ghost use Rattle.bivar61.specs.Grids.{IsGrid};

    ghost Value = { List (List Fp) };

    ghost coded = { coded_list (coded_list fp_code) };

    ghost view = { λ a. a.rows.items };

    ghost invariant = { λ a. IsGrid a.degree a.rows.items };
}

// The elements as a list.
fn list_of(alloc: Global, elements: &[Fe]) -> Result<FeList, OutOfMemory>
    ensures { IfOk result (λ l. l ≡ elements.now) }
{
    let mut list = FeList::new(alloc);
    for element in elements {
        list.push(*element)?;
    }
    Ok(list)
}

// The value at `x` of the polynomial with these coefficients.
fn value_at(coefficients: &FeList, x: Fe) -> Fe
    ensures { result ≡ eval coefficients.now x }
{
    let mut value = Fe::ZERO;
    let mut k = coefficients.len();
    while k > 0 {
        k -= 1;
        value = coefficients.at(k).add(x.mul(value));
    }
    value
}

// The list with `factor` times the coefficients of `other` added, as long as before.
fn with_multiple(
    alloc: Global,
    list: &FeList,
    factor: Fe,
    other: &Poly,
) -> Result<FeList, OutOfMemory>
    ensures { IfOk result (λ l. l ≡ multiple_added factor 0 list.now other.now.coeffs) }
{
    let mut sums = FeList::new(alloc);
    for b in 0..list.len() {
        sums.push(list.at(b).add(factor.mul(other.coeff(b))))?;
    }
    Ok(sums)
}

impl TryCopy for Grid {
    fn copy(&self, alloc: Global) -> Result<Grid, OutOfMemory> {
        let mut rows = Vec::new(alloc);
        for row in &self.rows {
            rows.push(row.copy(alloc)?)?;
        }
        Ok(Grid {
            degree: self.degree,
            rows,
        })
    }
}

impl Grid {
    /// The grid of degree `d` whose coefficient of x^a * y^b stands at place `a * (d + 1) + b` of `c`.
    pub fn from_elements(alloc: Global, d: u32, c: &[Fe]) -> Result<Grid, OutOfMemory>
        requires degree { d ≤ 14 }
        requires size { length c.now ≡ (d + 1) * (d + 1) }
        ensures grid { IfOk result (λ g. g ≡ grid_of d c.now) }
        ensures shape { IfOk result (IsGrid d) }
        ensures placed { IfOk result (λ g. (a b : ℕ) → a ≤ d → b ≤ d
            → coefficient g a b ≡ slice_index_or c.now (a * (d + 1) + b) zeroₚ) }
    {
        let width = d as usize + 1;
        let mut rows = Vec::new(alloc);
        for a in 0..width {
            let start = a * width;
            rows.push(list_of(alloc, &c[start..start + width])?)?;
        }
        Ok(Grid { degree: d, rows })
    }

    /// The degree d in each variable, which is at most 14.
    pub fn degree(&self) -> u32
        ensures { IsGrid result self.now }
    {
        self.degree
    }

    /// The coefficient of x^a * y^b.
    pub fn coeff(&self, a: u32, b: u32) -> Fe
        requires in_x { a < length self.now }
        requires in_y { b < length self.now }
        ensures { result ≡ coefficient self.now a b }
    {
        *self.rows[a as usize].at(b as usize)
    }

    /// The value S(x, y).
    pub fn at(&self, x: Fe, y: Fe) -> Fe
        ensures value { result ≡ grid_at self.now x y }
        ensures sum { result ≡ grid_sum self.now x y }
    {
        let mut value = Fe::ZERO;
        let mut power = self.rows.len();
        while power > 0 {
            power -= 1;
            value = value_at(&self.rows[power], y).add(x.mul(value));
        }
        value
    }

    /// The row of a receiver: the polynomial in x that S(x, y) is at the receiver's point as y.
    pub fn row(&self, alloc: Global, index: u32) -> Result<Poly, OutOfMemory>
        ensures { IfOk result (λ p. p ≡ poly (row self.now (fe index))) }
    {
        let point = Fe::reduce(index as u64);
        let mut values = FeList::new(alloc);
        for coefficients in &self.rows {
            values.push(value_at(coefficients, point))?;
        }
        Poly::from_coeffs(alloc, values.as_slice())
    }

    /// The column of a receiver: the polynomial in y that S(x, y) is at the receiver's point as x.
    pub fn column(&self, alloc: Global, index: u32) -> Result<Poly, OutOfMemory>
        ensures { IfOk result (λ p. p ≡ poly (column self.now (fe index))) }
    {
        let point = Fe::reduce(index as u64);
        let mut coefficients = FeList::new(alloc);
        for b in 0..self.rows.len() {
            coefficients.push(self.column_coeff(point, b))?;
        }
        Poly::from_coeffs(alloc, coefficients.as_slice())
    }

    // The coefficient of y^b in S(x, y).
    fn column_coeff(&self, x: Fe, b: usize) -> Fe
        requires { b < length self.now }
        ensures { result ≡ coeff (column self.now x) b }
    {
        let mut value = Fe::ZERO;
        let mut a = self.rows.len();
        while a > 0 {
            a -= 1;
            value = self.rows[a].at(b).add(x.mul(value));
        }
        value
    }

    /// The grid of S(x, y) + u(x) * v(y), of the same degree.
    pub fn add_product(&self, alloc: Global, u: &Poly, v: &Poly) -> Result<Grid, OutOfMemory>
        requires in_x { length u.now.coeffs ≤ length self.now }
        requires in_y { length v.now.coeffs ≤ length self.now }
        ensures shape { IfOk result (λ g. (d : ℕ) → IsGrid d self.now → IsGrid d g) }
        ensures coefficients { IfOk result (λ g. (a b : ℕ) → a < length self.now → b < length self.now
            → coefficient g a b
            ≡ coefficient self.now a b +ₚ coeff u.now.coeffs a *ₚ coeff v.now.coeffs b) }
        ensures values { IfOk result (λ g. (x y : Fp)
            → grid_at g x y ≡ grid_at self.now x y +ₚ eval u.now.coeffs x *ₚ eval v.now.coeffs y) }
    {
        let mut rows = Vec::new(alloc);
        for a in 0..self.rows.len() {
            rows.push(with_multiple(alloc, &self.rows[a], u.coeff(a), v)?)?;
        }
        Ok(Grid {
            degree: self.degree,
            rows,
        })
    }
}

#[cfg(test)]
mod tests {
    use super::*;
    use std::test::Fail;

    // The elements of the numbers.
    fn elements(numbers: [u64; 4]) -> [Fe; 4] {
        [
            Fe::reduce(numbers[0]),
            Fe::reduce(numbers[1]),
            Fe::reduce(numbers[2]),
            Fe::reduce(numbers[3]),
        ]
    }

    #[test]
    fn rows_and_columns_of_a_grid_cross(rt: HostRuntime) -> Result<(), Fail> {
        // 5 + x + 2y + 3xy
        let grid = Grid::from_elements(rt.alloc(), 1, &elements([5, 2, 1, 3]))?;
        let row = grid.row(rt.alloc(), 1)?;
        let column = grid.column(rt.alloc(), 2)?;
        for (p, first, second) in [(&row, 7, 4), (&column, 7, 8)] {
            assert_eq!(rt; p.len(), 2);
            assert_eq!(rt; p.coeff(0).get(), first);
            assert_eq!(rt; p.coeff(1).get(), second);
        }
        assert_eq!(rt; row.eval(Fe::reduce(2)).get(), 15);
        assert_eq!(rt; column.eval(Fe::ONE).get(), 15);
        assert_eq!(rt; grid.at(Fe::reduce(2), Fe::ONE).get(), 15);
        assert_eq!(rt; grid.degree(), 1);
        Ok(())
    }

    #[test]
    fn a_product_is_added_to_the_coefficients(rt: HostRuntime) -> Result<(), Fail> {
        let grid = Grid::from_elements(rt.alloc(), 1, &elements([5, 2, 1, 3]))?;
        let u = Poly::from_coeffs(rt.alloc(), &[Fe::ONE])?;
        let v = Poly::from_coeffs(rt.alloc(), &[Fe::ZERO, Fe::ONE])?;
        assert!(rt; u.len() == 1);
        assert!(rt; v.len() == 2);
        let sum = grid.add_product(rt.alloc(), &u, &v)?;
        let degree = sum.degree();
        assert_eq!(rt; degree, 1);
        for (a, b, number) in [(0, 0, 5), (0, 1, 3), (1, 0, 1), (1, 1, 3)] {
            assert!(rt; a <= degree);
            assert!(rt; b <= degree);
            assert_eq!(rt;
                sum.coeff(a, b).get(),
                number,
                "the coefficient of x^{a} * y^{b}"
            );
        }
        Ok(())
    }

    #[test]
    fn lists_keep_and_copy_grids(rt: HostRuntime) -> Result<(), Fail> {
        let mut list = GridList::new(rt.alloc());
        list.push(Grid::from_elements(rt.alloc(), 0, &[Fe::ONE])?)?;
        list.push(Grid::from_elements(rt.alloc(), 1, &elements([5, 2, 1, 3]))?.copy(rt.alloc())?)?;
        let copied = list.copy(rt.alloc())?;
        assert_eq!(rt; copied.len(), 2);
        assert_eq!(rt; copied.at(0).at(Fe::ZERO, Fe::ZERO).get(), 1);
        assert_eq!(rt; copied.at(1).at(Fe::reduce(2), Fe::ONE).get(), 15);
        Ok(())
    }
}
