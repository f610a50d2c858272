//! What grids, rows and columns are, by sums of powers.

ghost use Rattle.std.specs.Prelude.{◌≡◌, ℕ, List};
ghost use Rattle.algebra61.specs.Field.{Fp};
ghost use Rattle.algebra61.specs.Poly.{eval};
ghost use Rattle.algebra61.specs.Grid.{row, column, grid_at};
ghost use Rattle.bivar61.specs.Sums.{grid_sum, GridSums};

/// The value of a grid is the double sum of its coefficients times powers, and its rows and
/// columns are the polynomials that are left where one variable is given a value.
#[tactic(auto, using(crate::proofs::SumLemmas::grid_sums))]
pub fn sums_law()
    ensures { (g : List (List Fp)) → GridSums g }
{}
