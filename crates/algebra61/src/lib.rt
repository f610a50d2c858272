//! The field of 2^61 - 1 elements and polynomials over it, for contracts and proofs. The functions
//! are laws: their bodies are empty, and their contracts are the theorems.
#![tactic(auto)]

ghost use Rattle.std.specs.Prelude.{◌≡◌, ℕ, ◌+◌, ◌*◌, ◌<◌, ◌≤◌, ◌⊎◌, List, Option, length};
ghost use Rattle.algebra61.specs.Field.{Fp, Prime, zeroₚ, oneₚ, ◌+ₚ◌, ◌*ₚ◌};
ghost use Rattle.algebra61.specs.Inverse.{invₚ};
ghost use Rattle.algebra61.specs.Poly.{eval, points, Point, AllZero, AllRoots, Distinct, Through};
ghost use Rattle.algebra61.specs.Trim.{trim};
ghost use Rattle.algebra61.specs.Polynomial.{Polynomial};
ghost use Rattle.algebra61.specs.Nearest.{IsNearest, IsRight, Named, wrong, missing};
ghost use Rattle.algebra61.specs.Grid.{Holder, Degree, AllShort, AllOnGrid, AllWithin, EachFacing, Facing, FacedBy, OnGrid, holder_points};

/// Every element but 0 has an inverse: the numbers modulo a prime are a field.
#[tactic(auto, using(crate::proofs::Inverse::inverse_rules))]
pub fn inverses()
    ensures { (a : Fp) → (a ≡ zeroₚ → ⊥) → a *ₚ invₚ a ≡ oneₚ }
{}

/// A polynomial with at least as many different roots as coefficients is zero: a polynomial over
/// a field has at most as many roots as its degree.
#[tactic(auto, using(crate::proofs::Roots::too_many_roots))]
pub fn few_roots()
    ensures { (p xs : List Fp) → length p ≤ length xs → Distinct xs → AllRoots p xs → AllZero p }
{}

/// Polynomials of degree at most d with the same values at more than d different points are one
/// polynomial: the interpolant is unique.
#[tactic(auto, using(crate::proofs::NearestLemmas::through_once))]
pub fn one_interpolant()
    ensures { (d : ℕ) (qs : List Point) (p q : List Fp) → d < length qs → Distinct (points qs) → Through d qs p → Through d qs q → trim p ≡ trim q }
{}

/// At most one polynomial is nearest to a list of values: decoding up to half the minimum distance
/// of a Reed-Solomon code is unique.
pub fn one_nearest()
    ensures { (d : ℕ) (vs : List (Option Fp)) (p q : Polynomial) → length vs < Prime → IsNearest d vs p → IsNearest d vs q → p ≡ q }
{}

/// Of more than 3 * t values, with at most t of them wrong or missing, a polynomial of degree at
/// most t is the nearest: a Reed-Solomon code of this length corrects t errors.
#[tactic(auto, using(crate::proofs::NearestLemmas::nearest_by_faults))]
pub fn nearest_by_faults()
    ensures { (t : ℕ) (vs : List (Option Fp)) (p : Polynomial) → 3 * t < length vs → length p.coeffs ≤ t + 1 → length (wrong p.coeffs 1 vs) + length (missing 1 vs) ≤ t → IsNearest t vs p }
{}

/// The same, where the points at which values may be wrong or missing are given: each value at
/// another point is there and right.
pub fn nearest_by_right()
    ensures { (t : ℕ) (vs : List (Option Fp)) (p : Polynomial) (js : List ℕ) → 3 * t < length vs → length p.coeffs ≤ t + 1 → length js ≤ t → ((i : ℕ) → i < length vs → Named (i + 1) js ⊎ IsRight p.coeffs vs i) → IsNearest t vs p }
{}

/// As many holders as a grid has coefficients in each variable, whose rows and columns agree
/// wherever two of them cross, lie on one grid: a bivariate polynomial by its crossing points.
#[tactic(auto, using(crate::proofs::Grid::crossing))]
pub fn crossing()
    ensures { (d : ℕ) (holders : List Holder) → length holders ≡ d + 1 → Distinct (holder_points holders) → AllWithin (d + 1) holders → EachFacing holders holders → (g : List (List Fp)) × Degree d g × AllOnGrid g holders }
{}

/// A further holder that agrees with so many holders of a grid, row against column both ways, is
/// on the grid too.
#[tactic(auto, using(crate::proofs::Further::further))]
pub fn further_holder()
    ensures { (g : List (List Fp)) (further : Holder) (holders : List Holder) → Distinct (holder_points holders) → length g ≤ length holders → AllShort (length holders) g → AllOnGrid g holders → length further.across ≤ length holders → length further.down ≤ length holders → Facing further holders → FacedBy further holders → OnGrid g further }
{}
