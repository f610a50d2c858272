//! A list of polynomials.

use crate::Poly;
use lists::List;

/// A list of polynomials, which contracts see as a list.
pub type PolyList = List<Poly>;
