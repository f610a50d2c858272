//! A list of grids.

use crate::Grid;
use lists::List;

/// A list of grids. They may differ in their degrees.
pub type GridList = List<Grid>;
