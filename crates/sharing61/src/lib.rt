//! One instance of verifiable secret sharing among parties of whom some are faulty, as pure mathematics.
//!
//! A dealer gives each receiver a row and a column of a grid, a polynomial in two variables.
//! Receivers compare their values where their rows and columns cross, complain in public, the dealer reveals
//! the pairs of some receivers, and all receivers vote. The definitions stand in `specs/`, for all receivers at
//! once and without messages or states; what they bring about stands in [`laws`]. It is the sharing of the BGW
//! protocol for fewer than a third of faulty receivers (Asharov and Lindell, "A full proof of the BGW protocol").
#![tactic(auto)]

pub mod laws;

use field61::Fe;

/// The two values at the point where a row and a column cross.
#[derive(Clone, Copy, Debug, Drop, PartialEq, Eq)]
pub struct Crossing {
    /// The value of a row.
    pub row: Fe,
    /// The value of a column.
    pub column: Fe,
}
