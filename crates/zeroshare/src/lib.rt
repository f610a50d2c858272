//! Refreshing the shares of a key: one member's mind.
//!
//! A [`Refresh`] deals five grids, one for each lane of the key, takes part in the sharing of all members' grids, and in
//! the end adds to its old share, in each lane, its number times the sum of its shares over the accepted instances. The
//! factor makes the constant of what is added 0, so the key stays.
#![tactic(auto)]

mod keeping;
pub mod laws;
mod refresh;
#[cfg(test)]
mod tests;

pub use refresh::Refresh;
