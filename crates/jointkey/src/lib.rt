//! Creating a key: one member's mind.
//!
//! A [`Create`] deals five grids, one for each lane of the key, takes part in the sharing of all members' grids, and has
//! in the end, in each lane, the sum of its shares over the accepted instances.
#![tactic(auto)]

mod create;
#[cfg(test)]
mod tests;

pub use create::Create;
