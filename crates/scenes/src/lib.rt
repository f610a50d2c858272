//! The phases of a rehearsal, drawn from a number: a create, then refreshes, and a move in each third, with members who
//! have no share and one whom a drill tells how to misbehave.
#![tactic(auto)]

mod exposed;
pub mod laws;
mod members;
mod numbers;
mod orders;
mod scene;
mod seeds;
mod side;
#[cfg(test)]
mod tests;

pub use exposed::exposed_masks;
pub use numbers::Numbers;
pub use scene::{Scene, scenes_of};
pub use seeds::seed_of;
pub use side::Side;
