//! Plays a drawn phase of a rehearsal, each member on a thread of its own, and records it.
#![tactic(auto)]

mod created;
mod down;
mod grids;
mod heard;
mod moved;
mod readied;
mod recorded;
mod refreshed;
mod seeds;
#[cfg(test)]
mod tests;

pub use recorded::{Recorded, record_phase};
