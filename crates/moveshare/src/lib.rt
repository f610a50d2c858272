//! Moving a key to another committee: the minds of its seats.
//!
//! A [`MoveOld`] sits on an old member's seat and deals a sharing of its share in each lane. A [`MoveNew`] sits on a new
//! member's seat: it takes part in these sharings, posts in a sixth round the syndromes of what it got, and makes its own
//! share of them, less the errors that the opened syndromes tell. A [`MoveMind`] is either.
#![tactic(auto)]

mod corrected;
mod lanes;
pub mod laws;
mod mind;
mod new;
mod old;
mod out;
mod seat;
mod subshares;
#[cfg(test)]
mod tests;

pub use corrected::shares_without;
pub use lanes::{LaneFault, LaneList, lane_errors};
pub use mind::MoveMind;
pub use new::MoveNew;
pub use old::MoveOld;
pub use out::MoveOut;
pub use subshares::syndromes;
