//! The other phase: a recorded phase in which honest dealers chose other grids, so that the key becomes another and nobody
//! who is down or exposed can tell.
#![tactic(auto)]

mod factors;
pub mod laws;
mod masks;
mod shift;
mod vanishing;

pub use shift::{has_room, other_phase};
