//! What a run of a phase leaves.

use crate::Mind;
use field61::NumberList;

/// The minds after a synchronous run, by seat, and the mask of each round.
#[derive(Drop)]
pub struct Driven<M: Mind> {
    /// The minds after the last round, by seat.
    pub minds: Vec<M>,
    /// The masks, the first round's first: seat `k` has bit `k - 1`.
    pub masks: NumberList,
}
