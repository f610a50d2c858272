//! What was sent and received between all seats.

ghost use Rattle.std.specs.Prelude.{◌≡◌, ℕ, ◌+◌, ◌-◌, ◌^◌, ◌<◌, ◌≤◌, length};

use crate::ends::End;
use std::alloc::Global;

/// The record of all rings of one laying, after all seats are done. A contract sees, for each two
/// seats, the items that the one sent and the items that the other received.
#[derive(Drop)]
pub struct RingRecord<M: Drop, const S: usize> {
    pub(crate) ends: Vec<End<M, S>>,
    ghost all: { length ends.items ≡ S },
}

impl<M: Drop, const S: usize> RingRecord<M, S> {
    ghost use Rattle.pairrings.specs.Counts.{counted32};
    ghost use Rattle.pairrings.specs.Record.{sent_in, got_in};

    /// How many items a seat sent to another.
    pub fn sent(&self, sender: u32, to: u32) -> u32
        requires sender { (1 ≤ sender) × (sender ≤ S) }
        requires receiver { (1 ≤ to) × (to ≤ S) }
        ensures { result ≡ length (sent_in self.now (sender - 1) (to - 1)) }
    {
        self.ends[sender as usize - 1].sent_to(to)
    }

    /// How many items of a seat another received. At 2^32 - 1 the number stands still.
    pub fn got(&self, sender: u32, to: u32) -> u32
        requires sender { (1 ≤ sender) × (sender ≤ S) }
        requires receiver { (1 ≤ to) × (to ≤ S) }
        ensures { result ≡ counted32 (length (got_in self.now (sender - 1) (to - 1))) }
    {
        self.ends[to as usize - 1].got_from(sender)
    }
}
