//! The sending half of a ring.

ghost use Rattle.std.specs.Prelude.{◌≡◌, ℕ, ◌+◌, ◌-◌, ◌^◌, ◌<◌, ◌≤◌, [], ◌∷◌, ◌++◌, length};
ghost use Rattle.rtrb.specs.Ring.{sent, known_free, SameProducer};

use rtrb::Producer;
use std::alloc::Global;

/// The sending half of a ring, the number of items that the ring was laid for, and how many were
/// sent.
#[derive(Drop)]
pub struct Head<M> {
    pub(crate) ring: Producer<M>,
    pub(crate) laid: u32,
    pub(crate) count: u32,
    ghost counted: { count ≡ length (sent ring) },
    ghost free: { laid ≤ known_free ring + length (sent ring) },
}

impl<M: Drop> Head<M> {
    // Appends the item to what was sent.
    pub(crate) fn send(&mut self, item: M)
        requires room { length (sent self.old.ring) < self.old.laid }
        ensures ring { SameProducer self.old.ring self.new.ring }
        ensures laid { self.new.laid ≡ self.old.laid }
        ensures sent { sent self.new.ring ≡ sent self.old.ring ++ item ∷ [] }
    {
        self.ring.push_reserved(item);
        self.count += 1;
    }
}
