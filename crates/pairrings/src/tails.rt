//! The receiving half of a ring, and the count of its misses, which one line alone raises.

ghost use Rattle.std.specs.Prelude.{◌≡◌, ℕ, ◌+◌, ◌-◌, ◌^◌, [], ◌∷◌, ◌++◌, length, IfSome, IfNone};
ghost use Rattle.rtrb.specs.Ring.{sent, received, known_items, IsPair, SameConsumer, SameProducer};
ghost use Rattle.pairrings.specs.Counts.{counted32, raised64};

use crate::heads::Head;
use rtrb::Consumer;
use std::alloc::Global;

/// The receiving half of a ring, how many items were received, and how often there was none.
#[derive(Drop)]
pub struct Tail<M> {
    pub(crate) ring: Consumer<M>,
    pub(crate) count: u32,
    pub(crate) dry: u64,
    ghost counted: { count ≡ counted32 (length (received ring)) },
}

impl<M: Drop> Tail<M> {
    // The next item. `None` only where this half knew of none.
    pub(crate) fn recv(&mut self) -> Option<M>
        ensures ring { SameConsumer self.old.ring self.new.ring }
        ensures some { IfSome result (λ x. received self.new.ring ≡ received self.old.ring ++ x ∷ []) }
        ensures still { IfSome result (λ _. self.new.dry ≡ self.old.dry) }
        ensures none { IfNone result (received self.new.ring ≡ received self.old.ring) }
        ensures unknown { IfNone result (known_items self.old.ring ≡ []) }
        ensures nothing { IfNone result (known_items self.new.ring ≡ []) }
        ensures raised { IfNone result (self.new.dry ≡ raised64 self.old.dry) }
    {
        match self.ring.pop() {
            Ok(item) => {
                self.count = self.count.saturating_add(1);
                Some(item)
            }
            Err(_) => {
                self.dry = self.dry.saturating_add(1);
                None
            }
        }
    }

    // With both halves of a ring in one hand: what was received, and then what is known, is what
    // was sent.
    pub(crate) fn settle(&mut self, head: &mut Head<M>)
        requires { IsPair head.old.ring self.old.ring }
        ensures ring { SameConsumer self.old.ring self.new.ring }
        ensures got { received self.new.ring ≡ received self.old.ring }
        ensures head_ring { SameProducer head.old.ring head.new.ring }
        ensures sent { sent head.new.ring ≡ sent head.old.ring }
        ensures order { received self.old.ring ++ known_items self.new.ring ≡ sent head.old.ring }
    {
        self.ring.slots_beside(&mut head.ring);
    }
}
