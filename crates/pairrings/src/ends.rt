//! The ends of one seat.

ghost use Rattle.std.specs.Prelude.{◌≡◌, ℕ, ◌+◌, ◌-◌, ◌^◌, ◌<◌, ◌≤◌, [], ◌∷◌, ◌++◌, length, IfSome, IfNone};

use crate::heads::Head;
use crate::tails::Tail;
use std::alloc::Global;
use std::sync::Wait;
use std::thread;

// How often a waiting call looks before it lets other threads run.
const LOOKS: u32 = 64;

/// The ends of one seat among `S`: a ring to each seat and a ring from each seat. It can move to
/// another thread.
///
/// A seat is 1 to `S`. A contract sees of each ring the items that were sent or received, oldest
/// first. No call of an end takes memory.
#[derive(Drop)]
pub struct End<M: Drop, const S: usize> {
    pub(crate) heads: Vec<Head<M>>,
    pub(crate) tails: Vec<Tail<M>>,
    ghost to_each: { length heads.items ≡ S },
    ghost from_each: { length tails.items ≡ S },
}

impl<M: Drop, const S: usize> End<M, S> {
    ghost use Rattle.pairrings.specs.Counts.{counted32, raised64};
    ghost use Rattle.pairrings.specs.Ends.{sent_to, got_from, dry_of, room_to, known_from, OnlySent, OnlyGot, SameRings};

    /// Sends the item to a seat, to which fewer items were sent than the rings were laid for: it is
    /// appended to what was sent. A send is never refused.
    pub fn send(&mut self, to: u32, item: M)
        requires seat { (1 ≤ to) × (to ≤ S) }
        requires room { 0 < room_to self.old (to - 1) }
        ensures sent { sent_to self.new (to - 1) ≡ sent_to self.old (to - 1) ++ item ∷ [] }
        ensures room { room_to self.new (to - 1) + 1 ≡ room_to self.old (to - 1) }
        ensures others { OnlySent (to - 1) self.old self.new }
        ensures rings { SameRings self.old self.new }
    {
        let place = to as usize - 1;
        self.heads[place].send(item);
    }

    /// The next item of a seat. `None` only where this end knew of no item of that seat before the
    /// call and the ring gave none: then the count of `dry` rises, and nothing else changes.
    pub fn recv(&mut self, sender: u32) -> Option<M>
        requires seat { (1 ≤ sender) × (sender ≤ S) }
        ensures some { IfSome result (λ x.
            got_from self.new (sender - 1) ≡ got_from self.old (sender - 1) ++ x ∷ []) }
        ensures still { IfSome result (λ _.
            dry_of self.new (sender - 1) ≡ dry_of self.old (sender - 1)) }
        ensures none { IfNone result (
            got_from self.new (sender - 1) ≡ got_from self.old (sender - 1)) }
        ensures unknown { IfNone result (known_from self.old (sender - 1) ≡ []) }
        ensures nothing { IfNone result (known_from self.new (sender - 1) ≡ []) }
        ensures raised { IfNone result (
            dry_of self.new (sender - 1) ≡ raised64 (dry_of self.old (sender - 1))) }
        ensures others { OnlyGot (sender - 1) self.old self.new }
        ensures rings { SameRings self.old self.new }
    {
        let place = sender as usize - 1;
        self.tails[place].recv()
    }

    // The next item of a seat, after a few looks.
    fn recv_soon(&mut self, sender: u32) -> Option<M>
        requires seat { (1 ≤ sender) × (sender ≤ S) }
        ensures some { IfSome result (λ x.
            got_from self.new (sender - 1) ≡ got_from self.old (sender - 1) ++ x ∷ []) }
        ensures none { IfNone result (
            got_from self.new (sender - 1) ≡ got_from self.old (sender - 1)) }
        ensures others { OnlyGot (sender - 1) self.old self.new }
        ensures rings { SameRings self.old self.new }
    {
        for _look in 0..LOOKS {
            if let Some(item) = self.recv(sender) {
                return Some(item);
            }
        }
        None
    }

    /// The next item of a seat, for which the call waits. Between every few looks it lets other
    /// threads run.
    pub fn wait_recv(&mut self, rt: &impl Wait, sender: u32) -> M
        requires seat { (1 ≤ sender) × (sender ≤ S) }
        ensures got { got_from self.new (sender - 1) ≡ got_from self.old (sender - 1) ++ result ∷ [] }
        ensures others { OnlyGot (sender - 1) self.old self.new }
        ensures rings { SameRings self.old self.new }
    {
        for _ in rt.forever() {
            if let Some(item) = self.recv_soon(sender) {
                return item;
            }
            thread::yield_now();
        }
        unreachable!()
    }

    /// How many items were sent to a seat.
    pub fn sent_to(&self, to: u32) -> u32
        requires seat { (1 ≤ to) × (to ≤ S) }
        ensures { result ≡ length (sent_to self.now (to - 1)) }
    {
        self.heads[to as usize - 1].count
    }

    /// How many more items may be sent to a seat.
    pub fn room_to(&self, to: u32) -> u32
        requires seat { (1 ≤ to) × (to ≤ S) }
        ensures { result ≡ room_to self.now (to - 1) }
    {
        let head = &self.heads[to as usize - 1];
        head.laid.saturating_sub(head.count)
    }

    /// How many items were received from a seat. At 2^32 - 1 the number stands still.
    pub fn got_from(&self, sender: u32) -> u32
        requires seat { (1 ≤ sender) × (sender ≤ S) }
        ensures { result ≡ counted32 (length (got_from self.now (sender - 1))) }
    {
        self.tails[sender as usize - 1].count
    }

    /// How often the ring gave this end no item of a seat. At 2^64 - 1 the number stands still.
    pub fn dry(&self, sender: u32) -> u64
        requires seat { (1 ≤ sender) × (sender ≤ S) }
        ensures { result ≡ dry_of self.now (sender - 1) }
    {
        self.tails[sender as usize - 1].dry
    }
}
