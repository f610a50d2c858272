//! The end of all rings, with both halves of each in one hand.

ghost use Rattle.std.specs.Prelude.{◌≡◌, ℕ, ◌<◌, ◌≤◌, ◌++◌, length};
ghost use mathlib.Core.List.{IsPrefix};
ghost use Rattle.pairrings.specs.Ends.{sent_to, got_from, IsRing, SameEnd};
ghost use Rattle.pairrings.specs.Records.{AreRings, SameEnds, IsInOrder, sent_between, got_between};
ghost use Rattle.pairrings.specs.Record.{sent_in, got_in};

use crate::ends::End;
use crate::record::RingRecord;
use std::alloc::Global;

// The ring from one seat to another.
fn settle<M: Drop, const S: usize>(
    sender: &mut End<M, S>,
    receiver: &mut End<M, S>,
    from: usize,
    to: usize,
)
    requires places { (from < S) × (to < S) }
    requires ring { IsRing sender.old receiver.old from to }
    ensures sender { SameEnd sender.old sender.new }
    ensures receiver { SameEnd receiver.old receiver.new }
    ensures order { IsPrefix (got_from receiver.old from) (sent_to sender.old to) }
{
    let tail = &mut receiver.tails[from];
    let head = &mut sender.heads[to];
    tail.settle(head);
}

// The ring of a seat to itself.
fn settle_own<M: Drop, const S: usize>(end: &mut End<M, S>, place: usize)
    requires place { place < S }
    requires ring { IsRing end.old end.old place place }
    ensures same { SameEnd end.old end.new }
    ensures order { IsPrefix (got_from end.old place) (sent_to end.old place) }
{
    let tail = &mut end.tails[place];
    let head = &mut end.heads[place];
    tail.settle(head);
}

// The ring to a seat with a higher number.
fn settle_up<M: Drop, const S: usize>(ends: &mut [End<M, S>], from: usize, to: usize)
    requires all { length ends.old ≡ S }
    requires places { (from < to) × (to < S) }
    requires rings { AreRings ends.old }
    ensures same { SameEnds ends.old ends.new }
    ensures order { IsInOrder ends.old from to }
{
    let (left, right) = ends.split_at_mut(to);
    let sender = &mut left[from];
    let receiver = &mut right[0];
    settle(sender, receiver, from, to);
}

// The ring to a seat with a lower number.
fn settle_down<M: Drop, const S: usize>(ends: &mut [End<M, S>], from: usize, to: usize)
    requires all { length ends.old ≡ S }
    requires places { (to < from) × (from < S) }
    requires rings { AreRings ends.old }
    ensures same { SameEnds ends.old ends.new }
    ensures order { IsInOrder ends.old from to }
{
    let (left, right) = ends.split_at_mut(from);
    let sender = &mut right[0];
    let receiver = &mut left[to];
    settle(sender, receiver, from, to);
}

// The ring of one seat of the list to itself.
fn settle_same<M: Drop, const S: usize>(ends: &mut [End<M, S>], place: usize)
    requires all { length ends.old ≡ S }
    requires place { place < S }
    requires rings { AreRings ends.old }
    ensures same { SameEnds ends.old ends.new }
    ensures order { IsInOrder ends.old place place }
{
    let end = &mut ends[place];
    settle_own(end, place);
}

// The ring from one place to another.
fn settle_pair<M: Drop, const S: usize>(ends: &mut [End<M, S>], from: usize, to: usize)
    requires all { length ends.old ≡ S }
    requires places { (from < S) × (to < S) }
    requires rings { AreRings ends.old }
    ensures same { SameEnds ends.old ends.new }
    ensures order { IsInOrder ends.old from to }
{
    if from < to {
        settle_up(ends, from, to);
    } else if to < from {
        settle_down(ends, from, to);
    } else {
        settle_same(ends, from);
    }
}

// The rings from one place to each.
fn settle_sender<M: Drop, const S: usize>(ends: &mut [End<M, S>], from: usize)
    requires all { length ends.old ≡ S }
    requires place { from < S }
    requires rings { AreRings ends.old }
    ensures same { SameEnds ends.old ends.new }
    ensures order { (to : ℕ) → to < S → IsInOrder ends.old from to }
{
    for to in 0..S {
        settle_pair(ends, from, to);
    }
}

/// The record of the ends of one laying, all of them and in order of seats: of the ends that are
/// handed in, between each two seats what was received is a prefix of what was sent. Takes no
/// memory.
pub fn finish<M: Drop, const S: usize>(ends: Vec<End<M, S>>) -> RingRecord<M, S>
    requires all { length ends.items ≡ S }
    requires rings { AreRings ends.items }
    ensures sent { (i j : ℕ) → sent_in result i j ≡ sent_between ends.items i j }
    ensures got { (i j : ℕ) → got_in result i j ≡ got_between ends.items i j }
    ensures order { (i j : ℕ) → i < S → j < S
        → IsPrefix (got_between ends.items i j) (sent_between ends.items i j) }
{
    let mut ends = ends;
    for from in 0..S {
        settle_sender(ends.as_mut_slice(), from);
    }
    RingRecord { ends }
}
