//! Laying the rings.

ghost use Rattle.std.specs.Prelude.{◌≡◌, ℕ, ◌<◌, ◌≤◌, [], length, IfOk, All};
ghost use Rattle.pairrings.specs.Ends.{IsFresh};
ghost use Rattle.pairrings.specs.Records.{AreRings};
ghost use Rattle.pairrings.specs.Laying.{Grown, GrownBelow, LaidBelow, JoinedBelow};

use crate::ends::End;
use crate::heads::Head;
use crate::tails::Tail;
use lists::OutOfMemory;
use rtrb::RingBuffer;
use std::alloc::Global;
use std::mem;

// One ring more, whose receiving half is put at the end of the list.
fn lay_ring<M: Drop>(
    alloc: Global,
    rounds: u32,
    tails: &mut Vec<Tail<M>>,
) -> Result<Head<M>, OutOfMemory>
    ensures { IfOk result (λ h. Grown rounds tails.old h tails.new) }
{
    let (producer, consumer) = RingBuffer::new(alloc, rounds as usize)?;
    tails.push(Tail {
        ring: consumer,
        count: 0,
        dry: 0,
    })?;
    Ok(Head {
        ring: producer,
        laid: rounds,
        count: 0,
    })
}

// The rings of one sender to each receiver.
fn lay_sender<M: Drop>(
    alloc: Global,
    rounds: u32,
    tails: &mut [Vec<Tail<M>>],
) -> Result<Vec<Head<M>>, OutOfMemory>
    ensures length { length tails.new ≡ length tails.old }
    ensures grown { IfOk result (λ heads.
        GrownBelow rounds (length tails.old) tails.old heads.items tails.new) }
{
    let mut heads = Vec::new(alloc);
    for k in 0..tails.len() {
        heads.push(lay_ring(alloc, rounds, &mut tails[k])?)?;
    }
    Ok(heads)
}

// A list of empty lists.
fn empty_lists<M: Drop>(alloc: Global, count: usize) -> Result<Vec<Vec<Tail<M>>>, OutOfMemory>
    ensures count { IfOk result (λ v. length v.items ≡ count) }
    ensures empty { IfOk result (λ v. All (λ l. l.items ≡ []) v.items) }
{
    let mut lists = Vec::new(alloc);
    for _list in 0..count {
        lists.push(Vec::new(alloc))?;
    }
    Ok(lists)
}

// The ends of these halves.
fn join<M: Drop, const S: usize>(
    alloc: Global,
    heads: Vec<Vec<Head<M>>>,
    tails: Vec<Vec<Tail<M>>>,
) -> Result<Vec<End<M, S>>, OutOfMemory>
    requires heads { (length heads.items ≡ S) × All (λ l. length l.items ≡ S) heads.items }
    requires tails { (length tails.items ≡ S) × All (λ l. length l.items ≡ S) tails.items }
    ensures { IfOk result (λ ends. JoinedBelow S heads.items tails.items ends.items) }
{
    let mut heads = heads;
    let mut tails = tails;
    let mut ends = Vec::new(alloc);
    for k in 0..S {
        let own_heads = mem::replace(&mut heads[k], Vec::new(alloc));
        let own_tails = mem::replace(&mut tails[k], Vec::new(alloc));
        ends.push(End {
            heads: own_heads,
            tails: own_tails,
        })?;
    }
    Ok(ends)
}

/// The ends of `S` seats, in order of seats, with a ring for each ordered pair of seats that has
/// room for `rounds` items. All memory of the rings is taken here.
pub fn lay<M: Drop, const S: usize>(
    alloc: Global,
    rounds: u32,
) -> Result<Vec<End<M, S>>, OutOfMemory>
    requires seats { (2 ≤ S) × (S ≤ 30) }
    requires rounds { (1 ≤ rounds) × (rounds ≤ 8) }
    ensures all { IfOk result (λ ends. length ends.items ≡ S) }
    ensures fresh { IfOk result (λ ends. All (IsFresh rounds) ends.items) }
    ensures rings { IfOk result (λ ends. AreRings ends.items) }
{
    let mut tails = empty_lists(alloc, S)?;
    let mut heads = Vec::new(alloc);
    for _sender in 0..S {
        heads.push(lay_sender(alloc, rounds, tails.as_mut_slice())?)?;
    }
    let ends = join(alloc, heads, tails)?;
    Ok(ends)
}
