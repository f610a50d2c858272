//! Elements and votes that several tests say.

use field61::{Fe, FeList};
use lists::OutOfMemory;
use std::alloc::Global;
use talk::{Post, VoteList};

// `count` elements from `first` on, each `step` above the one before.
pub(crate) fn steps(
    alloc: Global,
    first: u64,
    step: u64,
    count: u64,
) -> Result<FeList, OutOfMemory> {
    let mut list = FeList::new(alloc);
    let mut next = Fe::reduce(first);
    for _ in 0..count {
        list.push(next)?;
        next = next.add(Fe::reduce(step));
    }
    Ok(list)
}

// Votes of which every other one is a yes, the first among them.
pub(crate) fn votes(alloc: Global, count: u32) -> Result<Post, OutOfMemory> {
    let mut list = VoteList::new(alloc);
    for k in 0..count {
        list.push(k % 2 == 0)?;
    }
    Ok(Post::Votes { list })
}
