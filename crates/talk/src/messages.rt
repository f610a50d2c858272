//! What seats say and hear.

ghost use Rattle.std.specs.Prelude.{◌≡◌, ◌-◌, ◌≤◌, IfOk, slice_index_or};
ghost use Rattle.talk.specs.Sync.{post_in, ring_in, speaks};

use crate::{ComplaintList, PostList, RevealList, RingList, VoteList};
use field61::{Fe, FeList};
use lists::{OutOfMemory, TryCopy};
use std::alloc::Global;

/// A receiver's public complaint of another receiver, in one instance: the crossing points that came
/// from `against` don't fit the pair that the complaining receiver holds. A receiver whose own row and
/// column don't cross complains of itself.
#[derive(Clone, Copy, Debug, Drop)]
pub struct Complaint {
    /// The number of the instance, from 0, as `sizes::Instance` counts them.
    pub instance: u32,
    /// The index of the receiver complained of, from 1.
    pub against: u32,
    /// The value of the complaining receiver's row at the point `against`.
    pub u: Fe,
    /// The value of the complaining receiver's column at the point `against`.
    pub v: Fe,
}

/// A dealer's public reveal of the pair of one receiver, in one lane.
#[derive(Drop)]
pub struct Reveal {
    /// The lane, from 0 to 4.
    pub lane: u32,
    /// The index of the receiver whose pair it is, from 1.
    pub receiver: u32,
    /// The coefficients of the row, the constant first.
    pub row: FeList,
    /// The coefficients of the column, the constant first.
    pub column: FeList,
}

/// What a seat posts to all seats in a round.
#[derive(Drop)]
pub enum Post {
    /// Nothing is said.
    Quiet,
    /// A receiver's complaints, in the third round.
    Complaints { list: ComplaintList },
    /// A dealer's reveals, in the fourth round.
    Reveals { list: RevealList },
    /// A receiver's votes, one for each instance, in the fifth round.
    Votes { list: VoteList },
    /// A receiver's shares of the syndromes, lane by lane and place by place, in the sixth round.
    Syndromes { list: FeList },
}

/// What a seat sends to one other seat in a round.
#[derive(Drop)]
pub enum Ring {
    /// Nothing is said.
    Nothing,
    /// A dealer's rows and columns for a receiver, lane by lane, in the first round: the coefficients of
    /// the row, then of the column, the constant first.
    Dealt { list: FeList },
    /// A receiver's crossing points for another receiver, two for each instance, in the second round.
    Cross { list: FeList },
}

/// A mind's word: what a seat does in a round. `rings` has one message for each seat, in order of the
/// seats; that for the own seat is `Nothing`.
#[derive(Drop)]
pub enum Say {
    /// It sends its ring messages and posts in time.
    Speak { post: Post, rings: RingList },
    /// It says nothing.
    Pass,
    /// It sends its ring messages, passes, and then posts, perhaps too late.
    PassThenSpeak { post: Post, rings: RingList },
}

/// What a mind hears in a round: the post and the ring message of each seat, in order of the seats, each
/// as read.
#[derive(Drop)]
pub struct Heard {
    /// The posts, by seat.
    pub posts: PostList,
    /// The ring messages to this mind, by seat.
    pub rings: RingList,
}

impl TryCopy for Complaint {
    fn copy(&self, _alloc: Global) -> Result<Complaint, OutOfMemory> {
        Ok(*self)
    }
}

impl TryCopy for Reveal {
    fn copy(&self, alloc: Global) -> Result<Reveal, OutOfMemory> {
        Ok(Reveal {
            lane: self.lane,
            receiver: self.receiver,
            row: self.row.copy(alloc)?,
            column: self.column.copy(alloc)?,
        })
    }
}

impl TryCopy for Post {
    fn copy(&self, alloc: Global) -> Result<Post, OutOfMemory> {
        match self {
            Post::Quiet => Ok(Post::Quiet),
            Post::Complaints { list } => Ok(Post::Complaints {
                list: list.copy(alloc)?,
            }),
            Post::Reveals { list } => Ok(Post::Reveals {
                list: list.copy(alloc)?,
            }),
            Post::Votes { list } => Ok(Post::Votes {
                list: list.copy(alloc)?,
            }),
            Post::Syndromes { list } => Ok(Post::Syndromes {
                list: list.copy(alloc)?,
            }),
        }
    }
}

impl TryCopy for Ring {
    fn copy(&self, alloc: Global) -> Result<Ring, OutOfMemory> {
        match self {
            Ring::Nothing => Ok(Ring::Nothing),
            Ring::Dealt { list } => Ok(Ring::Dealt {
                list: list.copy(alloc)?,
            }),
            Ring::Cross { list } => Ok(Ring::Cross {
                list: list.copy(alloc)?,
            }),
        }
    }
}

// A copy of the ring message for a seat, counted from 1: Nothing past the end of the list.
fn ring_to(alloc: Global, rings: &RingList, to: u32) -> Result<Ring, OutOfMemory>
    requires { 1 ≤ to }
    ensures { IfOk result (λ ring. ring ≡ slice_index_or rings.now (to - 1) Ring.Nothing) }
{
    let place = to as usize - 1;
    if place < rings.len() {
        rings.at(place).copy(alloc)
    } else {
        Ok(Ring::Nothing)
    }
}

impl Say {
    /// Whether it is said in time.
    pub fn speaks(&self) -> bool
        ensures { result ≡ speaks self.now }
    {
        match self {
            Say::Speak { .. } => true,
            Say::Pass | Say::PassThenSpeak { .. } => false,
        }
    }

    /// A copy of what it posts: Quiet where it passes.
    pub fn posted(&self, alloc: Global) -> Result<Post, OutOfMemory>
        ensures { IfOk result (λ post. post ≡ post_in self.now) }
    {
        match self {
            Say::Speak { post, .. } => post.copy(alloc),
            Say::Pass => Ok(Post::Quiet),
            Say::PassThenSpeak { post, .. } => post.copy(alloc),
        }
    }

    /// A copy of what it sends to a seat: Nothing where it passes, and for a seat that it has no message for.
    pub fn sent(&self, alloc: Global, to: u32) -> Result<Ring, OutOfMemory>
        requires { 1 ≤ to }
        ensures { IfOk result (λ ring. ring ≡ ring_in to self.now) }
    {
        match self {
            Say::Speak { rings, .. } => ring_to(alloc, rings, to),
            Say::Pass => Ok(Ring::Nothing),
            Say::PassThenSpeak { rings, .. } => ring_to(alloc, rings, to),
        }
    }
}

impl TryCopy for Say {
    fn copy(&self, alloc: Global) -> Result<Say, OutOfMemory> {
        match self {
            Say::Speak { post, rings } => Ok(Say::Speak {
                post: post.copy(alloc)?,
                rings: rings.copy(alloc)?,
            }),
            Say::Pass => Ok(Say::Pass),
            Say::PassThenSpeak { post, rings } => Ok(Say::PassThenSpeak {
                post: post.copy(alloc)?,
                rings: rings.copy(alloc)?,
            }),
        }
    }
}
