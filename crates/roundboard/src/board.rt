//! The board, its pens, and the answers of their calls.
ghost use Rattle.std.specs.Prelude.{◌≡◌, ℕ, ◌+◌, ◌*◌, ◌<◌, ◌≤◌, length, None};
ghost use Rattle.roundboard.specs.Rule.{In, event};
ghost use Rattle.roundboard.specs.Cells.{knows};
ghost use Rattle.roundboard.specs.Logs.{NoCuts};
ghost use Rattle.roundboard.specs.declared.view.Deed.TheVariants.{Posted as Posting};

use crate::cells::Cells;
use crate::log::Log;
use crate::words::Words;
use once_cell::race::OnceBox;

/// A board of 1 to 8 rounds for S seats, 2 to 30 of them, whose posts are of type T.
///
/// It is shared by reference. It has one control word, whose bit 0 says that the board is aborted, and two words for each round. The arrivals word has the posted seats in bits 0 to 29, the passed seats in bits 30 to 59, and closed in bit 63. The frozen word has the round's mask in bits 0 to 29, and set in bit 63. Seat s has bit s - 1.
#[derive(Drop)]
pub struct Board<T: Drop, const S: usize> {
    pub(crate) words: Words,
    pub(crate) cells: Vec<OnceBox<T>>,
    pub(crate) ghost seats: { words.shape.seats ≡ S },
    pub(crate) ghost filled: { length cells.items ≡ words.shape.rounds * S },
}

/// The right of one seat to work one board, with what it did and what it knows. Its own calls take no memory.
#[derive(Drop)]
pub struct Pen<T: Drop, const S: usize> {
    pub(crate) log: Log,
    pub(crate) cells: Cells<T>,
    pub(crate) ghost low: { (log.place < S) × (S ≤ 30) },
    pub(crate) ghost refusals: { length cells.refusals.items ≡ length log.pages.items },
    pub(crate) ghost misses: { length cells.misses.items ≡ length log.pages.items * S },
    pub(crate) ghost kept: { (round place found : ℕ) → In (event round (Posting place found)) log.seat.me.0.events
        → ¬ (knows cells (round * S + log.place) ≡ None) },
    pub(crate) ghost uncut: { NoCuts log.seat.me.0.events },
}

/// Whether a post came before its round was closed, with the arrivals word that its step found.
#[derive(Clone, Copy, PartialEq, Eq, Debug)]
pub enum Posted {
    /// The word was not closed, so the seat is in the round's mask.
    InTime { word: u64 },
    /// The word was closed, so the seat is not in the round's mask. Only a seat that had passed, or was cut, is ever late.
    Late { word: u64 },
}

/// The arrivals word that the step of a pass found.
#[derive(Clone, Copy, PartialEq, Eq, Debug)]
pub struct Passed {
    pub word: u64,
}

/// Why a post was not made. The pen's rounds and the words are as they were, and the value comes back.
#[derive(Drop)]
pub enum PostFault<T: Drop> {
    /// There was no memory for the value.
    OutOfMemory { back: T },
    /// The seat's cell of that round refused the value. The pen's count of refusals of that round rose.
    Cell { back: T },
}

/// What a look at a round found.
#[derive(Clone, Copy, PartialEq, Eq, Debug)]
pub enum Look {
    /// The round has this mask: seat s is in it where bit s - 1 is set.
    Frozen { mask: u32 },
    /// The round had no mask, and the board was not aborted.
    NotYet,
    /// The round had no mask, and then the board was aborted.
    Aborted,
}

/// What ended a wait for a round.
#[derive(Clone, Copy, PartialEq, Eq, Debug)]
pub enum Waited {
    /// The round has this mask.
    Frozen { mask: u32 },
    /// The round had no mask, and then the board was aborted.
    Aborted,
}

/// What a pen reads of a seat in a round whose mask it has seen.
#[derive(Clone, Copy)]
pub enum Read<'a, T> {
    /// The mask lacks the seat.
    Absent,
    /// The seat's post.
    Post(&'a T),
    /// The mask has the seat, but its cell showed no value. The pen's count of misses of that round and seat rose, and it knew no value of that cell before.
    NotYet,
}
