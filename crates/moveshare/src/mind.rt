//! The mind of any seat of a move.

ghost use Rattle.std.specs.Prelude.{◌≡◌, ℕ, ◌+◌, ◌<◌, IfOk, OnOk, OnErr};
ghost use Rattle.moveshare.specs.Minds.{mind_after_hear, mind_after_say, mind_made_for, mind_may, mind_word};
ghost use Rattle.moveshare.specs.MindTurns.{mind_hear_keeps, mind_hears_next, mind_say_keeps, mind_says_next};

use crate::new::MoveNew;
use crate::old::MoveOld;
use lists::OutOfMemory;
use std::alloc::Global;
use talk::{Heard, Mind, Say};

/// The mind of a seat in a move from `N` members to `M`.
#[derive(Drop)]
pub enum MoveMind<const N: usize, const M: usize> {
    /// An old member's, on one of the first `N` seats.
    Old(MoveOld<N>),
    /// A new member's, on one of the `M` seats behind them.
    New(MoveNew<N, M>),
}

impl<const N: usize, const M: usize> Mind for MoveMind<N, M> {
    ghost made_for = { mind_made_for };

    ghost may_say = { mind_may };

    ghost may_hear = { mind_may };

    ghost word = { mind_word };

    ghost after_say = { mind_after_say };

    ghost after_hear = { mind_after_hear };

    ghost say_keeps = { mind_say_keeps };

    ghost hear_keeps = { mind_hear_keeps };

    ghost hears_next = { mind_hears_next };

    ghost says_next = { λ m round h s seat may made less. mind_says_next m round h s may less };

    fn say(&mut self, alloc: Global, round: u32) -> Result<Say, OutOfMemory> {
        match self {
            MoveMind::Old(mind) => mind.say(alloc, round),
            MoveMind::New(mind) => mind.say(alloc, round),
        }
    }

    fn hear(&mut self, alloc: Global, round: u32, heard: Heard) -> Result<(), OutOfMemory> {
        match self {
            MoveMind::Old(mind) => mind.hear(alloc, round, heard),
            MoveMind::New(mind) => mind.hear(alloc, round, heard),
        }
    }
}
