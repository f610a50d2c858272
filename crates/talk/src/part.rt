//! Seats that may take no part.

ghost use Rattle.std.specs.Prelude.{◌≡◌, ℕ, ◌+◌, ◌<◌, option_copied};
ghost use Rattle.talk.specs.Hears.{StaysMade};
ghost use Rattle.talk.specs.Part.{mind_in, part_after_hear, part_after_say, part_made_for, part_may, part_word};
ghost use Rattle.talk.specs.Shape.{rounds};
ghost use Rattle.talk.specs.declared.part.Part.TheVariants.{Away, In};

use crate::{Heard, Mind, Say};
use lists::OutOfMemory;
use std::alloc::Global;

/// What sits on a seat of a phase in which not every seat takes part. Who is away is a mind like others: it passes in
/// every round, and is made for every setting and seat.
#[derive(Drop)]
pub enum Part<M: Mind> {
    /// It passes in every round, and keeps nothing of what it hears.
    Away,
    /// It takes part with this mind.
    In { mind: M },
}

impl<M: Mind> Part<M> {
    /// The mind that takes part: none where the seat is away.
    pub fn mind(&self) -> Option<&M>
        ensures { option_copied result ≡ mind_in self.now }
    {
        match self {
            Part::Away => None,
            Part::In { mind } => Some(mind),
        }
    }
}

impl<M: Mind> Mind for Part<M> {
    ghost made_for = { part_made_for M.made_for };

    ghost may_say = { part_may M.may_say };

    ghost may_hear = { part_may M.may_hear };

    ghost word = { part_word M.word };

    ghost after_say = { part_after_say M.after_say };

    ghost after_hear = { part_after_hear M.after_hear };

    ghost say_keeps = { λ part round. elim part as
        (λ kind. Self.may_say kind round →
        StaysMade (Self.made_for kind) (Self.made_for (Self.after_say kind round)))
        [ Away ↦ λ may setting seat. (λ made. made, λ made. made) | In mind ↦ M.say_keeps mind round ] };

    ghost hear_keeps = { λ part round heard. elim part as
        (λ kind. Self.may_hear kind round →
        StaysMade (Self.made_for kind) (Self.made_for (Self.after_hear kind round heard)))
        [ Away ↦ λ may setting seat. (λ made. made, λ made. made) | In mind ↦ M.hear_keeps mind round heard ] };

    ghost hears_next = { λ part round. elim part as
        (λ kind. Self.may_say kind round → Self.may_hear (Self.after_say kind round) round)
        [ Away ↦ λ may. tt | In mind ↦ M.hears_next mind round ] };

    ghost says_next = { λ part round heard setting seat. elim part as
        (λ kind. Self.may_hear kind round → Self.made_for kind setting seat → round < rounds setting →
        Self.may_say (Self.after_hear kind round heard) (round + 1))
        [ Away ↦ λ may made less. tt | In mind ↦ M.says_next mind round heard setting seat ] };

    fn say(&mut self, alloc: Global, round: u32) -> Result<Say, OutOfMemory> {
        match self {
            Part::Away => Ok(Say::Pass),
            Part::In { mind } => mind.say(alloc, round),
        }
    }

    fn hear(&mut self, alloc: Global, round: u32, heard: Heard) -> Result<(), OutOfMemory> {
        match self {
            Part::Away => Ok(()),
            Part::In { mind } => mind.hear(alloc, round, heard),
        }
    }
}
