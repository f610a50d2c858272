//! Minds.

ghost use Rattle.std.specs.Prelude.{◌≡◌, ℕ, ◌+◌, ◌<◌, IfOk, OnOk, OnErr};
ghost use Rattle.talk.specs.Shape.{Shape, rounds};
ghost use Rattle.talk.specs.declared.messages.Say.{Say};
ghost use Rattle.talk.specs.declared.messages.Heard.{Heard};
ghost use Rattle.talk.specs.Hears.{AsRead, StaysMade, WordFits};

use crate::{Heard, Say};
use lists::OutOfMemory;
use std::alloc::Global;

/// What sits on a seat of a phase. In each round it says a word, and then hears what all seats said. Its
/// word, and what it is after saying it and after hearing, are functions of what it was.
///
/// A mind that may say the first round is called fresh.
pub trait Mind: Drop {
    /// The settings and seats for which it is made. No call changes that.
    ghost made_for: { Self → Shape → ℕ → Type 0 };

    /// The rounds that it may say.
    ghost may_say: { Self → ℕ → Type 0 };

    /// The rounds that it may hear.
    ghost may_hear: { Self → ℕ → Type 0 };

    /// Its word in a round.
    ghost word: { Self → ℕ → Say };

    /// What it is after saying its word.
    ghost after_say: { Self → ℕ → Self };

    /// What it is after hearing.
    ghost after_hear: { Self → ℕ → Heard → Self };

    /// Says its word of a round. Where memory is wanting, nothing is known of the mind afterwards but for
    /// which settings and seats it is made.
    fn say(&mut self, alloc: Global, round: u32) -> Result<Say, OutOfMemory>
        requires { may_say self.old round }
        ensures word { IfOk result (λ said. said ≡ word self.old round) }
        ensures rings { IfOk result (λ said.
            (setting : Shape) (seat : ℕ) → made_for self.old setting seat → WordFits setting seat said) }
        ensures after { OnOk result (self.new ≡ after_say self.old round) }
        ensures kept { OnErr result (StaysMade (made_for self.old) (made_for self.new)) };

    /// Hears what was said in a round, as read for a setting and a seat for which it is made. Where memory
    /// is wanting, the mind is as it was.
    fn hear(&mut self, alloc: Global, round: u32, heard: Heard) -> Result<(), OutOfMemory>
        requires may { may_hear self.old round }
        requires read { AsRead (made_for self.old) round heard }
        ensures after { OnOk result (self.new ≡ after_hear self.old round heard) }
        ensures kept { OnErr result (self.new ≡ self.old) };

    /// Saying changes nothing of the settings and seats.
    ghost say_keeps: { (mind : Self) (round : ℕ) → may_say mind round →
        StaysMade (made_for mind) (made_for (after_say mind round)) };

    /// Nor does hearing.
    ghost hear_keeps: { (mind : Self) (round : ℕ) (heard : Heard) → may_hear mind round →
        StaysMade (made_for mind) (made_for (after_hear mind round heard)) };

    /// After its word, the round may be heard.
    ghost hears_next: { (mind : Self) (round : ℕ) → may_say mind round → may_hear (after_say mind round) round };

    /// After hearing, the next round of the setting may be said, where there is one.
    ghost says_next: { (mind : Self) (round : ℕ) (heard : Heard) (setting : Shape) (seat : ℕ) →
        may_hear mind round → made_for mind setting seat → round < rounds setting →
        may_say (after_hear mind round heard) (round + 1) };
}
