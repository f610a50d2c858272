//! Drilled minds.

ghost use Rattle.std.specs.Prelude.{◌≡◌, ℕ, ◌+◌, ◌<◌, IfOk, OnOk, OnErr};
ghost use Rattle.talk.specs.Hears.{StaysMade, WordFits};
ghost use Rattle.talk.specs.Sync.{Ways, ways};
ghost use Rattle.talk.specs.declared.messages.Say.TheVariants.{Pass};
ghost use Rattle.drillbook.specs.Orders.{AllLawful, order_at};
ghost use Rattle.drillbook.specs.Word.{drilled_word, drilled_ways, is_accusing, kept_word};

use crate::telling::drilled;
use crate::{Drill, Verb};
use lists::{OutOfMemory, TryCopy};
use std::alloc::Global;
use std::marker::Model;
use talk::{Heard, Mind, Say, Setting};

/// A mind that plays a faulty party: it does inside what its inner mind does, and what it says is that mind's
/// word as the drill of its seat changes it. Where the inner word passes it passes.
#[derive(Drop)]
pub struct Drilled<M: Mind> {
    setting: Setting,
    seat: u32,
    drill: Drill,
    second: Say,
    inner: M,
}

impl<M: Mind> Model for Drilled<M> {
    ghost use Rattle.drillbook.specs.Word.{DrilledMind};

    ghost Value = { DrilledMind M };

    ghost use Rattle.drillbook.specs.Orders.{AllLawful};

    ghost view = { λ d. record {
      shape = d.setting;
      seat = d.seat;
      orders = d.drill;
      second = d.second;
      inner = d.inner;
    } };

    ghost invariant = { λ d. AllLawful d.setting d.drill };
}

impl<M: Mind> Drilled<M> {
    /// A drilled mind over a fresh mind that is made for the setting and the seat. Each order of the drill is
    /// lawful for the setting, as in a drill that was read for it; of another one `Drill::is_lawful` tells. It
    /// is made for the setting and the seat, and fresh.
    pub fn new(
        alloc: Global,
        mind: M,
        drill: &Drill,
        seat: u32,
        setting: Setting,
    ) -> Result<Drilled<M>, OutOfMemory>
        requires fresh { M.may_say mind 1 }
        requires made { M.made_for mind setting seat }
        requires lawful { AllLawful setting drill.now }
        ensures { IfOk result
            (λ d. d ≡ record { shape = setting; seat = seat; orders = drill.now; second = Pass; inner = mind }) }
    {
        Ok(Drilled {
            setting,
            seat,
            drill: drill.copy(alloc)?,
            second: Say::Pass,
            inner: mind,
        })
    }

    /// The mind inside.
    pub fn inner(&self) -> &M
        ensures { result.now ≡ self.now.inner }
    {
        &self.inner
    }

    /// The mind inside, by value.
    pub fn into_inner(self) -> M
        ensures { result ≡ self.inner }
    {
        self.inner
    }

    // Whether its seat is told to accuse someone in the third round.
    fn accuses(&self) -> bool
        ensures { result ≡ is_accusing (order_at self.now.orders self.now.seat 3) }
    {
        matches!(self.drill.order_at(self.seat, 3), Some(Verb::Accuse { .. }))
    }
}

impl<M: Mind> Mind for Drilled<M> {
    ghost made_for = { λ mind shape seat.
        (mind.shape ≡ shape) × (mind.seat ≡ seat) × M.made_for mind.inner shape seat };

    ghost may_say = { λ mind round. M.may_say mind.inner round };

    ghost may_hear = { λ mind round. M.may_hear mind.inner round };

    ghost word = { λ mind round. (drilled_ways (ways M.word M.after_say M.after_hear)).word mind round };

    ghost after_say = { λ mind round. (drilled_ways (ways M.word M.after_say M.after_hear)).after_say mind round };

    ghost after_hear = { λ mind round heard.
        (drilled_ways (ways M.word M.after_say M.after_hear)).after_hear mind round heard };

    ghost say_keeps = { λ mind round may shape seat. (
      λ was. (was.0, was.1, (M.say_keeps mind.inner round may shape seat).0 was.2),
      λ was. (was.0, was.1, (M.say_keeps mind.inner round may shape seat).1 was.2),
    ) };

    ghost hear_keeps = { λ mind round heard may shape seat. (
      λ was. (was.0, was.1, (M.hear_keeps mind.inner round heard may shape seat).0 was.2),
      λ was. (was.0, was.1, (M.hear_keeps mind.inner round heard may shape seat).1 was.2),
    ) };

    ghost hears_next = { λ mind round may. M.hears_next mind.inner round may };

    ghost says_next = { λ mind round heard shape seat may made less.
        M.says_next mind.inner round heard shape seat may made.2 less };

    fn say(&mut self, alloc: Global, round: u32) -> Result<Say, OutOfMemory> {
        let word = self.inner.say(alloc, round)?;
        let kept = if round == 2 && self.accuses() {
            Some(word.copy(alloc)?)
        } else {
            None
        };
        let said = drilled(
            alloc,
            &self.setting,
            &self.drill,
            self.seat,
            round,
            &self.second,
            word,
        )?;
        if let Some(word) = kept {
            self.second = word;
        }
        Ok(said)
    }

    fn hear(&mut self, alloc: Global, round: u32, heard: Heard) -> Result<(), OutOfMemory> {
        self.inner.hear(alloc, round, heard)
    }
}
