//! A pace that gives each round so many turns.
ghost use Rattle.std.specs.Prelude.{◌≡◌, ◌<◌, ◌≤◌};
ghost use Rattle.paces.specs.Tallies.{cuts_in, asked_in};

use crate::Pace;
use crate::nap::nap;
use crate::tally::Tally;
use std::sync::Wait;

/// Counts its calls of a round from 0, anew in each phase, and cuts all that are missing at those from number `turns` on. At each call before it sleeps for a moment.
#[derive(Drop)]
pub struct TurnPace {
    turns: u64,
    tally: Tally,
}

impl TurnPace {
    /// A pace that gives each round so many turns, and was never asked.
    pub fn new(turns: u64) -> TurnPace
        ensures { ⟦<TurnPace as Pace>⟧.answered_count result ≡ 0 }
    {
        TurnPace {
            turns,
            tally: Tally::new(),
        }
    }
}

impl Pace for TurnPace {
    ghost cuts_of = { λ p. cuts_in p.tally };

    ghost asked_of = { λ p. asked_in p.tally };

    ghost answered_count = { λ p. p.tally.answered };

    ghost answered_has_a_last_value = { λ p. p.tally.few };

    ghost answers = { λ p round missing answer. (asked_in p.tally round < p.turns → answer ≡ 0) × (p.turns ≤ asked_in p.tally round → answer ≡ missing) };

    fn begin(&mut self) {
        self.tally.begin();
    }

    fn cut<R: Wait>(&mut self, rt: &R, round: u32, missing: u32) -> u32 {
        if self.tally.asked[round as usize - 1] < self.turns {
            self.tally.count(round, 0);
            nap(rt);
            return 0;
        }
        self.tally.count(round, missing);
        missing
    }

    fn cuts(&self, round: u32) -> u32 {
        self.tally.cuts[round as usize - 1]
    }

    fn asked(&self, round: u32) -> u64 {
        self.tally.asked[round as usize - 1]
    }

    fn answered(&self) -> u64 {
        self.tally.answered
    }
}
