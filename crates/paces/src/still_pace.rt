//! A pace that never cuts.
ghost use Rattle.std.specs.Prelude.{◌≡◌};
ghost use Rattle.paces.specs.Tallies.{cuts_in, asked_in};

use crate::Pace;
use crate::nap::nap;
use crate::tally::Tally;
use std::sync::Wait;

/// Never cuts.
#[derive(Drop)]
pub struct StillPace {
    tally: Tally,
    pub ghost none: { tally.answered ≡ 0 },
}

impl StillPace {
    /// A pace that was never asked.
    pub fn new() -> StillPace
        ensures { ⟦<StillPace as Pace>⟧.answered_count result ≡ 0 }
    {
        StillPace {
            tally: Tally::new(),
        }
    }
}

impl Pace for StillPace {
    ghost cuts_of = { λ p. cuts_in p.tally };

    ghost asked_of = { λ p. asked_in p.tally };

    ghost answered_count = { λ p. p.tally.answered };

    ghost answered_has_a_last_value = { λ p. p.tally.few };

    ghost answers = { λ _ _ _ answer. answer ≡ 0 };

    fn begin(&mut self) {
        self.tally.begin();
    }

    fn cut<R: Wait>(&mut self, rt: &R, round: u32, _missing: u32) -> u32 {
        self.tally.count(round, 0);
        nap(rt);
        0
    }

    fn cuts(&self, round: u32) -> u32 {
        self.tally.cuts[round as usize - 1]
    }

    fn asked(&self, round: u32) -> u64 {
        self.tally.asked[round as usize - 1]
    }

    fn answered(&self) -> u64 {
        self.tally.answered
    }
}
