//! A pace that waits for one seat to be the last.
ghost use Rattle.std.specs.Prelude.{◌≡◌, ◌≤◌, ◌⊎◌};
ghost use Rattle.paces.specs.Tallies.{cuts_in, asked_in};

use crate::Pace;
use crate::missing::with_place;
use crate::nap::nap;
use crate::tally::Tally;
use std::alloc::Global;
use std::sync::atomic::AtomicBool;
use std::sync::atomic::Ordering::SeqCst;
use std::sync::{Arc, Wait};

/// Cuts one seat, in the first round, once it alone is missing. It sets its flag when it is asked for a later round. For tests, beside a `HoldCrew` that waits for the flag.
#[derive(Drop)]
pub struct HoldPace {
    mask: u32,
    flag: Arc<AtomicBool, Global>,
    tally: Tally,
}

impl HoldPace {
    /// A pace that cuts this seat, 1 to 30, and was never asked.
    pub fn new(seat: u32, flag: Arc<AtomicBool, Global>) -> HoldPace
        requires { (1 ≤ seat) × (seat ≤ 30) }
        ensures { ⟦<HoldPace as Pace>⟧.answered_count result ≡ 0 }
    {
        HoldPace {
            mask: with_place(0, seat - 1, true),
            flag,
            tally: Tally::new(),
        }
    }
}

impl Pace for HoldPace {
    ghost cuts_of = { λ p. cuts_in p.tally };

    ghost asked_of = { λ p. asked_in p.tally };

    ghost answered_count = { λ p. p.tally.answered };

    ghost answered_has_a_last_value = { λ p. p.tally.few };

    ghost answers = { λ p round missing answer. (round ≡ 1 → missing ≡ p.mask → answer ≡ missing) × ((¬ (round ≡ 1)) ⊎ (¬ (missing ≡ p.mask)) → answer ≡ 0) };

    fn begin(&mut self) {
        self.tally.begin();
    }

    fn cut<R: Wait>(&mut self, rt: &R, round: u32, missing: u32) -> u32 {
        if round != 1 {
            self.flag.store(true, SeqCst);
        }
        if round == 1 && missing == self.mask {
            self.tally.count(round, missing);
            return missing;
        }
        self.tally.count(round, 0);
        nap(rt);
        0
    }

    fn cuts(&self, round: u32) -> u32 {
        self.tally.cuts[round as usize - 1]
    }

    fn asked(&self, round: u32) -> u64 {
        self.tally.asked[round as usize - 1]
    }

    fn answered(&self) -> u64 {
        self.tally.answered
    }
}
