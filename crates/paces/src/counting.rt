//! Counting a pace's calls and answers.
ghost use Rattle.std.specs.Prelude.{◌≡◌, ℕ, ◌+◌, ◌-◌, ◌^◌, ◌≤◌, min, bit_or};
ghost use Rattle.paces.specs.Tallies.{cuts_in, asked_in};

use crate::tally::Tally;

impl Tally {
    // Nothing was asked.
    pub(crate) fn new() -> Tally
        ensures { result.answered ≡ 0 }
    {
        Tally {
            cuts: [0; 8],
            asked: [0; 8],
            answered: 0,
        }
    }

    // A phase begins.
    pub(crate) fn begin(&mut self)
        ensures cuts { (r : ℕ) → cuts_in self.new r ≡ 0 }
        ensures asked { (r : ℕ) → asked_in self.new r ≡ 0 }
        ensures answered { self.new.answered ≡ self.old.answered }
    {
        self.cuts = [0; 8];
        self.asked = [0; 8];
    }

    // Counts one call, and its answer.
    pub(crate) fn count(&mut self, round: u32, answer: u32)
        requires round { (1 ≤ round) × (round ≤ 8) }
        ensures cuts { cuts_in self.new round ≡ bit_or (cuts_in self.old round) answer }
        ensures other_cuts { (q : ℕ) → 1 ≤ q → ¬ (q ≡ round) → cuts_in self.new q ≡ cuts_in self.old q }
        ensures asked { asked_in self.new round ≡ min (asked_in self.old round + 1) (2 ^ 64 - 1) }
        ensures other_asked { (q : ℕ) → 1 ≤ q → ¬ (q ≡ round) → asked_in self.new q ≡ asked_in self.old q }
        ensures grows { self.old.answered ≤ self.new.answered }
        ensures silent { answer ≡ 0 → self.new.answered ≡ self.old.answered }
        ensures rose { ¬ (answer ≡ 0) → self.new.answered ≡ min (self.old.answered + 1) (2 ^ 64 - 1) }
    {
        let row = round as usize - 1;
        self.cuts[row] |= answer;
        self.asked[row] = self.asked[row].saturating_add(1);
        if answer != 0 {
            self.answered = self.answered.saturating_add(1);
        }
    }
}
