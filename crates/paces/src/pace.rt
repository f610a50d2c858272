//! What says which seats are cut.
ghost use Rattle.std.specs.Prelude.{◌≡◌, ℕ, ◌+◌, ◌-◌, ◌^◌, ◌≤◌, min, bit_or};
ghost use Rattle.roundboard.specs.Rule.{IsPart};

use std::sync::Wait;

/// Says which of the seats that are missing in a round are cut. Rounds count from 1, and are at most 8. Seats are told as masks. Who hands one to a phase owes that it is `Send` too.
pub trait Pace {
    /// All seats that were answered for a round since the phase began.
    ghost cuts_of: { Self → ℕ → ℕ };

    /// How often it was asked for a round since the phase began.
    ghost asked_of: { Self → ℕ → ℕ };

    /// How many answers named a seat.
    ghost answered_count: { Self → ℕ };

    /// What it answers for a round and the seats that are missing, as far as it tells that beforehand.
    ghost answers: { Self → ℕ → ℕ → ℕ → Type 0 } = { λ _ _ _ _. Unit {0} };

    /// The number of answers that named a seat is at most its last value.
    ghost answered_has_a_last_value: { (pace : Self) → answered_count pace ≤ 2 ^ 64 - 1 };

    /// A phase begins: it was asked for no round, and nobody was answered.
    fn begin(&mut self)
        ensures cuts { (r : ℕ) → cuts_of self.new r ≡ 0 }
        ensures asked { (r : ℕ) → asked_of self.new r ≡ 0 }
        ensures answered { answered_count self.new ≡ answered_count self.old };

    /// Which of the missing seats are cut in the round now. It may wait.
    fn cut<R: Wait>(&mut self, rt: &R, round: u32, missing: u32) -> u32
        requires round { (1 ≤ round) × (round ≤ 8) }
        ensures part { IsPart result missing }
        ensures answer { answers self.old round missing result }
        ensures cuts { cuts_of self.new round ≡ bit_or (cuts_of self.old round) result }
        ensures other_cuts { (q : ℕ) → 1 ≤ q → ¬ (q ≡ round) → cuts_of self.new q ≡ cuts_of self.old q }
        ensures asked { asked_of self.new round ≡ min (asked_of self.old round + 1) (2 ^ 64 - 1) }
        ensures other_asked { (q : ℕ) → 1 ≤ q → ¬ (q ≡ round) → asked_of self.new q ≡ asked_of self.old q }
        ensures grows { answered_count self.old ≤ answered_count self.new }
        ensures silent { result ≡ 0 → answered_count self.new ≡ answered_count self.old }
        ensures rose { ¬ (result ≡ 0) → answered_count self.new ≡ min (answered_count self.old + 1) (2 ^ 64 - 1) };

    /// All seats that were answered for the round since the phase began.
    fn cuts(&self, round: u32) -> u32
        requires round { (1 ≤ round) × (round ≤ 8) }
        ensures { result ≡ cuts_of self.now round };

    /// How often it was asked for the round since the phase began. At 2^64 - 1 the number stands still.
    fn asked(&self, round: u32) -> u64
        requires round { (1 ≤ round) × (round ≤ 8) }
        ensures { result ≡ asked_of self.now round };

    /// How many answers named a seat, in all phases. At 2^64 - 1 the number stands still.
    fn answered(&self) -> u64
        ensures { result ≡ answered_count self.now };
}
