//! The generator of a rehearsal.

ghost use Rattle.std.specs.Prelude.{◌≡◌, ℕ, ◌+◌, ◌^◌, ◌<◌};
ghost use Rattle.scenes.specs.Numbers.{draw, number_after};

use std::marker::Model;

/// The numbers that follow from a first one, each step a linear congruence of 64 bits. Contracts see where it stands.
#[derive(Drop)]
pub struct Numbers {
    state: u64,
}

impl Model for Numbers {
    ghost use Rattle.std.specs.Prelude.{ℕ};
    ghost use Rattle.std.specs.Coded.{coded_ℕ};

    ghost Value = { ℕ };

    ghost coded = { coded_ℕ };

    ghost view = { λ numbers. numbers.state };
}

impl Numbers {
    /// Those that follow from a number.
    pub fn new(number: u32) -> Numbers
        ensures { result ≡ number_after number 0 }
    {
        Numbers {
            state: u64::from(number),
        }
    }

    /// The next draw: one step, and of where it stands then the upper 31 bits.
    pub fn draw(&mut self) -> u32
        ensures step { (number place : ℕ) → self.old ≡ number_after number place → self.new ≡ number_after number (place + 1) }
        ensures drawn { (number place : ℕ) → self.old ≡ number_after number place → result ≡ draw number (place + 1) }
        ensures small { result < 2 ^ 31 }
    {
        self.state = self
            .state
            .wrapping_mul(6364136223846793005)
            .wrapping_add(1442695040888963407);
        (self.state >> 33) as u32
    }
}
