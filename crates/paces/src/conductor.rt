//! The conductor of a board.
ghost use Rattle.std.specs.Prelude.{◌≡◌, ℕ, ◌≤◌};

use crate::Pace;
use crate::conducting::conduct_all;
use crews::Member;
use roundboard::{Board, Warden};
use std::sync::Wait;

/// Works the warden of a board by the answers of a pace, round by round.
#[derive(Drop)]
pub struct Conductor<'b, T: Drop, Q: Pace, const S: usize> {
    pub board: &'b Board<T, S>,
    pub rounds: u32,
    pub warden: Warden<S>,
    pub pace: &'b mut Q,
}

impl<'b, T: Drop + Send + Sync, Q: Pace + Send, const S: usize> Member for Conductor<'b, T, Q, S> {
    ghost use Rattle.paces.specs.Conductors.{ConductorReady, Conducted};

    ghost ready = { λ c. ConductorReady c };

    ghost attends = { λ a b. Conducted Q.cuts_of Q.asked_of Q.answered_count a b };

    fn attend<R: Wait>(&mut self, rt: &R) {
        conduct_all(
            rt,
            self.board,
            &mut self.warden,
            &mut *self.pace,
            self.rounds,
        );
    }

    fn release(&mut self) {}
}
