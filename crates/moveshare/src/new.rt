//! A new member's mind.

ghost use Rattle.std.specs.Prelude.{◌≡◌, ℕ, ◌+◌, ◌*◌, ◌<◌, ◌≤◌, ◌↔◌, [], true, IfOk, OnOk, OnErr};
ghost use Rattle.sizes.specs.Committees.{IsCommittee};
ghost use Rattle.talk.specs.Hears.{StaysMade, WordFits};
ghost use Rattle.talk.specs.Shape.{Shape, move_shape};
ghost use Rattle.members.specs.Shares.{accepted_in};
ghost use Rattle.periods.specs.Mover.{mover_at, mover_word, mover_after_say, mover_after_hear};
ghost use Rattle.moveshare.specs.Seat.{MadeForMove, may_move};
ghost use Rattle.moveshare.specs.Result.{AnswersMove, IsOver};
ghost use Rattle.moveshare.specs.Turns.{mover_says_next};

use crate::corrected::result_of;
use crate::out::MoveOut;
use crate::seat::MoveSeat;
use lists::OutOfMemory;
use std::alloc::Global;
use std::marker::Model;
use talk::{Heard, Mind, Say, Setting};

/// A new member's mind in a move from `N` members to `M`, both 4 to 15: on its seat behind those of the old members it
/// receives, and in the sixth round posts the syndromes of what it got. It deals and draws nothing. Contracts see a mover.
///
/// It is made for exactly its setting and its seat. Where memory is wanting in a call, it is as it was.
#[derive(Drop)]
pub struct MoveNew<const N: usize, const M: usize> {
    seat: MoveSeat,
}

impl<const N: usize, const M: usize> Model for MoveNew<N, M> {
    ghost use Rattle.periods.specs.Mover.{Mover};
    ghost use Rattle.moveshare.specs.NewView.{view_new, WholeNew};

    ghost Value = { Mover };

    ghost view = { view_new N M };

    ghost invariant = { WholeNew N M };
}

impl<const N: usize, const M: usize> Mind for MoveNew<N, M> {
    ghost made_for = { MadeForMove };

    ghost may_say = { may_move };

    ghost may_hear = { may_move };

    ghost word = { mover_word };

    ghost after_say = { mover_after_say };

    ghost after_hear = { mover_after_hear };

    ghost say_keeps = { λ m round may s seat. (λ made. made, λ made. made) };

    ghost hear_keeps = { λ m round h may s seat. (λ made. made, λ made. made) };

    ghost hears_next = { λ m round may. may };

    ghost says_next = { λ m round h s seat may made less. mover_says_next m round h s may less };

    fn say(&mut self, alloc: Global, round: u32) -> Result<Say, OutOfMemory>
        ensures word { IfOk result (λ w. w ≡ mover_word self.old round) }
        ensures rings { IfOk result (λ w. (s : Shape) (seat : ℕ) → MadeForMove self.old s seat → WordFits s seat w) }
        ensures after { OnOk result (self.new ≡ self.old) }
        ensures kept { OnErr result (StaysMade (MadeForMove self.old) (MadeForMove self.new)) }
        ensures same { OnErr result (self.new ≡ self.old) }
    {
        self.seat.say(alloc, round)
    }

    fn hear(&mut self, alloc: Global, round: u32, heard: Heard) -> Result<(), OutOfMemory> {
        self.seat.hear(alloc, round, heard)
    }
}

impl<const N: usize, const M: usize> MoveNew<N, M> {
    /// Member `me` of the `M`, in a move from the `N`, of whom as many as the bound may be faulty; the new members have a
    /// bound of their own. It sits on seat `N + me`.
    pub fn new(bound: u32, new_bound: u32, me: u32) -> MoveNew<N, M>
        requires old { IsCommittee N bound }
        requires new { IsCommittee M new_bound }
        requires member { (1 ≤ me) × (me ≤ M) }
        ensures { result ≡ mover_at (move_shape N bound M new_bound) (N + me) [] }
    {
        let setting = Setting::moving(N as u32, bound, M as u32, new_bound);
        MoveNew {
            seat: MoveSeat::receiving(setting, me),
        }
    }

    /// Whether all rounds are heard, so that it has a result.
    pub fn has_result(&self) -> bool
        ensures { (result ≡ true) ↔ IsOver self.now }
    {
        self.seat.sixth().is_some()
    }

    /// What it comes to, by the posts that it heard in the sixth round. All rounds are heard.
    ///
    /// All lanes are opened before any lane's errors are looked for: where some lane isn't opened the answer is
    /// `NotOpened`, and where all are but some lane has no error vector it is `NoWord`, each with the least such lane.
    /// Else it is the shares.
    pub fn result(&self, alloc: Global) -> Result<MoveOut, OutOfMemory>
        requires { IsOver self.now }
        ensures { IfOk result (AnswersMove self.now) }
    {
        match self.seat.sixth() {
            Some(posts) => result_of(alloc, self.seat.sharer(), posts),
            None => unreachable!(),
        }
    }

    /// How many instances are accepted. All rounds are heard. It takes no memory.
    pub fn accepted(&self) -> u32
        requires { IsOver self.now }
        ensures { result ≡ accepted_in self.now.member.stage }
    {
        self.seat.accepted()
    }
}
