//! One seat of a move.

ghost use Rattle.std.specs.Prelude.{◌≡◌, ℕ, ◌+◌, ◌<◌, ◌≤◌, List, [], true, option_copied, IfOk, OnOk, OnErr};
ghost use Rattle.talk.specs.declared.messages.Post.{Post};
ghost use Rattle.talk.specs.declared.messages.Ring.{Ring};
ghost use Rattle.talk.specs.Shape.{Shape, receives};
ghost use Rattle.talk.specs.Sync.{speaks};
ghost use Rattle.talk.specs.Hears.{StaysMade, WordFits};
ghost use Rattle.plays.specs.Play.{seat_of};
ghost use Rattle.members.specs.Shares.{accepted_in};
ghost use Rattle.vss_core.specs.States.{FiveGrids, IsDealer, IsReceiver};
ghost use Rattle.periods.specs.Mover.{mover_at, mover_word, mover_after_say, mover_after_hear};
ghost use Rattle.moveshare.specs.Seat.{IsKeptAt, IsMoving, MadeForMove, may_move, tells};
ghost use Rattle.moveshare.specs.Result.{IsOver};
ghost use Rattle.moveshare.specs.Turns.{mover_says_next};

use crate::subshares::syndromes;
use bivar61::GridList;
use lists::OutOfMemory;
use sharer::Sharer;
use std::alloc::Global;
use std::marker::Model;
use talk::{Heard, Mind, Post, PostList, Say, Setting};

// The last round of the sharing; in the one behind it the receivers post their syndromes.
const SHARED: u32 = 5;

// A seat of a move, which goes through all six rounds: that of an old member deals, that of a new one receives. It keeps
// the posts of the sixth round.
#[derive(Drop)]
pub(crate) struct MoveSeat {
    sharer: Sharer,
    sixth: Option<PostList>,
}

impl Model for MoveSeat {
    ghost use Rattle.periods.specs.Mover.{Mover};
    ghost use Rattle.moveshare.specs.SeatView.{view_seat, WholeSeat};

    ghost Value = { Mover };

    ghost view = { view_seat };

    ghost invariant = { WholeSeat };
}

impl Mind for MoveSeat {
    ghost made_for = { MadeForMove };

    ghost may_say = { may_move };

    ghost may_hear = { may_move };

    ghost word = { mover_word };

    ghost after_say = { mover_after_say };

    ghost after_hear = { mover_after_hear };

    ghost say_keeps = { λ m round may s seat. (λ made. made, λ made. made) };

    ghost hear_keeps = { λ m round h may s seat. (λ made. made, λ made. made) };

    ghost hears_next = { λ m round may. may };

    ghost says_next = { λ m round h s seat may made less. mover_says_next m round h s may less };

    fn say(&mut self, alloc: Global, round: u32) -> Result<Say, OutOfMemory>
        ensures word { IfOk result (λ w. w ≡ mover_word self.old round) }
        ensures rings { IfOk result (λ w. (s : Shape) (seat : ℕ) → MadeForMove self.old s seat → WordFits s seat w) }
        ensures after { OnOk result (self.new ≡ self.old) }
        ensures kept { OnErr result (StaysMade (MadeForMove self.old) (MadeForMove self.new)) }
        ensures same { OnErr result (self.new ≡ self.old) }
    {
        let word = self.sharer.say(alloc)?;
        if !self.tells_syndromes() {
            return Ok(word);
        }
        let list = syndromes(alloc, &self.sharer)?;
        Ok(posting(word, Post::Syndromes { list }))
    }

    fn hear(&mut self, alloc: Global, round: u32, heard: Heard) -> Result<(), OutOfMemory> {
        if self.sharer.round() <= SHARED {
            return self.sharer.hear(alloc, &heard);
        }
        self.sixth = Some(heard.posts);
        Ok(())
    }
}

impl MoveSeat {
    // The seat of an old member before the first round, with five grids of the setting's degree, lane by lane.
    pub(crate) fn dealing(setting: Setting, member: u32, grids: GridList) -> MoveSeat
        requires moving { IsMoving setting }
        requires member { IsDealer setting member }
        requires grids { FiveGrids setting.degree grids }
        ensures { result ≡ mover_at setting member grids }
    {
        MoveSeat {
            sharer: Sharer::dealing(setting, member, grids),
            sixth: None,
        }
    }

    // The seat of a new member before the first round.
    pub(crate) fn receiving(setting: Setting, receiver: u32) -> MoveSeat
        requires moving { IsMoving setting }
        requires receiver { IsReceiver setting receiver }
        ensures { result ≡ mover_at setting (seat_of setting receiver) [] }
    {
        MoveSeat {
            sharer: Sharer::receiving(setting, receiver),
            sixth: None,
        }
    }

    // What it is in the sharing.
    pub(crate) fn sharer(&self) -> &Sharer
        ensures { result.now ≡ self.now.member }
    {
        &self.sharer
    }

    // The posts of the sixth round, once they are heard.
    pub(crate) fn sixth(&self) -> Option<&PostList>
        ensures posts { option_copied result ≡ self.now.sixth }
        ensures moving { IsMoving self.now.member.shape }
        ensures kept { IsKeptAt self.now.member.shape self.now.member.stage self.now.sixth }
    {
        self.sixth.as_ref()
    }

    // How many instances are accepted, as a receiver knows it once all rounds are heard.
    pub(crate) fn accepted(&self) -> u32
        requires receiver { receives self.now.member.shape self.now.member.seat ≡ true }
        requires over { IsOver self.now }
        ensures { result ≡ accepted_in self.now.member.stage }
    {
        self.sharer.accepted()
    }

    // Whether it posts its syndromes in the round that it says next: a receiver does, in the one behind the sharing.
    fn tells_syndromes(&self) -> bool
        ensures { result ≡ tells self.now }
    {
        self.sharer.round() > SHARED && self.sharer.setting().receives(self.sharer.seat())
    }
}

// A word that is said in time, with another post.
fn posting(word: Say, post: Post) -> Say
    requires { speaks word ≡ true }
    ensures { (before : Post) (rings : List Ring) → word ≡ Say.Speak before rings → result ≡ Say.Speak post rings }
{
    match word {
        Say::Speak { rings, .. } => Say::Speak { post, rings },
        other => other,
    }
}
