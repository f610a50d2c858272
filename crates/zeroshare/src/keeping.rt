//! A member of the sharing that keeps its old shares.

ghost use Rattle.std.specs.Prelude.{◌≡◌, ℕ, ◌<◌, ◌≤◌, ◌↔◌, true, get_or, IfOk, OnOk, OnErr};
ghost use Rattle.algebra61.specs.Field.{fe, zeroₚ, ◌+ₚ◌, ◌*ₚ◌};
ghost use Rattle.talk.specs.Shape.{Shape, receives};
ghost use Rattle.talk.specs.Hears.{StaysMade, WordFits};
ghost use Rattle.plays.specs.Stage.{receiver_at};
ghost use Rattle.members.specs.Shares.{IsDone, accepted_in};
ghost use Rattle.members.proofs.Turns.{says_after};
ghost use Rattle.periods.specs.Keeper.{keeper_word, keeper_after_say, keeper_after_hear};
ghost use Rattle.zeroshare.specs.Refresh.{keeper_made_for, keeper_may, keeper_shares};

use field61::Fe;
use lists::OutOfMemory;
use sharer::Sharer;
use std::alloc::Global;
use std::marker::Model;
use talk::{Heard, Mind, Say};

// A seat of the sharing on which a receiver sits, with the shares that this receiver had before.
#[derive(Drop)]
pub(crate) struct Keeping {
    sharer: Sharer,
    old: [Fe; 5],
}

impl Model for Keeping {
    ghost use Rattle.periods.specs.Keeper.{Keeper};
    ghost use Rattle.zeroshare.specs.KeepingView.{view_keeping, Receives};

    ghost Value = { Keeper };

    ghost view = { view_keeping };

    ghost invariant = { Receives };
}

impl Mind for Keeping {
    ghost made_for = { keeper_made_for };

    ghost may_say = { keeper_may };

    ghost may_hear = { keeper_may };

    ghost word = { keeper_word };

    ghost after_say = { keeper_after_say };

    ghost after_hear = { keeper_after_hear };

    ghost say_keeps = { λ k round may s seat. (λ made. made, λ made. made) };

    ghost hear_keeps = { λ k round h may s seat. (λ made. made, λ made. made) };

    ghost hears_next = { λ k round may. may };

    ghost says_next = { λ k round h s seat may made less. says_after k.member round h s made.2 may less };

    fn say(&mut self, alloc: Global, round: u32) -> Result<Say, OutOfMemory>
        ensures word { IfOk result (λ w. w ≡ keeper_word self.entry.now round) }
        ensures rings { IfOk result
            (λ w. (s : Shape) (seat : ℕ) → keeper_made_for self.entry.now s seat → WordFits s seat w) }
        ensures after { OnOk result (self.exit.now ≡ self.entry.now) }
        ensures kept { OnErr result (StaysMade (keeper_made_for self.entry.now) (keeper_made_for self.exit.now)) }
        ensures same { OnErr result (self.exit.now ≡ self.entry.now) }
    {
        self.sharer.say(alloc)
    }

    fn hear(&mut self, alloc: Global, round: u32, heard: Heard) -> Result<(), OutOfMemory> {
        self.sharer.hear(alloc, &heard)
    }
}

impl Keeping {
    // The sharer of a receiver's seat, with its old shares.
    pub(crate) fn new(sharer: Sharer, old: [Fe; 5]) -> Keeping
        requires { receives sharer.shape sharer.seat ≡ true }
        ensures { result ≡ record { member = sharer; old = old } }
    {
        Keeping { sharer, old }
    }

    // Whether all rounds are heard.
    pub(crate) fn is_done(&self) -> bool
        ensures { (result ≡ true) ↔ IsDone self.now.member.stage }
    {
        self.sharer.round() == 6
    }

    // The number of the receiver that sits there.
    fn receiver(&self) -> u32
        ensures { result ≡ receiver_at self.now.member.shape self.now.member.seat }
    {
        self.sharer.seat() - self.sharer.setting().shift()
    }

    // Its new shares, lane by lane. All rounds are heard.
    pub(crate) fn shares(&self) -> [Fe; 5]
        requires { IsDone self.now.member.stage }
        ensures { result ≡ keeper_shares self.now }
    {
        let point = Fe::reduce(u64::from(self.receiver()));
        let dealt = self.sharer.shares();
        [
            renewed(&self.old, point, &dealt, 0),
            renewed(&self.old, point, &dealt, 1),
            renewed(&self.old, point, &dealt, 2),
            renewed(&self.old, point, &dealt, 3),
            renewed(&self.old, point, &dealt, 4),
        ]
    }

    // How many instances are accepted. All rounds are heard.
    pub(crate) fn accepted(&self) -> u32
        requires { IsDone self.now.member.stage }
        ensures { result ≡ accepted_in self.now.member.stage }
    {
        self.sharer.accepted()
    }
}

// The new share of a lane: the point times what was dealt is added to the old one.
fn renewed(old: &[Fe; 5], point: Fe, dealt: &[Fe; 5], lane: usize) -> Fe
    requires { lane < 5 }
    ensures { result ≡ get_or old.now lane zeroₚ +ₚ point *ₚ get_or dealt.now lane zeroₚ }
{
    old[lane].add(point.mul(dealt[lane]))
}
