//! A sharer.

ghost use Rattle.std.specs.Prelude.{◌≡◌, ℕ, ◌+◌, ◌-◌, ◌*◌, ◌<◌, ◌≤◌, Bool, true, [], length, get_or, option_copied, IfOk, OnOk, OnErr};
ghost use Rattle.algebra61.specs.Field.{zeroₚ};
ghost use Rattle.algebra61.specs.Poly.{eval};
ghost use Rattle.talk.specs.Shape.{instances, receives};
ghost use Rattle.talk.specs.Hears.{WordFits};
ghost use Rattle.plays.specs.Play.{seat_of};
ghost use Rattle.plays.specs.Seat.{pair_at};
ghost use Rattle.plays.specs.Stage.{AtReady};
ghost use Rattle.vss_core.specs.States.{FiveGrids, IsDealer, IsReceiver};
ghost use Rattle.chance61.specs.Draws.{five_grids_drawn};
ghost use Rattle.members.specs.Member.{member_at, member_word, member_after_hear};
ghost use Rattle.members.specs.Shares.{IsDone, accepted_in, answers_in, kept_in, member_shares};
ghost use Rattle.sharer.specs.Sharer.{MayHear, fourth_in, round_of, third_in};
ghost use Rattle.sharer.specs.View.{Belongs, stage_of};

use crate::at::At;
use crate::place::Place;
use crate::says::{post_of, rings_of};
use crate::steps::next;
use crate::sums::{accepted_of, lane_shares};
use crate::turn::Turn;
use bivar61::GridList;
use chance61::Chance;
use field61::Fe;
use lists::OutOfMemory;
use std::alloc::Global;
use std::marker::Model;
use talk::{Heard, PostList, Say, Setting};
use vss_core::{Dealer, Ready};

/// One seat of a sharing, in any setting. Contracts see it as a member: the setting, the seat, the five grids that it
/// deals, lane by lane, none where it deals nothing, and how far it has come. On a seat that only deals it keeps nothing
/// of a receiver.
///
/// It says and hears the five rounds of the sharing in turn: it deals, sends its crossing points, and posts its
/// complaints, its reveals and its votes, each where its seat has to. A phase with a sixth round says that round itself.
#[derive(Drop)]
pub struct Sharer {
    place: Place,
    at: At,
}

impl Model for Sharer {
    ghost use Rattle.members.specs.Member.{Member};
    ghost use Rattle.sharer.specs.View.{view_sharer, Whole};

    ghost Value = { Member };

    ghost view = { view_sharer };

    ghost invariant = { Whole };
}

impl Sharer {
    /// Before the first round, on a dealer's seat, with five grids of the setting's degree, lane by lane. It receives too
    /// where the seat is a receiver's.
    pub fn dealing(setting: Setting, seat: u32, grids: GridList) -> Sharer
        requires dealer { IsDealer setting seat }
        requires grids { FiveGrids setting.degree grids }
        ensures { result ≡ member_at setting seat grids }
    {
        let _seats = setting.dealers();
        Sharer {
            place: Place {
                setting,
                seat,
                dealer: Some(Dealer::new(setting, seat, grids)),
            },
            at: start(&setting, seat),
        }
    }

    /// The same with five grids of the setting's degree that are drawn from a source, lane by lane. After `OutOfMemory` no
    /// word was taken.
    pub fn drawing(
        alloc: Global,
        setting: Setting,
        seat: u32,
        chance: &mut Chance,
    ) -> Result<Sharer, OutOfMemory>
        requires { IsDealer setting seat }
        ensures is { IfOk result
            (λ m. m ≡ member_at setting seat (five_grids_drawn setting.degree chance.old.seed chance.old.taken).0) }
        ensures after { OnOk result (chance.new ≡ record {
          seed = chance.old.seed;
          taken = (five_grids_drawn setting.degree chance.old.seed chance.old.taken).1;
        }) }
        ensures kept { OnErr result (chance.new ≡ chance.old) }
    {
        let grids = chance.draw_grids(alloc, setting.degree())?;
        Ok(Sharer::dealing(setting, seat, grids))
    }

    /// Before the first round, on the seat of a receiver behind the dealers: it deals nothing.
    pub fn receiving(setting: Setting, receiver: u32) -> Sharer
        requires receiver { IsReceiver setting receiver }
        requires behind { setting.shift ≡ setting.dealers }
        ensures { result ≡ member_at setting (seat_of setting receiver) [] }
    {
        Sharer {
            place: Place {
                setting,
                seat: setting.seat_of(receiver),
                dealer: None,
            },
            at: At::Ready(Ready::new(setting, receiver)),
        }
    }

    /// The setting of the phase.
    pub fn setting(&self) -> &Setting
        ensures { result.now ≡ self.now.shape }
    {
        &self.place.setting
    }

    /// The seat, from 1.
    pub fn seat(&self) -> u32
        ensures { result ≡ self.now.seat }
    {
        self.place.seat
    }

    /// The round of the sharing that it says and hears next, from 1: 6 once all five are heard.
    pub fn round(&self) -> u32
        ensures { result ≡ round_of self.now.stage }
    {
        self.at.round()
    }

    /// Its word of the round: always in time, with a ring message for each seat.
    pub fn say(&self, alloc: Global) -> Result<Say, OutOfMemory>
        ensures word { IfOk result (λ w. w ≡ member_word self.now (round_of self.now.stage)) }
        ensures rings { IfOk result (λ w. WordFits self.now.shape self.now.seat w) }
    {
        let post = post_of(alloc, &self.place, &self.at)?;
        let rings = rings_of(alloc, &self.place, &self.at)?;
        Ok(Say::Speak { post, rings })
    }

    /// Hears the round, as read for its setting and seat. Where memory is wanting, it is as it was.
    pub fn hear(&mut self, alloc: Global, heard: &Heard) -> Result<(), OutOfMemory>
        requires { MayHear self.old heard.now }
        ensures after { OnOk result (self.new ≡ member_after_hear self.old (round_of self.old.stage) heard.now) }
        ensures kept { OnErr result (self.new ≡ self.old) }
    {
        let at = std::mem::replace(&mut self.at, At::Deals(Turn::Over));
        match next(alloc, at, &self.place, heard) {
            Ok(at) => {
                self.at = at;
                Ok(())
            }
            Err(at) => {
                self.at = at;
                Err(OutOfMemory)
            }
        }
    }

    /// The posts of the third round as they were heard, by seat, until the fourth is heard.
    pub fn third(&self) -> Option<&PostList>
        ensures { option_copied result ≡ third_in self.now.stage }
    {
        match &self.at {
            At::Complained(complained) => Some(complained.third()),
            At::Deals(Turn::Fourth { third }) => Some(third),
            _ => None,
        }
    }

    /// The posts of the fourth round as they were heard, by seat, until the fifth is heard.
    pub fn fourth(&self) -> Option<&PostList>
        ensures { option_copied result ≡ fourth_in self.now.stage }
    {
        match &self.at {
            At::Revealed(revealed) => Some(revealed.fourth()),
            At::Deals(Turn::Fifth { fourth }) => Some(fourth),
            _ => None,
        }
    }

    /// A receiver's share of an instance, 0 where it isn't accepted. All five rounds are heard. It takes no memory.
    pub fn share(&self, instance: u32) -> Fe
        requires receiver { receives self.now.shape self.now.seat ≡ true }
        requires done { IsDone self.now.stage }
        requires instance { instance < instances self.now.shape }
        ensures { result ≡ eval (pair_at (kept_in self.now.stage) instance).row.coeffs zeroₚ }
    {
        match &self.at {
            At::Done(done) => done.share(instance),
            _ => Fe::ZERO,
        }
    }

    /// Whether an instance is accepted, as a receiver's seat knows it. All five rounds are heard.
    pub fn accepts(&self, instance: u32) -> bool
        requires receiver { receives self.now.shape self.now.seat ≡ true }
        requires done { IsDone self.now.stage }
        requires instance { instance < instances self.now.shape }
        ensures { result ≡ get_or (answers_in self.now.stage) instance Bool.false }
    {
        match &self.at {
            At::Done(done) => done.accepted(instance),
            _ => false,
        }
    }

    /// A receiver's shares, lane by lane: in each the sum over the dealers of its shares. All five rounds are heard. It
    /// takes no memory.
    pub fn shares(&self) -> [Fe; 5]
        requires receiver { receives self.now.shape self.now.seat ≡ true }
        requires done { IsDone self.now.stage }
        ensures { result ≡ member_shares self.now }
    {
        match &self.at {
            At::Done(done) => lane_shares(done, self.place.setting.dealers()),
            _ => [Fe::ZERO; 5],
        }
    }

    /// How many instances are accepted, as a receiver's seat knows it. All five rounds are heard. It takes no memory.
    pub fn accepted(&self) -> u32
        requires receiver { receives self.now.shape self.now.seat ≡ true }
        requires done { IsDone self.now.stage }
        ensures { result ≡ accepted_in self.now.stage }
    {
        match &self.at {
            At::Done(done) => accepted_of(done, self.place.setting.instances()),
            _ => 0,
        }
    }
}

// What is before the first round on a dealer's seat.
fn start(s: &Setting, seat: u32) -> At
    requires { IsDealer s.now seat }
    ensures stage { stage_of result ≡ AtReady }
    ensures belongs { Belongs s.now seat result }
{
    if s.receives(seat) {
        At::Ready(Ready::new(*s, seat - s.shift()))
    } else {
        At::Deals(Turn::First)
    }
}
