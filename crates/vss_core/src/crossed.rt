//! A receiver after the second round.

ghost use Rattle.std.specs.Prelude.{◌≡◌, ℕ, ◌+◌, ◌-◌, ◌*◌, ◌<◌, ◌≤◌, List, [], ◌++◌, length, IfOk, OnOk, MatchResult, Option, cond, eqb};
ghost use Rattle.sharing61.specs.Rules.{Pair, at_point, complaint_of};
ghost use Rattle.talk.specs.Shape.{Shape, seats, instances};
ghost use Rattle.plays.specs.Said.{complaint_list, complaint_row, complaint_item};
ghost use Rattle.plays.specs.Play.{seat_of};
ghost use Rattle.plays.specs.Read.{crossed_in};
ghost use Rattle.plays.specs.Seat.{complains, ring_at};
ghost use Rattle.vss_core.specs.States.{CrossedState, ComplainedState, IsReceiver, RoundRings, RoundPosts, cross_of};

use crate::posts::crossing;
use crate::{Complained, PairList, PolyPair, StepError};
use field61::Fe;
use lists::{OutOfMemory, TryCopy};
use sharing61::Crossing;
use std::alloc::Global;
use std::marker::Model;
use talk::{Complaint, ComplaintList, PostList, RingList, Setting};

/// A receiver after the second round. Contracts see its setting, its index, its pairs and its complaints.
#[derive(Drop)]
pub struct Crossed {
    setting: Setting,
    me: u32,
    pairs: PairList,
    complaints: ComplaintList,
}

impl Model for Crossed {
    ghost use Rattle.std.specs.Prelude.{◌≡◌, length};
    ghost use Rattle.talk.specs.Shape.{instances};
    ghost use Rattle.vss_core.specs.States.{CrossedState, IsReceiver};

    ghost Value = { CrossedState };

    ghost view = { λ d. record { shape = d.setting; me = d.me; pairs = d.pairs; complaints = d.complaints } };

    ghost invariant = { λ d. IsReceiver d.setting d.me × (length d.pairs ≡ instances d.setting) };
}

impl Crossed {
    // The state of these.
    pub(crate) fn made(
        setting: Setting,
        me: u32,
        pairs: PairList,
        complaints: ComplaintList,
    ) -> Crossed
        requires receiver { IsReceiver setting me }
        requires pairs { length pairs ≡ instances setting }
        ensures { result ≡ record { shape = setting; me = me; pairs = pairs; complaints = complaints } }
    {
        Crossed {
            setting,
            me,
            pairs,
            complaints,
        }
    }

    /// The complaints that it posts in the third round, in order of instances and of receivers.
    pub fn complaints(&self, alloc: Global) -> Result<ComplaintList, OutOfMemory>
        ensures { IfOk result (λ l. l ≡ self.now.complaints) }
    {
        self.complaints.copy(alloc)
    }

    /// Hears the third round: it keeps that round's posts, which its votes need.
    pub fn hear_complaints(
        self,
        alloc: Global,
        posts: &PostList,
    ) -> Result<Complained, StepError<Crossed>>
        requires { RoundPosts self.shape 3 posts.now }
        ensures { MatchResult result
            (λ c. c ≡ record { shape = self.shape; me = self.me; pairs = self.pairs; third = posts.now })
            (λ k. k.state ≡ self) }
    {
        match posts.copy(alloc) {
            Ok(third) => Ok(Complained::made(self.setting, self.me, self.pairs, third)),
            Err(_) => Err(StepError { state: self }),
        }
    }
}

// All complaints.
pub(crate) fn complaints_of(
    alloc: Global,
    setting: &Setting,
    me: u32,
    pairs: &PairList,
    rings: &RingList,
) -> Result<ComplaintList, OutOfMemory>
    requires receiver { IsReceiver setting.now me }
    requires rings { RoundRings setting.now 2 me rings.now }
    requires pairs { length pairs.now ≡ instances setting.now }
    ensures { IfOk result
        (λ l. l ≡ complaint_list (instances setting.now) setting.now.receivers
        (complains setting.now me pairs.now rings.now)) }
{
    let mut list = ComplaintList::new(alloc);
    for i in 0..setting.instances() {
        complain_all(setting, me, pairs.at(i as usize), rings, i, &mut list)?;
    }
    Ok(list)
}

// The complaints of one instance, at the end of the list.
fn complain_all(
    setting: &Setting,
    me: u32,
    pair: &PolyPair,
    rings: &RingList,
    instance: u32,
    list: &mut ComplaintList,
) -> Result<(), OutOfMemory>
    requires receiver { IsReceiver setting.now me }
    requires rings { RoundRings setting.now 2 me rings.now }
    requires instance { instance < instances setting.now }
    ensures { OnOk result
        (list.new ≡ list.old ++ complaint_row instance setting.now.receivers
        (λ k. complaint_of (at_point pair.now k) (cross_of setting.now me pair.now rings.now instance k))) }
{
    for k in 1..setting.receivers() + 1 {
        complain(setting, me, pair, rings, instance, k, list)?;
    }
    Ok(())
}

// The complaint of a receiver, where there is one, at the end of the list.
fn complain(
    setting: &Setting,
    me: u32,
    pair: &PolyPair,
    rings: &RingList,
    instance: u32,
    against: u32,
    list: &mut ComplaintList,
) -> Result<(), OutOfMemory>
    requires receiver { IsReceiver setting.now me }
    requires rings { RoundRings setting.now 2 me rings.now }
    requires instance { instance < instances setting.now }
    requires against { IsReceiver setting.now against }
    ensures { OnOk result
        (list.new ≡ list.old ++ complaint_item instance against
        (complaint_of (at_point pair.now against) (cross_of setting.now me pair.now rings.now instance against))) }
{
    let own = pair.at(against);
    if let Some(theirs) = crossing_of(setting, me, own, rings, instance, against) {
        if theirs.row == own.column && theirs.column == own.row {
            return Ok(());
        }
    }
    list.push(Complaint {
        instance,
        against,
        u: own.row,
        v: own.column,
    })
}

// The crossing pair that was heard of another receiver; of `me` the own values, which are `mine`.
fn crossing_of(
    setting: &Setting,
    me: u32,
    mine: Crossing,
    rings: &RingList,
    instance: u32,
    other: u32,
) -> Option<Crossing>
    requires receiver { IsReceiver setting.now me }
    requires rings { RoundRings setting.now 2 me rings.now }
    requires instance { instance < instances setting.now }
    requires against { IsReceiver setting.now other }
    ensures { result ≡ cond (eqb other me) (Option.Some mine)
        (crossed_in instance (ring_at rings.now (seat_of setting.now other))) }
{
    if other == me {
        return Some(mine);
    }
    let ring = rings.at((setting.seat_of(other) - 1) as usize);
    crossing(ring, setting.instances(), instance)
}
