//! A receiver before the first round.

ghost use Rattle.std.specs.Prelude.{◌≡◌, ℕ, ◌+◌, ◌-◌, ◌*◌, ◌<◌, ◌≤◌, List, [], length, map, IfOk, MatchResult, get_or};
ghost use Rattle.sharing61.specs.Rules.{pair_on};
ghost use Rattle.talk.specs.Shape.{Shape, seats, instances};
ghost use Rattle.plays.specs.Said.{places};
ghost use Rattle.plays.specs.Seat.{holds};
ghost use Rattle.vss_core.specs.States.{ReadyState, DealtState, IsReceiver, RoundRings, own_grids};

use crate::pairs::dealt_pair;
use crate::{Dealer, Dealt, PairList, PolyPair, StepError};
use lists::OutOfMemory;
use sizes::Instance;
use std::alloc::Global;
use std::marker::Model;
use talk::{RingList, Setting};

/// A receiver before the first round. Contracts see its setting and its index.
#[derive(Drop)]
pub struct Ready {
    setting: Setting,
    me: u32,
}

impl Model for Ready {
    ghost use Rattle.vss_core.specs.States.{ReadyState, IsReceiver};

    ghost Value = { ReadyState };

    ghost view = { λ d. record { shape = d.setting; me = d.me } };

    ghost invariant = { λ d. IsReceiver d.setting d.me };
}

impl Ready {
    /// The receiver `me`.
    pub fn new(setting: Setting, me: u32) -> Ready
        requires { IsReceiver setting me }
        ensures { result ≡ record { shape = setting; me = me } }
    {
        Ready { setting, me }
    }

    /// Hears the first round: it holds, in each instance, the pair that the dealer sent, or that of its own dealer, and
    /// two zero polynomials where nothing was sent. `own` is the dealer on its own seat, where it has one.
    pub fn hear_deals(
        self,
        alloc: Global,
        rings: &RingList,
        own: Option<&Dealer>,
    ) -> Result<Dealt, StepError<Ready>>
        requires { RoundRings self.shape 1 self.me rings.now }
        ensures { MatchResult result
            (λ d. d
            ≡ record {
              shape = self.shape;
              me = self.me;
              pairs = map
                  (holds self.shape self.me (own_grids own.entry) rings.now) (places (instances self.shape));
            })
            (λ k. k.state ≡ self) }
    {
        match held_pairs(alloc, &self.setting, self.me, rings, own) {
            Ok(pairs) => Ok(Dealt::made(self.setting, self.me, pairs)),
            Err(_) => Err(StepError { state: self }),
        }
    }
}

// The pairs of all instances.
fn held_pairs(
    alloc: Global,
    setting: &Setting,
    me: u32,
    rings: &RingList,
    own: Option<&Dealer>,
) -> Result<PairList, OutOfMemory>
    requires receiver { IsReceiver setting.now me }
    requires rings { RoundRings setting.now 1 me rings.now }
    ensures { IfOk result
        (λ l. l ≡ map (holds setting.now me (own_grids own.entry) rings.now) (places (instances setting.now))) }
{
    let mut pairs = PairList::new(alloc);
    for i in 0..setting.instances() {
        pairs.push(held_pair(alloc, setting, me, rings, own, i)?)?;
    }
    Ok(pairs)
}

// The pair of an instance.
fn held_pair(
    alloc: Global,
    setting: &Setting,
    me: u32,
    rings: &RingList,
    own: Option<&Dealer>,
    index: u32,
) -> Result<PolyPair, OutOfMemory>
    requires receiver { IsReceiver setting.now me }
    requires rings { RoundRings setting.now 1 me rings.now }
    requires instance { index < instances setting.now }
    ensures { IfOk result (λ p. p ≡ holds setting.now me (own_grids own.entry) rings.now index) }
{
    let dealers = setting.dealers();
    let instance = Instance::of(index);
    prove!(instance.dealer <= dealers);
    if instance.dealer == setting.seat_of(me) {
        return own_pair(alloc, own, instance.lane, me);
    }
    let ring = rings.at((instance.dealer - 1) as usize);
    dealt_pair(
        alloc,
        ring,
        setting.degree() as usize,
        instance.lane as usize,
    )
}

// The own pair in a lane.
fn own_pair(
    alloc: Global,
    own: Option<&Dealer>,
    lane: u32,
    me: u32,
) -> Result<PolyPair, OutOfMemory>
    requires { lane < 5 }
    ensures { IfOk result (λ p. p ≡ pair_on (get_or (own_grids own.entry) lane []) me) }
{
    match own {
        Some(dealer) => dealer.pair_for(alloc, lane, me),
        None => PolyPair::zero(alloc),
    }
}
