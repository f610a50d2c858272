//! A receiver after the first round.

ghost use Rattle.std.specs.Prelude.{◌≡◌, ℕ, ◌+◌, ◌-◌, ◌*◌, ◌<◌, ◌≤◌, List, [], length, IfOk, MatchResult};
ghost use Rattle.sharing61.specs.Rules.{at_point};
ghost use Rattle.talk.specs.Shape.{Shape, instances};
ghost use Rattle.plays.specs.Said.{cross_list, complaint_list};
ghost use Rattle.plays.specs.Seat.{pair_at, complains};
ghost use Rattle.vss_core.specs.States.{DealtState, CrossedState, IsReceiver, RoundRings};

use crate::crossed::complaints_of;
use crate::{Crossed, PairList, StepError};
use field61::FeList;
use lists::OutOfMemory;
use std::alloc::Global;
use std::marker::Model;
use talk::{RingList, Setting};

/// A receiver after the first round. Contracts see its setting, its index and the pairs that it holds.
#[derive(Drop)]
pub struct Dealt {
    setting: Setting,
    me: u32,
    pairs: PairList,
}

impl Model for Dealt {
    ghost use Rattle.std.specs.Prelude.{◌≡◌, length};
    ghost use Rattle.talk.specs.Shape.{instances};
    ghost use Rattle.vss_core.specs.States.{DealtState, IsReceiver};

    ghost Value = { DealtState };

    ghost view = { λ d. record { shape = d.setting; me = d.me; pairs = d.pairs } };

    ghost invariant = { λ d. IsReceiver d.setting d.me × (length d.pairs ≡ instances d.setting) };
}

impl Dealt {
    // The state of these.
    pub(crate) fn made(setting: Setting, me: u32, pairs: PairList) -> Dealt
        requires receiver { IsReceiver setting me }
        requires pairs { length pairs ≡ instances setting }
        ensures { result ≡ record { shape = setting; me = me; pairs = pairs } }
    {
        Dealt { setting, me, pairs }
    }

    /// What goes to another receiver in the second round: in each instance the values of the row and of the column at
    /// that receiver's point.
    pub fn cross_for(&self, alloc: Global, receiver: u32) -> Result<FeList, OutOfMemory>
        requires { IsReceiver self.now.shape receiver }
        ensures { IfOk result
            (λ l. l ≡ cross_list (instances self.now.shape) (λ i. at_point (pair_at self.now.pairs i) receiver)) }
    {
        cross_points(alloc, &self.pairs, receiver)
    }

    /// Hears the second round: it complains, in each instance, of each receiver whose crossing pair isn't its own,
    /// swapped, and of itself where its row and column differ at its own point.
    pub fn hear_crosses(self, alloc: Global, rings: &RingList) -> Result<Crossed, StepError<Dealt>>
        requires { RoundRings self.shape 2 self.me rings.now }
        ensures { MatchResult result
            (λ c. c
            ≡ record {
              shape = self.shape;
              me = self.me;
              pairs = self.pairs;
              complaints = complaint_list
                  (instances self.shape) self.shape.receivers (complains self.shape self.me self.pairs rings.now);
            })
            (λ k. k.state ≡ self) }
    {
        match complaints_of(alloc, &self.setting, self.me, &self.pairs, rings) {
            Ok(complaints) => Ok(Crossed::made(self.setting, self.me, self.pairs, complaints)),
            Err(_) => Err(StepError { state: self }),
        }
    }
}

// The values of each pair at a receiver's point.
fn cross_points(alloc: Global, pairs: &PairList, receiver: u32) -> Result<FeList, OutOfMemory>
    ensures { IfOk result (λ l. l ≡ cross_list (length pairs.now) (λ i. at_point (pair_at pairs.now i) receiver)) }
{
    let mut list = FeList::new(alloc);
    for i in 0..pairs.len() {
        let own = pairs.at(i).at(receiver);
        list.push(own.row)?;
        list.push(own.column)?;
    }
    Ok(list)
}
