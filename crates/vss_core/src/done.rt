//! A receiver after the votes.

ghost use Rattle.std.specs.Prelude.{◌≡◌, ℕ, ◌+◌, ◌-◌, ◌<◌, ◌≤◌, Bool, List, [], length, get_or};
ghost use Rattle.algebra61.specs.Field.{zeroₚ};
ghost use Rattle.algebra61.specs.Poly.{eval};
ghost use Rattle.talk.specs.Shape.{Shape, instances};
ghost use Rattle.plays.specs.Seat.{pair_at};
ghost use Rattle.vss_core.specs.States.{DoneState};

use crate::PairList;
use field61::Fe;
use poly61::Poly;
use std::marker::Model;
use talk::{Setting, VoteList};

/// A receiver after the votes. Contracts see its setting, its index, the pairs that it has in the end and which
/// instances are accepted. Its calls take no memory.
#[derive(Drop)]
pub struct Done {
    setting: Setting,
    me: u32,
    kept: PairList,
    accepted: VoteList,
}

impl Model for Done {
    ghost use Rattle.std.specs.Prelude.{◌≡◌, length};
    ghost use Rattle.talk.specs.Shape.{instances};
    ghost use Rattle.vss_core.specs.States.{DoneState};

    ghost Value = { DoneState };

    ghost view = { λ d. record { shape = d.setting; me = d.me; kept = d.kept; accepted = d.accepted } };

    ghost invariant = { λ d. (length d.kept ≡ instances d.setting) × (length d.accepted ≡ instances d.setting) };
}

impl Done {
    // The state of these.
    pub(crate) fn made(setting: Setting, me: u32, kept: PairList, accepted: VoteList) -> Done
        requires kept { length kept ≡ instances setting }
        requires accepted { length accepted ≡ instances setting }
        ensures { result ≡ record { shape = setting; me = me; kept = kept; accepted = accepted } }
    {
        Done {
            setting,
            me,
            kept,
            accepted,
        }
    }

    /// Whether an instance is accepted.
    pub fn accepted(&self, instance: u32) -> bool
        requires { instance < instances self.now.shape }
        ensures { result ≡ get_or self.now.accepted instance Bool.false }
    {
        *self.accepted.at(instance as usize)
    }

    /// The row of an instance, zero where it isn't accepted.
    pub fn row(&self, instance: u32) -> &Poly
        requires { instance < instances self.now.shape }
        ensures { result.now ≡ (pair_at self.now.kept instance).row }
    {
        self.kept.at(instance as usize).row()
    }

    /// The column of an instance, zero where it isn't accepted.
    pub fn column(&self, instance: u32) -> &Poly
        requires { instance < instances self.now.shape }
        ensures { result.now ≡ (pair_at self.now.kept instance).column }
    {
        self.kept.at(instance as usize).column()
    }

    /// The share of an instance: the row's value at 0.
    pub fn share(&self, instance: u32) -> Fe
        requires { instance < instances self.now.shape }
        ensures { result ≡ eval (pair_at self.now.kept instance).row.coeffs zeroₚ }
    {
        self.row(instance).eval(Fe::ZERO)
    }
}
