//! Drills.

ghost use Rattle.std.specs.Prelude.{◌≡◌, ℕ, ◌+◌, ◌^◌, ◌<◌, ◌≤◌, List, [], ◌∷◌, ◌++◌, length, Decides, IfOk, MatchResult, Some, slice_get};
ghost use Rattle.std.specs.List.{list_all};
ghost use Rattle.sharing61.specs.Count.{how_many};
ghost use Rattle.talk.specs.Sync.{has};
ghost use Rattle.drillbook.specs.Orders.{added_by, names, order_at, wrong_of, is_lawful, AllLawful, allows, may_skew, other_receiver};
ghost use Rattle.drillbook.specs.Text.{named_among};

use crate::{Order, Verb};
use field61::Fe;
use lists::OutOfMemory;
use std::alloc::Global;
use std::marker::Model;
use talk::{Setting, mask_with};

/// What the parties of a phase are told to do. Contracts see the list of orders.
#[derive(Drop)]
pub struct Drill {
    orders: Vec<Order>,
}

impl Model for Drill {
    ghost use Rattle.std.specs.Prelude.{List};
    ghost use Rattle.drillbook.specs.declared.order.Order.{Order};

    ghost Value = { List Order };

    ghost view = { λ a. a.orders.items };
}

impl Drill {
    /// The drill that tells nobody anything.
    pub fn none(alloc: Global) -> Drill
        ensures { result ≡ [] }
    {
        Drill {
            orders: Vec::new(alloc),
        }
    }

    /// Puts an order at the end. Where memory is wanting, the drill is as it was.
    pub fn push(&mut self, order: Order) -> Result<(), OutOfMemory>
        ensures { MatchResult result (λ _. self.new ≡ self.old ++ order ∷ []) (λ _. self.new ≡ self.old) }
    {
        let _verb: Verb = order.verb;
        self.orders.push(order)?;
        Ok(())
    }

    /// Whether each order is lawful for a setting, as a drilled mind asks: its party is a seat, its round one of
    /// the phase, its verb stands there by its table, and a receiver that it names sits on another seat. A drill
    /// that was read for the setting is lawful for it.
    #[tactic(auto, using(crate::proofs::Lawful::all_lawful_at))]
    pub fn is_lawful(&self, setting: &Setting) -> bool
        ensures { Decides result (AllLawful setting.now self.now) }
    {
        each_is_lawful(self.orders.as_slice(), setting)
    }

    /// How many orders there are.
    pub fn len(&self) -> usize
        ensures { result ≡ length self.now }
    {
        self.orders.len()
    }

    /// The order at a place, counted from 0.
    pub fn at(&self, place: usize) -> &Order
        requires { place < length self.now }
        ensures { slice_get self.now place ≡ Some result.now }
    {
        &self.orders[place]
    }

    /// The orders.
    pub fn as_slice(&self) -> &[Order]
        ensures { result.now ≡ self.now }
    {
        self.orders.as_slice()
    }

    /// An equal drill.
    pub fn copy(&self, alloc: Global) -> Result<Drill, OutOfMemory>
        ensures { IfOk result (λ d. d ≡ self.now) }
    {
        let mut copied = Drill::none(alloc);
        for order in &self.orders {
            copied.push(*order)?;
        }
        Ok(copied)
    }

    /// Whether an order names the seat.
    pub fn names(&self, seat: u32) -> bool
        ensures { result ≡ names self.now seat }
    {
        for order in &self.orders {
            if order.party == seat {
                return true;
            }
        }
        false
    }

    /// The mask of the named seats from 1 to 30: `seat` has bit `seat - 1`.
    pub fn named(&self) -> u32
        ensures mask { result < 2 ^ 30 }
        ensures named { (seat : ℕ) → 1 ≤ seat → seat ≤ 30 → has result seat ≡ names self.now seat }
    {
        let mut mask = 0;
        for seat in 1..31 {
            mask = mask_with(mask, seat, self.names(seat));
        }
        mask
    }

    /// What a seat is told to do in a round.
    pub fn order_at(&self, seat: u32, round: u32) -> Option<Verb>
        ensures { result ≡ order_at self.now seat round }
    {
        for order in &self.orders {
            if order.party == seat && order.round == round {
                return Some(order.verb);
            }
        }
        None
    }

    /// What a seat is told to add to its shares before it makes its grids of them: 0 where it has no such
    /// order.
    pub fn wrong(&self, seat: u32) -> Fe
        ensures { result ≡ wrong_of self.now seat }
    {
        added_by(self.order_at(seat, 1))
    }
}

// What a verb adds to a dealer's shares.
fn added_by(verb: Option<Verb>) -> Fe
    ensures { result ≡ added_by verb }
{
    match verb {
        None => Fe::ZERO,
        Some(verb) => added(verb),
    }
}

fn added(verb: Verb) -> Fe
    ensures { result ≡ added_by (Some verb) }
{
    match verb {
        Verb::Wrong { by } => by,
        Verb::Silent
        | Verb::Late
        | Verb::Garble
        | Verb::Skew { .. }
        | Verb::Accuse { .. }
        | Verb::Veto => Fe::ZERO,
    }
}

// How many of the first `members` seats after `shift` are named.
pub(crate) fn named_among(drill: &Drill, shift: u32, members: u32) -> u32
    requires { (shift ≤ 30) × (members ≤ 30) }
    ensures { result ≡ named_among drill.now shift members }
{
    let mut count = 0;
    for j in 1..members + 1 {
        if drill.names(shift + j) {
            count += 1;
        }
    }
    count
}

// Whether each of some orders may stand in a drill for a setting.
fn each_is_lawful(orders: &[Order], setting: &Setting) -> bool
    ensures { result ≡ list_all (is_lawful setting.now) orders.now }
{
    for order in orders {
        if !is_lawful(order, setting) {
            return false;
        }
    }
    true
}

// Whether an order may stand in a drill for a setting.
pub(crate) fn is_lawful(order: &Order, setting: &Setting) -> bool
    ensures { result ≡ is_lawful setting.now order.now }
{
    1 <= order.party
        && order.party <= setting.seats()
        && 1 <= order.round
        && order.round <= setting.rounds()
        && allows(setting, order.party, order.round, order.verb)
}

// Whether a seat may be told a verb in a round.
fn allows(setting: &Setting, seat: u32, round: u32, verb: Verb) -> bool
    ensures { result ≡ allows setting.now seat round verb }
{
    match verb {
        Verb::Silent => true,
        Verb::Late => true,
        Verb::Garble => true,
        Verb::Skew { .. } => may_skew(setting, seat, round),
        Verb::Wrong { .. } => round == 1 && setting.shift() != 0 && setting.deals(seat),
        Verb::Accuse { receiver } => {
            round == 3 && setting.receives(seat) && is_other_receiver(setting, seat, receiver)
        }
        Verb::Veto => round == 5 && setting.receives(seat),
    }
}

// Whether a seat may be told to skew in a round.
fn may_skew(setting: &Setting, seat: u32, round: u32) -> bool
    ensures { result ≡ may_skew setting.now seat round }
{
    match round {
        1 => setting.deals(seat),
        2 => setting.receives(seat),
        4 => setting.deals(seat),
        6 => setting.shift() != 0 && setting.receives(seat),
        _ => false,
    }
}

// Whether a receiver sits on another seat.
fn is_other_receiver(setting: &Setting, seat: u32, receiver: u32) -> bool
    ensures { result ≡ other_receiver setting.now seat receiver }
{
    1 <= receiver && receiver <= setting.receivers() && setting.shift() + receiver != seat
}
