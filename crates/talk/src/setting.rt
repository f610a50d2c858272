//! The setting of a phase.

ghost use Rattle.std.specs.Prelude.{◌≡◌, ℕ, ◌+◌, ◌-◌, ◌*◌, ◌<◌, ◌≤◌};
ghost use Rattle.sizes.specs.Committees.{IsCommittee};
ghost use Rattle.talk.specs.Shape.{create_shape, deals, hand_shape, instances, move_shape, open_shape, receives, refresh_shape, rounds, seats};

use sizes::LANES;
use std::marker::Model;

/// The setting of a phase: who deals, who receives, how many receivers may be faulty, the degree of a
/// dealer's grid, and how many places of a syndrome are opened. Contracts see its six numbers.
///
/// Dealer `i` sits on seat `i`, and receiver `j` on seat `shift + j`. There are 4 to 15 dealers and 4 to 15
/// receivers. The bound is at least 1 and below a third of the receivers, and the degree is at most the
/// bound. Either one committee deals and receives on the same seats, or the receivers sit behind the
/// dealers.
#[derive(Clone, Copy, Debug, Drop)]
pub struct Setting {
    receivers: u32,
    bound: u32,
    degree: u32,
    dealers: u32,
    shift: u32,
    checks: u32,
}

impl Model for Setting {
    ghost use Rattle.talk.specs.Shape.{Shape, shape_code, Lawful};

    ghost Value = { Shape };

    ghost coded = { shape_code };

    ghost view = { λ setting. record {
      receivers = setting.receivers;
      bound = setting.bound;
      degree = setting.degree;
      dealers = setting.dealers;
      shift = setting.shift;
      checks = setting.checks;
    } };

    ghost invariant = { λ setting. Lawful (record {
      receivers = setting.receivers;
      bound = setting.bound;
      degree = setting.degree;
      dealers = setting.dealers;
      shift = setting.shift;
      checks = setting.checks;
    }) };

    ghost inverse = { λ shape. record {
      receivers = shape.receivers;
      bound = shape.bound;
      degree = shape.degree;
      dealers = shape.dealers;
      shift = shape.shift;
      checks = shape.checks;
    } };
}

// The setting in which one committee deals and receives on the same seats.
fn among(members: u32, bound: u32, degree: u32, checks: u32) -> Setting
    requires committee { IsCommittee members bound }
    requires degree { degree ≤ bound }
    requires checks { checks ≤ 1 }
    ensures { result ≡ record {
      receivers = members;
      bound = bound;
      degree = degree;
      dealers = members;
      shift = 0;
      checks = checks;
    } }
{
    Setting {
        receivers: members,
        bound,
        degree,
        dealers: members,
        shift: 0,
        checks,
    }
}

impl Setting {
    /// The setting in which members, of whom as many as the bound may be faulty, create a key.
    pub fn create(members: u32, bound: u32) -> Setting
        requires { IsCommittee members bound }
        ensures { result ≡ create_shape members bound }
    {
        among(members, bound, bound, 0)
    }

    /// The setting in which they refresh its shares.
    pub fn refresh(members: u32, bound: u32) -> Setting
        requires { IsCommittee members bound }
        ensures { result ≡ refresh_shape members bound }
    {
        among(members, bound, bound - 1, 0)
    }

    /// The setting in which they move it to other members, who have a bound of their own.
    pub fn moving(members: u32, bound: u32, receivers: u32, new_bound: u32) -> Setting
        requires old { IsCommittee members bound }
        requires new { IsCommittee receivers new_bound }
        ensures { result ≡ move_shape members bound receivers new_bound }
    {
        Setting {
            receivers,
            bound: new_bound,
            degree: new_bound,
            dealers: members,
            shift: members,
            checks: members - bound - 1,
        }
    }

    /// The setting in which they hand masked values to a member that lost its share. Nothing is shared in it.
    pub fn handing(members: u32, bound: u32) -> Setting
        requires { IsCommittee members bound }
        ensures { result ≡ hand_shape members bound }
    {
        among(members, bound, 0, 0)
    }

    /// The setting in which they open one value in each lane, to compare two keys. Nothing is shared in it, and it has
    /// a sixth round.
    pub fn opening(members: u32, bound: u32) -> Setting
        requires { IsCommittee members bound }
        ensures { result ≡ open_shape members bound }
    {
        among(members, bound, 0, 1)
    }

    /// How many members receive.
    pub fn receivers(&self) -> u32
        ensures is { result ≡ self.now.receivers }
        ensures least { 4 ≤ result }
        ensures most { result ≤ 15 }
    {
        self.receivers
    }

    /// How many receivers may be faulty.
    pub fn bound(&self) -> u32
        ensures is { result ≡ self.now.bound }
        ensures least { 1 ≤ result }
        ensures third { 3 * result < self.now.receivers }
        ensures most { result ≤ 4 }
    {
        self.bound
    }

    /// The degree of a dealer's grid in each variable.
    pub fn degree(&self) -> u32
        ensures is { result ≡ self.now.degree }
        ensures bound { result ≤ self.now.bound }
        ensures most { result ≤ 4 }
    {
        self.degree
    }

    /// How many members deal.
    pub fn dealers(&self) -> u32
        ensures is { result ≡ self.now.dealers }
        ensures least { 4 ≤ result }
        ensures most { result ≤ 15 }
        ensures seated { result ≤ seats self.now }
    {
        self.dealers
    }

    /// How many seats come before that of the first receiver: none, or those of the dealers.
    pub fn shift(&self) -> u32
        ensures is { result ≡ self.now.shift }
        ensures most { result ≤ 15 }
        ensures dealers { result ≤ self.now.dealers }
    {
        self.shift
    }

    /// How many places of a syndrome are opened in each lane.
    pub fn checks(&self) -> u32
        ensures is { result ≡ self.now.checks }
        ensures most { result ≤ 13 }
    {
        self.checks
    }

    /// How many seats there are.
    pub fn seats(&self) -> u32
        ensures is { result ≡ seats self.now }
        ensures least { 4 ≤ result }
        ensures most { result ≤ 30 }
    {
        self.shift + self.receivers
    }

    /// How many rounds the phase has.
    pub fn rounds(&self) -> u32
        ensures is { result ≡ rounds self.now }
        ensures least { 5 ≤ result }
        ensures most { result ≤ 6 }
    {
        if self.checks == 0 { 5 } else { 6 }
    }

    /// How many instances of the sharing run beside one another: five lanes for each dealer.
    pub fn instances(&self) -> u32
        ensures is { result ≡ instances self.now }
        ensures least { 20 ≤ result }
        ensures most { result ≤ 75 }
    {
        self.dealers * LANES
    }

    /// The seat of a receiver.
    pub fn seat_of(&self, receiver: u32) -> u32
        requires { (1 ≤ receiver) × (receiver ≤ self.now.receivers) }
        ensures is { result ≡ self.now.shift + receiver }
        ensures most { result ≤ seats self.now }
        ensures small { result ≤ 30 }
    {
        self.shift + receiver
    }

    /// Whether a dealer sits there.
    pub fn deals(&self, seat: u32) -> bool
        ensures { result ≡ deals self.now seat }
    {
        1 <= seat && seat <= self.dealers
    }

    /// Whether a receiver sits there.
    pub fn receives(&self, seat: u32) -> bool
        ensures { result ≡ receives self.now seat }
    {
        self.shift < seat && seat <= self.shift + self.receivers
    }
}
