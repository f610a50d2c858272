//! Orders of a drill.

use field61::Fe;

/// How a party misbehaves in a round.
#[derive(Clone, Copy, Debug)]
pub enum Verb {
    /// It sends nothing and passes.
    Silent,
    /// It sends its ring messages, passes, and then posts.
    Late,
    /// It posts empty votes and sends empty crossing points to every other seat.
    Garble,
    /// It adds `by`: in the first round, as a dealer, to the constant of the row in each lane for the lowest
    /// receiver on another seat; in the second, as a receiver, to the first value of each pair for that
    /// receiver; in the fourth, as a dealer, to the constant of each row that it reveals; in the sixth, as a
    /// receiver of a move, to every value that it posts.
    Skew { by: Fe },
    /// In the first round, as an old member of a move, it makes its grids from its shares with `by` added to
    /// each.
    Wrong { by: Fe },
    /// In the third round, as a receiver, it complains falsely of a receiver on another seat, in every
    /// instance.
    Accuse { receiver: u32 },
    /// In the fifth round, as a receiver, it votes no on every instance.
    Veto,
}

/// One line of a drill: what a party is to do in a round.
#[derive(Clone, Copy, Debug)]
pub struct Order {
    /// The seat, from 1.
    pub party: u32,
    /// The round, from 1.
    pub round: u32,
    /// What it does.
    pub verb: Verb,
}
