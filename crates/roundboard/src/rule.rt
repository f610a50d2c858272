//! The rule of the board's words, and the names of its steps.
ghost use Rattle.roundboard.specs.Rule.{IsInOrder, opened, given_out, entered, both_of, spent};
ghost use Rattle.roundboard.specs.Plays.{posted, passed, cut, closed, published, looked, aborted, controlled};

use crate::view::View;
use atomic_table::{Join, Play, Split, TableRule};

/// How many seats and rounds there are.
#[derive(Clone, Copy)]
pub struct Shape {
    pub(crate) seats: u64,
    pub(crate) rounds: u64,
}

/// The rule that holds between any two steps.
pub struct Order;

impl TableRule<(), View, Shape> for Order {
    ghost holds = { λ shape. IsInOrder shape.seats shape.rounds };

    ghost first = { λ _. opened };
}

/// A seat gets its number.
pub struct Enter;

impl Split<View> for Enter {
    ghost left = { given_out };

    ghost right = { entered };
}

/// A seat takes up what another did.
pub struct Gather;

impl Join<View> for Gather {
    ghost both = { both_of };

    ghost spent = { spent };
}

/// The posted bit of a seat is set.
pub struct Post;

impl Play<(), View> for Post {
    ghost then = { posted };
}

/// The passed bit of a seat is set.
pub struct Pass;

impl Play<(), View> for Pass {
    ghost then = { passed };
}

/// The passed bits of a mask of seats are set.
pub struct Cut;

impl Play<(), View> for Cut {
    ghost then = { cut };
}

/// The closed bit is set.
pub struct Close;

impl Play<(), View> for Close {
    ghost then = { closed };
}

/// The mask is put into the frozen word.
pub struct Publish;

impl Play<(), View> for Publish {
    ghost then = { published };
}

/// The frozen word is loaded.
pub struct Look;

impl Play<(), View> for Look {
    ghost then = { looked };
}

/// The abort bit is set.
pub struct Abort;

impl Play<(), View> for Abort {
    ghost then = { aborted };
}

/// The control word is loaded.
pub struct Control;

impl Play<(), View> for Control {
    ghost then = { controlled };
}
