//! How far a seat has come.

ghost use Rattle.std.specs.Prelude.{◌≡◌};
ghost use Rattle.sharer.specs.Sharer.{round_of};
ghost use Rattle.sharer.specs.View.{stage_of};

use crate::turn::Turn;
use vss_core::{Complained, Crossed, Dealt, Done, Ready, Revealed};

// The state of the receiver on a seat, or, where none sits there, the turn of a seat that only deals.
#[derive(Drop)]
pub(crate) enum At {
    Ready(Ready),
    Dealt(Dealt),
    Crossed(Crossed),
    Complained(Complained),
    Revealed(Revealed),
    Done(Done),
    Deals(Turn),
}

impl At {
    // The round that it says next.
    pub(crate) fn round(&self) -> u32
        ensures { result ≡ round_of (stage_of self.now) }
    {
        match self {
            At::Ready(_) => 1,
            At::Dealt(_) => 2,
            At::Crossed(_) => 3,
            At::Complained(_) => 4,
            At::Revealed(_) => 5,
            At::Done(_) => 6,
            At::Deals(turn) => turn.round(),
        }
    }
}
