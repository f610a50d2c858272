//! Waiting for the mask of a round.
ghost use Rattle.std.specs.Prelude.{◌≡◌, ◌-◌, ◌≤◌, Some, IfSome};
ghost use Rattle.roundboard.specs.Logs.{Grew, NoArrivals};
ghost use Rattle.roundboard.specs.Pages.{Saw};
ghost use Rattle.roundboard.specs.Pens.{IsPen, cells_of, events, mask_of, place_of, rounds_of};

use roundboard::{Board, Pen, Waited};
use std::sync::Wait;

// The mask of the round. None where the board was aborted.
pub(crate) fn await_mask<T: Drop, const S: usize, R: Wait>(
    rt: &R,
    board: &Board<T, S>,
    pen: &mut Pen<T, S>,
    round: u32,
) -> Option<u32>
    requires pen { IsPen board.now pen.old }
    requires round { (1 ≤ round) × (round ≤ rounds_of board.now) }
    ensures pen { IsPen board.now pen.new }
    ensures place { place_of pen.new ≡ place_of pen.old }
    ensures cells { cells_of pen.new ≡ cells_of pen.old }
    ensures grew { Grew (round - 1) (events pen.old) (events pen.new) }
    ensures no_arrivals { NoArrivals (events pen.old) (events pen.new) }
    ensures saw { IfSome result (Saw (events pen.new) (round - 1)) }
    ensures mask { IfSome result (λ m. mask_of pen.new round ≡ Some m) }
{
    match board.wait_round(rt, pen, round) {
        Waited::Frozen { mask } => Some(mask),
        Waited::Aborted => None,
    }
}
