//! Conducting the rounds of a board.
ghost use Rattle.std.specs.Prelude.{◌≡◌, ℕ, ◌+◌, ◌-◌, ◌<◌, ◌≤◌};
ghost use Rattle.roundboard.specs.Pens.{rounds_of};
ghost use Rattle.roundboard.specs.Wardens.{IsWarden, watched};
ghost use Rattle.paces.specs.Conducts.{Paced};

use crate::Pace;
use crate::missing::missing_in;
use roundboard::{Board, Look, Warden};
use std::sync::Wait;

// Asks the pace for the seats that are missing in a round, and cuts what it answers.
fn cut_missing<T: Drop, Q: Pace, R: Wait, const S: usize>(
    rt: &R,
    board: &Board<T, S>,
    warden: &mut Warden<S>,
    pace: &mut Q,
    round: u32,
)
    requires few { S ≤ 30 }
    requires warden { IsWarden board.now warden.old }
    requires round { (1 ≤ round) × (round ≤ rounds_of board.now) × (round ≤ 8) }
    ensures warden { IsWarden board.now warden.new }
    ensures paced { (first : ℕ) → Paced (Q.cuts_of pace.old) (Q.asked_of pace.old) (Q.answered_count pace.old) first (watched warden.old) → Paced (Q.cuts_of pace.new) (Q.asked_of pace.new) (Q.answered_count pace.new) first (watched warden.new) }
{
    let shown = board.cut(warden, round, 0);
    let missing = missing_in(shown.word, S as u32);
    let late = pace.cut(rt, round, missing);
    if late != 0 {
        let _cut = board.cut(warden, round, late);
    }
}

// Conducts one round, until it has a mask. False where the board was aborted.
fn conduct_round<T: Drop, Q: Pace, R: Wait, const S: usize>(
    rt: &R,
    board: &Board<T, S>,
    warden: &mut Warden<S>,
    pace: &mut Q,
    round: u32,
) -> bool
    requires few { S ≤ 30 }
    requires warden { IsWarden board.now warden.old }
    requires round { (1 ≤ round) × (round ≤ rounds_of board.now) × (round ≤ 8) }
    ensures warden { IsWarden board.now warden.new }
    ensures paced { (first : ℕ) → Paced (Q.cuts_of pace.old) (Q.asked_of pace.old) (Q.answered_count pace.old) first (watched warden.old) → Paced (Q.cuts_of pace.new) (Q.asked_of pace.new) (Q.answered_count pace.new) first (watched warden.new) }
{
    for _ in rt.forever() {
        match board.look_warden(warden, round) {
            Look::Frozen { mask: _ } => return true,
            Look::Aborted => return false,
            Look::NotYet => {}
        }
        cut_missing(rt, board, warden, pace, round);
    }
    unreachable!()
}

/// Conducts all rounds in turn, until the board is aborted.
pub(crate) fn conduct_all<T: Drop, Q: Pace, R: Wait, const S: usize>(
    rt: &R,
    board: &Board<T, S>,
    warden: &mut Warden<S>,
    pace: &mut Q,
    rounds: u32,
)
    requires few { S ≤ 30 }
    requires warden { IsWarden board.now warden.old }
    requires rounds { (rounds ≤ rounds_of board.now) × (rounds ≤ 8) }
    ensures warden { IsWarden board.now warden.new }
    ensures paced { (first : ℕ) → Paced (Q.cuts_of pace.old) (Q.asked_of pace.old) (Q.answered_count pace.old) first (watched warden.old) → Paced (Q.cuts_of pace.new) (Q.asked_of pace.new) (Q.answered_count pace.new) first (watched warden.new) }
{
    for row in 0..rounds {
        if !conduct_round(rt, board, warden, pace, row + 1) {
            return;
        }
    }
}
