//! Saying one word.
ghost use Rattle.std.specs.Prelude.{◌≡◌, ◌≢◌, ℕ, ◌+◌, ◌-◌, ◌<◌, ◌≤◌, [], ◌∷◌, ◌++◌, Some, IfOk, OnOk, length};
ghost use Rattle.std.specs.Int.{bit_at};
ghost use Rattle.roundboard.specs.Cells.{knows};
ghost use Rattle.roundboard.specs.Rule.{In, event};
ghost use Rattle.roundboard.specs.Pens.{IsPen, cell_of, cells_of, events, log_of, mask_of, place_of, rounds_of};
ghost use Rattle.roundboard.specs.declared.view.Deed.TheVariants.{Posted as Posting};
ghost use Rattle.pairrings.specs.Ends.{got_from, sent_to, room_to, SameRings};
ghost use Rattle.turns.specs.Turns.{sent_in};
ghost use Rattle.turns.specs.Account.{WordLogged, Wrote};
ghost use Rattle.roundboard.specs.Logs.{Grew};
ghost use Rattle.party_crew.specs.Logs.{AllRings, NoPostIn, NoPassIn, OnlyLearns, InTimeAt, PostedAt};

use crate::sending::send_all;
use lists::OutOfMemory;
use pairrings::End;
use roundboard::{Board, Pen, PostFault};
use std::alloc::Global;
use std::sync::Wait;
use talk::{Post, Ring, Say};

pub(crate) fn post_value<T: Drop, const S: usize, R: Wait>(
    rt: &R,
    alloc: Global,
    board: &Board<T, S>,
    pen: &mut Pen<T, S>,
    round: u32,
    value: T,
) -> Result<(), OutOfMemory>
    requires pen { IsPen board.now pen.old }
    requires round { (1 ≤ round) × (round ≤ rounds_of board.now) }
    requires fresh { NoPostIn (round - 1) (events pen.old) }
    ensures pen { IsPen board.now pen.new }
    ensures place { (place_of pen.new) ≡ (place_of pen.old) }
    ensures grew { Grew (round - 1) (events pen.old) (events pen.new) }
    ensures learns { OnlyLearns (cells_of pen.old) (cells_of pen.new) }
    ensures wrote { OnOk result (knows (cells_of pen.new) (cell_of S (round - 1) (place_of pen.old)) ≡ Some value) }
    ensures posted { OnOk result (PostedAt (round - 1) (place_of pen.old) (events pen.new)) }
    ensures in_time { OnOk result
        (NoPassIn (round - 1) (events pen.old) → InTimeAt (round - 1) (place_of pen.old) (events pen.new)) }
{
    let mut value = value;
    for _ in rt.forever() {
        match board.post(alloc, pen, round, value) {
            Ok(_) => return Ok(()),
            Err(PostFault::OutOfMemory { back: _ }) => return Err(OutOfMemory),
            Err(PostFault::Cell { back }) => {
                value = back;
            }
        }
    }
    unreachable!()
}

pub(crate) fn say_word<const S: usize, R: Wait>(
    rt: &R,
    alloc: Global,
    board: &Board<Post, S>,
    pen: &mut Pen<Post, S>,
    end: &mut End<Ring, S>,
    me: u32,
    round: u32,
    word: Say,
) -> Result<(), OutOfMemory>
    requires pen { IsPen board.now pen.old }
    requires round { (1 ≤ round) × (round ≤ rounds_of board.now) }
    requires me { (1 ≤ me) × (me ≤ S) × (S ≤ 30) }
    requires place { (place_of pen.old) ≡ me - 1 }
    requires posts { NoPostIn (round - 1) (events pen.old) }
    requires passes { NoPassIn (round - 1) (events pen.old) }
    requires rings { AllRings S word }
    requires room { (k : ℕ) → k < S → 0 < room_to end.old k }
    ensures pen { IsPen board.now pen.new }
    ensures place { (place_of pen.new) ≡ (place_of pen.old) }
    ensures grew { Grew (round - 1) (events pen.old) (events pen.new) }
    ensures learns { OnlyLearns (cells_of pen.old) (cells_of pen.new) }
    ensures logged { OnOk result (WordLogged (events pen.new) (round - 1) (me - 1) word) }
    ensures wrote { OnOk result (Wrote (knows (cells_of pen.new)) (cell_of S (round - 1) (me - 1)) word) }
    ensures got { (k : ℕ) → got_from end.new k ≡ got_from end.old k }
    ensures same { SameRings end.old end.new }
    ensures sent { (k : ℕ) → k < S → k ≢ me - 1 → sent_to end.new k ≡ sent_to end.old k ++ sent_in (k + 1) word }
    ensures room { (k : ℕ) → k < S → room_to end.old k ≤ room_to end.new k + 1 }
{
    match word {
        Say::Speak { post, rings } => {
            send_all(end, me, rings);
            post_value(rt, alloc, board, pen, round, post)
        }
        Say::Pass => {
            let _passed = board.pass(pen, round);
            Ok(())
        }
        Say::PassThenSpeak { post, rings } => {
            send_all(end, me, rings);
            let _passed = board.pass(pen, round);
            post_value(rt, alloc, board, pen, round, post)
        }
    }
}
