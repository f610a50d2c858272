//! One round of one member.
ghost use Rattle.std.specs.Prelude.{◌≡◌, ◌≢◌, ◌||◌, not, ℕ, ◌+◌, ◌-◌, ◌<◌, ◌≤◌, [], ◌∷◌, ◌++◌, Some, IfOk, OnOk, length};
ghost use Rattle.roundboard.specs.Cells.{knows};
ghost use Rattle.roundboard.specs.Pens.{IsPen, cell_of, cells_of, events, log_of, mask_of, place_of, rounds_of};
ghost use Rattle.pairrings.specs.Ends.{got_from, sent_to, room_to, SameRings};
ghost use Rattle.talk.specs.Shape.{seats, rounds};
ghost use Rattle.talk.specs.Sync.{ways, has};
ghost use Rattle.turns.specs.Turns.{Turn, counted};
ghost use Rattle.party_crew.specs.Logs.{Fresh};
ghost use Rattle.party_crew.specs.Turning.{TookTurn};

use crate::gate::Gate;
use crate::hearing::hear_round;
use crate::saying::say_word;
use lists::OutOfMemory;
use pairrings::End;
use roundboard::{Board, Pen};
use std::alloc::Global;
use std::sync::Wait;
use talk::{Mind, Post, Ring, Say, Setting, in_mask};

fn counted_word(out: bool, word: Say) -> Say
    ensures { result ≡ counted out word }
{
    if out { Say::Pass } else { word }
}

fn out_after(out: bool, mask: u32, me: u32) -> bool
    requires { (1 ≤ me) × (me ≤ 30) }
    ensures { result ≡ (out || not (has mask me)) }
{
    out || !in_mask(mask, me)
}

/// The answer is whether the seat is out from now on.
pub(crate) fn take_turn<M: Mind, G: Gate, const S: usize, R: Wait>(
    rt: &R,
    gate: &G,
    alloc: Global,
    board: &Board<Post, S>,
    setting: &Setting,
    mind: &mut M,
    pen: &mut Pen<Post, S>,
    end: &mut End<Ring, S>,
    me: u32,
    round: u32,
    out: bool,
) -> Result<bool, OutOfMemory>
    requires pen { IsPen board.now pen.old }
    requires round { (1 ≤ round) × (round ≤ rounds_of board.now) }
    requires me { (1 ≤ me) × (me ≤ S) × (S ≤ 30) }
    requires place { (place_of pen.old) ≡ me - 1 }
    requires seats { seats setting.now ≡ S }
    requires may { M.may_say mind.old round }
    requires made { M.made_for mind.old setting.now me }
    requires fresh { Fresh (round - 1) (events pen.old) }
    requires room { (k : ℕ) → k < S → 0 < room_to end.old k }
    ensures pen { IsPen board.now pen.new }
    ensures place { (place_of pen.new) ≡ (place_of pen.old) }
    ensures fresh { OnOk result (Fresh (round - 1 + 1) (events pen.new)) }
    ensures may { OnOk result (round < rounds setting.now → M.may_say mind.new (round + 1)) }
    ensures made { OnOk result (M.made_for mind.new setting.now me) }
    ensures room { (k : ℕ) → k < S → room_to end.old k ≤ room_to end.new k + 1 }
    ensures same { SameRings end.old end.new }
    ensures turn { IfOk result
        (λ now_out. (t : Turn)
        × TookTurn (ways M.word M.after_say M.after_hear) setting.now S me round out now_out mind.old mind.new
        (events pen.old) (events pen.new) (knows (cells_of pen.old)) (knows (cells_of pen.new)) (sent_to end.old)
        (sent_to end.new) (got_from end.old) (got_from end.new) t) }
{
    gate.reach(rt, me, round);
    let word = mind.say(alloc, round)?;
    say_word(
        rt,
        alloc,
        board,
        pen,
        end,
        me,
        round,
        counted_word(out, word),
    )?;
    let (mask, heard) = hear_round(rt, alloc, board, setting, pen, end, me, round)?;
    mind.hear(alloc, round, heard)?;
    Ok(out_after(out, mask, me))
}
