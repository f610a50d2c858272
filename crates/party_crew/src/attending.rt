//! All rounds of one member.
ghost use Rattle.std.specs.Prelude.{◌≡◌, ℕ, ◌+◌, ◌-◌, ◌<◌, ◌≤◌, [], List, OnOk, length};
ghost use Rattle.roundboard.specs.Cells.{knows};
ghost use Rattle.roundboard.specs.Pens.{IsPen, cell_of, cells_of, events, log_of, place_of, rounds_of};
ghost use Rattle.pairrings.specs.Ends.{got_from, sent_to, room_to, SameRings};
ghost use Rattle.talk.specs.Shape.{seats, rounds};
ghost use Rattle.talk.specs.Sync.{ways};
ghost use Rattle.turns.specs.Turns.{Turn};
ghost use Rattle.turns.specs.Account.{Account};

use crate::gate::Gate;
use crate::turning::take_turn;
use lists::OutOfMemory;
use pairrings::End;
use roundboard::{Board, Pen};
use std::alloc::Global;
use std::sync::Wait;
use talk::{Mind, Post, Ring, Setting};

pub(crate) fn attend_all<M: Mind, G: Gate, const S: usize, R: Wait>(
    rt: &R,
    gate: &G,
    alloc: Global,
    board: &Board<Post, S>,
    setting: &Setting,
    mind: &mut M,
    pen: &mut Pen<Post, S>,
    end: &mut End<Ring, S>,
    me: u32,
) -> Result<(), OutOfMemory>
    requires pen { IsPen board.now pen.old }
    requires rounds { rounds_of board.now ≡ rounds setting.now }
    requires me { (1 ≤ me) × (me ≤ S) × (S ≤ 30) }
    requires place { (place_of pen.old) ≡ me - 1 }
    requires seats { seats setting.now ≡ S }
    requires may { M.may_say mind.old 1 }
    requires made { M.made_for mind.old setting.now me }
    requires quiet { events pen.old ≡ [] }
    requires room { (k : ℕ) → k < S → rounds setting.now ≤ room_to end.old k }
    requires sent { (k : ℕ) → sent_to end.old k ≡ [] }
    requires got { (k : ℕ) → got_from end.old k ≡ [] }
    ensures pen { IsPen board.now pen.new }
    ensures place { (place_of pen.new) ≡ (place_of pen.old) }
    ensures same { SameRings end.old end.new }
    ensures account { OnOk result
        ((turns : List Turn) × (length turns ≡ rounds setting.now)
        × Account (ways M.word M.after_say M.after_hear) setting.now S me mind.old mind.new (events pen.new)
        (knows (cells_of pen.new)) (sent_to end.new) (got_from end.new) turns) }
{
    let mut out = false;
    for row in 0..setting.rounds() {
        out = take_turn(
            rt,
            gate,
            alloc,
            board,
            setting,
            mind,
            pen,
            end,
            me,
            row + 1,
            out,
        )?;
    }
    Ok(())
}
