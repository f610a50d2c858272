//! Parties of minds, pens and ends, and back.
ghost use Rattle.std.specs.Prelude.{◌≡◌, ℕ, ◌+◌, ◌-◌, ◌<◌, ◌≤◌, length, slice_get, Some, IfOk, IsTrue, true};
ghost use Rattle.party_crew.specs.Parties.{IsMade, ArePlaced, minds_in, pens_in, ends_in};

use crate::gate::Gate;
use crate::party::Party;
use lists::OutOfMemory;
use pairrings::End;
use roundboard::{Board, Pen};
use std::alloc::Global;
use talk::{Mind, Post, Ring, Setting};

// The party on a place.
fn party_at<'b, M: Mind, G: Gate, const S: usize>(
    alloc: Global,
    board: &'b Board<Post, S>,
    gate: &'b G,
    setting: &Setting,
    place: u32,
    mind: Box<M>,
    pen: Pen<Post, S>,
    end: End<Ring, S>,
) -> Party<'b, M, G, S>
    requires { place < 30 }
    ensures { IsMade board.now setting.now place mind.value pen.entry end.entry result }
{
    Party {
        alloc,
        board,
        gate,
        setting: *setting,
        me: place + 1,
        mind,
        pen,
        end,
        done: false,
    }
}

// The parties of all seats, in order.
pub(crate) fn seat_all<'b, M: Mind, G: Gate, const S: usize>(
    alloc: Global,
    board: &'b Board<Post, S>,
    gate: &'b G,
    setting: &Setting,
    minds: Vec<M>,
    pens: Vec<Pen<Post, S>>,
    ends: Vec<End<Ring, S>>,
) -> Result<Vec<Party<'b, M, G, S>>, OutOfMemory>
    requires few { S ≤ 30 }
    requires minds { length minds.items ≡ S }
    requires pens { length pens.items ≡ S }
    requires ends { length ends.items ≡ S }
    ensures count { IfOk result (λ v. length v.items ≡ S) }
    ensures placed { IfOk result
        (λ v. ArePlaced board.now setting.now minds.items pens.entry.items ends.entry.items v.items) }
{
    let mut minds = minds;
    let mut pens = pens;
    let mut ends = ends;
    let mut parties = Vec::new(alloc);
    for place in 0..S {
        let mind = minds.remove(0);
        let Ok(boxed) = Box::new(alloc, mind) else {
            return Err(OutOfMemory);
        };
        let pen = pens.remove(0);
        let end = ends.remove(0);
        let party = party_at(alloc, board, gate, setting, place as u32, boxed, pen, end);
        parties.push(party).map_err(|_| OutOfMemory)?;
    }
    Ok(parties)
}

// Whether all parties took part in all rounds.
pub(crate) fn all_done<'b, M: Mind, G: Gate, const S: usize>(
    parties: &Vec<Party<'b, M, G, S>>,
) -> bool
    ensures { IsTrue result → (k : ℕ) (p : _) → slice_get parties.now.items k ≡ Some p → p.done ≡ true }
{
    for place in 0..parties.len() {
        if !parties[place].done {
            return false;
        }
    }
    true
}

// The minds, pens and ends of the parties, in order.
pub(crate) fn open_all<'b, M: Mind, G: Gate, const S: usize>(
    alloc: Global,
    parties: Vec<Party<'b, M, G, S>>,
) -> Result<(Vec<M>, Vec<Pen<Post, S>>, Vec<End<Ring, S>>), OutOfMemory>
    ensures minds { IfOk result (λ r. r.0.items ≡ minds_in parties.entry.items) }
    ensures pens { IfOk result (λ r. r.1.items ≡ pens_in parties.entry.items) }
    ensures ends { IfOk result (λ r. r.2.items ≡ ends_in parties.entry.items) }
{
    let mut minds = Vec::new(alloc);
    let mut pens = Vec::new(alloc);
    let mut ends = Vec::new(alloc);
    for party in parties {
        let (mind, pen, end) = party.open();
        minds.push(mind).map_err(|_| OutOfMemory)?;
        pens.push(pen).map_err(|_| OutOfMemory)?;
        ends.push(end).map_err(|_| OutOfMemory)?;
    }
    Ok((minds, pens, ends))
}
