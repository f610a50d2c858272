//! A run of minds, each on a thread of its own.
ghost use Rattle.std.specs.Prelude.{◌≡◌, ◌≤◌, ◌+◌, ◌-◌, ◌^◌, ℕ, min, length, IfOk, IfErr};
ghost use Rattle.talk.specs.Hears.{Hearing, Seated};
ghost use Rattle.talk.specs.Shape.{rounds, seats};
ghost use Rattle.talk.specs.Sync.{AllAllowed, all_seats, sync, ways};
ghost use Rattle.roundboard.specs.Closed.{rounds_closed};
ghost use Rattle.party_crew.specs.Phase.{board_masks, round_mask};
ghost use Rattle.commands.specs.Causes.{IsFromCrew};
ghost use Rattle.commands.specs.Crews.{Lent};
ghost use Rattle.commands.specs.Late.{cuts_in};

use field61::NumberList;
use keyroom::Status;
use lists::OutOfMemory;
use party_crew::{Crew, OpenGate, Pace, PhaseFault, PhaseRecord, run_phase};
use roundboard::ClosedBoard;
use std::alloc::Global;
use std::sync::Wait;
use std::thread::Threads;
use talk::{Driven, Mind, Post, Setting};

/// The mask of a round; every round of a phase that came to its end has one.
fn mask_of<const S: usize>(board: &ClosedBoard<Post, S>, round: u32) -> u32
    requires round { (1 ≤ round) × (round ≤ rounds_closed board.now) }
    ensures { result ≡ round_mask board.now (round - 1) }
{
    match board.mask(round) {
        None => 0,
        Some(mask) => mask,
    }
}

/// The masks of all rounds.
fn masks_of<const S: usize>(
    alloc: Global,
    board: &ClosedBoard<Post, S>,
    rounds: u32,
) -> Result<NumberList, OutOfMemory>
    requires rounds { rounds_closed board.now ≡ rounds }
    requires few { rounds ≤ 8 }
    ensures { IfOk result (λ masks. masks ≡ board_masks board.now) }
{
    let mut masks = NumberList::new(alloc);
    for round in 1..rounds + 1 {
        masks.push(mask_of(board, round))?;
    }
    Ok(masks)
}

/// Runs all rounds of a phase over fresh minds, by seat, each on a thread of its own; the pace says which seats are cut. It
/// refuses with `NoThread` only where the crew's count of faults rose; else the error is want of memory.
pub(crate) fn run_minds<
    M: Mind + Send,
    C: Crew,
    Q: Pace + Send,
    R: Threads + Wait + Sync,
    const S: usize,
>(
    rt: &R,
    alloc: Global,
    minds: Vec<M>,
    setting: &Setting,
    crew: &mut C,
    pace: &mut Q,
) -> Result<Driven<M>, Status>
    requires some { 2 ≤ S }
    requires few { S ≤ 30 }
    requires seats { seats setting.now ≡ S }
    requires all { length minds.items ≡ seats setting.now }
    requires fresh { Hearing M.may_say 1 minds.items }
    requires made { Seated M.made_for setting.now 1 minds.items }
    ensures minds { IfOk result (λ d. d.minds.items ≡ sync (ways M.word M.after_say M.after_hear) setting.now 1 d.masks minds.items) }
    ensures rounds { IfOk result (λ d. length d.masks ≡ rounds setting.now) }
    ensures allowed { IfOk result (λ d. AllAllowed (ways M.word M.after_say M.after_hear) setting.now 1 (all_seats setting.now) (cuts_in Q.answered_count Q.cuts_of pace.old pace.new) d.masks minds.items) }
    ensures lent { Lent C.fault_count C.attended_count C.calm crew.old crew.new }
    ensures attended { IfOk result (λ _. C.attended_count crew.new ≡ min (C.attended_count crew.old + S) (2 ^ 64 - 1)) }
    ensures cause { IfErr result (IsFromCrew (C.fault_count crew.old) (C.fault_count crew.new)) }
{
    let record = match run_phase::<M, C, OpenGate, Q, R, S>(
        rt, alloc, minds, setting, crew, &OpenGate, pace,
    ) {
        Ok(record) => record,
        Err(PhaseFault::NoThread) => return Err(Status::NoThread),
        Err(PhaseFault::OutOfMemory) => return Err(Status::OutOfMemory),
    };
    let PhaseRecord {
        board,
        reader: _,
        rings: _,
        minds,
    } = record;
    let masks = masks_of(alloc, &board, setting.rounds())?;
    Ok(Driven { minds, masks })
}
