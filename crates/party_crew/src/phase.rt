//! A phase with a thread for each seat.
ghost use Rattle.std.specs.Prelude.{◌≡◌, ℕ, ◌+◌, ◌-◌, ◌^◌, ◌<◌, ◌≤◌, All, length, slice_get, Some, IfOk, Err, min};
ghost use Rattle.counters.specs.Counts.{Rose};
ghost use Rattle.roundboard.specs.Closed.{IsReader};
ghost use Rattle.roundboard.specs.Pens.{IsFresh as IsFreshPen, Seated as SeatedPens, rounds_of};
ghost use mathlib.Core.List.{IsPrefix};
ghost use Rattle.pairrings.specs.Ends.{IsFresh as IsFreshEnd};
ghost use Rattle.pairrings.specs.Record.{got_in, sent_in};
ghost use Rattle.talk.specs.Shape.{seats, rounds};
ghost use Rattle.talk.specs.Hears.{Hearing, Seated};
ghost use Rattle.talk.specs.Sync.{ways, sync, all_seats, AllAllowed};
ghost use Rattle.roundboard.specs.Wardens.{IsWarden, IsFreshWarden, watched};
ghost use Rattle.paces.specs.Conducts.{Paced};
ghost use Rattle.party_crew.specs.Parties.{AllTook};
ghost use Rattle.party_crew.specs.Phase.{board_masks, board_cuts, HasAllMasks, PhasePaced, PostsAreWords};

use crate::gate::Gate;
use crate::seating::{all_done, open_all, seat_all};
use crews::{Crew, CrewFault, run_all};
use paces::{Conductor, Pace};
use pairrings::{End, RingRecord, lay};
use roundboard::{Board, ClosedBoard, Pen, Reader, Warden};
use std::alloc::Global;
use std::sync::Wait;
use std::thread::Threads;
use talk::{Mind, Post, Ring, Setting};

/// What a finished phase leaves: the closed board with the reader of its posts, the record of the rings, and the
/// minds by seat.
#[derive(Drop)]
pub struct PhaseRecord<M: Mind, const S: usize> {
    pub board: ClosedBoard<Post, S>,
    pub reader: Reader<Post, S>,
    pub rings: RingRecord<Ring, S>,
    pub minds: Vec<M>,
}

/// Why there was no phase.
#[derive(Clone, Copy, PartialEq, Eq, Debug)]
pub enum PhaseFault {
    /// The crew was refused a start: its count of faults rose.
    NoThread,
    /// There was no memory.
    OutOfMemory,
}

// All parties attend on the board, and the calling thread conducts it.
fn attend_on<
    'q,
    M: Mind + Send,
    C: Crew,
    G: Gate + Sync,
    Q: Pace + Send,
    R: Threads + Wait + Sync,
    const S: usize,
>(
    rt: &R,
    alloc: Global,
    board: &'q Board<Post, S>,
    minds: Vec<M>,
    pens: Vec<Pen<Post, S>>,
    ends: Vec<End<Ring, S>>,
    warden: Warden<S>,
    setting: &Setting,
    crew: &mut C,
    gate: &G,
    pace: &'q mut Q,
) -> Result<
    (
        (Vec<M>, Vec<Pen<Post, S>>, Vec<End<Ring, S>>),
        Warden<S>,
        &'q mut Q,
    ),
    PhaseFault,
>
    requires few { S ≤ 30 }
    requires rounds { rounds_of board.now ≡ rounds setting.now }
    requires seats { seats setting.now ≡ S }
    requires all { length minds.items ≡ S }
    requires fresh { Hearing M.may_say 1 minds.items }
    requires made { Seated M.made_for setting.now 1 minds.items }
    requires pens { SeatedPens board.now pens.items }
    requires unused { (k : ℕ) (p : _) → slice_get pens.items k ≡ Some p → IsFreshPen board.now k p }
    requires ends { length ends.items ≡ S }
    requires empty { All (IsFreshEnd (rounds setting.now)) ends.items }
    requires warden { IsWarden board.now warden }
    ensures faults { C.fault_count crew.old ≤ C.fault_count crew.new }
    ensures attended { C.attended_count crew.old ≤ C.attended_count crew.new }
    ensures few { C.attended_count crew.new ≤ C.attended_count crew.old + S }
    ensures calm { C.calm crew.old → C.calm crew.new }
    ensures took { IfOk result
        (λ r. AllTook (ways M.word M.after_say M.after_hear) setting.now board.now minds.items ends.entry.items
        r.0.0.items r.0.1.items r.0.2.items) }
    ensures warden { IfOk result (λ r. IsWarden board.now r.1) }
    ensures paced { IfOk result
        (λ r. (first : ℕ) →
        Paced (Q.cuts_of pace.old) (Q.asked_of pace.old) (Q.answered_count pace.old) first (watched warden.entry) →
        Paced (Q.cuts_of r.2.now) (Q.asked_of r.2.now) (Q.answered_count r.2.now) first (watched r.1)) }
    ensures same { IfOk result (λ r. r.2.ghost_name ≡ pace.entry.ghost_name) }
    ensures counted { IfOk result (λ _. C.attended_count crew.new ≡ min (C.attended_count crew.old + S) (2 ^ 64 - 1)) }
    ensures cause { result ≡ Err PhaseFault.NoThread → Rose (C.fault_count crew.old) (C.fault_count crew.new) }
{
    let Ok(parties) = seat_all(alloc, board, gate, setting, minds, pens, ends) else {
        return Err(PhaseFault::OutOfMemory);
    };
    let mut conductor = Conductor {
        board,
        rounds: setting.rounds(),
        warden,
        pace,
    };
    let parties = match run_all(crew, rt, alloc, parties, &mut conductor) {
        Ok(parties) => parties,
        Err(CrewFault::NoThread) => return Err(PhaseFault::NoThread),
        Err(CrewFault::OutOfMemory) => return Err(PhaseFault::OutOfMemory),
    };
    if !all_done(&parties) {
        return Err(PhaseFault::OutOfMemory);
    }
    let opened = open_all(alloc, parties).map_err(|_| PhaseFault::OutOfMemory)?;
    let Conductor {
        board: _,
        rounds: _,
        warden,
        pace,
    } = conductor;
    Ok((opened, warden, pace))
}

/// Runs all rounds of a phase with a thread for each seat: the mind at place `k` sits on seat `k + 1`. The calling
/// thread conducts the board, and cuts the seats that the pace answers.
pub fn run_phase<
    M: Mind + Send,
    C: Crew,
    G: Gate + Sync,
    Q: Pace + Send,
    R: Threads + Wait + Sync,
    const S: usize,
>(
    rt: &R,
    alloc: Global,
    minds: Vec<M>,
    setting: &Setting,
    crew: &mut C,
    gate: &G,
    pace: &mut Q,
) -> Result<PhaseRecord<M, S>, PhaseFault>
    requires few { (2 ≤ S) × (S ≤ 30) }
    requires seats { seats setting.now ≡ S }
    requires all { length minds.items ≡ S }
    requires fresh { Hearing M.may_say 1 minds.items }
    requires made { Seated M.made_for setting.now 1 minds.items }
    ensures faults { C.fault_count crew.old ≤ C.fault_count crew.new }
    ensures attended { C.attended_count crew.old ≤ C.attended_count crew.new }
    ensures few { C.attended_count crew.new ≤ C.attended_count crew.old + S }
    ensures calm { C.calm crew.old → C.calm crew.new }
    ensures minds { IfOk result
        (λ p. p.minds.items ≡ sync (ways M.word M.after_say M.after_hear) setting.now 1
        (board_masks p.board) minds.items) }
    ensures allowed { IfOk result
        (λ p. AllAllowed (ways M.word M.after_say M.after_hear) setting.now 1 (all_seats setting.now)
        (board_cuts p.board) (board_masks p.board) minds.items) }
    ensures answered { IfOk result
        (λ p. AllAllowed (ways M.word M.after_say M.after_hear) setting.now 1 (all_seats setting.now)
        (Q.cuts_of pace.new) (board_masks p.board) minds.items) }
    ensures paced { IfOk result
        (λ p. PhasePaced (Q.cuts_of pace.new) (Q.asked_of pace.new) (Q.answered_count pace.old)
        (Q.answered_count pace.new) p.board) }
    ensures masks { IfOk result (λ p. HasAllMasks (rounds setting.now) p.board) }
    ensures posts { IfOk result
        (λ p. PostsAreWords (ways M.word M.after_say M.after_hear) setting.now p.board p.reader minds.items) }
    ensures reader { IfOk result (λ p. IsReader p.board p.reader) }
    ensures rings { IfOk result (λ p. (i j : ℕ) → i < S → j < S → IsPrefix (got_in p.rings i j) (sent_in p.rings i j)) }
    ensures counted { IfOk result (λ _. C.attended_count crew.new ≡ min (C.attended_count crew.old + S) (2 ^ 64 - 1)) }
    ensures cause { result ≡ Err PhaseFault.NoThread → Rose (C.fault_count crew.old) (C.fault_count crew.new) }
{
    let Ok((board, pens, warden)) = Board::<Post, S>::start(alloc, setting.rounds()) else {
        return Err(PhaseFault::OutOfMemory);
    };
    let Ok(ends) = lay::<Ring, S>(alloc, setting.rounds()) else {
        return Err(PhaseFault::OutOfMemory);
    };
    pace.begin();
    let ((minds, pens, ends), warden, _pace) = attend_on(
        rt, alloc, &board, minds, pens, ends, warden, setting, crew, gate, pace,
    )?;
    let Ok((board, reader)) = board.finish(alloc, pens, warden) else {
        return Err(PhaseFault::OutOfMemory);
    };
    let rings = pairrings::finish(ends);
    Ok(PhaseRecord {
        board,
        reader,
        rings,
        minds,
    })
}
