//! An empty board, and its pens.
ghost use Rattle.std.specs.Prelude.{◌≡◌, ℕ, ◌+◌, ◌-◌, ◌*◌, ◌<◌, ◌≤◌, ◌∷◌, [], length, IfOk, Some, slice_get, replicate};
ghost use Rattle.roundboard.specs.Cells.{cell_names};
ghost use Rattle.roundboard.specs.Pens.{IsFresh, Seated, rounds_of, note_names, AllUnknown};
ghost use Rattle.roundboard.specs.Wardens.{IsFreshWarden};
ghost use Rattle.roundboard.specs.Rule.{view, opened};

use crate::board::{Board, Pen};
use crate::cells::Cells;
use crate::log::Log;
use crate::page::{Page, Sheet};
use crate::rule::Shape;
use crate::warden::Warden;
use crate::words::{Seat, Words};
use lists::OutOfMemory;
use once_cell::race::{Note, OnceBox};
use std::alloc::{AllocError, Global};

// Empty cells.
fn empty_cells<T: Drop>(alloc: Global, count: usize) -> Result<Vec<OnceBox<T>>, AllocError>
    ensures { IfOk result (λ v. length v.items ≡ count) }
{
    let mut cells = Vec::new(alloc);
    for _ in 0..count {
        cells.push(OnceBox::new(alloc))?;
    }
    Ok(cells)
}

// A note of each cell, which knows nothing.
fn notes_of<T: Drop>(alloc: Global, cells: &Vec<OnceBox<T>>) -> Result<Vec<Note<T>>, AllocError>
    ensures names { IfOk result (λ v. note_names v.items ≡ cell_names cells.now.items) }
    ensures unknown { IfOk result (λ v. AllUnknown v.items) }
{
    let mut notes = Vec::new(alloc);
    for cell in cells {
        notes.push(cell.note())?;
    }
    Ok(notes)
}

// Counts that begin at 0.
fn zeros(alloc: Global, count: usize) -> Result<Vec<u64>, AllocError>
    ensures { IfOk result (λ v. v.items ≡ replicate count 0) }
{
    Vec::from_elem(alloc, 0u64, count)
}

// The log of a seat that has done nothing.
fn log_of(alloc: Global, rounds: usize, place: u64, seat: Seat) -> Result<Log, AllocError>
    requires { seat.me ≡ (view 0 ((place + 1) ∷ []) [], []) }
    ensures { IfOk result (λ l. (l.place ≡ place) × (l.seat ≡ seat) × (length l.pages.items ≡ rounds)) }
{
    let blank = Page {
        posted: false,
        passed: false,
        mask: None,
    };
    let pages = Vec::from_elem(alloc, blank, rounds)?;
    Ok(Log { place, seat, pages })
}

// The pen of a seat that has done nothing.
fn pen_of<T: Drop, const S: usize>(
    alloc: Global,
    board: &Board<T, S>,
    place: usize,
    seat: Seat,
) -> Result<Pen<T, S>, AllocError>
    requires seat { (seat.table_id ≡ board.now.words.table.shared.table_id)
        × (seat.me ≡ (view 0 ((place + 1) ∷ []) [], [])) }
    requires place { place < S }
    ensures { IfOk result (IsFresh board.now place) }
{
    let rounds = board.words.shape.rounds as usize;
    let log = log_of(alloc, rounds, place as u64, seat)?;
    let notes = notes_of(alloc, &board.cells)?;
    let refusals = zeros(alloc, rounds)?;
    let misses = zeros(alloc, rounds * S)?;
    let cells = Cells {
        notes,
        refusals,
        misses,
    };
    Ok(Pen { log, cells })
}

// The pens of all seats, whose numbers the head gives out, and the head.
fn pens_of<T: Drop, const S: usize>(
    alloc: Global,
    board: &Board<T, S>,
    head: Seat,
) -> Result<(Vec<Pen<T, S>>, Seat), AllocError>
    requires head { (head.table_id ≡ board.now.words.table.shared.table_id) × (head.me ≡ (opened, [])) }
    ensures count { IfOk result (λ v. length v.0.items ≡ S) }
    ensures pens { IfOk result (λ v. (k : ℕ) (p : _) → slice_get v.0.items k ≡ Some p → IsFresh board.now k p) }
    ensures head { IfOk result (λ v. (v.1.table_id ≡ board.now.words.table.shared.table_id)
        × (v.1.me ≡ (view (S + 1) (0 ∷ []) [], []))) }
{
    let mut head = head;
    let mut pens = Vec::new(alloc);
    for place in 0..S {
        let seat = board.words.enter(&mut head);
        pens.push(pen_of(alloc, board, place, seat)?)?;
    }
    Ok((pens, head))
}

// The warden, whose number comes behind those of all seats.
fn warden_of<T: Drop, const S: usize>(
    alloc: Global,
    board: &Board<T, S>,
    head: Seat,
) -> Result<Warden<S>, AllocError>
    requires head { (head.table_id ≡ board.now.words.table.shared.table_id)
        × (head.me ≡ (view (S + 1) (0 ∷ []) [], [])) }
    ensures { IfOk result (IsFreshWarden board.now) }
{
    let mut head = head;
    let seat = board.words.enter(&mut head);
    let rounds = board.words.shape.rounds as usize;
    let log = log_of(alloc, rounds, S as u64, seat)?;
    let empty = Sheet { cut: 0, shown: 0 };
    let sheets = Vec::from_elem(alloc, empty, rounds)?;
    Ok(Warden { log, sheets })
}

impl<T: Drop, const S: usize> Board<T, S> {
    /// An empty board of 1 to 8 rounds for 2 to 30 seats, its S pens in order of seats, and its warden. All memory of the words and the cells is taken here.
    pub fn start(
        alloc: Global,
        rounds: u32,
    ) -> Result<(Board<T, S>, Vec<Pen<T, S>>, Warden<S>), OutOfMemory>
        requires seats { (2 ≤ S) × (S ≤ 30) }
        requires rounds { (1 ≤ rounds) × (rounds ≤ 8) }
        ensures rounds { IfOk result (λ b. rounds_of b.0 ≡ rounds) }
        ensures pens { IfOk result (λ b. Seated b.0 b.1.items) }
        ensures fresh { IfOk result (λ b. (k : ℕ) (p : _) → slice_get b.1.items k ≡ Some p → IsFresh b.0 k p) }
        ensures warden { IfOk result (λ b. IsFreshWarden b.0 b.2) }
    {
        let shape = Shape {
            seats: S as u64,
            rounds: rounds as u64,
        };
        let (words, head) = Words::new(alloc, shape)?;
        let cells = empty_cells(alloc, rounds as usize * S)?;
        let board = Board { words, cells };
        let (pens, head) = pens_of(alloc, &board, head)?;
        let warden = warden_of(alloc, &board, head)?;
        Ok((board, pens, warden))
    }
}
