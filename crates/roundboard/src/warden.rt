//! The warden of a board, who may pass for seats that don't arrive.
ghost use Rattle.std.specs.Prelude.{◌≡◌, ℕ, ◌+◌, ◌-◌, ◌%◌, ◌^◌, ◌<◌, ◌≤◌, ◌⊎◌, length, IfSome, Some};
ghost use Rattle.std.specs.Int.{bit_at};
ghost use Rattle.roundboard.specs.Rule.{In, event, control_round};
ghost use Rattle.roundboard.specs.Logs.{frozen_loads, control_loads};
ghost use Rattle.roundboard.specs.Sheets.{Sheeted, added, sheet_of};
ghost use Rattle.roundboard.specs.declared.view.Deed.TheVariants.{Closed as Closing, SawControl as SeeingControl};

use crate::board::{Board, Look, Passed};
use crate::log::Log;
use crate::page::Sheet;
use crate::words::{Seat, mask_shown};

/// One further view of a board, beside the pens. It posts nothing; it may cut seats, which is to pass for them.
#[derive(Drop)]
pub struct Warden<const S: usize> {
    pub(crate) log: Log,
    pub(crate) sheets: Vec<Sheet>,
    pub(crate) ghost place: { (log.place ≡ S) × (S ≤ 30) },
    pub(crate) ghost long: { length sheets.items ≡ length log.pages.items },
    pub(crate) ghost sheeted: { Sheeted log.seat.me.0.events sheets.items },
}

impl<const S: usize> Warden<S> {
    // The seat of the warden on the words, and what it keeps.
    pub(crate) fn open(self) -> (Seat, Vec<Sheet>)
        ensures { (result.0 ≡ self.entry.log.seat) × (result.1 ≡ self.entry.sheets) }
    {
        let Warden { log, sheets } = self;
        let Log {
            place: _,
            seat,
            pages: _,
        } = log;
        (seat, sheets)
    }
}

// The sheet after one more cut.
fn added_to(sheet: Sheet, seats: u32) -> Sheet
    ensures { result ≡ added seats sheet }
{
    Sheet {
        cut: sheet.cut | seats,
        shown: if seats == 0 {
            sheet.shown.saturating_add(1)
        } else {
            sheet.shown
        },
    }
}

impl<T: Drop, const S: usize> Board<T, S> {
    ghost use Rattle.roundboard.specs.Pens.{rounds_of};
    ghost use Rattle.roundboard.specs.Wardens.{IsWarden, watched, mask_watched};
    ghost use Rattle.roundboard.specs.Answers.{LookTells, CutTells};

    /// Cuts the seats of a mask in a round, which counts from 1: one step sets their passed bits, and the answer has the arrivals word that it found. With the mask 0 it cuts nobody, and its word shows who is missing.
    ///
    /// The round is closed and its mask published as by a post.
    pub fn cut(&self, warden: &mut Warden<S>, round: u32, seats: u32) -> Passed
        requires warden { IsWarden self.now warden.old }
        requires round { (1 ≤ round) × (round ≤ rounds_of self.now) }
        requires seats { seats < 2 ^ S }
        ensures warden { IsWarden self.now warden.new }
        ensures told { CutTells S (round - 1) seats result.word (watched warden.old) (watched warden.new) }
        ensures sheet { sheet_of (watched warden.new) (round - 1)
            ≡ added seats (sheet_of (watched warden.old) (round - 1)) }
        ensures others { (other : ℕ) → ¬ (other ≡ round - 1)
            → sheet_of (watched warden.new) other ≡ sheet_of (watched warden.old) other }
        ensures closer { (closing : ℕ) → In (event (round - 1) (Closing closing)) (watched warden.new)
            → In (event (round - 1) (Closing closing)) (watched warden.old)
            ⊎ (mask_watched warden.new round ≡ Some (closing % 2 ^ 30)) }
    {
        let row = round as usize - 1;
        let word = warden.log.cut(&self.words, row, seats as u64);
        warden.sheets[row] = added_to(warden.sheets[row], seats);
        Passed { word }
    }

    /// Looks at a round for the warden, as `look` does for a pen.
    pub fn look_warden(&self, warden: &mut Warden<S>, round: u32) -> Look
        requires warden { IsWarden self.now warden.old }
        requires round { (1 ≤ round) × (round ≤ rounds_of self.now) }
        ensures warden { IsWarden self.now warden.new }
        ensures told { LookTells (round - 1) result (watched warden.old) (watched warden.new) }
        ensures sheets { (any : ℕ) → sheet_of (watched warden.new) any ≡ sheet_of (watched warden.old) any }
        ensures again { IfSome (mask_watched warden.old round) (λ m. result ≡ Look.Frozen m) }
        ensures seen_abort { (control : ℕ) → In (event control_round (SeeingControl control)) (watched warden.old)
            → bit_at control 0 ≡ 1 → ¬ (result ≡ Look.NotYet) }
        ensures frozen_loads { frozen_loads (round - 1) (watched warden.new)
            ≡ frozen_loads (round - 1) (watched warden.old) + 1 }
        ensures control_loads { result ≡ Look.NotYet
            → control_loads (watched warden.new) ≡ control_loads (watched warden.old) + 1 }
        ensures abort_loads { result ≡ Look.Aborted
            → control_loads (watched warden.new) ≡ control_loads (watched warden.old) + 1 }
    {
        let found = warden.log.look(&self.words, round as usize - 1);
        if let Some(mask) = mask_shown(found) {
            return Look::Frozen { mask };
        }
        let control = warden.log.control(&self.words);
        if control % 2 == 1 {
            Look::Aborted
        } else {
            Look::NotYet
        }
    }
}
