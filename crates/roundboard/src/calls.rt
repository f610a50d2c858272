//! The calls of a board that wait for nobody.
ghost use Rattle.std.specs.Prelude.{◌≡◌, ℕ, ◌+◌, ◌-◌, ◌%◌, ◌^◌, ◌<◌, ◌≤◌, ◌⊎◌, ◌∷◌, [], false, IfOk, IfErr, IfSome, Some, None, OnOk, IsSome};
ghost use Rattle.std.specs.Int.{bit_at};
ghost use Rattle.roundboard.specs.Rule.{In, event, control_round};
ghost use Rattle.roundboard.specs.Cells.{OnlyKnows, OnlyRefused, OnlyMissed, SameRefusals, SameMisses};
ghost use Rattle.roundboard.specs.Logs.{frozen_loads, control_loads};
ghost use Rattle.roundboard.specs.Pens.{IsPen, events, log_of, cells_of, cell_of, place_of, mask_of, posted_in, known_of, refusals_of, misses_of, rounds_of};
ghost use Rattle.roundboard.specs.Answers.{LookTells, PostTells, PassTells, Timely, LateBit, FaultTells, ReadTells};
ghost use Rattle.roundboard.specs.declared.view.Deed.TheVariants.{Closed as Closing, Aborted as Aborting, SawControl as SeeingControl};

use crate::board::{Board, Look, Passed, Pen, PostFault, Posted, Read};
use crate::words::{is_closed, mask_shown};
use std::alloc::{AllocFailed, Global};

impl<T: Drop, const S: usize> Board<T, S> {
    /// Posts the value for the pen's seat, which has not posted in the round. The round counts from 1.
    ///
    /// The value is set in the seat's cell first; then one step sets the posted bit. `InTime` comes exactly where the word that the step found was not closed. `Late` comes only where the pen had passed in this round or the warden had cut its seat; the word that was found then has its passed bit.
    ///
    /// Where that word, with the own bit, shows that all seats have posted or passed and is not closed, the call takes a closing step. If that was the first to close the round, the call has published the mask and this pen has seen it.
    ///
    /// After a fault the value comes back, and the pen's rounds and the words are as they were. `Cell` comes only where the seat's cell of this round refused the value, and then the count of refusals of the round was raised by one; no other count changes.
    pub fn post(
        &self,
        alloc: Global,
        pen: &mut Pen<T, S>,
        round: u32,
        value: T,
    ) -> Result<Posted, PostFault<T>>
        requires pen { IsPen self.now pen.old }
        requires round { (1 ≤ round) × (round ≤ rounds_of self.now) }
        requires fresh { posted_in pen.old round ≡ false }
        ensures pen { IsPen self.now pen.new }
        ensures place { place_of pen.new ≡ place_of pen.old }
        ensures timely { IfOk result Timely }
        ensures late_bit { IfOk result (LateBit (place_of pen.old)) }
        ensures told { IfOk result (λ p.
            PostTells S (round - 1) (place_of pen.old) p (events pen.old) (events pen.new)) }
        ensures closer { (closing : ℕ) → In (event (round - 1) (Closing closing)) (events pen.new)
            → In (event (round - 1) (Closing closing)) (events pen.old)
            ⊎ (mask_of pen.new round ≡ Some (closing % 2 ^ 30)) }
        ensures value { OnOk result (known_of pen.new round (place_of pen.old + 1) ≡ Some value) }
        ensures cells { OnlyKnows (cell_of S (round - 1) (place_of pen.old)) (cells_of pen.old) (cells_of pen.new) }
        ensures misses { SameMisses (cells_of pen.old) (cells_of pen.new) }
        ensures refusals { OnOk result (SameRefusals (cells_of pen.old) (cells_of pen.new)) }
        ensures other_refusals { OnlyRefused (round - 1) (cells_of pen.old) (cells_of pen.new) }
        ensures kept { IfErr result (λ _. events pen.new ≡ events pen.old) }
        ensures fault { IfErr result (FaultTells value (refusals_of pen.old round) (refusals_of pen.new round)) }
    {
        let row = round as usize - 1;
        let index = row * S + pen.log.place as usize;
        let boxed = match Box::new(alloc, value) {
            Ok(boxed) => boxed,
            Err(AllocFailed { value: back }) => return Err(PostFault::OutOfMemory { back }),
        };
        if let Err(back) = pen.cells.try_set(&self.cells[index], row, index, boxed) {
            return Err(PostFault::Cell {
                back: Box::into_inner(back),
            });
        }
        let word = pen.log.post(&self.words, row);
        if is_closed(word) {
            Ok(Posted::Late { word })
        } else {
            Ok(Posted::InTime { word })
        }
    }

    /// Passes for the pen's seat: one step sets its passed bit, and the answer has the arrivals word that it found. A seat may pass before it posts, and may pass again. The round counts from 1.
    ///
    /// The round is closed and its mask published as by a post.
    pub fn pass(&self, pen: &mut Pen<T, S>, round: u32) -> Passed
        requires pen { IsPen self.now pen.old }
        requires round { (1 ≤ round) × (round ≤ rounds_of self.now) }
        ensures pen { IsPen self.now pen.new }
        ensures place { place_of pen.new ≡ place_of pen.old }
        ensures told { PassTells S (round - 1) (place_of pen.old) result.word (events pen.old) (events pen.new) }
        ensures closer { (closing : ℕ) → In (event (round - 1) (Closing closing)) (events pen.new)
            → In (event (round - 1) (Closing closing)) (events pen.old)
            ⊎ (mask_of pen.new round ≡ Some (closing % 2 ^ 30)) }
        ensures cells { cells_of pen.new ≡ cells_of pen.old }
    {
        let word = pen.log.pass(&self.words, round as usize - 1);
        Passed { word }
    }

    /// Looks at a round, which counts from 1. `Frozen` comes exactly where the load of the frozen word found it set, and then with the same mask as ever. Else the control word is loaded: `Aborted` comes exactly where the abort bit was there, else `NotYet`.
    pub fn look(&self, pen: &mut Pen<T, S>, round: u32) -> Look
        requires pen { IsPen self.now pen.old }
        requires round { (1 ≤ round) × (round ≤ rounds_of self.now) }
        ensures pen { IsPen self.now pen.new }
        ensures place { place_of pen.new ≡ place_of pen.old }
        ensures cells { cells_of pen.new ≡ cells_of pen.old }
        ensures told { LookTells (round - 1) result (events pen.old) (events pen.new) }
        ensures again { IfSome (mask_of pen.old round) (λ m. result ≡ Look.Frozen m) }
        ensures own_abort { In (event control_round Aborting) (events pen.old) → ¬ (result ≡ Look.NotYet) }
        ensures seen_abort { (control : ℕ) → In (event control_round (SeeingControl control)) (events pen.old)
            → bit_at control 0 ≡ 1 → ¬ (result ≡ Look.NotYet) }
        ensures frozen_loads { frozen_loads (round - 1) (events pen.new)
            ≡ frozen_loads (round - 1) (events pen.old) + 1 }
        ensures control_loads { result ≡ Look.NotYet
            → control_loads (events pen.new) ≡ control_loads (events pen.old) + 1 }
        ensures abort_loads { result ≡ Look.Aborted
            → control_loads (events pen.new) ≡ control_loads (events pen.old) + 1 }
    {
        let found = pen.log.look(&self.words, round as usize - 1);
        if let Some(mask) = mask_shown(found) {
            return Look::Frozen { mask };
        }
        let control = pen.log.control(&self.words);
        if control % 2 == 1 {
            Look::Aborted
        } else {
            Look::NotYet
        }
    }

    /// Reads the post of a seat in a round whose mask the pen has seen. Round and seat count from 1. `Absent` comes exactly where the mask lacks the seat.
    ///
    /// A value that is read is the one that the seat posted: every pen reads the same, and so does the closed board. `NotYet` comes only where the seat's cell showed no value and the pen knew none of it, and then the count of misses of this round and seat was raised by one; no other count changes.
    pub fn read<'a>(&'a self, pen: &mut Pen<T, S>, round: u32, seat: u32) -> Read<'a, T>
        requires pen { IsPen self.now pen.old }
        requires round { (1 ≤ round) × (round ≤ rounds_of self.now) }
        requires seat { (1 ≤ seat) × (seat ≤ S) }
        requires seen { IsSome (mask_of pen.old round) }
        ensures pen { IsPen self.now pen.new }
        ensures log { log_of pen.new ≡ log_of pen.old }
        ensures cells { OnlyKnows (cell_of S (round - 1) (seat - 1)) (cells_of pen.old) (cells_of pen.new) }
        ensures refusals { SameRefusals (cells_of pen.old) (cells_of pen.new) }
        ensures misses { misses_of pen.old round seat ≤ misses_of pen.new round seat }
        ensures other_misses { OnlyMissed (cell_of S (round - 1) (seat - 1)) (cells_of pen.old) (cells_of pen.new) }
        ensures told { IfSome (mask_of pen.old round) (λ m. ReadTells (bit_at m (seat - 1))
            (cell_of S (round - 1) (seat - 1)) (cells_of pen.old) (cells_of pen.new) result) }
    {
        let row = round as usize - 1;
        let place = seat as usize - 1;
        let index = row * S + place;
        let Some(mask) = pen.log.page(row).mask else {
            unreachable!()
        };
        if (mask >> place) % 2 == 0 {
            return Read::Absent;
        }
        match pen.cells.try_get(&self.cells[index], index) {
            Some(value) => Read::Post(value),
            None => Read::NotYet,
        }
    }

    /// Aborts the board: whoever looks at a round that has no mask is answered `Aborted` from then on. Rounds that have a mask, and posts and passes, go on as before.
    pub fn abort(&self, pen: &mut Pen<T, S>)
        requires pen { IsPen self.now pen.old }
        ensures pen { IsPen self.now pen.new }
        ensures place { place_of pen.new ≡ place_of pen.old }
        ensures cells { cells_of pen.new ≡ cells_of pen.old }
        ensures told { events pen.new ≡ event control_round Aborting ∷ events pen.old }
    {
        pen.log.abort(&self.words);
    }
}
