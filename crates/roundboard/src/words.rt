//! The words of a board, and each step on them with what it tells.
ghost use Rattle.std.specs.Prelude.{◌≡◌, ◌+◌, ◌*◌, ◌%◌, ◌^◌, ◌<◌, ◌≤◌, ◌⊎◌, bit_or, IfOk, [], IsTrue, IsFalse, vec_capacity};
ghost use Rattle.std.specs.Int.{bit_at};
ghost use Rattle.roundboard.specs.Ends.{Ends};
ghost use Rattle.roundboard.specs.Pages.{mask_in};
ghost use Rattle.roundboard.specs.Rule.{In, control_round, IsFull, Showed, arrivals_of, frozen_of, frozen_word, event, with_event, opened, given_out, entered, both_of};
ghost use Rattle.roundboard.specs.declared.view.Deed.TheVariants.{Posted as Posting, Passed as Passing, Closed as Closing, Lost as Losing, Published as Publishing, Looked as Looking, Aborted as Aborting, SawControl as SeeingControl, Cut as Cutting};

use crate::rule::{
    Abort, Close, Control, Cut, Enter, Gather, Look, Order, Pass, Post, Publish, Shape,
};
use crate::view::View;
use atomic_table::Table;
use std::alloc::{AllocError, Global};
use std::sync::Wait;
use std::time::Duration;

pub(crate) type Seat = atomic_table::Seat<(), View>;

const CLOSED: u64 = 1 << 63;

const PLACES: u64 = (1 << 30) - 1;

// The passed bit of the first place.
const FIRST_PASSED: u64 = 1 << 30;

// The longest sleep between two looks of a wait, in milliseconds.
const NAP: u64 = 10;

#[derive(Drop)]
pub(crate) struct Words {
    pub(crate) table: Table<(), View, Shape, Order, Global>,
    pub(crate) shape: Shape,
    pub(crate) ghost keyed: { table.shared.key ≡ shape },
    pub(crate) ghost long: { table.shared.table_id.words ≡ 2 * shape.rounds + 1 },
    pub(crate) ghost seated: { (2 ≤ shape.seats) × (shape.seats ≤ 30) },
    pub(crate) ghost few: { (1 ≤ shape.rounds) × (shape.rounds ≤ 8) },
    pub(crate) ghost slotless: { table.shared.table_id.slots ≡ 0 },
}

// The bit of a place.
pub(crate) fn bit_of(place: u64) -> u64
    requires { place < 64 }
    ensures { result ≡ 2 ^ place }
{
    1 << place
}

// The passed bits of a mask of seats.
pub(crate) fn raised(seats: u64) -> u64
    requires { seats < 2 ^ 30 }
    ensures { result ≡ seats * 2 ^ 30 }
{
    seats * FIRST_PASSED
}

// Whether an arrivals word is closed.
#[tactic(auto, using(crate::proofs::BitLemmas::tops))]
pub(crate) fn is_closed(word: u64) -> bool
    ensures yes { IsTrue result → bit_at word 63 ≡ 1 }
    ensures not { IsFalse result → bit_at word 63 ≡ 0 }
{
    CLOSED <= word
}

// Whether each seat had posted or passed.
pub(crate) fn all_arrived(word: u64, seats: u64) -> bool
    requires { seats ≤ 30 }
    ensures yes { IsTrue result → IsFull seats word }
    ensures not { IsFalse result → ¬ (IsFull seats word) }
{
    for place in 0..seats {
        if (word >> place) % 2 == 0 && (word >> (30 + place)) % 2 == 0 {
            return false;
        }
    }
    true
}

// The posted bits of an arrivals word, or the mask of a frozen word.
pub(crate) fn places_of(word: u64) -> u32
    ensures { result ≡ word % 2 ^ 30 }
{
    (word & PLACES) as u32
}

// The mask that a frozen word shows.
pub(crate) fn mask_shown(frozen: u64) -> Option<u32>
    ensures { result ≡ mask_in frozen }
{
    if frozen < CLOSED {
        None
    } else {
        Some(places_of(frozen))
    }
}

// The frozen word that a closing word makes.
fn frozen_from(closing: u64) -> u64
    ensures { result ≡ frozen_word closing }
{
    CLOSED | (closing & PLACES)
}

impl Words {
    // The words of an empty board, and the head of its seats.
    pub(crate) fn new(alloc: Global, shape: Shape) -> Result<(Words, Seat), AllocError>
        requires seats { (2 ≤ shape.seats) × (shape.seats ≤ 30) }
        requires rounds { (1 ≤ shape.rounds) × (shape.rounds ≤ 8) }
        ensures { IfOk result (λ t.
            (t.0.shape ≡ shape) × (t.1.table_id ≡ t.0.table.shared.table_id) × (t.1.me ≡ (opened, []))) }
    {
        let words = Vec::from_elem(alloc, 0u64, 2 * shape.rounds as usize + 1)?;
        let (table, seat) = Table::of_words(alloc, &words, &shape)?;
        Ok((Words { table, shape }, seat))
    }

    // Sets the posted bit of a place, which has not posted in the round. Answers the word that was found.
    pub(crate) fn post(&self, seat: &mut Seat, round: u64, place: u64) -> u64
        requires seat { (seat.old.table_id ≡ self.now.table.shared.table_id) × In (place + 1) seat.old.me.0.numbers }
        requires round { (round < self.now.shape.rounds) × (place < self.now.shape.seats) }
        requires fresh { (w : _) → ¬ (In (event round (Posting place w)) seat.old.me.0.events) }
        ensures same { (seat.new.table_id ≡ seat.old.table_id) × (seat.new.id ≡ seat.old.id) }
        ensures told { seat.new.me ≡ (with_event round (Posting place result) seat.old.me.0, seat.old.me.1) }
        ensures bit { bit_at result 63 ≡ 1 → bit_at result (30 + place) ≡ 1 }
    {
        self.table
            .shared
            .fetch_or::<Post>(seat, 2 * round as usize + 1, bit_of(place))
    }

    // Sets the passed bit of a place. Answers the word that was found.
    pub(crate) fn pass(&self, seat: &mut Seat, round: u64, place: u64) -> u64
        requires seat { (seat.old.table_id ≡ self.now.table.shared.table_id) × In (place + 1) seat.old.me.0.numbers }
        requires round { (round < self.now.shape.rounds) × (place < self.now.shape.seats) }
        ensures same { (seat.new.table_id ≡ seat.old.table_id) × (seat.new.id ≡ seat.old.id) }
        ensures told { seat.new.me ≡ (with_event round (Passing place result) seat.old.me.0, seat.old.me.1) }
    {
        self.table
            .shared
            .fetch_or::<Pass>(seat, 2 * round as usize + 1, bit_of(30 + place))
    }

    // Sets the passed bits of a mask of seats, for the warden. Answers the word that was found.
    pub(crate) fn cut(&self, seat: &mut Seat, round: u64, seats: u64) -> u64
        requires seat { (seat.old.table_id ≡ self.now.table.shared.table_id)
            × In (self.now.shape.seats + 1) seat.old.me.0.numbers }
        requires round { round < self.now.shape.rounds }
        requires seats { seats < 2 ^ self.now.shape.seats }
        requires low { seats < 2 ^ 30 }
        ensures same { (seat.new.table_id ≡ seat.old.table_id) × (seat.new.id ≡ seat.old.id) }
        ensures told { seat.new.me ≡ (with_event round (Cutting seats result) seat.old.me.0, seat.old.me.1) }
    {
        self.table
            .shared
            .fetch_or::<Cut>(seat, 2 * round as usize + 1, raised(seats))
    }

    // Sets the closed bit, where an arrival of the seat showed that all seats had arrived. Answers the word that was found.
    pub(crate) fn close(&self, seat: &mut Seat, round: u64) -> u64
        requires seat { seat.old.table_id ≡ self.now.table.shared.table_id }
        requires round { round < self.now.shape.rounds }
        requires arrived { Showed self.now.shape.seats (event round) seat.old.me.0 }
        ensures same { (seat.new.table_id ≡ seat.old.table_id) × (seat.new.id ≡ seat.old.id) }
        ensures first { bit_at result 63 ≡ 0
            → seat.new.me ≡ (with_event round (Closing result) seat.old.me.0, seat.old.me.1) }
        ensures later { bit_at result 63 ≡ 1
            → seat.new.me ≡ (with_event round (Losing result) seat.old.me.0, seat.old.me.1) }
    {
        self.table
            .shared
            .fetch_or::<Close>(seat, 2 * round as usize + 1, CLOSED)
    }

    // Puts the posted bits of the seat's own closing word into the frozen word, and wakes who sleeps on it.
    pub(crate) fn publish(&self, seat: &mut Seat, round: u64, closing: u64)
        requires seat { seat.old.table_id ≡ self.now.table.shared.table_id }
        requires round { round < self.now.shape.rounds }
        requires closed { In (event round (Closing closing)) seat.old.me.0.events }
        ensures same { (seat.new.table_id ≡ seat.old.table_id) × (seat.new.id ≡ seat.old.id) }
        ensures told { seat.new.me ≡ (with_event round (Publishing closing) seat.old.me.0, seat.old.me.1) }
    {
        let _found = self
            .table
            .shared
            .fetch_or::<Publish>(seat, 2 * round as usize + 2, frozen_from(closing));
        self.table.shared.wake_all(2 * round as usize + 2);
    }

    // A load of the frozen word, which agrees with what the seat saw of it before.
    pub(crate) fn look(&self, seat: &mut Seat, round: u64) -> u64
        requires seat { seat.old.table_id ≡ self.now.table.shared.table_id }
        requires round { round < self.now.shape.rounds }
        ensures same { (seat.new.table_id ≡ seat.old.table_id) × (seat.new.id ≡ seat.old.id) }
        ensures told { seat.new.me ≡ (with_event round (Looking result) seat.old.me.0, seat.old.me.1) }
        ensures again { (before : _) → In (event round (Looking before)) seat.old.me.0.events
            → (before ≡ 0) ⊎ (before ≡ result) }
        ensures own { (c : _) → In (event round (Publishing c)) seat.old.me.0.events → result ≡ frozen_word c }
    {
        self.table.shared.load::<Look>(seat, 2 * round as usize + 2)
    }

    // Sets the abort bit.
    pub(crate) fn abort(&self, seat: &mut Seat)
        requires seat { seat.old.table_id ≡ self.now.table.shared.table_id }
        ensures same { (seat.new.table_id ≡ seat.old.table_id) × (seat.new.id ≡ seat.old.id) }
        ensures told { seat.new.me ≡ (with_event control_round Aborting seat.old.me.0, seat.old.me.1) }
    {
        let _found = self.table.shared.fetch_or::<Abort>(seat, 0, 1);
    }

    // A load of the control word.
    pub(crate) fn control(&self, seat: &mut Seat) -> u64
        requires seat { seat.old.table_id ≡ self.now.table.shared.table_id }
        ensures same { (seat.new.table_id ≡ seat.old.table_id) × (seat.new.id ≡ seat.old.id) }
        ensures told { seat.new.me ≡ (with_event control_round (SeeingControl result) seat.old.me.0, seat.old.me.1) }
        ensures own { In (event control_round Aborting) seat.old.me.0.events → bit_at result 0 ≡ 1 }
        ensures again { (before : _) → In (event control_round (SeeingControl before)) seat.old.me.0.events
            → bit_at before 0 ≤ bit_at result 0 }
    {
        self.table.shared.load::<Control>(seat, 0)
    }

    // Sleeps for a moment, or until somebody publishes the mask of the round. The low half of the frozen word is `found` when the sleep begins.
    pub(crate) fn nap<R: Wait>(&self, rt: &R, round: u64, found: u32)
        requires { round < self.now.shape.rounds }
    {
        self.table.shared.park_timeout(
            rt,
            2 * round as usize + 2,
            found,
            Duration::from_millis(NAP),
        );
    }

    // A new seat with the next number.
    pub(crate) fn enter(&self, seat: &mut Seat) -> Seat
        requires { (seat.old.table_id ≡ self.now.table.shared.table_id) × In 0 seat.old.me.0.numbers }
        ensures same { (seat.new.table_id ≡ seat.old.table_id) × (seat.new.id ≡ seat.old.id) }
        ensures old { seat.new.me ≡ (given_out seat.old.me.0, seat.old.me.1) }
        ensures new { (result.table_id ≡ seat.old.table_id) × (result.me ≡ (entered seat.old.me.0, [])) }
    {
        self.table.shared.split_seat::<Enter>(seat)
    }

    // The seat takes up what the other did.
    pub(crate) fn gather(&self, seat: &mut Seat, other: Seat)
        requires seat { (seat.old.table_id ≡ self.now.table.shared.table_id)
            × (other.table_id ≡ self.now.table.shared.table_id) × (other.me.1 ≡ []) }
        ensures same { (seat.new.table_id ≡ seat.old.table_id) × (seat.new.id ≡ seat.old.id) }
        ensures both { seat.new.me ≡ (both_of seat.old.me.0 other.me.0, seat.old.me.1) }
    {
        self.table.shared.join_seat::<Gather>(seat, other);
    }

    // The masks that were published, where the view of the seat is one of the last.
    pub(crate) fn finish(self, seat: Seat, masks: Vec<Option<u32>>) -> Vec<Option<u32>>
        requires seat { seat.table_id ≡ self.table.shared.table_id }
        requires room { (masks.items ≡ []) × (self.shape.rounds ≤ vec_capacity masks) }
        ensures { Ends self.shape.seats self.shape.rounds seat.id seat.me.0 result.items }
    {
        let Words { table, shape } = self;
        let mut masks = masks;
        let closed = table.close_with(seat);
        for round in 0..shape.rounds as usize {
            masks.push_reserved(mask_shown(closed.word(2 * round + 2)));
        }
        closed.free();
        masks
    }
}
