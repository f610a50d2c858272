//! What each pace counts.
ghost use Rattle.std.specs.Prelude.{◌-◌, ◌^◌, ◌≤◌};

/// The answers of one phase by round, and the number of all answers that named a seat.
#[derive(Drop)]
pub struct Tally {
    pub(crate) cuts: [u32; 8],
    pub(crate) asked: [u64; 8],
    pub(crate) answered: u64,
    pub(crate) ghost few: { answered ≤ 2 ^ 64 - 1 },
}
