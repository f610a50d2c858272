//! One seat of a sharing, whatever the phase: what it says and what it keeps, from its first word to its shares.
//!
//! A [`Sharer`] deals where a dealer sits on its seat, and receives where a receiver does: in one committee both, in two
//! committees one of them. Contracts see it as a member of the sharing (crate `members`). The minds of the phases hold
//! one, and add what they make of its shares.
#![tactic(auto)]

mod at;
mod place;
mod says;
mod sharer;
mod steps;
mod sums;
#[cfg(test)]
mod tests;
mod turn;

pub use sharer::Sharer;
