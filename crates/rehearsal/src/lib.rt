//! A rehearsal: the whole life of a key, played phase by phase from a number, with other choices for a wished key.
#![tactic(auto)]

mod begun;
mod life;
mod rehearsed;
#[cfg(test)]
mod tests;

pub use rehearsed::{Rehearsed, rehearse_run};
