//! What a rehearsal prints: a line for each phase, the key of its history, the key of its other choices, and of how many
//! periods the views are the same.
#![tactic(auto)]

pub mod laws;
mod phase;
#[cfg(test)]
mod tests;
mod text;

pub use text::rehearse_text;
