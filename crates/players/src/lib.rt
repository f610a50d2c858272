//! Minds for tests and for whoever tries out a phase: one that says what it was told to say, whatever it hears, and the
//! choice between it and a drilled mind.
#![tactic(auto)]

mod player;
mod scripted;
#[cfg(test)]
mod tests;

pub use player::Player;
pub use scripted::Scripted;
