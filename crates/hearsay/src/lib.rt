//! What is heard of the seats that are down in a phase, and the record that is kept of it.
#![tactic(auto)]

pub mod laws;
mod said;
#[cfg(test)]
mod tests;

pub use said::said_of;
