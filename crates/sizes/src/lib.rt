//! The sizes of the program: committees, lanes, and the instances of a phase.
#![tactic(auto)]

mod committee;
mod instance;
#[cfg(test)]
mod tests;

pub use committee::{Committee, is_bound, is_index, is_library_size, is_size};
pub use instance::{Instance, LANES};
