//! The synchronous run of a phase on one thread.
#![tactic(auto)]

mod masks;
mod rounds;
mod run;

pub use rounds::{hear_all, say_all};
pub use run::drive;
