//! Drills: texts that say how faulty parties misbehave in a rehearsed phase, and minds that misbehave so.
#![tactic(auto)]

mod drill;
mod drilled;
mod fault;
pub mod laws;
mod order;
mod read;
mod side;
mod telling;
mod words;

pub use drill::Drill;
pub use drilled::Drilled;
pub use fault::DrillFault;
pub use order::{Order, Verb};
pub use read::read_drill;
