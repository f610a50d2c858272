//! Private channels between the seats of a phase: one ring for each ordered pair of seats.
#![tactic(auto)]

mod ends;
mod heads;
mod laying;
mod record;
mod settling;
mod tails;

pub use ends::End;
pub use laying::lay;
pub use record::RingRecord;
pub use settling::finish;
