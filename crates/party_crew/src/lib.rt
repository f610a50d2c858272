//! Members of a phase, each on a thread of its own, and the phase that they run together.
#![tactic(auto)]

mod attending;
mod gate;
mod hearing;
mod party;
mod phase;
mod saying;
mod seating;
mod sending;
mod turning;
mod waits;

pub use crews::{Crew, CrewFault, FailCrew, HoldCrew, Member, ThreadCrew, run_all};
pub use gate::{Gate, OpenGate};
pub use paces::{HoldPace, Pace, ScriptPace, StillPace, TurnPace};
pub use phase::{PhaseFault, PhaseRecord, run_phase};
