//! Crews: members that attend beside one another, each on a thread of its own.
#![tactic(auto)]

mod counts;
mod crew;
mod fail_crew;
mod hold;
mod hold_crew;
mod member;
mod run;
mod starts;
mod thread_crew;

pub use crew::{Crew, CrewFault};
pub use fail_crew::FailCrew;
pub use hold::Hold;
pub use hold_crew::HoldCrew;
pub use member::Member;
pub use run::{Running, run_all};
pub use thread_crew::ThreadCrew;
