//! Paces, and the conductor of a board, who asks one which of the missing seats to cut.
#![tactic(auto)]

mod conducting;
mod conductor;
mod counting;
mod hold_pace;
mod missing;
mod nap;
mod pace;
mod script_pace;
mod still_pace;
mod tally;
mod turn_pace;

pub use conductor::Conductor;
pub use hold_pace::HoldPace;
pub use pace::Pace;
pub use script_pace::ScriptPace;
pub use still_pace::StillPace;
pub use turn_pace::TurnPace;
