//! Histories of a key: which recorded phases, with a mask for each period, are one; its key, what is seen of it, and other
//! choices with any wished key of which the same is seen.
#![tactic(auto)]

mod choices;
mod fitting;
mod history;
mod key;
pub mod laws;
mod masks;
mod phases;
mod polynomials;
mod views;

pub use choices::other_choices;
pub use history::{History, HistoryFault};
pub use key::key_of;
pub use phases::{play_at, shares_left};
pub use playback::{Phase, PhaseKind, PhaseList, SaidItem, SaidList};
pub use views::{Views, views_of};
