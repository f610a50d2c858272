//! Recorded phases of a history: what they keep, and their playing, which needs no threads and no size.
#![tactic(auto)]

mod kept;
mod phase;
mod played;
mod said;
mod seats;
mod shares;
mod words;

pub use kept::is_kept;
pub use phase::{Phase, PhaseKind, PhaseList, SaidItem, SaidList};
pub use played::{Played, play};
pub use shares::{created_shares, moved_shares, refreshed_shares};
