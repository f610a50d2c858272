//! One seat's part in verifiable secret sharing, as states: each step takes what the seat heard in a round, and gives
//! what it keeps and what it says next. No state holds two members' data.
//!
//! A [`Dealer`] has grids, deals from them and reveals. A receiver goes from [`Ready`] through [`Dealt`], [`Crossed`],
//! [`Complained`] and [`Revealed`] to [`Done`]. Each step takes the old state by value; where memory is wanting, the
//! old state comes back in [`StepError`]. What the steps bring about for all receivers stands in `sharing61::laws`
//! and `plays::laws`, over the definitions that the contracts here cite.
#![tactic(auto)]

mod complained;
mod complaints;
mod crossed;
mod dealer;
mod dealt;
mod done;
mod pairs;
mod posts;
mod ready;
mod revealed;
mod step_error;
#[cfg(test)]
mod tests;
mod votes;

pub use complained::Complained;
pub use crossed::Crossed;
pub use dealer::Dealer;
pub use dealt::Dealt;
pub use done::Done;
pub use pairs::{PairList, PolyPair};
pub use ready::Ready;
pub use revealed::Revealed;
pub use step_error::StepError;
