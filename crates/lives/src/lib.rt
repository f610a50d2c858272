//! Tests of the key's history: of recorded phases and their playing, of what is a history, its key and views, and of other
//! choices. The crate has tests alone, so that they are proved without the crates that they try.
#![tactic(auto)]

#[cfg(test)]
mod choices;
#[cfg(test)]
mod histories;
#[cfg(test)]
mod played;
#[cfg(test)]
mod shifts;
#[cfg(test)]
mod sights;
