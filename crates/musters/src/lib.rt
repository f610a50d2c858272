//! Tests of boards, rings, crews and paces, and of phases with a thread for each seat. The crate has tests alone, so that
//! they are proved without the crates that they try.
#![tactic(auto)]

#[cfg(test)]
mod boards;
#[cfg(test)]
mod cuts;
#[cfg(test)]
mod parties;
#[cfg(test)]
mod rings;
#[cfg(test)]
mod runs;
