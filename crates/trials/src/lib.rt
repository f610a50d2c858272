//! Trials of whole commands over objects in memory: each is stopped at each call of the outside, and one party of a
//! create misbehaves in each way. The crate has tests alone.
#![tactic(auto)]

#[cfg(test)]
mod desk;
#[cfg(test)]
mod hostile;
#[cfg(test)]
mod stops;
