//! Tests of the commands over objects in memory: their texts, their files and their refusals. The crate has tests alone, so
//! that they are proved without the crates that they try.
#![tactic(auto)]

#[cfg(test)]
mod plans;
#[cfg(test)]
mod runs;
