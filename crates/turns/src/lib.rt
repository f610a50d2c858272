//! What the members of a phase did, each on a thread of its own, and why that is the synchronous run.
#![tactic(auto)]

pub mod laws;
