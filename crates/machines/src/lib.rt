//! Minds that go like machines, in a run of any phase: where they end, what is heard of them, and why they stay in the masks.
//! There is no code here.
#![tactic(auto)]

pub mod laws;
