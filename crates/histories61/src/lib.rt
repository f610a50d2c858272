//! Histories of a key: its phases one after another, what the sound members' shares are in each period, and that the key
//! stays. There is no code here: each function's contract is a law, and its body is empty.
#![tactic(auto)]

pub mod laws;
