//! Other choices: what is seen of a history by those who are down or exposed, and the history with another key of which the
//! same is seen. There is no code here: each function's contract is a law, and its body is empty.
#![tactic(auto)]

pub mod laws;
