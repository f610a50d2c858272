//! What a refresh and a move make of the shares, and what they keep. There is no code here: each function's contract is a
//! law, and its body is empty.
#![tactic(auto)]

pub mod laws;
