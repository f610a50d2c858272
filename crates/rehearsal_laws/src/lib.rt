//! Laws of the phases of a rehearsal: what they are, that they are a history, and that there is one list of them. There is
//! no code here: each function's contract is a law, and its body is empty.
#![tactic(auto)]

pub mod laws;
