//! Plays of a phase: what all seats hold, say and end with, defined from the honest dealers' grids and from what the
//! faulty said; the same for one seat, from what it heard; and the laws that tie the two. There is no code here.
#![tactic(auto)]

pub mod laws;
