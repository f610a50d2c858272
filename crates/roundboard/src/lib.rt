//! A board of rounds for the seats of one protocol: each seat posts at most once a round, or passes, and each round gets one mask of the seats that posted in time.
//!
//! A board is shared by reference between threads. Each seat works it with a pen of its own. The step that shows that all seats have posted or passed closes the round, and the first to close it publishes the mask. Nothing waits for a lock: the words of the board change by single atomic steps, and the posts lie in cells that are written once. The two calls that wait for others, `wait_round` and `wait_read`, say so by their bound.
//!
//! A contract sees a pen by its log: the list of the steps that it took, each with the word that it found (`specs/Pens`). Rounds and seats count from 1 in the calls, and from 0 in the log.
#![tactic(auto)]

mod board;
mod calls;
mod cells;
mod closed;
mod finish;
mod log;
mod page;
mod pens;
mod rule;
mod start;
mod view;
mod waits;
mod warden;
mod words;

pub use board::{Board, Look, Passed, Pen, PostFault, Posted, Read, Waited};
pub use finish::{ClosedBoard, FinishFault, Reader};
pub use warden::Warden;
