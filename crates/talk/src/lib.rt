//! What seats say to one another: messages, settings of a phase, minds, and what a run of them is.
#![tactic(auto)]

mod driven;
pub mod laws;
mod masks;
mod messages;
mod mind;
mod part;
mod rows;
mod setting;
mod shapes;

pub use driven::Driven;
pub use masks::{all_in, in_mask, mask_with};
pub use messages::{Complaint, Heard, Post, Reveal, Ring, Say};
pub use mind::Mind;
pub use part::Part;
pub use rows::{ComplaintList, PostList, RevealList, RingList, VoteList};
pub use setting::Setting;
pub use shapes::{as_read, ring_as_read, ring_ok, shape_ok};
