//! Lists of messages.

use crate::{Complaint, Post, Reveal, Ring};
use lists::List;

/// Complaints in a row. Contracts see the list of them.
pub type ComplaintList = List<Complaint>;

/// Posts in a row. Contracts see the list of them.
pub type PostList = List<Post>;

/// Reveals in a row. Contracts see the list of them.
pub type RevealList = List<Reveal>;

/// Ring messages in a row. Contracts see the list of them.
pub type RingList = List<Ring>;

/// Votes in a row. Contracts see the list of them.
pub type VoteList = List<bool>;
