//! The files of a key: the share file of a member in a period, and the now file, which says where the
//! key stands.
//!
//! There are two versions of each. Version 2 ties the files to one committee: the now file says who
//! holds its shares and has the digest of the committee and of the one before, and each share file
//! has the committee's digest. So a file of another run, another committee or an older backup is told
//! apart. Version 1 has none of these.
//!
//! Each file has exactly one list of bytes. A writer gives it, and a reader gives the file exactly
//! where the bytes are its own: no other spelling of a file is read. Where the bytes are no file,
//! the answer is the first fault that holds, in a fixed order. All numbers in files are unsigned,
//! the most significant byte first.
#![tactic(auto)]

mod fault;
mod fields;
mod link;
mod name;
mod now;
mod share;
#[cfg(test)]
mod tests;

pub use fault::FileFault;
pub use link::{Link, committee_digest};
pub use name::KeyName;
pub use now::{NowFile, read_now, write_now};
pub use share::{ShareFile, read_share, write_share};
