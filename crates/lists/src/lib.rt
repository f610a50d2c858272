//! Lists of values, the copying of values that can fail, and the one word for want of memory.
#![tactic(auto)]

mod copying;
mod fault;
mod list;

pub use copying::TryCopy;
pub use fault::OutOfMemory;
pub use list::List;

#[cfg(test)]
mod tests;
