//! The outside of the program: named files, seeds and the text that is put out, each as a trait with
//! a written meaning, an implementation in memory, and an adapter over the real thing.
//!
//! Every call that can fail has its cause in its contract: it answers a fault only where the
//! object's count of faults rose in that call. What an object holds, has still to give or was
//! given is optional in its trait. The objects in memory tell it, and the adapters don't.
#![tactic(auto)]

mod adapters;
mod calls;
mod fault;
mod memory;
mod outside;
#[cfg(test)]
mod tests;

pub use adapters::{DeviceEntropy, FolderShelf, OutSink};
pub use fault::{EntropyFault, OutsideFault};
pub use memory::{MemoryEntropy, MemoryShelf, MemorySink};
pub use outside::{Entropy, Shelf, Sink};
