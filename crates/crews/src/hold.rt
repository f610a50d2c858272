//! A thread that is held.
use std::alloc::Global;
use std::sync::Arc;
use std::sync::atomic::AtomicBool;
use std::sync::atomic::Ordering::SeqCst;
use std::thread;

// How often the flag is looked at.
const LOADS: u64 = 1_000_000_000;

/// A member whose thread waits, before it attends, until a flag is set, for at most 1,000,000,000 loads of it.
#[derive(Drop)]
pub struct Hold {
    /// The member's place, counted from 0.
    pub place: u32,
    /// What is waited for.
    pub flag: Arc<AtomicBool, Global>,
}

impl Hold {
    // Waits, where the member on this place is the one that is held.
    pub(crate) fn wait(&self, place: u64) {
        if u64::from(self.place) != place {
            return;
        }
        for load in 0..LOADS {
            if self.flag.load(SeqCst) {
                return;
            }
            if load % 1024 == 1023 {
                thread::yield_now();
            }
        }
    }
}
