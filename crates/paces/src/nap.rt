//! What a pace does while it cuts nobody.
use std::sync::Wait;
use std::thread::Parker;
use std::time::Duration;

// How long a pace sleeps at a call that it answers with nobody, in microseconds.
const NAP: u64 = 250;

// Sleeps for a moment, so that who waits for a round takes no processor from those that work it.
pub(crate) fn nap<R: Wait>(rt: &R) {
    Parker::new().park_timeout(rt, Duration::from_micros(NAP));
}
