//! What is heard of the seats that are down in a phase: fresh minds are run by its masks once more, on one thread.

mod create;
mod moving;
mod refresh;

pub(crate) use create::created_said;
pub(crate) use moving::moved_said;
pub(crate) use refresh::refreshed_said;
