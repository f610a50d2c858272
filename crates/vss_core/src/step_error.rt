//! Want of memory.

/// Want of memory in a step, with the state as it was before the step.
#[derive(Drop)]
pub struct StepError<O: Drop> {
    /// The old state, unchanged.
    pub state: O,
}
