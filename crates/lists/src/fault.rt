//! Want of memory.

use std::alloc::{AllocError, AllocFailed};

/// Want of memory: an allocation was refused.
///
/// A call that answers it leaves what it was lent as it was, unless it says otherwise.
#[derive(Clone, Copy, Debug, Drop, PartialEq, Eq)]
pub struct OutOfMemory;

impl From<AllocError> for OutOfMemory {
    ghost use Rattle.std.specs.Prelude.{◌≡◌};

    ghost from_gives = { λ _ e. e ≡ record {} };

    fn from(_e: AllocError) -> OutOfMemory {
        OutOfMemory
    }
}

impl<T: Drop> From<AllocFailed<T>> for OutOfMemory {
    ghost use Rattle.std.specs.Prelude.{◌≡◌};

    ghost from_gives = { λ _ e. e ≡ record {} };

    fn from(_e: AllocFailed<T>) -> OutOfMemory {
        OutOfMemory
    }
}
