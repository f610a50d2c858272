//! Why a call of the outside failed.
ghost use Rattle.std.specs.Prelude.{◌≡◌};
ghost use Rattle.shelf.specs.declared.fault.OutsideFault.TheVariants.{OutOfMemory};

use std::alloc::{AllocError, AllocFailed};

/// Why a call of a shelf or of a sink failed.
#[derive(Clone, Copy, Debug, PartialEq, Eq)]
pub enum OutsideFault {
    /// The folder, the device or the stream refused the call. The object's count of faults rose.
    Failed,
    /// Memory ran out before anything was changed.
    OutOfMemory,
}

impl From<AllocError> for OutsideFault {
    ghost from_gives = { λ _ fault. fault ≡ OutOfMemory };

    fn from(_: AllocError) -> Self {
        OutsideFault::OutOfMemory
    }
}

impl<T: Drop> From<AllocFailed<T>> for OutsideFault {
    ghost from_gives = { λ _ fault. fault ≡ OutOfMemory };

    fn from(_: AllocFailed<T>) -> Self {
        OutsideFault::OutOfMemory
    }
}

/// No seed could be had. The count of faults of the entropy rose.
#[derive(Clone, Copy, Debug, PartialEq, Eq)]
pub struct EntropyFault;
