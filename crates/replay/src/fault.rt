//! Why a line or a case could not be read or run.

use lists::OutOfMemory;
use shelf::OutsideFault;
use std::alloc::{AllocError, AllocFailed};
use std::error::Error;
use std::fmt;

/// Why a line or a case could not be read or run.
#[derive(Clone, Copy, Debug, PartialEq, Eq)]
pub enum Fault {
    /// The line isn't of the form that is read at its place.
    OtherForm,
    /// An object in memory failed before or after the command. No list of failing calls does that.
    Object,
    /// Memory ran out.
    OutOfMemory,
}

impl fmt::Display for Fault {
    fn fmt<W: fmt::Write>(&self, f: &mut fmt::Formatter<W>) -> fmt::Result {
        match self {
            Fault::OtherForm => write!(f, "a line of another form"),
            Fault::Object => write!(f, "an object in memory failed outside of the command"),
            Fault::OutOfMemory => write!(f, "out of memory"),
        }
    }
}

impl Error for Fault {}

impl From<AllocError> for Fault {
    ghost use Rattle.std.specs.Prelude.{◌≡◌};
    ghost use Rattle.replay.specs.declared.fault.Fault.TheVariants.{OutOfMemory};

    ghost from_gives = { λ _ fault. fault ≡ OutOfMemory };

    fn from(_: AllocError) -> Self {
        Fault::OutOfMemory
    }
}

impl<T: Drop> From<AllocFailed<T>> for Fault {
    ghost use Rattle.std.specs.Prelude.{◌≡◌};
    ghost use Rattle.replay.specs.declared.fault.Fault.TheVariants.{OutOfMemory};

    ghost from_gives = { λ _ fault. fault ≡ OutOfMemory };

    fn from(_: AllocFailed<T>) -> Self {
        Fault::OutOfMemory
    }
}

impl From<OutOfMemory> for Fault {
    fn from(_: OutOfMemory) -> Self {
        Fault::OutOfMemory
    }
}

impl From<OutsideFault> for Fault {
    fn from(fault: OutsideFault) -> Self {
        match fault {
            OutsideFault::Failed => Fault::Object,
            OutsideFault::OutOfMemory => Fault::OutOfMemory,
        }
    }
}
