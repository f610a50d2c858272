//! Why bytes are no box.
ghost use Rattle.std.specs.Prelude.{◌≡◌};
ghost use Rattle.docvault.specs.Opening.{number_of};
ghost use Rattle.docvault.specs.declared.fault.BoxFault.TheVariants.{OutOfMemory};

use std::alloc::{AllocError, AllocFailed};

/// Why bytes are no box under the asked key and name. The first fault that holds is given, in this
/// order.
#[derive(Clone, Copy, Debug, PartialEq, Eq)]
pub enum BoxFault {
    /// There are `have` bytes, fewer than the 80 of an empty document's box.
    Short { have: u64, need: u64 },
    /// The first four bytes aren't those of a box.
    Magic,
    /// The document's length, `found`, isn't 80 less than the number of bytes, `have`.
    Length { found: u64, have: u64 },
    /// The name isn't the asked one.
    Name,
    /// The last 32 bytes, `found`, aren't the tag of those before them, `computed`.
    Tag { found: [u8; 32], computed: [u8; 32] },
    /// Memory ran out. It may come in place of any other answer.
    OutOfMemory,
}

impl From<AllocError> for BoxFault {
    ghost from_gives = { λ _ fault. fault ≡ OutOfMemory };

    fn from(_: AllocError) -> Self {
        BoxFault::OutOfMemory
    }
}

impl<T: Drop> From<AllocFailed<T>> for BoxFault {
    ghost from_gives = { λ _ fault. fault ≡ OutOfMemory };

    fn from(_: AllocFailed<T>) -> Self {
        BoxFault::OutOfMemory
    }
}

impl BoxFault {
    /// The number that is printed for the fault: its place among the variants, from 1.
    pub fn number(&self) -> u8
        ensures { result ≡ number_of self.now }
    {
        match self {
            BoxFault::Short { .. } => 1,
            BoxFault::Magic => 2,
            BoxFault::Length { .. } => 3,
            BoxFault::Name => 4,
            BoxFault::Tag { .. } => 5,
            BoxFault::OutOfMemory => 6,
        }
    }
}
