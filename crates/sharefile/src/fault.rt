//! Why bytes are no file.
ghost use Rattle.std.specs.Prelude.{◌≡◌};
ghost use Rattle.sharefile.specs.Reading.{number_of};
ghost use Rattle.sharefile.specs.declared.fault.FileFault.TheVariants.{OutOfMemory};

use std::alloc::{AllocError, AllocFailed};

/// Why bytes are no share file, or no now file. The first fault that holds is given, in this order:
/// `Short` below 5 bytes, `Magic`, `Version`, `Short` below the whole length, `Extra`, `Digest`,
/// `Field`.
#[derive(Clone, Copy, Debug, PartialEq, Eq)]
pub enum FileFault {
    /// There are `have` bytes, fewer than the `need` that are wanted: 5, and from 5 on the whole
    /// length.
    Short { have: u64, need: u64 },
    /// The first four bytes aren't those of this kind of file.
    Magic,
    /// The fifth byte is no version that is known.
    Version { found: u8 },
    /// A field isn't in its range. `place` is the first byte of the first such field.
    Field { place: u32 },
    /// The last 32 bytes, `found`, aren't the SHA-256 of those before them, `computed`.
    Digest { found: [u8; 32], computed: [u8; 32] },
    /// There are `have` bytes, more than the whole length, `need`.
    Extra { have: u64, need: u64 },
    /// Memory ran out. It may come in place of any other answer.
    OutOfMemory,
}

impl From<AllocError> for FileFault {
    ghost from_gives = { λ _ fault. fault ≡ OutOfMemory };

    fn from(_: AllocError) -> Self {
        FileFault::OutOfMemory
    }
}

impl<T: Drop> From<AllocFailed<T>> for FileFault {
    ghost from_gives = { λ _ fault. fault ≡ OutOfMemory };

    fn from(_: AllocFailed<T>) -> Self {
        FileFault::OutOfMemory
    }
}

impl FileFault {
    /// The number that is printed for the fault: its place among the variants, from 1.
    pub fn number(&self) -> u8
        ensures { result ≡ number_of self.now }
    {
        match self {
            FileFault::Short { .. } => 1,
            FileFault::Magic => 2,
            FileFault::Version { .. } => 3,
            FileFault::Field { .. } => 4,
            FileFault::Digest { .. } => 5,
            FileFault::Extra { .. } => 6,
            FileFault::OutOfMemory => 7,
        }
    }
}
