//! Text to a stream.
ghost use Rattle.std.specs.Prelude.{◌≡◌, None};

use super::answered;
use crate::fault::OutsideFault;
use crate::outside::Sink;
use std::alloc::Global;
use std::io::{self, Write};

/// A stream for text, as standard output. What it keeps back is passed on with each put.
#[derive(Drop)]
pub struct OutSink<W: Write + Drop> {
    out: W,
    faults: u64,
}

impl<W: Write + Drop> OutSink<W> {
    /// A sink over the stream, with no fault counted.
    pub fn new(out: W) -> Self
        ensures { ⟦<OutSink<W> as Sink>⟧.fault_count result ≡ 0 }
    {
        OutSink { out, faults: 0 }
    }

    fn write(&mut self, bytes: &[u8]) -> io::Result<()>
        ensures { self.new.faults ≡ self.old.faults }
    {
        self.out.write_all(bytes)?;
        self.out.flush()
    }
}

impl<W: Write + Drop> Sink for OutSink<W> {
    ghost told = { λ s. None };

    ghost fault_count = { λ s. s.faults };

    ghost calm = { λ s. ⊥ };

    ghost calm_has_no_faults = { λ s calm. absurd calm };

    fn faults(&self) -> u64 {
        self.faults
    }

    fn put(&mut self, _alloc: Global, bytes: &[u8]) -> Result<(), OutsideFault> {
        let done = self.write(bytes);
        answered(&mut self.faults, done)
    }
}
