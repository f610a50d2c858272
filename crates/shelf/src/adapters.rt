//! The current folder, the system's random bytes and a stream for text. What they hold isn't told:
//! that a real file, device or terminal behaves so is trusted, and tested.
ghost use Rattle.std.specs.Prelude.{OnErr};
ghost use Rattle.shelf.specs.Causes.{HasCause};
ghost use Rattle.counters.specs.Counts.{Rose};

use crate::fault::OutsideFault;
use counters::raised;
use std::io;

mod device;
mod folder;
mod names;
mod stream;

pub use device::DeviceEntropy;
pub use folder::FolderShelf;
pub use stream::OutSink;

/// What a call comes to: an error of the system is a fault, and is counted.
fn answered<T>(faults: &mut u64, done: io::Result<T>) -> Result<T, OutsideFault>
    ensures cause { HasCause faults.old faults.new result }
    ensures rose { OnErr result (Rose faults.old faults.new) }
{
    match done {
        Ok(found) => Ok(found),
        Err(_) => {
            *faults = raised(*faults);
            Err(OutsideFault::Failed)
        }
    }
}
