//! Which calls of an object in memory fail.
ghost use Rattle.std.specs.Prelude.{◌≡◌, ◌≤◌, ◌+◌, ◌-◌, ◌^◌, ◌↔◌, [], min, Contains, IsErrOf};
ghost use Rattle.shelf.specs.Causes.{HasCause};
ghost use Rattle.counters.specs.Counts.{Rose};

use crate::fault::OutsideFault;
use counters::raised;

/// The numbers of the calls that fail, and how many calls were made and have failed. The first
/// call has the number 0.
#[derive(Drop)]
pub(crate) struct Calls {
    pub(crate) fails: Vec<u64>,
    pub(crate) made: u64,
    pub(crate) faults: u64,
}

impl Calls {
    pub(crate) fn new(fails: Vec<u64>) -> Self
        ensures fails { result.fails ≡ fails }
        ensures made { result.made ≡ 0 }
        ensures faults { result.faults ≡ 0 }
    {
        Calls {
            fails,
            made: 0,
            faults: 0,
        }
    }

    /// Counts a fault.
    pub(crate) fn count_fault(&mut self)
        ensures rose { Rose self.old.faults self.new.faults }
        ensures later { self.old.faults ≤ self.new.faults }
        ensures made { self.new.made ≡ self.old.made }
        ensures fails { self.new.fails ≡ self.old.fails }
    {
        self.faults = raised(self.faults);
    }

    /// Makes the next call: it fails where its number is listed, and the fault is counted.
    pub(crate) fn next(&mut self) -> Result<(), OutsideFault>
        ensures cause { HasCause self.old.faults self.new.faults result }
        ensures memory { IsErrOf result OutsideFault.OutOfMemory → ⊥ }
        ensures listed { IsErrOf result OutsideFault.Failed ↔ Contains self.old.fails.items self.old.made }
        ensures made { self.new.made ≡ min (self.old.made + 1) (2 ^ 64 - 1) }
        ensures fails { self.new.fails ≡ self.old.fails }
        ensures none { self.old.fails.items ≡ [] → self.new.faults ≡ self.old.faults }
    {
        let fails = self.fails.contains(&self.made);
        self.made = self.made.saturating_add(1);
        if fails {
            self.count_fault();
            return Err(OutsideFault::Failed);
        }
        Ok(())
    }
}
