//! What a crew counts.
ghost use Rattle.std.specs.Prelude.{◌≡◌, ◌+◌, ◌-◌, ◌^◌, ◌≤◌, min};
ghost use Rattle.counters.specs.Counts.{Rose};

use counters::raised;

/// How many starts were refused, and how many members attended. At its last value a number stands still.
#[derive(Drop)]
pub(crate) struct Counts {
    pub(crate) faults: u64,
    pub(crate) attended: u64,
    pub(crate) ghost few: { attended ≤ 2 ^ 64 - 1 },
}

impl Counts {
    pub(crate) fn new() -> Counts
        ensures { (result.faults ≡ 0) × (result.attended ≡ 0) }
    {
        Counts {
            faults: 0,
            attended: 0,
        }
    }

    // One more start was refused.
    pub(crate) fn refuse(&mut self)
        ensures rose { Rose self.old.faults self.new.faults }
        ensures later { self.old.faults ≤ self.new.faults }
        ensures attended { self.new.attended ≡ self.old.attended }
    {
        self.faults = raised(self.faults);
    }

    // So many members attended.
    pub(crate) fn add(&mut self, members: u64)
        ensures faults { self.new.faults ≡ self.old.faults }
        ensures counted { self.new.attended ≡ min (self.old.attended + members) (2 ^ 64 - 1) }
    {
        self.attended = self.attended.saturating_add(members);
    }
}
