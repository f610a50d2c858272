//! Why a text is no drill.
ghost use Rattle.std.specs.Prelude.{◌≡◌};
ghost use Rattle.drillbook.specs.declared.fault.DrillFault.TheVariants.{OutOfMemory};
ghost use Rattle.drillbook.specs.Text.{fault_number};

use lists::OutOfMemory;

/// Why a text is no drill for a setting. The first line that is refused decides; `TooMany` comes where no
/// line is. Lines count from 1.
#[derive(Clone, Copy, Debug, PartialEq, Eq)]
pub enum DrillFault {
    /// The line isn't of the form, or its round, verb or argument doesn't stand in the table for that seat and
    /// setting, or a number is above 2^64 - 1, or the same party and round stood in an earlier line; and the
    /// line is no `Stranger`.
    BadLine { line: u64 },
    /// The line has three or four words, of which the first two are numbers and the third is a verb, and the
    /// party is no seat of the setting.
    Stranger { line: u64, party: u64 },
    /// Of a committee `named` members are named, and only `bound` may be faulty. In a move the old committee
    /// is looked at first.
    TooMany { named: u32, bound: u32 },
    /// Memory ran out. It may come in place of any other answer.
    OutOfMemory,
}

impl From<OutOfMemory> for DrillFault {
    ghost from_gives = { λ _ fault. fault ≡ OutOfMemory };

    fn from(_: OutOfMemory) -> Self {
        DrillFault::OutOfMemory
    }
}

impl DrillFault {
    /// The number of the fault: its place among the variants, from 1.
    pub fn number(&self) -> u8
        ensures { result ≡ fault_number self.now }
    {
        match self {
            DrillFault::BadLine { .. } => 1,
            DrillFault::Stranger { .. } => 2,
            DrillFault::TooMany { .. } => 3,
            DrillFault::OutOfMemory => 4,
        }
    }
}
