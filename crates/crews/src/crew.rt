//! What runs members.
ghost use Rattle.std.specs.Prelude.{◌≡◌, ℕ, ◌+◌, ◌-◌, ◌^◌, ◌≤◌, Option, None, IsTrue, min};
ghost use Rattle.shelf.specs.Causes.{Schedule};
ghost use Rattle.counters.specs.Counts.{Rose};
ghost use Rattle.crews.specs.Crews.{Asks};

use crate::hold::Hold;
use crate::run::Running;

/// Why a crew gives no members back.
#[derive(Clone, Copy, PartialEq, Eq, Debug)]
pub enum CrewFault {
    /// A start was refused: the crew's count of faults rose.
    NoThread,
    /// There was no memory, or no room for the threads.
    OutOfMemory,
}

/// What members are run by: it says which starts are refused, and counts. `run_all` starts the threads. The calls that ask and count want a `Running`, which `run_all` alone makes.
pub trait Crew {
    /// How many starts were refused.
    ghost fault_count: { Self → ℕ };

    /// How many members attended.
    ghost attended_count: { Self → ℕ };

    /// No start of a calm crew is refused.
    ghost calm: { Self → Type 0 };

    /// Which starts are refused, where the crew tells it.
    ghost schedule: { Self → Option Schedule } = { λ _. None };

    /// A calm crew has refused none.
    ghost calm_has_no_faults: { (crew : Self) → calm crew → fault_count crew ≡ 0 };

    /// The number of members that attended is at most its last value.
    ghost attended_has_a_last_value: { (crew : Self) → attended_count crew ≤ 2 ^ 64 - 1 };

    /// How many starts were refused. At 2^64 - 1 the number stands still.
    fn faults(&self) -> u64
        ensures { result ≡ fault_count self.now };

    /// How many members attended. At 2^64 - 1 the number stands still.
    fn attended(&self) -> u64
        ensures { result ≡ attended_count self.now };

    /// Asks for the next start. Where it is refused, the count of faults rose.
    fn next_is_refused(&mut self, running: &Running) -> bool
        ensures faults { fault_count self.old ≤ fault_count self.new }
        ensures cause { IsTrue result → Rose (fault_count self.old) (fault_count self.new) }
        ensures scheduled { Asks (schedule self.old) (schedule self.new) result }
        ensures attended { attended_count self.new ≡ attended_count self.old }
        ensures calm { calm self.old → calm self.new };

    /// Whether the calling thread attends a member for which the machine has no thread.
    fn is_patient(&self) -> bool;

    /// The member whose thread waits before it attends, where there is one.
    fn hold(&mut self, running: &Running) -> Option<Hold>
        ensures faults { fault_count self.new ≡ fault_count self.old }
        ensures scheduled { schedule self.new ≡ schedule self.old }
        ensures attended { attended_count self.new ≡ attended_count self.old }
        ensures calm { calm self.old → calm self.new };

    /// Tells that the machine had no thread for a member that nobody can attend. Where that counts as a refused start, the count of faults rose.
    fn has_no_thread(&mut self, running: &Running) -> bool
        ensures faults { fault_count self.old ≤ fault_count self.new }
        ensures cause { IsTrue result → Rose (fault_count self.old) (fault_count self.new) }
        ensures attended { attended_count self.new ≡ attended_count self.old }
        ensures calm { calm self.old → calm self.new };

    /// Counts members that attended.
    fn count(&mut self, running: &Running, members: u64)
        ensures faults { fault_count self.new ≡ fault_count self.old }
        ensures counted { attended_count self.new ≡ min (attended_count self.old + members) (2 ^ 64 - 1) }
        ensures calm { calm self.old → calm self.new };
}
