//! A crew of real threads.
ghost use Rattle.std.specs.Prelude.{◌≡◌};

use crate::Crew;
use crate::counts::Counts;
use crate::hold::Hold;
use crate::run::Running;

/// Refuses no start of its own. A thread that the machine refuses is a refused start.
#[derive(Drop)]
pub struct ThreadCrew {
    counts: Counts,
}

impl ThreadCrew {
    /// A crew that has done nothing yet.
    pub fn new() -> ThreadCrew
        ensures faults { ⟦<ThreadCrew as Crew>⟧.fault_count result ≡ 0 }
        ensures attended { ⟦<ThreadCrew as Crew>⟧.attended_count result ≡ 0 }
    {
        ThreadCrew {
            counts: Counts::new(),
        }
    }
}

impl Crew for ThreadCrew {
    ghost fault_count = { λ c. c.counts.faults };

    ghost attended_count = { λ c. c.counts.attended };

    ghost calm = { λ c. ⊥ };

    ghost calm_has_no_faults = { λ c calm. absurd calm };

    ghost attended_has_a_last_value = { λ c. c.counts.few };

    fn faults(&self) -> u64 {
        self.counts.faults
    }

    fn attended(&self) -> u64 {
        self.counts.attended
    }

    fn next_is_refused(&mut self, _running: &Running) -> bool {
        false
    }

    fn is_patient(&self) -> bool {
        false
    }

    fn hold(&mut self, _running: &Running) -> Option<Hold> {
        None
    }

    fn has_no_thread(&mut self, _running: &Running) -> bool {
        self.counts.refuse();
        true
    }

    fn count(&mut self, _running: &Running, members: u64) {
        self.counts.add(members);
    }
}
