//! A crew that refuses the starts of a list.
ghost use Rattle.std.specs.Prelude.{◌≡◌, ◌↔◌, [], Some};

use crate::Crew;
use crate::counts::Counts;
use crate::hold::Hold;
use crate::run::Running;

/// Numbers its starts from 0 on, through all its runs, and refuses those whose number is in its list. The calling thread attends a member for which the machine has no thread, where it can; that is no refused start.
#[derive(Drop)]
pub struct FailCrew {
    fails: Vec<u64>,
    starts: u64,
    counts: Counts,
}

impl FailCrew {
    /// A crew that refuses the starts of the list.
    pub fn new(fails: Vec<u64>) -> FailCrew
        ensures faults { ⟦<FailCrew as Crew>⟧.fault_count result ≡ 0 }
        ensures attended { ⟦<FailCrew as Crew>⟧.attended_count result ≡ 0 }
        ensures calm { ⟦<FailCrew as Crew>⟧.calm result ↔ (fails.items ≡ []) }
        ensures schedule { ⟦<FailCrew as Crew>⟧.schedule result ≡ Some (record { fails = fails.items; made = 0 }) }
    {
        FailCrew {
            fails,
            starts: 0,
            counts: Counts::new(),
        }
    }
}

impl Crew for FailCrew {
    ghost fault_count = { λ c. c.counts.faults };

    ghost attended_count = { λ c. c.counts.attended };

    ghost calm = { λ c. (c.fails.items ≡ []) × (c.counts.faults ≡ 0) };

    ghost schedule = { λ c. Some (record { fails = c.fails.items; made = c.starts }) };

    ghost calm_has_no_faults = { λ c calm. calm.1 };

    ghost attended_has_a_last_value = { λ c. c.counts.few };

    fn faults(&self) -> u64 {
        self.counts.faults
    }

    fn attended(&self) -> u64 {
        self.counts.attended
    }

    fn next_is_refused(&mut self, _running: &Running) -> bool {
        let refused = self.fails.contains(&self.starts);
        self.starts = self.starts.saturating_add(1);
        if refused {
            self.counts.refuse();
        }
        refused
    }

    fn is_patient(&self) -> bool {
        true
    }

    fn hold(&mut self, _running: &Running) -> Option<Hold> {
        None
    }

    fn has_no_thread(&mut self, _running: &Running) -> bool {
        false
    }

    fn count(&mut self, _running: &Running, members: u64) {
        self.counts.add(members);
    }
}
