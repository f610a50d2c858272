//! A crew that holds one of its threads.
ghost use Rattle.std.specs.Prelude.{◌≡◌};

use crate::Crew;
use crate::counts::Counts;
use crate::hold::Hold;
use crate::run::Running;
use std::alloc::Global;
use std::sync::Arc;
use std::sync::atomic::AtomicBool;

/// As `ThreadCrew`, but in its first run the thread of one member waits for a flag before the member attends. For tests.
#[derive(Drop)]
pub struct HoldCrew {
    counts: Counts,
    hold: Option<Hold>,
}

impl HoldCrew {
    /// A crew that has done nothing yet, and holds the member on this place, which counts from 0.
    pub fn new(place: u32, flag: Arc<AtomicBool, Global>) -> HoldCrew
        ensures faults { ⟦<HoldCrew as Crew>⟧.fault_count result ≡ 0 }
        ensures attended { ⟦<HoldCrew as Crew>⟧.attended_count result ≡ 0 }
    {
        HoldCrew {
            counts: Counts::new(),
            hold: Some(Hold { place, flag }),
        }
    }
}

impl Crew for HoldCrew {
    ghost fault_count = { λ c. c.counts.faults };

    ghost attended_count = { λ c. c.counts.attended };

    ghost calm = { λ c. ⊥ };

    ghost calm_has_no_faults = { λ c calm. absurd calm };

    ghost attended_has_a_last_value = { λ c. c.counts.few };

    fn faults(&self) -> u64 {
        self.counts.faults
    }

    fn attended(&self) -> u64 {
        self.counts.attended
    }

    fn next_is_refused(&mut self, _running: &Running) -> bool {
        false
    }

    fn is_patient(&self) -> bool {
        false
    }

    fn hold(&mut self, _running: &Running) -> Option<Hold> {
        self.hold.take()
    }

    fn has_no_thread(&mut self, _running: &Running) -> bool {
        self.counts.refuse();
        true
    }

    fn count(&mut self, _running: &Running, members: u64) {
        self.counts.add(members);
    }
}
