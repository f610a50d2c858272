//! Histories.

ghost use Rattle.std.specs.Prelude.{◌≡◌, ℕ, ◌+◌, ◌-◌, ◌^◌, ◌<◌, ◌≤◌, List, length, get_or, IfOk, IfErr, cond, eqb};
ghost use Rattle.viewshift.specs.Listed.{mask_at};
ghost use Rattle.viewshift.specs.Fits.{AreHistory, IsFault};
ghost use Rattle.viewshift.specs.Kept.{HistoryValue};

use crate::masks::{first_bad, mask_at};
use crate::phases::first_unfit;
use lists::OutOfMemory;
use playback::PhaseList;
use std::alloc::Global;
use std::marker::Model;

/// Why phases and masks are no history.
#[derive(Clone, Copy, Debug, Drop, PartialEq, Eq)]
pub enum HistoryFault {
    /// The phase at this place, counted from 0, is the first that doesn't fit; place 0 where there is no phase.
    Phase { place: u32 },
    /// All phases fit, and this period, counted from 1, is the first whose mask doesn't.
    Exposed { period: u32 },
    /// Want of memory.
    OutOfMemory,
}

impl From<OutOfMemory> for HistoryFault {
    ghost use Rattle.std.specs.Prelude.{◌≡◌};
    ghost use Rattle.viewshift.specs.declared.history.HistoryFault.TheVariants.{OutOfMemory};

    ghost from_gives = { λ _ e. e ≡ OutOfMemory };

    fn from(_e: lists::OutOfMemory) -> HistoryFault {
        HistoryFault::OutOfMemory
    }
}

/// The phases of a key, a create first, then refreshes and moves, and who is exposed in each period. Contracts see the list
/// of the phases and the list of the masks.
#[derive(Drop)]
pub struct History {
    phases: PhaseList,
    exposed: Vec<u32>,
}

impl Model for History {
    ghost use Rattle.viewshift.specs.Kept.{HistoryValue};
    ghost use Rattle.viewshift.specs.Fits.{AreHistory};

    ghost Value = { HistoryValue };

    ghost view = { λ h. record { phases = h.phases; exposed = h.exposed.items } };

    ghost invariant = { λ h. AreHistory h.phases h.exposed.items };
}

impl History {
    /// The history of these phases, with a mask for each period that names its exposed members by index: member `i` has
    /// bit `i - 1`. A missing mask is empty.
    pub fn new(alloc: Global, phases: PhaseList, exposed: Vec<u32>) -> Result<History, HistoryFault>
        requires phases { length phases < 2 ^ 32 }
        requires masks { length exposed.items < 2 ^ 32 }
        ensures given { IfOk result (λ h. h ≡ record { phases = phases; exposed = exposed.items }) }
        ensures fits { IfOk result (λ _. AreHistory phases exposed.items) }
        ensures fault { IfErr result (IsFault phases exposed.items) }
    {
        if let Some(place) = first_unfit(alloc, &phases)? {
            return Err(HistoryFault::Phase { place });
        }
        if let Some(period) = first_bad(&phases, exposed.as_slice()) {
            return Err(HistoryFault::Exposed { period });
        }
        Ok(History { phases, exposed })
    }

    // The history of lists that are known to be one.
    pub(crate) fn known(phases: PhaseList, exposed: Vec<u32>) -> History
        requires { AreHistory phases exposed.items }
        ensures { result ≡ record { phases = phases; exposed = exposed.items } }
    {
        History { phases, exposed }
    }

    // The masks.
    pub(crate) fn masks(&self) -> &[u32]
        ensures { result.now ≡ self.now.exposed }
    {
        self.exposed.as_slice()
    }

    /// The phases.
    pub fn phases(&self) -> &PhaseList
        ensures is { result.now ≡ self.now.phases }
        ensures history { AreHistory self.now.phases self.now.exposed }
    {
        &self.phases
    }

    // The mask of the period that the phase at a place begins.
    pub(crate) fn mask_after(&self, place: usize) -> u32
        ensures { result ≡ mask_at self.now.exposed place }
    {
        mask_at(self.exposed.as_slice(), place)
    }

    /// The mask of a period, counted from 1; 0 where it has none.
    pub fn exposed(&self, period: u32) -> u32
        ensures { result ≡ cond (eqb period 0) 0 (mask_at self.now.exposed (period - 1)) }
    {
        if period == 0 {
            0
        } else {
            mask_at(self.exposed.as_slice(), period as usize - 1)
        }
    }
}
