//! Seeds from the system.
ghost use Rattle.std.specs.Prelude.{◌≡◌, None};

use super::answered;
use crate::fault::EntropyFault;
use crate::outside::Entropy;
use std::random::RandomSource;

/// The system's source of random bytes, as its call `getentropy` gives them: no file is opened, so
/// nothing that stands in the place of a device can be taken for one.
#[derive(Drop)]
pub struct DeviceEntropy<'a, R: RandomSource> {
    rt: &'a R,
    faults: u64,
}

impl<'a, R: RandomSource> DeviceEntropy<'a, R> {
    /// An entropy over the system's source, with no fault counted.
    pub fn new(rt: &'a R) -> Self
        ensures { ⟦<DeviceEntropy<'a, R> as Entropy>⟧.fault_count result ≡ 0 }
    {
        DeviceEntropy { rt, faults: 0 }
    }
}

impl<'a, R: RandomSource> Entropy for DeviceEntropy<'a, R> {
    ghost coming = { λ e. None };

    ghost fault_count = { λ e. e.faults };

    ghost calm = { λ e. ⊥ };

    ghost calm_has_no_faults = { λ e calm. absurd calm };

    fn faults(&self) -> u64 {
        self.faults
    }

    fn fill(&mut self, seed: &mut [u8; 32]) -> Result<(), EntropyFault> {
        match answered(&mut self.faults, self.rt.fill_bytes(seed)) {
            Ok(()) => Ok(()),
            Err(_) => Err(EntropyFault),
        }
    }
}
