//! The outside as the program sees it.
ghost use Rattle.std.specs.Prelude.{◌≡◌, ◌≤◌, ℕ, List, Option, None, IfOk, IfSome, OnOk, OnErr};
ghost use Rattle.std.specs.Option.{option_map};
ghost use Rattle.std.specs.FinMap as map;
ghost use Rattle.shelf.specs.Held.{Held, Put, Remove};
ghost use Rattle.shelf.specs.Causes.{HasCause, Makes, Appends, Takes, HasMore, Schedule, Follows, Fills};
ghost use Rattle.counters.specs.Counts.{Rose};

use crate::fault::{EntropyFault, OutsideFault};
use std::alloc::Global;

/// Named files. Each change is made whole or not at all.
pub trait Shelf {
    /// The bytes of each name that is held, where the shelf tells them.
    ghost held: { Self → Option Held };

    /// How often the shelf has failed. At the last value of a `u64` the count stands still.
    ghost fault_count: { Self → ℕ };

    /// The shelf has never failed and won't.
    ghost calm: { Self → Type 0 };

    /// Which calls fail, where the shelf tells it. Its calls are numbered together.
    ghost schedule: { Self → Option Schedule } = { λ _. None };

    /// How often the shelf has failed.
    fn faults(&self) -> u64
        ensures { result ≡ fault_count self.now };

    /// The bytes of a name, or `None` where the name isn't held. Nothing is changed, whatever the
    /// answer.
    ///
    /// # Errors
    /// `Failed` only where the count of faults rose, and `OutOfMemory`.
    fn get(&mut self, alloc: Global, name: &str) -> Result<Option<Vec<u8>>, OutsideFault>
        ensures found { IfOk result (λ found. IfSome (held self.old) (λ files.
            option_map (λ bytes. bytes.items) found ≡ map.get files name.now)) }
        ensures held { held self.new ≡ held self.old }
        ensures cause { HasCause (fault_count self.old) (fault_count self.new) result }
        ensures scheduled { Follows (schedule self.old) (schedule self.new) result }
        ensures calm { calm self.old → calm self.new };

    /// Gives the name these bytes, in place of those that it had.
    ///
    /// # Errors
    /// `Failed` only where the count of faults rose: what is held is then as before, or as after
    /// the whole change. `OutOfMemory`: what is held is as before.
    fn put(&mut self, alloc: Global, name: &str, bytes: &[u8]) -> Result<(), OutsideFault>
        ensures made { Makes (Put name.now bytes.now) (held self.old) (held self.new) result }
        ensures cause { HasCause (fault_count self.old) (fault_count self.new) result }
        ensures scheduled { Follows (schedule self.old) (schedule self.new) result }
        ensures calm { calm self.old → calm self.new };

    /// Takes the name away. Where it isn't held nothing changes, and the answer is `Ok`.
    ///
    /// # Errors
    /// As those of `put`.
    fn remove(&mut self, alloc: Global, name: &str) -> Result<(), OutsideFault>
        ensures made { Makes (Remove name.now) (held self.old) (held self.new) result }
        ensures cause { HasCause (fault_count self.old) (fault_count self.new) result }
        ensures scheduled { Follows (schedule self.old) (schedule self.new) result }
        ensures calm { calm self.old → calm self.new };

    ghost calm_has_no_faults: { (shelf : Self) → calm shelf → fault_count shelf ≡ 0 };
}

/// Where seeds come from.
pub trait Entropy {
    /// The seeds to come, the next one first, where the entropy tells them. Each has 32 bytes.
    ghost coming: { Self → Option (List (List ℕ)) };

    /// How often no seed could be had. At the last value of a `u64` the count stands still.
    ghost fault_count: { Self → ℕ };

    /// The entropy has never failed and won't, as long as seeds are to come.
    ghost calm: { Self → Type 0 };

    /// Which calls fail although a seed is to come, where the entropy tells it.
    ghost schedule: { Self → Option Schedule } = { λ _. None };

    /// How often no seed could be had.
    fn faults(&self) -> u64
        ensures { result ≡ fault_count self.now };

    /// Takes the next seed and writes it into `seed`.
    ///
    /// # Errors
    /// `EntropyFault` only where the count of faults rose. No seed is taken then, and what `seed`
    /// holds isn't said.
    fn fill(&mut self, seed: &mut [u8; 32]) -> Result<(), EntropyFault>
        ensures taken { OnOk result (Takes seed.new (coming self.old) (coming self.new)) }
        ensures kept { OnErr result (coming self.new ≡ coming self.old) }
        ensures later { fault_count self.old ≤ fault_count self.new }
        ensures cause { OnErr result (Rose (fault_count self.old) (fault_count self.new)) }
        ensures scheduled { Fills (schedule self.old) (schedule self.new) (coming self.old) result }
        ensures calm { calm self.old → HasMore (coming self.old) → calm self.new };

    ghost calm_has_no_faults: { (entropy : Self) → calm entropy → fault_count entropy ≡ 0 };
}

/// Where the text goes.
pub trait Sink {
    /// The bytes so far, where the sink tells them.
    ghost told: { Self → Option (List ℕ) };

    /// How often the sink has failed. At the last value of a `u64` the count stands still.
    ghost fault_count: { Self → ℕ };

    /// The sink has never failed and won't.
    ghost calm: { Self → Type 0 };

    /// Which calls fail, where the sink tells it.
    ghost schedule: { Self → Option Schedule } = { λ _. None };

    /// How often the sink has failed.
    fn faults(&self) -> u64
        ensures { result ≡ fault_count self.now };

    /// Appends all the bytes.
    ///
    /// # Errors
    /// `Failed` only where the count of faults rose: a part of the bytes from their front was
    /// appended. `OutOfMemory`: nothing was.
    fn put(&mut self, alloc: Global, bytes: &[u8]) -> Result<(), OutsideFault>
        ensures appended { Appends bytes.now (told self.old) (told self.new) result }
        ensures cause { HasCause (fault_count self.old) (fault_count self.new) result }
        ensures scheduled { Follows (schedule self.old) (schedule self.new) result }
        ensures calm { calm self.old → calm self.new };

    ghost calm_has_no_faults: { (sink : Self) → calm sink → fault_count sink ≡ 0 };
}
