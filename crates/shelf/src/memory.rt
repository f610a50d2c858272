//! A shelf, an entropy and a sink in memory. They tell everything, and the calls whose numbers they
//! were given fail.
ghost use Rattle.std.specs.Prelude.{◌≡◌, ◌↔◌, ◌++◌, [], drop, true, false, Some, IfOk, IfSome, IsErrOf};
ghost use Rattle.std.specs.FinMap as map;
ghost use Rattle.std.specs.Option.{option_map};
ghost use Rattle.shelf.specs.Held.{Put, Remove, after_change};
ghost use Rattle.shelf.specs.Causes.{HasCause, Makes, Follows};
ghost use Rattle.shelf.specs.Memory.{held_in, schedule_of, makes_failing};

use crate::calls::Calls;
use crate::fault::{EntropyFault, OutsideFault};
use crate::outside::{Entropy, Shelf, Sink};
use std::alloc::Global;
use std::collections::BTreeMap;

/// A shelf in memory.
///
/// Its calls of `get`, `put` and `remove` are numbered together from 0, and those whose numbers
/// are in its list answer `Failed`. A failing change of a shelf from `new` changes nothing. One of
/// a shelf from `made` is made all the same, as by a disk that is lost before it answers.
#[derive(Drop)]
pub struct MemoryShelf {
    files: BTreeMap<String, Vec<u8>>,
    calls: Calls,
    makes_failing: bool,
}

impl MemoryShelf {
    /// A shelf that holds nothing. The calls with the numbers in `fails` will fail and change
    /// nothing.
    pub fn new(alloc: Global, fails: Vec<u64>) -> Self
        ensures held { ⟦<MemoryShelf as Shelf>⟧.held result ≡ Some map.empty }
        ensures faults { ⟦<MemoryShelf as Shelf>⟧.fault_count result ≡ 0 }
        ensures calm { ⟦<MemoryShelf as Shelf>⟧.calm result ↔ (fails.items ≡ []) }
        ensures schedule { ⟦<MemoryShelf as Shelf>⟧.schedule result ≡ Some (record { fails = fails.items; made = 0 }) }
        ensures keeps { makes_failing result ≡ false }
    {
        MemoryShelf {
            files: BTreeMap::new(alloc),
            calls: Calls::new(fails),
            makes_failing: false,
        }
    }

    /// A shelf that holds nothing. The calls with the numbers in `fails` will fail: a `put` or a
    /// `remove` among them makes its whole change and then answers `Failed`.
    pub fn made(alloc: Global, fails: Vec<u64>) -> Self
        ensures held { ⟦<MemoryShelf as Shelf>⟧.held result ≡ Some map.empty }
        ensures faults { ⟦<MemoryShelf as Shelf>⟧.fault_count result ≡ 0 }
        ensures calm { ⟦<MemoryShelf as Shelf>⟧.calm result ↔ (fails.items ≡ []) }
        ensures schedule { ⟦<MemoryShelf as Shelf>⟧.schedule result ≡ Some (record { fails = fails.items; made = 0 }) }
        ensures makes { makes_failing result ≡ true }
    {
        MemoryShelf {
            files: BTreeMap::new(alloc),
            calls: Calls::new(fails),
            makes_failing: true,
        }
    }

    /// Gives the name these bytes, and counts no call.
    fn hold(&mut self, alloc: Global, name: &str, bytes: &[u8]) -> Result<(), OutsideFault>
        ensures made { Makes (Put name.now bytes.now) (⟦<MemoryShelf as Shelf>⟧.held self.old) (⟦<MemoryShelf as Shelf>⟧.held self.new) result }
        ensures memory { IsErrOf result OutsideFault.Failed → ⊥ }
        ensures calls { self.new.calls ≡ self.old.calls }
        ensures kind { makes_failing self.new ≡ makes_failing self.old }
    {
        let name = String::from_str(alloc, name)?;
        let bytes = bytes.to_vec(alloc)?;
        self.files.insert(name, bytes)?;
        Ok(())
    }

    /// Takes the name away, and counts no call.
    fn take_away(&mut self, name: &str)
        ensures gone { ⟦<MemoryShelf as Shelf>⟧.held self.new ≡ option_map (after_change (Remove name.now)) (⟦<MemoryShelf as Shelf>⟧.held self.old) }
        ensures calls { self.new.calls ≡ self.old.calls }
        ensures kind { makes_failing self.new ≡ makes_failing self.old }
    {
        self.files.remove(name);
    }

    /// How many names are held.
    pub fn len(&self) -> usize
        ensures { IfSome (⟦<MemoryShelf as Shelf>⟧.held self.now) (λ files. result ≡ map.len files) }
    {
        self.files.len()
    }
}

impl Shelf for MemoryShelf {
    ghost held = { λ s. Some (held_in s.files) };

    ghost fault_count = { λ s. s.calls.faults };

    ghost calm = { λ s. (s.calls.fails.items ≡ []) × (s.calls.faults ≡ 0) };

    ghost schedule = { λ s. Some (schedule_of s.calls) };

    ghost calm_has_no_faults = { λ s calm. calm.1 };

    fn faults(&self) -> u64 {
        self.calls.faults
    }

    fn get(&mut self, alloc: Global, name: &str) -> Result<Option<Vec<u8>>, OutsideFault>
        ensures found { IfOk result (λ found. IfSome (⟦<MemoryShelf as Shelf>⟧.held self.old) (λ files.
            option_map (λ bytes. bytes.items) found ≡ map.get files name.now)) }
        ensures held { ⟦<MemoryShelf as Shelf>⟧.held self.new ≡ ⟦<MemoryShelf as Shelf>⟧.held self.old }
        ensures cause { HasCause (⟦<MemoryShelf as Shelf>⟧.fault_count self.old) (⟦<MemoryShelf as Shelf>⟧.fault_count self.new) result }
        ensures scheduled { Follows (⟦<MemoryShelf as Shelf>⟧.schedule self.old) (⟦<MemoryShelf as Shelf>⟧.schedule self.new) result }
        ensures calm { ⟦<MemoryShelf as Shelf>⟧.calm self.old → ⟦<MemoryShelf as Shelf>⟧.calm self.new }
        ensures kind { makes_failing self.new ≡ makes_failing self.old }
    {
        self.calls.next()?;
        match self.files.get(name) {
            None => Ok(None),
            Some(bytes) => Ok(Some(bytes.to_vec(alloc)?)),
        }
    }

    /// A failing call of a shelf from `made` changes nothing where memory runs out in it.
    fn put(&mut self, alloc: Global, name: &str, bytes: &[u8]) -> Result<(), OutsideFault>
        ensures made { Makes (Put name.now bytes.now) (⟦<MemoryShelf as Shelf>⟧.held self.old) (⟦<MemoryShelf as Shelf>⟧.held self.new) result }
        ensures cause { HasCause (⟦<MemoryShelf as Shelf>⟧.fault_count self.old) (⟦<MemoryShelf as Shelf>⟧.fault_count self.new) result }
        ensures scheduled { Follows (⟦<MemoryShelf as Shelf>⟧.schedule self.old) (⟦<MemoryShelf as Shelf>⟧.schedule self.new) result }
        ensures calm { ⟦<MemoryShelf as Shelf>⟧.calm self.old → ⟦<MemoryShelf as Shelf>⟧.calm self.new }
        ensures kind { makes_failing self.new ≡ makes_failing self.old }
        ensures failing_keeps { makes_failing self.old ≡ false → IsErrOf result OutsideFault.Failed → ⟦<MemoryShelf as Shelf>⟧.held self.new ≡ ⟦<MemoryShelf as Shelf>⟧.held self.old }
    {
        match self.calls.next() {
            Ok(()) => self.hold(alloc, name, bytes),
            Err(fault) => {
                if self.makes_failing {
                    let _ = self.hold(alloc, name, bytes);
                }
                Err(fault)
            }
        }
    }

    fn remove(&mut self, _alloc: Global, name: &str) -> Result<(), OutsideFault>
        ensures made { Makes (Remove name.now) (⟦<MemoryShelf as Shelf>⟧.held self.old) (⟦<MemoryShelf as Shelf>⟧.held self.new) result }
        ensures cause { HasCause (⟦<MemoryShelf as Shelf>⟧.fault_count self.old) (⟦<MemoryShelf as Shelf>⟧.fault_count self.new) result }
        ensures scheduled { Follows (⟦<MemoryShelf as Shelf>⟧.schedule self.old) (⟦<MemoryShelf as Shelf>⟧.schedule self.new) result }
        ensures calm { ⟦<MemoryShelf as Shelf>⟧.calm self.old → ⟦<MemoryShelf as Shelf>⟧.calm self.new }
        ensures kind { makes_failing self.new ≡ makes_failing self.old }
        ensures failing_keeps { makes_failing self.old ≡ false → IsErrOf result OutsideFault.Failed → ⟦<MemoryShelf as Shelf>⟧.held self.new ≡ ⟦<MemoryShelf as Shelf>⟧.held self.old }
        ensures failing_makes { makes_failing self.old ≡ true → IsErrOf result OutsideFault.Failed → ⟦<MemoryShelf as Shelf>⟧.held self.new ≡ option_map (after_change (Remove name.now)) (⟦<MemoryShelf as Shelf>⟧.held self.old) }
    {
        let called = self.calls.next();
        if called.is_ok() || self.makes_failing {
            self.take_away(name);
        }
        called
    }
}

/// An entropy in memory, which gives the seeds of a list one after another.
///
/// Its calls of `fill` are numbered from 0, and those whose numbers are in its list fail and take
/// no seed. A call for which no seed is left fails too, and counts it.
#[derive(Drop)]
pub struct MemoryEntropy {
    seeds: Vec<[u8; 32]>,
    taken: usize,
    calls: Calls,
}

impl MemoryEntropy {
    /// An entropy that will give these seeds, the first of them first. The calls with the numbers
    /// in `fails` will fail.
    pub fn new(seeds: Vec<[u8; 32]>, fails: Vec<u64>) -> Self
        ensures coming { ⟦<MemoryEntropy as Entropy>⟧.coming result ≡ Some seeds.items }
        ensures faults { ⟦<MemoryEntropy as Entropy>⟧.fault_count result ≡ 0 }
        ensures calm { ⟦<MemoryEntropy as Entropy>⟧.calm result ↔ (fails.items ≡ []) }
        ensures schedule { ⟦<MemoryEntropy as Entropy>⟧.schedule result ≡ Some (record { fails = fails.items; made = 0 }) }
    {
        MemoryEntropy {
            seeds,
            taken: 0,
            calls: Calls::new(fails),
        }
    }
}

impl Entropy for MemoryEntropy {
    ghost coming = { λ e. Some (drop e.taken e.seeds.items) };

    ghost fault_count = { λ e. e.calls.faults };

    ghost calm = { λ e. (e.calls.fails.items ≡ []) × (e.calls.faults ≡ 0) };

    ghost schedule = { λ e. Some (schedule_of e.calls) };

    ghost calm_has_no_faults = { λ e calm. calm.1 };

    fn faults(&self) -> u64 {
        self.calls.faults
    }

    fn fill(&mut self, seed: &mut [u8; 32]) -> Result<(), EntropyFault> {
        if self.calls.next().is_err() {
            return Err(EntropyFault);
        }
        match self.seeds.get(self.taken) {
            Some(next) => {
                *seed = *next;
                self.taken += 1;
                Ok(())
            }
            None => {
                self.calls.count_fault();
                Err(EntropyFault)
            }
        }
    }
}

/// A sink in memory.
///
/// Its calls of `put` are numbered from 0, and those whose numbers are in its list answer `Failed`
/// and append nothing.
#[derive(Drop)]
pub struct MemorySink {
    bytes: Vec<u8>,
    calls: Calls,
}

impl MemorySink {
    /// A sink that was given nothing yet. The calls with the numbers in `fails` will fail.
    pub fn new(alloc: Global, fails: Vec<u64>) -> Self
        ensures told { ⟦<MemorySink as Sink>⟧.told result ≡ Some [] }
        ensures faults { ⟦<MemorySink as Sink>⟧.fault_count result ≡ 0 }
        ensures calm { ⟦<MemorySink as Sink>⟧.calm result ↔ (fails.items ≡ []) }
        ensures schedule { ⟦<MemorySink as Sink>⟧.schedule result ≡ Some (record { fails = fails.items; made = 0 }) }
    {
        MemorySink {
            bytes: Vec::new(alloc),
            calls: Calls::new(fails),
        }
    }

    /// The bytes so far.
    pub fn bytes(&self) -> &[u8]
        ensures { ⟦<MemorySink as Sink>⟧.told self.now ≡ Some result.now }
    {
        &self.bytes
    }
}

impl Sink for MemorySink {
    ghost told = { λ s. Some s.bytes.items };

    ghost fault_count = { λ s. s.calls.faults };

    ghost calm = { λ s. (s.calls.fails.items ≡ []) × (s.calls.faults ≡ 0) };

    ghost schedule = { λ s. Some (schedule_of s.calls) };

    ghost calm_has_no_faults = { λ s calm. calm.1 };

    fn faults(&self) -> u64 {
        self.calls.faults
    }

    fn put(&mut self, _alloc: Global, bytes: &[u8]) -> Result<(), OutsideFault> {
        self.calls.next()?;
        self.bytes.extend_from_slice(bytes)?;
        Ok(())
    }
}
