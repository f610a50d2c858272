//! A shelf in memory whose names can be listed.
ghost use Rattle.std.specs.Prelude.{◌≡◌};

use crate::case::File;
use crate::fault::Fault;
use shelf::{MemoryShelf, OutsideFault, Shelf};
use std::alloc::Global;
use std::collections::BTreeSet;

/// A shelf in memory that remembers each name which was ever put, and otherwise is that shelf. It doesn't tell which
/// calls fail, since a put that finds no memory for its name makes no call of the shelf.
#[derive(Drop)]
pub struct ListedShelf {
    shelf: MemoryShelf,
    names: BTreeSet<String>,
    /// How many numbers of failing calls it was given.
    fails: usize,
}

impl ListedShelf {
    /// A shelf with these files, a later one in place of an earlier one of its name. Of the calls that are made on it from
    /// now on, those with the numbers in `fails` will fail.
    pub fn new(alloc: Global, files: &[File], fails: &[u64]) -> Result<Self, Fault> {
        let mut shelf = ListedShelf {
            shelf: MemoryShelf::new(alloc, later(alloc, fails, files.len())?),
            names: BTreeSet::new(alloc),
            fails: fails.len(),
        };
        for file in files {
            shelf.put(alloc, file.name.as_str(), file.bytes.as_slice())?;
        }
        Ok(shelf)
    }

    /// The files that are held, by name ascending.
    pub fn files(&mut self, alloc: Global) -> Result<Vec<File>, Fault> {
        let mut files = Vec::new(alloc);
        for name in self.names.iter() {
            if let Some(bytes) = got(alloc, &mut self.shelf, name.as_str(), self.fails)? {
                let name = name.clone()?;
                files.push(File { name, bytes })?;
            }
        }
        if files.len() != self.shelf.len() {
            return Err(Fault::Object);
        }
        Ok(files)
    }
}

/// The numbers of calls, as counted where so many calls are made before. A number that is none then stands for a call
/// that is never reached.
fn later(alloc: Global, numbers: &[u64], before: usize) -> Result<Vec<u64>, Fault> {
    let mut later = Vec::new(alloc);
    for number in numbers {
        if let Some(number) = number.checked_add(before as u64) {
            later.push(number)?;
        }
    }
    Ok(later)
}

/// The bytes of a name, by the first call that doesn't fail. At most `fails` calls do.
fn got(
    alloc: Global,
    shelf: &mut MemoryShelf,
    name: &str,
    fails: usize,
) -> Result<Option<Vec<u8>>, OutsideFault> {
    for _ in 0..fails {
        match shelf.get(alloc, name) {
            Err(OutsideFault::Failed) => {}
            answer => return answer,
        }
    }
    shelf.get(alloc, name)
}

impl Shelf for ListedShelf {
    ghost held = { λ s. ⟦<MemoryShelf as Shelf>⟧.held s.shelf };

    ghost fault_count = { λ s. ⟦<MemoryShelf as Shelf>⟧.fault_count s.shelf };

    ghost calm = { λ s. ⟦<MemoryShelf as Shelf>⟧.calm s.shelf };

    ghost calm_has_no_faults = { λ s calm. calm.1 };

    fn faults(&self) -> u64 {
        self.shelf.faults()
    }

    fn get(&mut self, alloc: Global, name: &str) -> Result<Option<Vec<u8>>, OutsideFault> {
        self.shelf.get(alloc, name)
    }

    fn put(&mut self, alloc: Global, name: &str, bytes: &[u8]) -> Result<(), OutsideFault> {
        self.names.insert(String::from_str(alloc, name)?)?;
        self.shelf.put(alloc, name, bytes)
    }

    fn remove(&mut self, alloc: Global, name: &str) -> Result<(), OutsideFault> {
        self.shelf.remove(alloc, name)
    }
}
