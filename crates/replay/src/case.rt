//! A case: a command's words, and what it is run over.

use crate::fault::Fault;
use std::alloc::Global;

/// A file of a shelf.
#[derive(Drop)]
pub struct File {
    pub name: String,
    pub bytes: Vec<u8>,
}

/// One thing that a case is given.
#[derive(Drop)]
pub enum Given {
    /// The command's words.
    Words(Vec<String>),
    /// One further seed.
    Seed([u8; 32]),
    /// A file that is on the shelf before the command.
    Held(File),
    /// Numbers of the shelf's calls that fail, counted from 0 in the command.
    ShelfFails(Vec<u64>),
    /// Numbers of the entropy's calls that fail.
    EntropyFails(Vec<u64>),
    /// Numbers of the crew's starts that are refused.
    CrewFails(Vec<u64>),
    /// A round and a seat that is cut in it.
    Cut((u32, u32)),
    /// Numbers of the sink's calls that fail.
    SinkFails(Vec<u64>),
}

/// A command with what it is run over.
#[derive(Drop)]
pub struct Case {
    pub label: String,
    /// None before they are given.
    pub words: Option<Vec<String>>,
    pub seeds: Vec<[u8; 32]>,
    pub held: Vec<File>,
    pub shelf_fails: Vec<u64>,
    pub entropy_fails: Vec<u64>,
    pub crew_fails: Vec<u64>,
    pub cut: Vec<(u32, u32)>,
    pub sink_fails: Vec<u64>,
}

impl Case {
    /// A case with this label that was given nothing yet.
    pub fn new(alloc: Global, label: String) -> Self {
        Case {
            label,
            words: None,
            seeds: Vec::new(alloc),
            held: Vec::new(alloc),
            shelf_fails: Vec::new(alloc),
            entropy_fails: Vec::new(alloc),
            crew_fails: Vec::new(alloc),
            cut: Vec::new(alloc),
            sink_fails: Vec::new(alloc),
        }
    }

    /// Gives the case one thing more.
    ///
    /// # Errors
    /// `OtherForm` where it has its words already and is given words, and `OutOfMemory`.
    pub fn give(&mut self, given: Given) -> Result<(), Fault> {
        match given {
            Given::Words(words) => return self.give_words(words),
            Given::Seed(seed) => self.seeds.push(seed)?,
            Given::Held(file) => self.held.push(file)?,
            Given::ShelfFails(numbers) => self.shelf_fails.extend_from_slice(&numbers)?,
            Given::EntropyFails(numbers) => self.entropy_fails.extend_from_slice(&numbers)?,
            Given::CrewFails(numbers) => self.crew_fails.extend_from_slice(&numbers)?,
            Given::Cut(pair) => self.cut.push(pair)?,
            Given::SinkFails(numbers) => self.sink_fails.extend_from_slice(&numbers)?,
        }
        Ok(())
    }

    fn give_words(&mut self, words: Vec<String>) -> Result<(), Fault> {
        if self.words.is_some() {
            return Err(Fault::OtherForm);
        }
        self.words = Some(words);
        Ok(())
    }
}
