//! What becomes of a case.

use crate::case::{Case, File};
use crate::digits::digits_of;
use crate::fault::Fault;
use crate::listed::ListedShelf;
use committee::run;
use crews::FailCrew;
use paces::ScriptPace;
use shelf::{Entropy, MemoryEntropy, MemorySink};
use std::alloc::Global;
use std::io::{self, Write};
use std::sync::Wait;
use std::thread::Threads;

/// What a command came to.
#[derive(Drop)]
pub struct Ending {
    /// The status' number and its line.
    code: u8,
    line: String,
    /// What the sink got.
    told: Vec<u8>,
    /// What is then held, by name ascending.
    held: Vec<File>,
    /// How many seeds are left.
    left: usize,
}

impl Ending {
    /// Runs the command of a case.
    pub fn of<R: Threads + Wait + Sync>(rt: &R, alloc: Global, case: &Case) -> Result<Self, Fault> {
        let mut shelf = ListedShelf::new(alloc, &case.held, &case.shelf_fails)?;
        let mut entropy = entropy_of(case)?;
        let mut crew = FailCrew::new(case.crew_fails.clone()?);
        let mut pace = ScriptPace::new(case.cut.clone()?);
        let mut sink = MemorySink::new(alloc, case.sink_fails.clone()?);
        let words = case.words.as_deref().unwrap_or(&[]);
        let status = run(
            rt,
            alloc,
            words,
            &mut shelf,
            &mut entropy,
            &mut crew,
            &mut pace,
            &mut sink,
        );
        Ok(Ending {
            code: status.code(),
            line: status.line(alloc)?,
            told: sink.bytes().to_vec(alloc)?,
            held: shelf.files(alloc)?,
            left: seeds_left(case, &mut entropy),
        })
    }

    /// Writes the lines between `case` and `end`.
    pub fn write<W: Write>(&self, alloc: Global, out: &mut W) -> io::Result<()> {
        writeln!(out, "code {}", self.code)?;
        write_worded(out, "line", self.line.as_bytes())?;
        write_told(out, &self.told)?;
        for file in &self.held {
            let digits = digits_of(alloc, &file.bytes)?;
            writeln!(out, "held {} {digits}", file.name)?;
        }
        writeln!(out, "left {}", self.left)
    }
}

fn entropy_of(case: &Case) -> Result<MemoryEntropy, Fault> {
    let seeds = case.seeds.clone()?;
    let fails = case.entropy_fails.clone()?;
    Ok(MemoryEntropy::new(seeds, fails))
}

/// How many seeds are left. So many calls are enough to take them all, whichever of them fail.
fn seeds_left(case: &Case, entropy: &mut MemoryEntropy) -> usize {
    let mut seed = [0; 32];
    let mut left = 0usize;
    for _ in 0..case.seeds.len().saturating_add(case.entropy_fails.len()) {
        if entropy.fill(&mut seed).is_ok() {
            left = left.saturating_add(1);
        }
    }
    left
}

/// Writes a line of a word and a text, or of the word alone where the text is empty.
fn write_worded<W: Write>(out: &mut W, word: &str, text: &[u8]) -> io::Result<()> {
    out.write_all(word.as_bytes())?;
    if !text.is_empty() {
        out.write_all(b" ")?;
        out.write_all(text)?;
    }
    out.write_all(b"\n")
}

/// Writes what the sink got: a line for each line of it, and one for what has no line feed behind it.
fn write_told<W: Write>(out: &mut W, told: &[u8]) -> io::Result<()> {
    for piece in told.split_inclusive(|byte| *byte == b'\n') {
        match piece.strip_suffix(b"\n") {
            Some(line) => write_worded(out, "text", line)?,
            None => write_worded(out, "part", piece)?,
        }
    }
    Ok(())
}
