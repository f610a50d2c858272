//! From lines to endings.

use crate::case::{Case, Given};
use crate::ending::Ending;
use crate::fault::Fault;
use crate::line::{Line, read_line};
use anyhow::{Result, anyhow, ensure};
use std::alloc::Global;
use std::io::{BufRead, Write};
use std::sync::Wait;
use std::thread::Threads;

/// The cases of an input, while they are read.
#[derive(Drop)]
pub struct Replay<'a, W: Write> {
    out: &'a mut W,
    /// The case whose `end` is still to come.
    open: Option<Case>,
}

impl<'a, W: Write> Replay<'a, W> {
    /// A replay that writes to `out`, before the first line.
    pub fn new(out: &'a mut W) -> Self {
        Replay { out, open: None }
    }

    /// Reads all lines, runs each case at its end, and writes what became of it. It stops at the first line of another
    /// form, with the line's number; an end of the input within a case is one too.
    pub fn read_all<B: BufRead + Drop, R: Threads + Wait + Sync>(
        mut self,
        rt: &R,
        alloc: Global,
        input: B,
    ) -> Result<()> {
        let mut number = 1u64;
        for line in input.split(alloc, b'\n') {
            if let Err(error) = self.take(rt, alloc, &line?) {
                return Err(anyhow!("line {number}: {error}"));
            }
            number = number.saturating_add(1);
        }
        ensure!(self.open.is_none(), "line {number}: {}", Fault::OtherForm);
        Ok(())
    }

    fn take<R: Threads + Wait + Sync>(
        &mut self,
        rt: &R,
        alloc: Global,
        bytes: &[u8],
    ) -> Result<()> {
        match read_line(alloc, bytes)? {
            Line::Nothing => Ok(()),
            Line::Case { label } => Ok(self.begin(alloc, label)?),
            Line::Given(given) => Ok(self.give(given)?),
            Line::End => self.end(rt, alloc),
        }
    }

    fn begin(&mut self, alloc: Global, label: String) -> Result<(), Fault> {
        if self.open.is_some() {
            return Err(Fault::OtherForm);
        }
        self.open = Some(Case::new(alloc, label));
        Ok(())
    }

    fn give(&mut self, given: Given) -> Result<(), Fault> {
        match &mut self.open {
            Some(case) => case.give(given),
            None => Err(Fault::OtherForm),
        }
    }

    fn end<R: Threads + Wait + Sync>(&mut self, rt: &R, alloc: Global) -> Result<()> {
        let Some(case) = self.open.take() else {
            return Err(Fault::OtherForm.into());
        };
        let ending = Ending::of(rt, alloc, &case)?;
        writeln!(self.out, "case {}", case.label)?;
        ending.write(alloc, self.out)?;
        writeln!(self.out, "end")?;
        Ok(())
    }
}
