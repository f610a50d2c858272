//! Runs whole commands over a shelf, an entropy and a sink in memory, and a crew of threads, case by case. The cases come from standard input,
//! and what became of each goes to standard output, so that anyone can compare the product with an implementation of
//! their own. `docs/REPLAY.md` has both formats.
#![tactic(auto)]

mod case;
mod digits;
mod ending;
mod fault;
mod line;
mod listed;
mod replay;

use replay::Replay;
use std::io::{self, BufReader, BufWriter, Write};

fn main(rt: HostRuntime) -> anyhow::Result<()> {
    let alloc = rt.alloc();
    let input = BufReader::new(alloc, rt.reader())?;
    let mut out = BufWriter::new(alloc, io::writer(&rt))?;
    let end = Replay::new(&mut out).read_all(&rt, alloc, input);
    // What the cases before a refused line came to is put out all the same.
    out.flush()?;
    end
}
