//! The program over the current folder, the system's entropy, threads of its own and standard output.
#![tactic(auto)]

use committee::{Status, run};
use crews::ThreadCrew;
use keyroom::{Command, read_words};
use paces::TurnPace;
use shelf::{DeviceEntropy, FolderShelf, MemoryShelf, OutSink, Shelf};
use std::alloc::Global;
use std::io::ErrorKind;
use std::process::ExitCode;
use std::sync::Wait;
use std::thread::Threads;
use std::{env, io};

/// Four megabytes: more than a phase frees at a time, and little beside a document.
const LARGE_BLOCK: usize = 4194304;

/// How often a round is looked at before the seats that are missing in it are cut. Between two looks the program sleeps for a
/// moment, so this is some days.
const TURNS: u64 = 4294967296;

/// The words of the command line, without the program's own name.
fn words(rt: &HostRuntime) -> io::Result<Vec<String>> {
    let mut words = Vec::new(rt.alloc());
    for word in env::args(rt)?.skip(1) {
        words.push(word)?;
    }
    Ok(words)
}

/// The current folder, locked for what the command does there: those that only ask share it, and
/// any other has it to itself. A rehearsal needs none.
fn folder_for<'a>(
    rt: &'a HostRuntime,
    command: &Command<'a>,
) -> io::Result<Option<FolderShelf<'a, HostRuntime>>> {
    let folder = match command {
        Command::Recover { .. } | Command::Check { .. } => FolderShelf::open_shared(rt)?,
        Command::Seal { target, .. } | Command::Open { target, .. } => {
            FolderShelf::open_exclusive(rt, Some(*target))?
        }
        Command::Create { .. } | Command::Refresh { .. } | Command::Move { .. } => {
            FolderShelf::open_exclusive(rt, None)?
        }
        Command::Rehearse { .. } => return Ok(None),
    };
    Ok(Some(folder))
}

/// Has the C library keep memory that is given back, up to some megabytes, in place of handing the end of its heap to the
/// system at each chance: a phase would have it back at once. One large block that is taken and given back tells it so.
/// Nothing of it is touched, and where there is none nothing is lost.
fn keep_freed_memory(alloc: Global) {
    let _ = Vec::<u8>::with_capacity(alloc, LARGE_BLOCK);
}

/// Runs the words over this shelf and the real entropy, crew and sink. The runtime is handed in twice: for files and
/// streams, and for threads.
fn run_over<H: Shelf, R: Threads + Wait + Sync>(
    host: &HostRuntime,
    rt: &R,
    words: &[String],
    shelf: &mut H,
) -> Status {
    let mut entropy = DeviceEntropy::new(host);
    let mut out = OutSink::new(io::writer(host));
    let mut crew = ThreadCrew::new();
    let mut pace = TurnPace::new(TURNS);
    run(
        rt,
        host.alloc(),
        words,
        shelf,
        &mut entropy,
        &mut crew,
        &mut pace,
        &mut out,
    )
}

/// Runs the command over the folder that it needs, or over an empty shelf in memory where it needs none. Words that aren't
/// UTF-8 are no command. The folder stays locked until this ends.
fn status_of<R: Threads + Wait + Sync>(host: &HostRuntime, rt: &R) -> Status {
    let words = match words(host) {
        Ok(words) => words,
        Err(error) if error.kind() == ErrorKind::OutOfMemory => return Status::OutOfMemory,
        Err(_) => return Status::Usage,
    };
    let Some(command) = read_words(&words) else {
        return Status::Usage;
    };
    match folder_for(host, &command) {
        Ok(Some(mut folder)) => run_over(host, rt, &words, &mut folder),
        Ok(None) => {
            let mut none = MemoryShelf::new(host.alloc(), Vec::new(host.alloc()));
            run_over(host, rt, &words, &mut none)
        }
        Err(_) => Status::ShelfFault,
    }
}

/// Prints the line of a refusal. That of refused memory takes none, so it is there where no memory is.
fn print_refusal(host: &HostRuntime, status: &Status) {
    match status {
        Status::Done => {}
        Status::OutOfMemory => {
            let _ = eprintln!(host; "refused 14 memory");
        }
        _ => {
            if let Ok(line) = status.line(host.alloc()) {
                let _ = eprintln!(host; "{line}");
            }
        }
    }
}

fn main(rt: HostRuntime) -> ExitCode {
    keep_freed_memory(rt.alloc());
    let status = status_of(&rt, &rt);
    print_refusal(&rt, &status);
    ExitCode::from(status.code())
}
