//! What a call of the program comes to.
ghost use Rattle.std.specs.Prelude.{◌≡◌, ◌≢◌, ◌++◌, OnOk, IfOk, string_bytes, codes, decimal};
ghost use Rattle.keyroom.specs.Causes.{cause_of, IsOfShelf};
ghost use Rattle.keyroom.specs.StatusLines.{code_of, what_text, drill_text, values_text, status_line};

use docvault::BoxFault;
use drillbook::DrillFault;
use field61::FeList;
use lists::OutOfMemory;
use sharefile::FileFault;
use shelf::OutsideFault;
use std::alloc::{AllocError, AllocFailed, Global};
use std::io::ErrorKind;

/// The thing that isn't held.
#[derive(Clone, Copy, Debug, PartialEq, Eq)]
pub enum What {
    /// The key's now file.
    Now,
    /// The drill of a phase.
    Drill,
    /// The document to seal.
    Document,
    /// The box to open.
    Box,
}

/// The answer of a command. Each but `Done` has a line of its own.
#[derive(Drop)]
pub enum Status {
    /// All of the command's work was done.
    Done,
    /// The words are no command.
    Usage,
    /// The named thing isn't held on the shelf.
    NoSuch { what: What },
    /// What would be made is held already.
    Exists,
    /// So few members are left: in a refresh or a move so few have a valid share file and aren't drilled, and behind any
    /// phase so few are neither drilled, without a share file nor late. The committee needs N - T, which is `needed`.
    TooFewSound { sound: u32, needed: u32 },
    /// The files have no nearest polynomial in this lane, the least such lane.
    NoKey { lane: u32 },
    /// The old shares that a move was dealt have too many errors in this lane, the least such lane: what was opened there
    /// is the syndrome of no vector with at most T entries other than 0.
    NoWord { lane: u32, syndrome: FeList },
    /// The bytes are no box of this key, the first fault that holds of them.
    BadBox { fault: BoxFault },
    /// The number that would be raised is the last one, 4294967295.
    Full { number: u32 },
    /// The text is no drill for the phase, the first fault that holds of it.
    BadDrill { fault: DrillFault },
    /// The shelf failed, and its count of faults rose.
    ShelfFault,
    /// The source of seeds failed, and its count of faults rose.
    EntropyFault,
    /// The crew was refused a thread, and its count of faults rose.
    NoThread,
    /// The sink failed, and its count of faults rose.
    SinkFault,
    /// Memory ran out.
    OutOfMemory,
    /// The now file's bytes are no now file of this name.
    BadNow { fault: FileFault },
    /// The document has more than 2^26 bytes: so many.
    TooLong { length: u64 },
}

impl From<AllocError> for Status {
    ghost use Rattle.std.specs.Prelude.{◌≡◌};
    ghost use Rattle.keyroom.specs.declared.status.Status.TheVariants.{OutOfMemory};

    ghost from_gives = { λ _ s. s ≡ OutOfMemory };

    fn from(_: AllocError) -> Self {
        Status::OutOfMemory
    }
}

impl<T: Drop> From<AllocFailed<T>> for Status {
    ghost use Rattle.std.specs.Prelude.{◌≡◌};
    ghost use Rattle.keyroom.specs.declared.status.Status.TheVariants.{OutOfMemory};

    ghost from_gives = { λ _ s. s ≡ OutOfMemory };

    fn from(_: AllocFailed<T>) -> Self {
        Status::OutOfMemory
    }
}

impl From<OutOfMemory> for Status {
    ghost use Rattle.std.specs.Prelude.{◌≡◌};
    ghost use Rattle.keyroom.specs.declared.status.Status.TheVariants.{OutOfMemory};

    ghost from_gives = { λ _ s. s ≡ OutOfMemory };

    fn from(_: OutOfMemory) -> Self {
        Status::OutOfMemory
    }
}

fn no_such_line(alloc: Global, what: What) -> Result<String, OutOfMemory>
    ensures { IfOk result (λ s. string_bytes s ≡ codes "refused 3 nosuch " ++ what_text what) }
{
    match what {
        What::Now => Ok(format!(in alloc; "refused 3 nosuch now")?),
        What::Drill => Ok(format!(in alloc; "refused 3 nosuch drill")?),
        What::Document => Ok(format!(in alloc; "refused 3 nosuch document")?),
        What::Box => Ok(format!(in alloc; "refused 3 nosuch box")?),
    }
}

fn drill_line(alloc: Global, fault: DrillFault) -> Result<String, OutOfMemory>
    ensures { IfOk result (λ s. string_bytes s ≡ codes "refused 9 drill " ++ drill_text fault) }
{
    match fault {
        DrillFault::BadLine { line } => Ok(format!(in alloc; "refused 9 drill line {line}")?),
        DrillFault::Stranger { party, .. } => {
            Ok(format!(in alloc; "refused 9 drill stranger {party}")?)
        }
        DrillFault::TooMany { named, bound } => {
            Ok(format!(in alloc; "refused 9 drill named {named} bound {bound}")?)
        }
        DrillFault::OutOfMemory => Ok(format!(in alloc; "refused 9 drill memory")?),
    }
}

/// Appends the values, each behind a space.
fn put_values(text: &mut String, values: &FeList) -> Result<(), OutOfMemory>
    ensures { OnOk result (string_bytes text.new ≡ string_bytes text.old ++ values_text values.now) }
{
    for k in 0..values.len() {
        let value = values.at(k).get();
        write!(text, " {value}")?;
    }
    Ok(())
}

fn no_word_line(alloc: Global, lane: u32, syndrome: &FeList) -> Result<String, OutOfMemory>
    ensures { IfOk result (λ s. string_bytes s ≡ codes "refused 6 lane " ++ (decimal lane ++ (codes " syndrome" ++ values_text syndrome.now))) }
{
    let mut line = format!(in alloc; "refused 6 lane {lane} syndrome")?;
    put_values(&mut line, syndrome)?;
    Ok(line)
}

impl Status {
    /// The number that the process ends with: 0 for `Done` alone.
    pub fn code(&self) -> u8
        ensures { result ≡ code_of self.now }
    {
        match self {
            Status::Done => 0,
            Status::Usage => 2,
            Status::NoSuch { .. } => 3,
            Status::Exists => 4,
            Status::TooFewSound { .. } => 5,
            Status::NoKey { .. } => 6,
            Status::NoWord { .. } => 6,
            Status::BadBox { .. } => 7,
            Status::Full { .. } => 8,
            Status::BadDrill { .. } => 9,
            Status::ShelfFault => 10,
            Status::EntropyFault => 11,
            Status::NoThread => 12,
            Status::SinkFault => 13,
            Status::OutOfMemory => 14,
            Status::BadNow { .. } => 15,
            Status::TooLong { .. } => 16,
        }
    }

    /// The line of a refusal without a line feed, and the empty text for `Done`. The error is want of memory.
    pub fn line(&self, alloc: Global) -> Result<String, OutOfMemory>
        ensures { IfOk result (λ s. string_bytes s ≡ status_line self.now) }
    {
        match self {
            Status::Done => Ok(String::new(alloc)),
            Status::Usage => Ok(format!(in alloc; "refused 2 usage")?),
            Status::NoSuch { what } => no_such_line(alloc, *what),
            Status::Exists => Ok(format!(in alloc; "refused 4 exists")?),
            Status::TooFewSound { sound, needed } => {
                Ok(format!(in alloc; "refused 5 sound {sound} needed {needed}")?)
            }
            Status::NoKey { lane } => Ok(format!(in alloc; "refused 6 lane {lane}")?),
            Status::NoWord { lane, syndrome } => no_word_line(alloc, *lane, syndrome),
            Status::BadBox { fault } => {
                let number = fault.number();
                Ok(format!(in alloc; "refused 7 box {number}")?)
            }
            Status::Full { number } => Ok(format!(in alloc; "refused 8 full {number}")?),
            Status::BadDrill { fault } => drill_line(alloc, *fault),
            Status::ShelfFault => Ok(format!(in alloc; "refused 10 shelf")?),
            Status::EntropyFault => Ok(format!(in alloc; "refused 11 entropy")?),
            Status::NoThread => Ok(format!(in alloc; "refused 12 thread")?),
            Status::SinkFault => Ok(format!(in alloc; "refused 13 sink")?),
            Status::OutOfMemory => Ok(format!(in alloc; "refused 14 memory")?),
            Status::BadNow { fault } => {
                let number = fault.number();
                Ok(format!(in alloc; "refused 15 now {number}")?)
            }
            Status::TooLong { length } => Ok(format!(in alloc; "refused 16 length {length}")?),
        }
    }

    /// The status of words of the command line that could not be had: want of memory, or words that aren't UTF-8, which
    /// are no command.
    pub fn of_words(kind: ErrorKind) -> Status
        ensures memory { kind ≡ ErrorKind.OutOfMemory → result ≡ Status.OutOfMemory }
        ensures usage { kind ≢ ErrorKind.OutOfMemory → result ≡ Status.Usage }
    {
        match kind {
            ErrorKind::OutOfMemory => Status::OutOfMemory,
            _ => Status::Usage,
        }
    }

    /// The status of a fault of the shelf.
    pub(crate) fn of_shelf(fault: OutsideFault) -> Status
        ensures failed { fault ≡ OutsideFault.Failed → result ≡ Status.ShelfFault }
        ensures memory { fault ≡ OutsideFault.OutOfMemory → result ≡ Status.OutOfMemory }
        ensures by { IsOfShelf (cause_of result) }
    {
        match fault {
            OutsideFault::Failed => Status::ShelfFault,
            OutsideFault::OutOfMemory => Status::OutOfMemory,
        }
    }

    /// The status of a fault of the sink.
    pub(crate) fn of_sink(fault: OutsideFault) -> Status
        ensures failed { fault ≡ OutsideFault.Failed → result ≡ Status.SinkFault }
        ensures memory { fault ≡ OutsideFault.OutOfMemory → result ≡ Status.OutOfMemory }
    {
        match fault {
            OutsideFault::Failed => Status::SinkFault,
            OutsideFault::OutOfMemory => Status::OutOfMemory,
        }
    }
}
