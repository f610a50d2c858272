//! What sealing and opening a document have in common.
ghost use Rattle.std.specs.Prelude.{◌≡◌, ◌++◌, ◌∷◌, [], IfSome, IfErr, OnOk};
ghost use Rattle.shelf.specs.Held.{Put};
ghost use Rattle.shelf.specs.Causes.{OnlyReads};
ghost use Rattle.keyroom.specs.Steps.{asked_of};
ghost use Rattle.keyroom.specs.Causes.{IsFromShelf, IsFromPlan};
ghost use Rattle.keyroom.specs.Outcome.{AnswersStep};
ghost use Rattle.keyroom.specs.Changes.{changes_of};
ghost use Rattle.keyroom.specs.Work.{work_of, asked_in, Finishes};

use crate::plan::{Change, make_all};
use crate::status::{Status, What};
use crate::steps::{bytes_of, check_free, now_of};
use lists::OutOfMemory;
use sharefile::{KeyName, NowFile};
use shelf::Shelf;
use std::alloc::Global;

/// A document that was sealed or opened.
#[derive(Clone, Copy, Debug, PartialEq, Eq)]
pub struct Sealed {
    /// The document's number under its key.
    pub number: u32,
    /// How many bytes the document has.
    pub bytes: u64,
}

/// What sealing or opening will change, and what it will answer.
#[derive(Drop)]
pub(crate) struct Prepared {
    pub(crate) sealed: Sealed,
    pub(crate) changes: Vec<Change>,
}

/// The key's now file, and the bytes of the document to seal or of the box to open.
#[derive(Drop)]
pub(crate) struct Inputs {
    pub(crate) file: NowFile,
    pub(crate) bytes: Vec<u8>,
}

/// What stands under the names before the share files are asked for. It refuses as `now_of` does, with `Exists` where
/// the target is held, and with `NoSuch` where the source isn't.
pub(crate) fn inputs_of<H: Shelf>(
    alloc: Global,
    name: &KeyName,
    target: &str,
    what: What,
    source: &str,
    shelf: &mut H,
) -> Result<Inputs, Status>
    ensures reads { OnlyReads H.held H.fault_count H.calm shelf.old shelf.new }
    ensures gives { IfSome (H.held shelf.old) (λ m. AnswersStep asked_in result (asked_of name.now target.now what source.now m)) }
    ensures cause { IfErr result (IsFromPlan (H.fault_count shelf.old) (H.fault_count shelf.new)) }
{
    let file = now_of(alloc, name, shelf)?;
    check_free(alloc, target, shelf)?;
    let bytes = bytes_of(alloc, what, source, shelf)?;
    Ok(Inputs { file, bytes })
}

/// Appends a put.
pub(crate) fn push_put(
    alloc: Global,
    changes: &mut Vec<Change>,
    name: &str,
    bytes: Vec<u8>,
) -> Result<(), OutOfMemory>
    ensures { OnOk result (changes_of changes.new.items ≡ changes_of changes.old.items ++ Put name.now bytes.items ∷ []) }
{
    let name = String::from_str(alloc, name)?;
    changes.push(Change::Put { name, bytes })?;
    Ok(())
}

/// Makes the changes, and gives the document's number and length.
pub(crate) fn finish<H: Shelf>(
    alloc: Global,
    work: &Prepared,
    shelf: &mut H,
) -> Result<Sealed, Status>
    ensures finished { Finishes (work_of work.now) (H.held shelf.old) (H.held shelf.new) result }
    ensures cause { IfErr result (IsFromShelf (H.fault_count shelf.old) (H.fault_count shelf.new)) }
    ensures calm { H.calm shelf.old → H.calm shelf.new }
{
    match make_all(alloc, &work.changes, shelf) {
        Ok(()) => Ok(work.sealed),
        Err(fault) => Err(Status::of_shelf(fault)),
    }
}
