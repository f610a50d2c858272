//! Sealing a document into a box and opening a box into a document: the calls, and the commands `seal NAME DOC BOX` and
//! `open NAME BOX DOC`.
ghost use Rattle.std.specs.Prelude.{◌≡◌, ◌≢◌, ◌<◌, ◌≤◌, ◌^◌, ℕ, List, length, Ok, Err, IfOk, IfSome, IfErr};
ghost use Rattle.algebra61.specs.Polynomial.{Polynomial};
ghost use Rattle.shelf.specs.Causes.{OnlyReads};
ghost use Rattle.sharefile.specs.Files.{Now};
ghost use Rattle.keyroom.specs.Causes.{IsFromPlan};
ghost use Rattle.keyroom.specs.Outcome.{AnswersAs, AnswersStep, done};
ghost use Rattle.keyroom.specs.Decoding.{HonestFiles};
ghost use Rattle.keyroom.specs.Changes.{outcome_of};
ghost use Rattle.keyroom.specs.Recover.{MeansKeyOf};
ghost use Rattle.keyroom.specs.Texts.{document_text};
ghost use Rattle.keyroom.specs.Answer.{Plans};
ghost use Rattle.keyroom.specs.Work.{work_of, asked_in, Works, KeyIsOf};
ghost use Rattle.keyroom.specs.Document.{source_of, fits, WorksUnder, WorksFrom, WorksBy, MeansWork, verb, MeansDocument};

use crate::open::open_under;
use crate::plan::Plan;
use crate::recover::recovered_from;
use crate::seal::{check_sealable, seal_under};
use crate::status::{Status, What};
use crate::steps::{Found, files_of};
use crate::text;
use crate::work::{Inputs, Prepared, Sealed, finish, inputs_of};
use field61::Fe;
use lists::OutOfMemory;
use sharefile::KeyName;
use shelf::Shelf;
use std::alloc::Global;

/// Which way a document goes.
#[derive(Clone, Copy, Debug, PartialEq, Eq)]
pub enum Direction {
    /// From a document into a box.
    Sealing,
    /// From a box into a document.
    Opening,
}

impl Direction {
    /// What is asked for.
    fn source(self) -> What
        ensures { result ≡ source_of self }
    {
        match self {
            Direction::Sealing => What::Document,
            Direction::Opening => What::Box,
        }
    }

    /// The command's word.
    fn verb(self) -> &'static str
        ensures { result.now ≡ verb self }
    {
        match self {
            Direction::Sealing => "seal",
            Direction::Opening => "open",
        }
    }
}

/// Sees that what was asked for may go this way.
fn check_fits(direction: Direction, inputs: &Inputs) -> Result<(), Status>
    ensures gives { AnswersStep (λ fit. fit) result (fits direction (asked_in inputs.now)) }
    ensures room { IfOk result (λ _. direction ≡ Direction.Sealing → inputs.now.file.next_number < 4294967295) }
    ensures short { IfOk result (λ _. direction ≡ Direction.Sealing → length inputs.now.bytes.items ≤ 2 ^ 26) }
    ensures cause { IfErr result (λ s. (before now : ℕ) → IsFromPlan before now s) }
{
    match direction {
        Direction::Sealing => check_sealable(inputs),
        Direction::Opening => Ok(()),
    }
}

/// The work under a key.
fn prepared_under(
    alloc: Global,
    direction: Direction,
    name: &KeyName,
    target: &str,
    inputs: Inputs,
    lanes: &[Fe; 5],
) -> Result<Prepared, Status>
    requires room { direction ≡ Direction.Sealing → inputs.file.next_number < 4294967295 }
    requires short { direction ≡ Direction.Sealing → length inputs.bytes.items ≤ 2 ^ 26 }
    ensures means { AnswersAs work_of (WorksUnder direction name.now target.now (asked_in inputs) lanes.now) result }
    ensures cause { IfErr result (λ s. (before now : ℕ) → IsFromPlan before now s) }
{
    match direction {
        Direction::Sealing => Ok(seal_under(alloc, name, target, inputs, lanes)?),
        Direction::Opening => open_under(alloc, name, target, inputs, lanes),
    }
}

/// The work under the key that these share files hold.
fn prepared_from(
    alloc: Global,
    direction: Direction,
    name: &KeyName,
    target: &str,
    inputs: Inputs,
    files: &[Found],
) -> Result<Prepared, Status>
    requires count { length files.now ≡ inputs.file.n }
    requires room { direction ≡ Direction.Sealing → inputs.file.next_number < 4294967295 }
    requires short { direction ≡ Direction.Sealing → length inputs.bytes.items ≤ 2 ^ 26 }
    ensures means { AnswersAs work_of (WorksFrom direction MeansKeyOf name.now target.now (asked_in inputs) files.now) result }
    ensures cause { IfErr result (λ s. (before now : ℕ) → IsFromPlan before now s) }
{
    let key = recovered_from(alloc, &inputs.file, files)?;
    prepared_under(alloc, direction, name, target, inputs, &key.lanes)
}

/// What sealing or opening will change. The shelf is only asked.
fn prepare<H: Shelf>(
    alloc: Global,
    shelf: &mut H,
    direction: Direction,
    name: &KeyName,
    source: &str,
    target: &str,
) -> Result<Prepared, Status>
    ensures reads { OnlyReads H.held H.fault_count H.calm shelf.old shelf.new }
    ensures means { IfSome (H.held shelf.old) (λ m. AnswersAs work_of (MeansWork direction name.now source.now target.now m) result) }
    ensures cause { IfErr result (IsFromPlan (H.fault_count shelf.old) (H.fault_count shelf.new)) }
{
    let inputs = inputs_of(alloc, name, target, direction.source(), source, shelf)?;
    check_fits(direction, &inputs)?;
    let files = files_of(alloc, &inputs.file, shelf)?;
    prepared_from(alloc, direction, name, target, inputs, &files)
}

/// Seals or opens, and gives the document's number and length.
fn go<H: Shelf>(
    alloc: Global,
    shelf: &mut H,
    direction: Direction,
    name: &KeyName,
    source: &str,
    target: &str,
) -> Result<Sealed, Status>
    ensures means { IfSome (H.held shelf.old) (λ m. Works (MeansWork direction name.now source.now target.now m) (H.held shelf.old) (H.held shelf.new) result) }
    ensures honest { IfSome (H.held shelf.old) (λ m. (now : Now) (polys : List Polynomial) → HonestFiles name.now now m polys →
        Works (WorksBy direction (KeyIsOf polys) name.now source.now target.now m) (H.held shelf.old) (H.held shelf.new) result) }
    ensures keyed { IfSome (H.held shelf.old) (λ m. (now : Now) (polys : List Polynomial) → HonestFiles name.now now m polys → (lane : ℕ) → result ≢ Err (Status.NoKey lane)) }
    ensures cause { IfErr result (IsFromPlan (H.fault_count shelf.old) (H.fault_count shelf.new)) }
    ensures calm { H.calm shelf.old → H.calm shelf.new }
{
    let work = prepare(alloc, shelf, direction, name, source, target)?;
    finish(alloc, &work, shelf)
}

/// Seals the document under the name `doc` into a box under the name `target`, with the key's next number, which is
/// raised before the box is put.
///
/// It refuses with `NoSuch` where the now file isn't held, `BadNow` where its bytes are no now file of this name,
/// `Exists` where the target is held, `NoSuch` where the document isn't, `Full` where the next number is 4294967295,
/// `TooLong` where the document has more than 2^26 bytes, and `NoKey` with the least lane without a nearest polynomial,
/// the first of these that holds; the shelf is then as it was. After `ShelfFault`, which comes only where the shelf's
/// count of faults rose, and after `OutOfMemory`, a part of the two changes was made, from the front.
pub fn seal_doc<H: Shelf>(
    alloc: Global,
    shelf: &mut H,
    name: &KeyName,
    doc: &str,
    target: &str,
) -> Result<Sealed, Status>
    // What sealing means is done, or a part of it where the shelf or memory fails.
    ensures means { IfSome (H.held shelf.old) (λ m. Works (MeansWork Direction.Sealing name.now doc.now target.now m) (H.held shelf.old) (H.held shelf.new) result) }
    // Where N - T valid share files lie on polynomials of degree at most T, the key is their values at 0, whatever
    // the other files are.
    ensures honest { IfSome (H.held shelf.old) (λ m. (now : Now) (polys : List Polynomial) → HonestFiles name.now now m polys →
        Works (WorksBy Direction.Sealing (KeyIsOf polys) name.now doc.now target.now m) (H.held shelf.old) (H.held shelf.new) result) }
    // There is a key then.
    ensures keyed { IfSome (H.held shelf.old) (λ m. (now : Now) (polys : List Polynomial) → HonestFiles name.now now m polys → (lane : ℕ) → result ≢ Err (Status.NoKey lane)) }
    // A fault comes only where its count rose, and no answer of other parts comes.
    ensures cause { IfErr result (IsFromPlan (H.fault_count shelf.old) (H.fault_count shelf.new)) }
    // What is calm stays so.
    ensures calm { H.calm shelf.old → H.calm shelf.new }
{
    go(alloc, shelf, Direction::Sealing, name, doc, target)
}

/// Opens the box under the name `source` into a document under the name `target`.
///
/// It refuses with `NoSuch` where the now file isn't held, `BadNow` where its bytes are no now file of this name,
/// `Exists` where the target is held, `NoSuch` where the box isn't, `NoKey` with the least lane without a nearest
/// polynomial, and `BadBox` with the first fault that holds of the box, the first of these that holds; the shelf is then
/// as it was. After `ShelfFault`, which comes only where the shelf's count of faults rose, and after `OutOfMemory`, the
/// document was put or nothing was.
pub fn open_doc<H: Shelf>(
    alloc: Global,
    shelf: &mut H,
    name: &KeyName,
    source: &str,
    target: &str,
) -> Result<Sealed, Status>
    // What opening means is done, or a part of it where the shelf or memory fails.
    ensures means { IfSome (H.held shelf.old) (λ m. Works (MeansWork Direction.Opening name.now source.now target.now m) (H.held shelf.old) (H.held shelf.new) result) }
    // Where N - T valid share files lie on polynomials of degree at most T, the key is their values at 0, whatever
    // the other files are.
    ensures honest { IfSome (H.held shelf.old) (λ m. (now : Now) (polys : List Polynomial) → HonestFiles name.now now m polys →
        Works (WorksBy Direction.Opening (KeyIsOf polys) name.now source.now target.now m) (H.held shelf.old) (H.held shelf.new) result) }
    // There is a key then.
    ensures keyed { IfSome (H.held shelf.old) (λ m. (now : Now) (polys : List Polynomial) → HonestFiles name.now now m polys → (lane : ℕ) → result ≢ Err (Status.NoKey lane)) }
    // A fault comes only where its count rose, and no answer of other parts comes.
    ensures cause { IfErr result (IsFromPlan (H.fault_count shelf.old) (H.fault_count shelf.new)) }
    // What is calm stays so.
    ensures calm { H.calm shelf.old → H.calm shelf.new }
{
    go(alloc, shelf, Direction::Opening, name, source, target)
}

/// What `seal NAME DOC BOX` or `open NAME BOX DOC` will do: the changes and the text.
pub fn plan_document<H: Shelf>(
    alloc: Global,
    direction: Direction,
    name: &KeyName,
    source: &str,
    target: &str,
    shelf: &mut H,
) -> Result<Plan, Status>
    ensures reads { OnlyReads H.held H.fault_count H.calm shelf.old shelf.new }
    ensures meaning { IfSome (H.held shelf.old) (λ m. Plans (MeansDocument direction name.now source.now target.now m) result) }
    ensures cause { IfErr result (IsFromPlan (H.fault_count shelf.old) (H.fault_count shelf.new)) }
{
    let work = prepare(alloc, shelf, direction, name, source, target)?;
    Ok(plan_of(alloc, direction, name, work)?)
}

/// The plan, with the work known.
fn plan_of(
    alloc: Global,
    direction: Direction,
    name: &KeyName,
    work: Prepared,
) -> Result<Plan, OutOfMemory>
    ensures { IfOk result (λ plan. outcome_of 0 plan ≡ done (work_of work).changes (document_text (verb direction) name.now (work_of work).number (work_of work).bytes)) }
{
    let text = text::document_text(alloc, direction.verb(), name, &work.sealed)?;
    Ok(Plan {
        changes: work.changes,
        text,
    })
}
