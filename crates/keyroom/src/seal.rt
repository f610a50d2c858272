//! Sealing a document under a key.
ghost use Rattle.std.specs.Prelude.{◌≡◌, ◌<◌, ◌≤◌, ◌^◌, ◌++◌, ◌∷◌, [], ℕ, List, length, IfOk, IfErr, OnOk};
ghost use Rattle.shelf.specs.Held.{Put};
ghost use Rattle.sharefile.specs.Files.{now_bytes};
ghost use Rattle.docvault.specs.Box.{IsBox};
ghost use Rattle.keyroom.specs.Names.{now_name};
ghost use Rattle.keyroom.specs.Steps.{sealable};
ghost use Rattle.keyroom.specs.Causes.{IsFromPlan};
ghost use Rattle.keyroom.specs.Outcome.{AnswersStep};
ghost use Rattle.keyroom.specs.Changes.{changes_of};
ghost use Rattle.keyroom.specs.Work.{work_of, asked_in};
ghost use Rattle.keyroom.specs.Seal.{raised, seal_changes, seal_work};

use crate::plan::Change;
use crate::status::Status;
use crate::text;
use crate::work::{Inputs, Prepared, Sealed, push_put};
use docvault::seal_in_place;
use field61::Fe;
use lists::OutOfMemory;
use sharefile::{KeyName, NowFile, write_now};
use std::alloc::Global;

/// How many bytes a document may have: 2^26.
const LONGEST: usize = 67108864;

/// Sees that the key has another number, and that the document isn't too long.
pub(crate) fn check_sealable(inputs: &Inputs) -> Result<(), Status>
    ensures gives { AnswersStep (λ fit. fit) result (sealable (asked_in inputs.now)) }
    ensures room { IfOk result (λ _. inputs.now.file.next_number < 4294967295) }
    ensures short { IfOk result (λ _. length inputs.now.bytes.items ≤ 2 ^ 26) }
    ensures cause { IfErr result (λ s. (before now : ℕ) → IsFromPlan before now s) }
{
    let number = inputs.file.next_number;
    if number == u32::MAX {
        return Err(Status::Full { number });
    }
    if inputs.bytes.len() > LONGEST {
        let length = inputs.bytes.len() as u64;
        return Err(Status::TooLong { length });
    }
    Ok(())
}

/// The now file with the next number raised.
fn raised(now: &NowFile) -> NowFile
    requires { now.now.next_number < 4294967295 }
    ensures { result ≡ raised now.now }
{
    NowFile {
        next_number: now.next_number + 1,
        ..*now
    }
}

/// Appends the put of the now file with the next number raised.
fn push_raised(
    alloc: Global,
    changes: &mut Vec<Change>,
    name: &KeyName,
    now: &NowFile,
) -> Result<(), OutOfMemory>
    requires { now.now.next_number < 4294967295 }
    ensures { OnOk result (changes_of changes.new.items ≡ changes_of changes.old.items ++ Put (now_name name.now) (now_bytes (raised now.now)) ∷ []) }
{
    let file = text::now_name(alloc, name)?;
    let bytes = write_now(alloc, &raised(now))?;
    push_put(alloc, changes, file.as_str(), bytes)
}

/// The changes of a seal: the raised now file is put before the box, so that no number is taken twice.
fn changes_with(
    alloc: Global,
    name: &KeyName,
    target: &str,
    now: &NowFile,
    sealed: Vec<u8>,
) -> Result<Vec<Change>, OutOfMemory>
    requires { now.now.next_number < 4294967295 }
    ensures { IfOk result (λ changes. changes_of changes.items ≡ seal_changes name.now target.now now.now sealed.items) }
{
    let mut changes = Vec::new(alloc);
    push_raised(alloc, &mut changes, name, now)?;
    push_put(alloc, &mut changes, target, sealed)?;
    Ok(changes)
}

/// The work of sealing under a key.
pub(crate) fn seal_under(
    alloc: Global,
    name: &KeyName,
    target: &str,
    inputs: Inputs,
    lanes: &[Fe; 5],
) -> Result<Prepared, OutOfMemory>
    requires room { inputs.file.next_number < 4294967295 }
    requires short { length inputs.bytes.items ≤ 2 ^ 26 }
    ensures { IfOk result (λ work. (bytes : List ℕ) × IsBox lanes.now name.now inputs.file.next_number inputs.bytes.items bytes × (work_of work ≡ seal_work name.now target.now (asked_in inputs) bytes)) }
{
    let number = inputs.file.next_number;
    let bytes = inputs.bytes.len() as u64;
    let sealed = seal_in_place(lanes, name, number, inputs.bytes)?;
    let changes = changes_with(alloc, name, target, &inputs.file, sealed)?;
    let sealed = Sealed { number, bytes };
    Ok(Prepared { sealed, changes })
}
