//! Opening a box under a key.
ghost use Rattle.std.specs.Prelude.{◌≡◌, ℕ, IfOk, IfErr};
ghost use Rattle.keyroom.specs.Causes.{IsFromPlan};
ghost use Rattle.keyroom.specs.Outcome.{AnswersAs};
ghost use Rattle.keyroom.specs.Work.{work_of, asked_in};
ghost use Rattle.keyroom.specs.Open.{OpensUnder, Unseals, open_work};

use crate::status::Status;
use crate::work::{Inputs, Prepared, Sealed, push_put};
use docvault::unseal_in_place;
use field61::Fe;
use lists::OutOfMemory;
use sharefile::KeyName;
use std::alloc::Global;

/// The number and the document of a box, or the status of its first fault.
fn opened_under(name: &KeyName, bytes: Vec<u8>, lanes: &[Fe; 5]) -> Result<(u32, Vec<u8>), Status>
    ensures gives { Unseals lanes.now name.now bytes.items result }
    ensures cause { IfErr result (λ s. (before now : ℕ) → IsFromPlan before now s) }
{
    match unseal_in_place(lanes, name, bytes) {
        Ok(opened) => Ok(opened),
        Err(fault) => Err(Status::BadBox { fault }),
    }
}

/// The work of putting an opened document.
fn work_with(
    alloc: Global,
    target: &str,
    number: u32,
    document: Vec<u8>,
) -> Result<Prepared, OutOfMemory>
    ensures { IfOk result (λ work. work_of work ≡ open_work target.now number document.items) }
{
    let bytes = document.len() as u64;
    let mut changes = Vec::new(alloc);
    push_put(alloc, &mut changes, target, document)?;
    let sealed = Sealed { number, bytes };
    Ok(Prepared { sealed, changes })
}

/// The work of opening under a key.
pub(crate) fn open_under(
    alloc: Global,
    name: &KeyName,
    target: &str,
    inputs: Inputs,
    lanes: &[Fe; 5],
) -> Result<Prepared, Status>
    ensures means { AnswersAs work_of (OpensUnder name.now target.now (asked_in inputs) lanes.now) result }
    ensures cause { IfErr result (λ s. (before now : ℕ) → IsFromPlan before now s) }
{
    let (number, document) = opened_under(name, inputs.bytes, lanes)?;
    Ok(work_with(alloc, target, number, document)?)
}
