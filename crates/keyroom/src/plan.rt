//! What a command will do, made before anything is changed.
ghost use Rattle.std.specs.Prelude.{◌≡◌, ◌≤◌, [], OnOk, OnErr, string_bytes};
ghost use Rattle.shelf.specs.Causes.{Makes, HasCause};
ghost use Rattle.counters.specs.Counts.{Rose};
ghost use Rattle.keyroom.specs.Causes.{cause_of};
ghost use Rattle.keyroom.specs.Causes as cause;
ghost use Rattle.keyroom.specs.Changes.{change_of, changes_of};
ghost use Rattle.keyroom.specs.Answer.{IsChanged, IsPartWay, Carries};

use crate::status::Status;
use shelf::{OutsideFault, Shelf, Sink};
use std::alloc::Global;

/// One change of the shelf.
#[derive(Debug, Drop)]
pub enum Change {
    /// The name gets these bytes, in place of what it had.
    Put { name: String, bytes: Vec<u8> },
    /// The name is gone.
    Remove { name: String },
}

/// Changes of the shelf in their order, and the text that goes out after them.
#[derive(Debug, Drop)]
pub struct Plan {
    pub changes: Vec<Change>,
    pub text: String,
}

fn make<H: Shelf>(alloc: Global, change: &Change, shelf: &mut H) -> Result<(), OutsideFault>
    ensures made { Makes (change_of change.now) (H.held shelf.old) (H.held shelf.new) result }
    ensures cause { HasCause (H.fault_count shelf.old) (H.fault_count shelf.new) result }
    ensures calm { H.calm shelf.old → H.calm shelf.new }
{
    match change {
        Change::Put { name, bytes } => shelf.put(alloc, name.as_str(), bytes.as_slice()),
        Change::Remove { name } => shelf.remove(alloc, name.as_str()),
    }
}

/// Makes the changes in their order, up to the first that fails. After an error the shelf is as after a part of them
/// from the front. `Failed` comes only where the shelf's count of faults rose.
pub fn make_all<H: Shelf>(
    alloc: Global,
    changes: &[Change],
    shelf: &mut H,
) -> Result<(), OutsideFault>
    ensures done { OnOk result (IsChanged (changes_of changes.now) (H.held shelf.old) (H.held shelf.new)) }
    ensures part { OnErr result (IsPartWay (changes_of changes.now) (H.held shelf.old) (H.held shelf.new)) }
    ensures cause { HasCause (H.fault_count shelf.old) (H.fault_count shelf.new) result }
    ensures calm { H.calm shelf.old → H.calm shelf.new }
    ensures untouched { changes.now ≡ [] → shelf.new ≡ shelf.old }
{
    for change in changes {
        make(alloc, change, shelf)?;
    }
    Ok(())
}

/// Makes the changes, and then puts the text out by one call. `Done`: all was done. `SinkFault`: all changes were made,
/// and a part of the text may have gone out. `ShelfFault` and `OutOfMemory`: a part of the changes was made, and nothing
/// went out. There is no other answer.
pub fn carry_out<H: Shelf, K: Sink>(
    alloc: Global,
    plan: &Plan,
    shelf: &mut H,
    out: &mut K,
) -> Status
    ensures carried { Carries (changes_of plan.now.changes.items) (string_bytes plan.now.text) (H.held shelf.old) (H.held shelf.new) (K.told out.old) (K.told out.new) (cause_of result) }
    ensures done { cause_of result ≡ cause.Done → result ≡ Status.Done }
    ensures shelf_fault { cause_of result ≡ cause.Shelf → Rose (H.fault_count shelf.old) (H.fault_count shelf.new) }
    ensures sink_fault { cause_of result ≡ cause.Sink → Rose (K.fault_count out.old) (K.fault_count out.new) }
    ensures shelf_later { H.fault_count shelf.old ≤ H.fault_count shelf.new }
    ensures sink_later { K.fault_count out.old ≤ K.fault_count out.new }
    ensures shelf_calm { H.calm shelf.old → H.calm shelf.new }
    ensures sink_calm { K.calm out.old → K.calm out.new }
    ensures untouched { plan.now.changes.items ≡ [] → shelf.new ≡ shelf.old }
{
    if let Err(fault) = make_all(alloc, &plan.changes, shelf) {
        return Status::of_shelf(fault);
    }
    match out.put(alloc, plan.text.as_bytes()) {
        Ok(()) => Status::Done,
        Err(fault) => Status::of_sink(fault),
    }
}
