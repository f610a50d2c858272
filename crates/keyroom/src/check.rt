//! The check of a key's files, and the command `check NAME`.
ghost use Rattle.std.specs.Prelude.{◌≡◌, List, [], Ok, IfOk, IfSome, IfErr};
ghost use Rattle.algebra61.specs.Polynomial.{Polynomial};
ghost use Rattle.shelf.specs.Causes.{OnlyReads};
ghost use Rattle.sharefile.specs.Files.{Now};
ghost use Rattle.keyroom.specs.Causes.{IsFromPlan};
ghost use Rattle.keyroom.specs.Steps.{files_of};
ghost use Rattle.keyroom.specs.Decoding.{HonestFiles};
ghost use Rattle.keyroom.specs.Outcome.{AnswersWith, done};
ghost use Rattle.keyroom.specs.Changes.{outcome_of};
ghost use Rattle.keyroom.specs.Texts.{check_text};
ghost use Rattle.keyroom.specs.Answer.{Plans};
ghost use Rattle.keyroom.specs.Check.{checked_by, MeansStates, MeansCheck};

use crate::plan::Plan;
use crate::recover::recover_key;
use crate::state::StateList;
use crate::status::Status;
use crate::text;
use lists::OutOfMemory;
use sharefile::{KeyName, NowFile};
use shelf::Shelf;
use std::alloc::Global;

/// The checked files of a key.
#[derive(Drop)]
pub struct Checked {
    /// The key's now file.
    pub file: NowFile,
    /// The states of the members 1 to N.
    pub members: StateList,
}

/// The states of a key's members by the polynomials that recovery decodes. The shelf is only asked, and it refuses as
/// `recover_key` does.
pub fn check_key<H: Shelf>(alloc: Global, shelf: &mut H, name: &KeyName) -> Result<Checked, Status>
    // The shelf holds what it held.
    ensures reads { OnlyReads H.held H.fault_count H.calm shelf.old shelf.new }
    // The answer is what the check of the files comes to, unless the shelf or memory failed.
    ensures means { IfSome (H.held shelf.old) (λ m. AnswersWith (MeansStates name.now m) result) }
    // Where N - T valid share files lie on polynomials of degree at most T, the states are those by these polynomials,
    // whatever the other files are.
    ensures honest { IfSome (H.held shelf.old) (λ m. (now : Now) (polys : List Polynomial) → HonestFiles name.now now m polys → AnswersWith (λ end. end ≡ Ok (checked_by now (files_of now m) polys)) result) }
    // A fault comes only where its count rose, and no answer of other parts comes.
    ensures cause { IfErr result (IsFromPlan (H.fault_count shelf.old) (H.fault_count shelf.new)) }
{
    let recovered = recover_key(alloc, shelf, name)?;
    Ok(Checked {
        file: recovered.file,
        members: recovered.members,
    })
}

/// What `check NAME` will do: no change, and the text.
pub fn plan_check<H: Shelf>(alloc: Global, name: &KeyName, shelf: &mut H) -> Result<Plan, Status>
    ensures reads { OnlyReads H.held H.fault_count H.calm shelf.old shelf.new }
    ensures meaning { IfSome (H.held shelf.old) (λ m. Plans (MeansCheck name.now m) result) }
    ensures cause { IfErr result (IsFromPlan (H.fault_count shelf.old) (H.fault_count shelf.new)) }
{
    let checked = check_key(alloc, shelf, name)?;
    Ok(plan_of(alloc, &checked)?)
}

/// The plan, with the states known.
fn plan_of(alloc: Global, checked: &Checked) -> Result<Plan, OutOfMemory>
    ensures { IfOk result (λ plan. outcome_of 0 plan ≡ done [] (check_text checked.now)) }
{
    Ok(Plan {
        changes: Vec::new(alloc),
        text: text::check_text(alloc, checked)?,
    })
}
