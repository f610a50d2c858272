//! Recovery of a key, and the command `recover NAME`.
ghost use Rattle.std.specs.Prelude.{◌≡◌, ℕ, List, [], length, Ok, IfOk, IfSome, IfErr};
ghost use Rattle.algebra61.specs.Polynomial.{Polynomial};
ghost use Rattle.shelf.specs.Causes.{OnlyReads};
ghost use Rattle.sharefile.specs.Files.{Now};
ghost use Rattle.keyroom.specs.Causes.{IsFromPlan};
ghost use Rattle.keyroom.specs.Steps.{files_of};
ghost use Rattle.keyroom.specs.Decoding.{HonestFiles};
ghost use Rattle.keyroom.specs.Outcome.{AnswersWith, done};
ghost use Rattle.keyroom.specs.Changes.{outcome_of};
ghost use Rattle.keyroom.specs.Texts.{recover_text};
ghost use Rattle.keyroom.specs.Answer.{Plans};
ghost use Rattle.keyroom.specs.Recover.{recovered_by, MeansKeyOf, MeansKey, MeansRecover};

use crate::decoding::{decode_all, key_of, states_of};
use crate::plan::Plan;
use crate::state::StateList;
use crate::status::Status;
use crate::steps::{Found, files_of, now_of};
use crate::text;
use field61::Fe;
use lists::OutOfMemory;
use poly61::PolyList;
use sharefile::{KeyName, NowFile};
use shelf::Shelf;
use std::alloc::Global;

/// A recovered key.
#[derive(Drop)]
pub struct Recovered {
    /// The key's now file.
    pub file: NowFile,
    /// The key: one element a lane.
    pub lanes: [Fe; 5],
    /// The states of the members 1 to N.
    pub members: StateList,
}

/// What the decoded polynomials say.
fn recovered_by(
    alloc: Global,
    now: &NowFile,
    files: &[Found],
    polys: &PolyList,
) -> Result<Recovered, OutOfMemory>
    requires { length polys.now ≡ 5 }
    ensures { IfOk result (λ r. r ≡ recovered_by now.now files.now polys.now) }
{
    Ok(Recovered {
        file: *now,
        lanes: key_of(polys),
        members: states_of(alloc, polys, files)?,
    })
}

/// The key that these files hold.
pub(crate) fn recovered_from(
    alloc: Global,
    now: &NowFile,
    files: &[Found],
) -> Result<Recovered, Status>
    requires { length files.now ≡ now.now.n }
    ensures means { AnswersWith (MeansKeyOf now.now files.now) result }
    ensures cause { IfErr result (λ s. (before now : ℕ) → IsFromPlan before now s) }
{
    let polys = decode_all(alloc, now.t, files)?;
    Ok(recovered_by(alloc, now, files, &polys)?)
}

/// Recovers a key from the share files of its period.
///
/// The shelf is only asked. Each lane is decoded over the valid share files: its polynomial has degree at most T, and
/// twice the wrong files, those that aren't valid and T + 1 are together at most N. It refuses with `NoSuch` where the
/// now file isn't held, `BadNow` where its bytes are no now file of this name, `NoKey` with the least lane that has no
/// such polynomial, `ShelfFault` only where the shelf's count of faults rose, and `OutOfMemory`.
pub fn recover_key<H: Shelf>(
    alloc: Global,
    shelf: &mut H,
    name: &KeyName,
) -> Result<Recovered, Status>
    // The shelf holds what it held.
    ensures reads { OnlyReads H.held H.fault_count H.calm shelf.old shelf.new }
    // The answer is what recovery of the files comes to, unless the shelf or memory failed.
    ensures means { IfSome (H.held shelf.old) (λ m. AnswersWith (MeansKey name.now m) result) }
    // Where N - T valid share files lie on polynomials of degree at most T, the key is their values at 0, whatever
    // the other files are.
    ensures honest { IfSome (H.held shelf.old) (λ m. (now : Now) (polys : List Polynomial) → HonestFiles name.now now m polys → AnswersWith (λ end. end ≡ Ok (recovered_by now (files_of now m) polys)) result) }
    // A fault comes only where its count rose, and no answer of other parts comes.
    ensures cause { IfErr result (IsFromPlan (H.fault_count shelf.old) (H.fault_count shelf.new)) }
{
    let now = now_of(alloc, name, shelf)?;
    let files = files_of(alloc, &now, shelf)?;
    recovered_from(alloc, &now, &files)
}

/// What `recover NAME` will do: no change, and the text.
pub fn plan_recover<H: Shelf>(alloc: Global, name: &KeyName, shelf: &mut H) -> Result<Plan, Status>
    ensures reads { OnlyReads H.held H.fault_count H.calm shelf.old shelf.new }
    ensures meaning { IfSome (H.held shelf.old) (λ m. Plans (MeansRecover name.now m) result) }
    ensures cause { IfErr result (IsFromPlan (H.fault_count shelf.old) (H.fault_count shelf.new)) }
{
    let recovered = recover_key(alloc, shelf, name)?;
    Ok(plan_of(alloc, &recovered)?)
}

/// The plan, with the key known.
fn plan_of(alloc: Global, recovered: &Recovered) -> Result<Plan, OutOfMemory>
    ensures { IfOk result (λ plan. outcome_of 0 plan ≡ done [] (recover_text recovered.now)) }
{
    Ok(Plan {
        changes: Vec::new(alloc),
        text: text::recover_text(alloc, recovered)?,
    })
}
