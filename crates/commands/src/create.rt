//! The command `create NAME N T`, with or without a drill.
ghost use Rattle.std.specs.Prelude.{◌≡◌, ◌≤◌, ℕ, ◌*◌, ◌+◌, ◌-◌, ◌^◌, List, length, min, string_bytes, IsTrue, IfOk, IfSome, IfErr, Option};
ghost use Rattle.shelf.specs.Causes.{OnlyReads};
ghost use Rattle.sharefile.specs.Names.{is_key_name};
ghost use Rattle.sizes.specs.Committees.{is_size, is_bound};
ghost use Rattle.drillbook.specs.Orders.{AllLawful};
ghost use Rattle.keyroom.specs.Causes.{IsFromPlan};
ghost use Rattle.keyroom.specs.Outcome.{AnswersStep};
ghost use Rattle.keyroom.specs.Commands.{text_of};
ghost use Rattle.keyroom.specs.Texts.{create_text};
ghost use Rattle.talk.specs.Shape.{create_shape};
ghost use Rattle.commands.specs.Planning.{UnderSome, PlansWith, HasEnoughSeeds};
ghost use Rattle.commands.specs.Causes.{before_text, IsFromCommand, IsFromPhase, IsFromSeeds};
ghost use Rattle.commands.specs.Crews.{Lent, Attended};
ghost use Rattle.commands.specs.Create.{create_asked, Creates, MeansCreate, CreateTakes};
ghost use Rattle.commands.specs.Late.{cuts_in};
ghost use Rattle.commands.specs.Phase.{indexes_of, PlansAfter, CreateEnds};

use crate::changes::{first_changes, indexes_of};
use crate::create_phase::run_create;
use crate::down::drilled_marks;
use crate::drill::drill_of;
use crate::holders::first_now;
use crate::lateness::enough_after;
use crate::phase::Phase;
use crate::seeds::seeds_of;
use drillbook::Drill;
use keyroom::{Plan, Status, check_free, create_text, now_name};
use lists::OutOfMemory;
use party_crew::{Crew, Pace};
use sharefile::{KeyName, NowFile};
use shelf::{Entropy, Shelf};
use sizes::{Committee, LANES};
use std::alloc::Global;
use std::sync::Wait;
use std::thread::Threads;
use talk::Setting;

/// What is printed of a create.
fn created_text(alloc: Global, now: &NowFile, phase: &Phase) -> Result<String, OutOfMemory>
    requires { length phase.now.shares.items ≤ 15 }
    ensures { IfOk result (λ s. string_bytes s ≡ create_text now.now phase.now.masks phase.now.accepted (5 * now.now.n) (indexes_of 1 phase.now.shares.items)) }
{
    let indexes = indexes_of(alloc, &phase.shares)?;
    create_text(
        alloc,
        now,
        &phase.masks,
        phase.accepted,
        LANES * now.n,
        &indexes,
    )
}

/// The plan, with the drill and the seeds known. It refuses as the phase does, and with `TooFewSound` where fewer than N - T
/// members aren't down after it.
fn plan_of<C: Crew, Q: Pace + Send, R: Threads + Wait + Sync>(
    rt: &R,
    alloc: Global,
    name: &KeyName,
    committee: Committee,
    drill: &Drill,
    seeds: &[[u8; 32]],
    crew: &mut C,
    pace: &mut Q,
) -> Result<Plan, Status>
    requires name { IsTrue (is_key_name name.now) }
    requires size { IsTrue (is_size committee.members) }
    requires bound { IsTrue (is_bound committee.members committee.bound) }
    requires lines { AllLawful (create_shape committee.members committee.bound) drill.now }
    requires seeds { length seeds.now ≡ committee.members }
    ensures meaning { PlansAfter (CreateEnds name.now committee.members committee.bound drill.now seeds.now (cuts_in Q.answered_count Q.cuts_of pace.old pace.new)) committee.members result }
    ensures lent { Lent C.fault_count C.attended_count C.calm crew.old crew.new }
    ensures attended { IfOk result (λ _. C.attended_count crew.new ≡ min (C.attended_count crew.old + committee.members) (2 ^ 64 - 1)) }
    ensures cause { IfErr result (IsFromPhase (C.fault_count crew.old) (C.fault_count crew.new)) }
{
    let drilled = drilled_marks(alloc, drill, committee.members)?;
    let phase = run_create(rt, alloc, committee, drill, &drilled, seeds, crew, pace)?;
    let _left = enough_after(committee.members, committee.bound, &phase.down)?;
    let now = first_now(name, committee, &phase.down);
    let changes = first_changes(alloc, &now, &phase.shares)?;
    let text = created_text(alloc, &now, &phase)?;
    Ok(Plan { changes, text })
}

/// The drill of a create, where the name of the now file is free. It refuses with `Exists` where that is held, and as
/// `drill_of` does.
fn asked_drill<H: Shelf>(
    alloc: Global,
    name: &KeyName,
    setting: &Setting,
    drill: Option<&str>,
    shelf: &mut H,
) -> Result<Drill, Status>
    ensures reads { OnlyReads H.held H.fault_count H.calm shelf.old shelf.new }
    ensures gives { IfSome (H.held shelf.old) (λ m. AnswersStep (λ d. d) result (create_asked name.now setting.now (text_of drill.entry) m)) }
    ensures lawful { IfOk result (λ d. AllLawful setting.now d) }
    ensures cause { IfErr result (IsFromPlan (H.fault_count shelf.old) (H.fault_count shelf.new)) }
{
    let file = now_name(alloc, name)?;
    check_free(alloc, file.as_str(), shelf)?;
    drill_of(alloc, drill, setting, shelf)
}

/// The plan of a create, with the drill known: it takes a seed for each member, and runs the phase.
fn plan_with<E: Entropy, C: Crew, Q: Pace + Send, R: Threads + Wait + Sync>(
    rt: &R,
    alloc: Global,
    name: &KeyName,
    committee: Committee,
    drill: &Drill,
    entropy: &mut E,
    crew: &mut C,
    pace: &mut Q,
) -> Result<Plan, Status>
    requires name { IsTrue (is_key_name name.now) }
    requires size { IsTrue (is_size committee.members) }
    requires bound { IsTrue (is_bound committee.members committee.bound) }
    requires lines { AllLawful (create_shape committee.members committee.bound) drill.now }
    ensures meaning { PlansWith (λ o. (masks : List ℕ) × Creates name.now committee.members committee.bound (E.coming entropy.old) (cuts_in Q.answered_count Q.cuts_of pace.old pace.new) masks drill.now o) (λ count. count ≡ committee.members) (E.coming entropy.old) (E.coming entropy.new) result }
    ensures later { E.fault_count entropy.old ≤ E.fault_count entropy.new }
    ensures cause { IfErr result (IsFromSeeds (E.fault_count entropy.old) (E.fault_count entropy.new) (C.fault_count crew.old) (C.fault_count crew.new)) }
    ensures lent { Lent C.fault_count C.attended_count C.calm crew.old crew.new }
    ensures attended { IfOk result (λ _. C.attended_count crew.new ≡ min (C.attended_count crew.old + committee.members) (2 ^ 64 - 1)) }
    ensures calm { E.calm entropy.old → IfSome (E.coming entropy.old) (λ seeds. committee.members ≤ length seeds) → E.calm entropy.new }
{
    let seeds = seeds_of(alloc, committee.members, entropy)?;
    let plan = plan_of(rt, alloc, name, committee, drill, &seeds, crew, pace)?;
    Ok(plan)
}

/// What `create NAME N T` will do, under the drill in the file that is named, if one is. It refuses with `Exists` where
/// the now file is held, with `NoSuch` and `BadDrill` where the drill isn't held or is none, with `EntropyFault`
/// where a seed could not be had, with `NoThread` where a thread could not, and with `TooFewSound` where too many members are
/// late.
pub fn plan_create<H: Shelf, E: Entropy, C: Crew, Q: Pace + Send, R: Threads + Wait + Sync>(
    rt: &R,
    alloc: Global,
    name: &KeyName,
    committee: Committee,
    drill: Option<&str>,
    shelf: &mut H,
    entropy: &mut E,
    crew: &mut C,
    pace: &mut Q,
) -> Result<Plan, Status>
    requires name { IsTrue (is_key_name name.now) }
    requires size { IsTrue (is_size committee.members) }
    requires bound { IsTrue (is_bound committee.members committee.bound) }
    ensures reads { OnlyReads H.held H.fault_count H.calm shelf.old shelf.new }
    ensures meaning { IfSome (H.held shelf.old) (λ m.
        PlansWith (UnderSome (MeansCreate name.now committee.members committee.bound (text_of drill.entry) m (E.coming entropy.old) (cuts_in Q.answered_count Q.cuts_of pace.old pace.new)))
        (CreateTakes name.now committee.members committee.bound (text_of drill.entry) m) (E.coming entropy.old) (E.coming entropy.new) result) }
    ensures later { E.fault_count entropy.old ≤ E.fault_count entropy.new }
    ensures cause { IfErr result (IsFromCommand (before_text (H.fault_count shelf.old) (E.fault_count entropy.old) (C.fault_count crew.old)) (before_text (H.fault_count shelf.new) (E.fault_count entropy.new) (C.fault_count crew.new))) }
    ensures calm { E.calm entropy.old → HasEnoughSeeds committee.members (CreateTakes name.now committee.members committee.bound (text_of drill.entry)) (H.held shelf.old) (E.coming entropy.old) → E.calm entropy.new }
    ensures lent { Lent C.fault_count C.attended_count C.calm crew.old crew.new }
    ensures attended { IfOk result (λ _. Attended committee.members (C.attended_count crew.old) (C.attended_count crew.new)) }
{
    let setting = Setting::create(committee.members, committee.bound);
    let drill = asked_drill(alloc, name, &setting, drill, shelf)?;
    plan_with(rt, alloc, name, committee, &drill, entropy, crew, pace)
}
