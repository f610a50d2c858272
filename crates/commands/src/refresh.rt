//! The command `refresh NAME`, with or without a drill.
ghost use Rattle.std.specs.Prelude.{◌≡◌, ◌≤◌, ◌*◌, ◌+◌, ◌-◌, ◌^◌, ℕ, List, length, min, string_bytes, IfOk, IfSome, IfErr};
ghost use Rattle.shelf.specs.Causes.{OnlyReads};
ghost use Rattle.drillbook.specs.Orders.{AllLawful};
ghost use Rattle.keyroom.specs.Causes.{IsFromPlan};
ghost use Rattle.keyroom.specs.Outcome.{AnswersStep};
ghost use Rattle.keyroom.specs.Commands.{text_of};
ghost use Rattle.keyroom.specs.Texts.{refresh_text};
ghost use Rattle.commands.specs.Planning.{UnderSome, PlansWith, HasEnoughSeeds};
ghost use Rattle.commands.specs.Causes.{before_text, IsFromCommand, IsFromPhase, IsFromSeeds, IsFromWork};
ghost use Rattle.commands.specs.Late.{cuts_in, enough_after};
ghost use Rattle.commands.specs.Crews.{Lent, AllSeatsAttended};
ghost use Rattle.commands.specs.Refresh.{refresh_asked, setting_of, Refreshes, MeansRefresh, RefreshTakes};
ghost use Rattle.commands.specs.Standing.{seeds_for, HasSoundNow};
ghost use Rattle.commands.specs.Phase.{indexes_of, marked, standing_of, IsReady, PlansAfter, RefreshEnds};

use crate::changes::{indexes_of, next_changes};
use crate::down::down_marks;
use crate::holders::next_now;
use crate::lateness::enough_after;
use crate::phase::Phase;
use crate::refresh_phase::run_refresh;
use crate::seeds::seeds_of;
use crate::standing::{Asked, standing_at, valid_count};
use keyroom::{Plan, Status, now_of, refresh_text};
use lists::OutOfMemory;
use party_crew::{Crew, Pace};
use sharefile::{KeyName, NowFile};
use shelf::{Entropy, Shelf};
use sizes::LANES;
use std::alloc::Global;
use std::sync::Wait;
use std::thread::Threads;
use talk::Setting;

/// What a refresh finds on the shelf. It refuses as `now_of` and `standing_at` do.
fn asked_of<H: Shelf>(
    alloc: Global,
    name: &KeyName,
    drill: Option<&str>,
    shelf: &mut H,
) -> Result<Asked, Status>
    ensures reads { OnlyReads H.held H.fault_count H.calm shelf.old shelf.new }
    ensures gives { IfSome (H.held shelf.old) (λ m. AnswersStep standing_of result (refresh_asked name.now (text_of drill.entry) m)) }
    ensures ready { IfOk result (λ asked. IsReady (standing_of asked)) }
    ensures lines { IfOk result (λ asked. AllLawful (setting_of (standing_of asked)) asked.drill) }
    ensures cause { IfErr result (IsFromPlan (H.fault_count shelf.old) (H.fault_count shelf.new)) }
{
    let now = now_of(alloc, name, shelf)?;
    let setting = Setting::refresh(now.n, now.t);
    let asked = standing_at(alloc, now, drill, &setting, shelf)?;
    Ok(asked)
}

/// What is printed of a refresh.
fn refreshed_text(alloc: Global, now: &NowFile, phase: &Phase) -> Result<String, OutOfMemory>
    requires { length phase.now.shares.items ≤ 15 }
    ensures { IfOk result (λ s. string_bytes s ≡ refresh_text now.now phase.now.masks phase.now.accepted (5 * now.now.n) (indexes_of 1 phase.now.shares.items)) }
{
    let indexes = indexes_of(alloc, &phase.shares)?;
    refresh_text(
        alloc,
        now,
        &phase.masks,
        phase.accepted,
        LANES * now.n,
        &indexes,
    )
}

/// Sees that enough members of the committee of a now file are left, by the marks of who is down, as `enough_after` does.
fn enough_left(now: &NowFile, down: &[bool]) -> Result<u32, Status>
    ensures gives { AnswersStep (λ left. left) result (enough_after now.now.n now.now.t (marked down.now)) }
    ensures cause { IfErr result IsFromWork }
{
    enough_after(now.n, now.t, down)
}

/// The plan, with the seeds known. It refuses as the phase does, and with `TooFewSound` where fewer than N - T members aren't
/// down after it.
fn plan_of<C: Crew, Q: Pace + Send, R: Threads + Wait + Sync>(
    rt: &R,
    alloc: Global,
    asked: &Asked,
    seeds: &[[u8; 32]],
    crew: &mut C,
    pace: &mut Q,
) -> Result<Plan, Status>
    requires ready { IsReady (standing_of asked.now) }
    requires lines { AllLawful (setting_of (standing_of asked.now)) asked.now.drill }
    requires seeds { length seeds.now ≡ seeds_for (standing_of asked.now) }
    ensures meaning { PlansAfter (RefreshEnds (standing_of asked.now) seeds.now (cuts_in Q.answered_count Q.cuts_of pace.old pace.new)) (seeds_for (standing_of asked.now)) result }
    ensures lent { Lent C.fault_count C.attended_count C.calm crew.old crew.new }
    ensures attended { IfOk result (λ _. C.attended_count crew.new ≡ min (C.attended_count crew.old + asked.now.file.n) (2 ^ 64 - 1)) }
    ensures cause { IfErr result (IsFromPhase (C.fault_count crew.old) (C.fault_count crew.new)) }
{
    let before = down_marks(alloc, &asked.files, &asked.drill)?;
    let phase = run_refresh(rt, alloc, asked, &before, seeds, crew, pace)?;
    let _left = enough_left(&asked.file, &phase.down)?;
    let now = next_now(&asked.file, &phase.down);
    let changes = next_changes(alloc, &asked.file, &now, &phase.shares)?;
    let text = refreshed_text(alloc, &now, &phase)?;
    Ok(Plan { changes, text })
}

/// The plan of a refresh, with what it finds known: it takes a seed for each valid share file, and runs the phase.
fn plan_with<E: Entropy, C: Crew, Q: Pace + Send, R: Threads + Wait + Sync>(
    rt: &R,
    alloc: Global,
    asked: &Asked,
    entropy: &mut E,
    crew: &mut C,
    pace: &mut Q,
) -> Result<Plan, Status>
    requires ready { IsReady (standing_of asked.now) }
    requires lines { AllLawful (setting_of (standing_of asked.now)) asked.now.drill }
    ensures meaning { PlansWith (λ o. (masks : List ℕ) × Refreshes (E.coming entropy.old) (cuts_in Q.answered_count Q.cuts_of pace.old pace.new) masks (standing_of asked.now) o) (λ count. count ≡ seeds_for (standing_of asked.now)) (E.coming entropy.old) (E.coming entropy.new) result }
    ensures later { E.fault_count entropy.old ≤ E.fault_count entropy.new }
    ensures cause { IfErr result (IsFromSeeds (E.fault_count entropy.old) (E.fault_count entropy.new) (C.fault_count crew.old) (C.fault_count crew.new)) }
    ensures lent { Lent C.fault_count C.attended_count C.calm crew.old crew.new }
    ensures attended { IfOk result (λ _. C.attended_count crew.new ≡ min (C.attended_count crew.old + asked.now.file.n) (2 ^ 64 - 1)) }
    ensures calm { E.calm entropy.old → IfSome (E.coming entropy.old) (λ seeds. seeds_for (standing_of asked.now) ≤ length seeds) → E.calm entropy.new }
{
    let count = valid_count(&asked.files);
    let seeds = seeds_of(alloc, count, entropy)?;
    let plan = plan_of(rt, alloc, asked, &seeds, crew, pace)?;
    Ok(plan)
}

/// What `refresh NAME` will do, under the drill in the file that is named, if one is. It refuses as `keyroom::now_of` does,
/// with `NoSuch` and `BadDrill` where the drill isn't held or is none, with `TooFewSound` where fewer than N - T members have a
/// valid share file and aren't drilled, with `Full` where the period is the last one,
/// with `EntropyFault` where a seed could not be had, with `NoThread` where a thread could not, and with `TooFewSound` where
/// too many members are late.
pub fn plan_refresh<H: Shelf, E: Entropy, C: Crew, Q: Pace + Send, R: Threads + Wait + Sync>(
    rt: &R,
    alloc: Global,
    name: &KeyName,
    drill: Option<&str>,
    shelf: &mut H,
    entropy: &mut E,
    crew: &mut C,
    pace: &mut Q,
) -> Result<Plan, Status>
    ensures reads { OnlyReads H.held H.fault_count H.calm shelf.old shelf.new }
    ensures meaning { IfSome (H.held shelf.old) (λ m.
        PlansWith (UnderSome (MeansRefresh name.now (text_of drill.entry) m (E.coming entropy.old) (cuts_in Q.answered_count Q.cuts_of pace.old pace.new)))
        (RefreshTakes name.now (text_of drill.entry) m) (E.coming entropy.old) (E.coming entropy.new) result) }
    ensures later { E.fault_count entropy.old ≤ E.fault_count entropy.new }
    ensures cause { IfErr result (IsFromCommand (before_text (H.fault_count shelf.old) (E.fault_count entropy.old) (C.fault_count crew.old)) (before_text (H.fault_count shelf.new) (E.fault_count entropy.new) (C.fault_count crew.new))) }
    ensures calm { E.calm entropy.old → HasEnoughSeeds 13 (RefreshTakes name.now (text_of drill.entry)) (H.held shelf.old) (E.coming entropy.old) → E.calm entropy.new }
    ensures now { IfOk result (λ _. IfSome (H.held shelf.old) (HasSoundNow name.now)) }
    ensures lent { Lent C.fault_count C.attended_count C.calm crew.old crew.new }
    ensures attended { IfOk result (λ _. AllSeatsAttended name.now (λ file. file.n) (H.held shelf.old) (C.attended_count crew.old) (C.attended_count crew.new)) }
{
    let asked = asked_of(alloc, name, drill, shelf)?;
    plan_with(rt, alloc, &asked, entropy, crew, pace)
}
