//! The command `rehearse N T PERIODS NUMBER`.

ghost use Rattle.std.specs.Prelude.{◌≡◌, ◌≤◌, List, [], ℕ, string_bytes, true, IfOk, IfErr};
ghost use Rattle.sizes.specs.Committees.{is_bound, is_size};
ghost use Rattle.commands.specs.Causes.{IsFromCrew};
ghost use Rattle.commands.specs.Crews.{Attended, Lent};
ghost use Rattle.rehearsal_laws.specs.Rehearsal.{IsRehearsal};
ghost use Rattle.playbill.specs.Printed.{IsTextOf};
ghost use Rattle.committee.specs.Rehearse.{rehearsal_seats};

use keyroom::{Plan, Status};
use lists::OutOfMemory;
use party_crew::Crew;
use playbill::rehearse_text;
use rehearsal::{Rehearsed, rehearse_run};
use scenes::scenes_of;
use sizes::Committee;
use std::alloc::Global;
use std::sync::Wait;
use std::thread::Threads;
use viewshift::key_of;

/// What is printed of a rehearsal of these words that was played. The error is want of memory.
fn text_of(
    alloc: Global,
    committee: Committee,
    periods: u32,
    number: u32,
    rehearsed: &Rehearsed,
) -> Result<String, OutOfMemory>
    requires size { is_size committee.members ≡ true }
    requires bound { is_bound committee.members committee.bound ≡ true }
    requires periods { periods ≤ 64 }
    requires rehearsed { IsRehearsal committee.members committee.bound periods number rehearsed.now.history rehearsed.now.other rehearsed.now.accepted }
    ensures { IfOk result (λ text. IsTextOf committee.members committee.bound periods number (string_bytes text)) }
{
    let scenes = scenes_of(alloc, committee, periods, number)?;
    let key = key_of(alloc, &rehearsed.history)?;
    let other = key_of(alloc, &rehearsed.other)?;
    let text = rehearse_text(alloc, &scenes, &rehearsed.accepted, &key, &other)?;
    Ok(text)
}

/// What a rehearsal will print; it changes nothing. It refuses with `NoThread` only where the crew's count of faults rose;
/// else the error is want of memory.
pub(crate) fn plan_rehearsal<C: Crew, R: Threads + Wait + Sync>(
    rt: &R,
    alloc: Global,
    committee: Committee,
    periods: u32,
    number: u32,
    crew: &mut C,
) -> Result<Plan, Status>
    requires size { is_size committee.members ≡ true }
    requires bound { is_bound committee.members committee.bound ≡ true }
    requires periods { (1 ≤ periods) × (periods ≤ 64) }
    ensures changes { IfOk result (λ plan. plan.changes.items ≡ []) }
    ensures text { IfOk result (λ plan. IsTextOf committee.members committee.bound periods number (string_bytes plan.text)) }
    ensures lent { Lent C.fault_count C.attended_count C.calm crew.old crew.new }
    ensures attended { IfOk result (λ _. Attended (rehearsal_seats committee.members committee.bound periods number) (C.attended_count crew.old) (C.attended_count crew.new)) }
    ensures cause { IfErr result (IsFromCrew (C.fault_count crew.old) (C.fault_count crew.new)) }
{
    let rehearsed = rehearse_run(rt, alloc, committee, periods, number, crew)?;
    let text = text_of(alloc, committee, periods, number, &rehearsed)?;
    Ok(Plan {
        changes: Vec::new(alloc),
        text,
    })
}
