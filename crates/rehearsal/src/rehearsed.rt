//! A whole rehearsal.

ghost use Rattle.std.specs.Prelude.{◌≡◌, ◌+◌, ◌-◌, ◌^◌, ◌<◌, ◌≤◌, true, length, min, IfOk, IfErr};
ghost use Rattle.sizes.specs.Committees.{is_bound, is_size};
ghost use Rattle.viewshift.specs.Fits.{AreHistory};
ghost use Rattle.commands.specs.Causes.{IsFromCrew};
ghost use Rattle.commands.specs.Crews.{Lent};
ghost use Rattle.rehearsal_laws.specs.Rehearsal.{IsRehearsal, raised, scenes_to};
ghost use Rattle.rehearsal.specs.Lived.{seats_in};
ghost use Rattle.rehearsal.specs.Told.{Rehearses};

use crate::life::live;
use field61::{Fe, NumberList};
use keyroom::Status;
use lists::OutOfMemory;
use party_crew::Crew;
use scenes::{exposed_masks, scenes_of};
use sizes::Committee;
use std::alloc::Global;
use std::sync::Wait;
use std::thread::Threads;
use viewshift::{History, HistoryFault, PhaseList, key_of, other_choices};

/// A rehearsal that was played.
#[derive(Drop)]
pub struct Rehearsed {
    /// What was played.
    pub history: History,
    /// Other choices, under which the key is one greater in each lane.
    pub other: History,
    /// How many instances were accepted, by phase.
    pub accepted: NumberList,
}

/// Plays the rehearsal from a number that a committee begins, with so many periods after the first phase, each member on a
/// thread of its own; and finds other choices for the wished key, of which the same is seen.
///
/// Nobody is cut. It refuses with `NoThread` only where the crew's count of faults rose; else the error is want of memory.
pub fn rehearse_run<C: Crew, R: Threads + Wait + Sync>(
    rt: &R,
    alloc: Global,
    committee: Committee,
    periods: u32,
    number: u32,
    crew: &mut C,
) -> Result<Rehearsed, Status>
    requires size { is_size committee.members ≡ true }
    requires bound { is_bound committee.members committee.bound ≡ true }
    requires periods { periods ≤ 64 }
    ensures rehearsed { IfOk result (λ done. IsRehearsal committee.members committee.bound periods number done.history done.other done.accepted) }
    ensures same { IfOk result (λ done. Rehearses done.history done.other) }
    ensures lent { Lent C.fault_count C.attended_count C.calm crew.old crew.new }
    ensures attended { IfOk result (λ _. C.attended_count crew.new ≡ min (C.attended_count crew.old + seats_in (scenes_to committee.members committee.bound number (periods + 1))) (2 ^ 64 - 1)) }
    ensures cause { IfErr result (IsFromCrew (C.fault_count crew.old) (C.fault_count crew.new)) }
{
    let scenes = scenes_of(alloc, committee, periods, number)?;
    let exposed = exposed_masks(alloc, committee, periods, number)?;
    let life = live(rt, alloc, committee, number, scenes.as_slice(), crew)?;
    let history = history_of(alloc, life.phases, exposed)?;
    let key = key_of(alloc, &history)?;
    let other = other_choices(alloc, &history, raised(&key))?;
    Ok(Rehearsed {
        history,
        other,
        accepted: life.accepted,
    })
}

// The history of phases and masks that are known to be one. The error is want of memory.
fn history_of(alloc: Global, phases: PhaseList, exposed: NumberList) -> Result<History, OutOfMemory>
    requires few { length phases < 2 ^ 32 }
    requires history { AreHistory phases exposed }
    ensures { IfOk result (λ history. history ≡ record { phases = phases; exposed = exposed }) }
{
    match History::new(alloc, phases, exposed.into_vec()) {
        Ok(history) => Ok(history),
        Err(HistoryFault::OutOfMemory) => Err(OutOfMemory),
        Err(_) => unreachable!(),
    }
}

// The key that is one greater in each lane.
fn raised(key: &[Fe; 5]) -> [Fe; 5]
    ensures { result ≡ raised key.now }
{
    [
        key[0].add(Fe::ONE),
        key[1].add(Fe::ONE),
        key[2].add(Fe::ONE),
        key[3].add(Fe::ONE),
        key[4].add(Fe::ONE),
    ]
}
