//! The life of a key, phase by phase.

ghost use Rattle.std.specs.Prelude.{◌≡◌, ◌+◌, ◌-◌, ◌^◌, ◌≤◌, true, length, min, IfOk, IfErr};
ghost use Rattle.sizes.specs.Committees.{is_bound, is_size};
ghost use Rattle.talk.specs.Shape.{seats};
ghost use Rattle.commands.specs.Causes.{IsFromCrew};
ghost use Rattle.commands.specs.Crews.{Lent};
ghost use Rattle.scenes.specs.Orders.{shape_of};
ghost use Rattle.scenes.specs.Scenes.{scene_at};
ghost use Rattle.rehearsal_laws.specs.Rehearsal.{scenes_to};
ghost use Rattle.rehearsal.specs.Lived.{IsLived, seats_in};

use crate::begun::begun_with;
use field61::{Fe, NumberList};
use keyroom::Status;
use party_crew::Crew;
use recorder::record_phase;
use scenes::Scene;
use sizes::Committee;
use std::alloc::Global;
use std::sync::Wait;
use std::thread::Threads;
use viewshift::{PhaseList, play_at, shares_left};

/// The first phases of a rehearsal, as they were played.
#[derive(Drop)]
pub(crate) struct Life {
    /// Their records.
    pub(crate) phases: PhaseList,
    /// How many instances were accepted in each.
    pub(crate) accepted: NumberList,
    /// The shares that they leave, by the index of the member; none before the first phase.
    pub(crate) shares: Vec<Option<[Fe; 5]>>,
}

/// Plays these phases of the rehearsal from a number that a committee begins, one after another. The refusals are those of
/// `record_phase`.
pub(crate) fn live<C: Crew, R: Threads + Wait + Sync>(
    rt: &R,
    alloc: Global,
    committee: Committee,
    number: u32,
    scenes: &[Scene],
    crew: &mut C,
) -> Result<Life, Status>
    requires size { is_size committee.members ≡ true }
    requires bound { is_bound committee.members committee.bound ≡ true }
    requires few { length scenes.now ≤ 65 }
    requires scenes { scenes.now ≡ scenes_to committee.members committee.bound number (length scenes.now) }
    ensures lived { IfOk result (IsLived committee.members committee.bound number) }
    ensures all { IfOk result (λ life. length life.phases ≡ length scenes.now) }
    ensures lent { Lent C.fault_count C.attended_count C.calm crew.old crew.new }
    ensures attended { IfOk result (λ _. C.attended_count crew.new ≡ min (C.attended_count crew.old + seats_in scenes.now) (2 ^ 64 - 1)) }
    ensures cause { IfErr result (IsFromCrew (C.fault_count crew.old) (C.fault_count crew.new)) }
{
    let mut life = Life {
        phases: PhaseList::new(alloc),
        accepted: NumberList::new(alloc),
        shares: Vec::new(alloc),
    };
    for place in 0..scenes.len() {
        life = live_on(rt, alloc, committee, number, &scenes[place], life, crew)?;
    }
    Ok(life)
}

// Plays one more phase.
fn live_on<C: Crew, R: Threads + Wait + Sync>(
    rt: &R,
    alloc: Global,
    committee: Committee,
    number: u32,
    scene: &Scene,
    life: Life,
    crew: &mut C,
) -> Result<Life, Status>
    requires size { is_size committee.members ≡ true }
    requires bound { is_bound committee.members committee.bound ≡ true }
    requires few { length life.phases ≤ 64 }
    requires lived { IsLived committee.members committee.bound number life }
    requires scene { scene.now ≡ scene_at committee.members committee.bound number (length life.phases) }
    ensures lived { IfOk result (IsLived committee.members committee.bound number) }
    ensures more { IfOk result (λ lived. length lived.phases ≡ length life.phases + 1) }
    ensures lent { Lent C.fault_count C.attended_count C.calm crew.old crew.new }
    ensures attended { IfOk result (λ _. C.attended_count crew.new ≡ min (C.attended_count crew.old + seats (shape_of scene.now)) (2 ^ 64 - 1)) }
    ensures cause { IfErr result (IsFromCrew (C.fault_count crew.old) (C.fault_count crew.new)) }
{
    let Life {
        mut phases,
        mut accepted,
        shares,
    } = life;
    let place = phases.len();
    let begun = begun_with(alloc, scene.old_side().shareless, shares.as_slice())?;
    let recorded = record_phase(
        rt,
        alloc,
        number,
        place as u32,
        scene,
        begun.as_slice(),
        crew,
    )?;
    phases.push(recorded.phase)?;
    accepted.push(recorded.accepted)?;
    let played = play_at(alloc, &phases, place)?;
    let shares = shares_left(alloc, &phases, place, &played, shares.as_slice())?;
    Ok(Life {
        phases,
        accepted,
        shares,
    })
}
