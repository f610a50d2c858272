//! Other choices of a history.

ghost use Rattle.std.specs.Prelude.{◌≡◌, ◌-◌, ◌<◌, length, get_or, IfOk};
ghost use Rattle.algebra61.specs.Field.{zeroₚ};
ghost use Rattle.viewshift.specs.Fits.{AreHistory};
ghost use Rattle.viewshift.specs.Key.{HasKey};
ghost use Rattle.viewshift.specs.Others.{FirstComesAgain, IsApart, IsTranslation, SameButGrids, SameViews, meant, other_at, other_phases};

use crate::history::History;
use crate::key::key_of;
use crate::masks::mask_at;
use field61::Fe;
use lists::OutOfMemory;
use phaseshift::other_phase;
use playback::{Phase, PhaseList};
use std::alloc::Global;

/// Other choices of a history: a history that differs from it in the grids of honest dealers alone, with the wished key, and
/// of which the same is seen. What is added to the grids depends on who is down and who is exposed, and on the difference of
/// the keys alone; so to ask the answer for the first key gives the first history again. The error is want of memory.
pub fn other_choices(
    alloc: Global,
    history: &History,
    wished: [Fe; 5],
) -> Result<History, OutOfMemory>
    ensures grids { IfOk result (SameButGrids history.now) }
    ensures translated { IfOk result (IsTranslation history.now wished) }
    ensures key { IfOk result (λ other. HasKey (meant other) wished) }
    ensures views { IfOk result (SameViews history.now) }
    ensures again { IfOk result (FirstComesAgain history.now) }
{
    let key = key_of(alloc, history)?;
    let difference = apart(&wished, &key);
    let phases = other_phases(alloc, history.phases(), history.masks(), &difference)?;
    let mut exposed = Vec::new(alloc);
    exposed.extend_from_slice(history.masks())?;
    Ok(History::known(phases, exposed))
}

// By how much a key has to change, lane by lane, to be the wished one.
fn apart(wished: &[Fe; 5], key: &[Fe; 5]) -> [Fe; 5]
    ensures { IsApart wished.now key.now (λ lane. get_or result lane zeroₚ) }
{
    [
        wished[0].sub(key[0]),
        wished[1].sub(key[1]),
        wished[2].sub(key[2]),
        wished[3].sub(key[3]),
        wished[4].sub(key[4]),
    ]
}

// The other phases, where the key is to change by so much.
fn other_phases(
    alloc: Global,
    phases: &PhaseList,
    exposed: &[u32],
    difference: &[Fe; 5],
) -> Result<PhaseList, OutOfMemory>
    requires { AreHistory phases.now exposed.now }
    ensures { IfOk result (λ list. list ≡ other_phases phases.now exposed.now (λ lane. get_or difference.now lane zeroₚ)) }
{
    let mut list = PhaseList::new(alloc);
    for place in 0..phases.len() {
        list.push(other_at(alloc, phases, exposed, place, difference)?)?;
    }
    Ok(list)
}

// The other phase at a place.
fn other_at(
    alloc: Global,
    phases: &PhaseList,
    exposed: &[u32],
    place: usize,
    difference: &[Fe; 5],
) -> Result<Phase, OutOfMemory>
    requires history { AreHistory phases.now exposed.now }
    requires place { place < length phases.now }
    ensures { IfOk result (λ phase. phase ≡ other_at phases.now exposed.now (λ lane. get_or difference.now lane zeroₚ) place) }
{
    let before = mask_at(exposed, place.saturating_sub(1));
    let after = mask_at(exposed, place);
    other_phase(alloc, phases.at(place), before, after, difference)
}
