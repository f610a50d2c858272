//! Tests of what is a history, on four members of whom one may be faulty.

ghost use Rattle.std.specs.Prelude.{◌≡◌, ◌≤◌, length, IfOk};

use bivar61::{Grid, GridList};
use field61::Fe;
use lists::OutOfMemory;
use std::alloc::Global;
use talk::Setting;
use viewshift::{History, HistoryFault, Phase, PhaseKind, PhaseList, SaidList};

// Five grids of each of four members, by the setting of a create.
fn create_grids(alloc: Global) -> Result<GridList, OutOfMemory> {
    let mut list = GridList::new(alloc);
    for _ in 0..20 {
        list.push(Grid::from_elements(alloc, 1, &[Fe::ONE; 4])?)?;
    }
    Ok(list)
}

// By that of a refresh.
fn refresh_grids(alloc: Global) -> Result<GridList, OutOfMemory> {
    let mut list = GridList::new(alloc);
    for _ in 0..20 {
        list.push(Grid::from_elements(alloc, 0, &[Fe::ONE; 1])?)?;
    }
    Ok(list)
}

// A create in which nobody is down.
fn create(alloc: Global) -> Result<Phase, OutOfMemory> {
    Ok(Phase {
        kind: PhaseKind::Create,
        setting: Setting::create(4, 1),
        down: 0,
        grids: create_grids(alloc)?,
        said: SaidList::new(alloc),
    })
}

// A refresh in which nobody is down.
fn refresh(alloc: Global) -> Result<Phase, OutOfMemory> {
    Ok(Phase {
        kind: PhaseKind::Refresh,
        setting: Setting::refresh(4, 1),
        down: 0,
        grids: refresh_grids(alloc)?,
        said: SaidList::new(alloc),
    })
}

// A create, and a refresh behind it.
fn life(alloc: Global) -> Result<PhaseList, OutOfMemory>
    ensures { IfOk result (λ l. length l ≤ 2) }
{
    let mut phases = PhaseList::new(alloc);
    phases.push(create(alloc)?)?;
    phases.push(refresh(alloc)?)?;
    Ok(phases)
}

// One mask.
fn masks(alloc: Global, mask: u32) -> Result<Vec<u32>, OutOfMemory>
    ensures { IfOk result (λ v. length v.items ≤ 1) }
{
    let mut list = Vec::new(alloc);
    list.push(mask)?;
    Ok(list)
}

#[test]
fn a_create_and_a_refresh_are_a_history(rt: HostRuntime) -> Result<(), OutOfMemory> {
    let alloc = rt.alloc();
    match History::new(alloc, life(alloc)?, masks(alloc, 4)?) {
        Ok(history) => {
            assert_eq!(rt; history.phases().len(), 2);
            assert_eq!(rt; history.exposed(1), 4);
            assert_eq!(rt; history.exposed(2), 0);
        }
        Err(_) => assert!(rt; false),
    }
    Ok(())
}

#[test]
fn a_first_phase_that_is_a_refresh_is_refused(rt: HostRuntime) -> Result<(), OutOfMemory> {
    let alloc = rt.alloc();
    let mut phases = PhaseList::new(alloc);
    phases.push(refresh(alloc)?)?;
    let made = History::new(alloc, phases, masks(alloc, 0)?);
    assert!(rt; matches!(made, Err(HistoryFault::Phase { place: 0 })));
    Ok(())
}

#[test]
fn two_exposed_of_bound_one_are_refused(rt: HostRuntime) -> Result<(), OutOfMemory> {
    let alloc = rt.alloc();
    let made = History::new(alloc, life(alloc)?, masks(alloc, 3)?);
    assert!(rt; matches!(made, Err(HistoryFault::Exposed { period: 1 })));
    Ok(())
}
