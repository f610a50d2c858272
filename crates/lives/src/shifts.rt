//! Tests of the other phase, on worked values of four members of whom one may be faulty.

use bivar61::{Grid, GridList};
use field61::Fe;
use lists::OutOfMemory;
use phaseshift::{has_room, other_phase};
use playback::{Phase, PhaseKind, SaidList, is_kept};
use std::alloc::Global;
use talk::Setting;

// For each dealer five times the grid of degree 1 that is constant + slope * y.
fn lines(alloc: Global, dealers: &[(u64, u64)]) -> Result<GridList, OutOfMemory> {
    let mut list = GridList::new(alloc);
    for (constant, slope) in dealers {
        let line = [
            Fe::reduce(*constant),
            Fe::reduce(*slope),
            Fe::ZERO,
            Fe::ZERO,
        ];
        for _ in 0..5 {
            list.push(Grid::from_elements(alloc, 1, &line)?)?;
        }
    }
    Ok(list)
}

// For each dealer five times the grid of degree 0 that is this constant.
fn constants(alloc: Global, dealers: &[u64]) -> Result<GridList, OutOfMemory> {
    let mut list = GridList::new(alloc);
    for constant in dealers {
        for _ in 0..5 {
            list.push(Grid::from_elements(alloc, 0, &[Fe::reduce(*constant)])?)?;
        }
    }
    Ok(list)
}

// The other phase where the keys differ by 1 in the first lane alone, if it may be asked for.
fn other_by_one(
    alloc: Global,
    phase: &Phase,
    before: u32,
    after: u32,
) -> Result<Option<Phase>, OutOfMemory> {
    if !is_kept(phase) || !has_room(phase, before, after) {
        return Ok(None);
    }
    let difference = [Fe::ONE, Fe::ZERO, Fe::ZERO, Fe::ZERO, Fe::ZERO];
    let other = other_phase(alloc, phase, before, after, &difference)?;
    Ok(Some(other))
}

// The value at (x, y) of the grid at a place, where there is one.
fn value(phase: &Option<Phase>, place: usize, x: u64, y: u64) -> Option<u64> {
    let grid = phase.as_ref()?.grids.as_slice().get(place)?;
    Some(grid.at(Fe::reduce(x), Fe::reduce(y)).get())
}

#[test]
fn a_create_gives_the_exposed_member_the_same_share(rt: HostRuntime) -> Result<(), OutOfMemory> {
    let alloc = rt.alloc();
    let phase = Phase {
        kind: PhaseKind::Create,
        setting: Setting::create(4, 1),
        down: 0,
        grids: lines(alloc, &[(7, 3), (0, 0), (0, 0), (0, 0)])?,
        said: SaidList::new(alloc),
    };
    let other = other_by_one(alloc, &phase, 0, 2)?;
    for (place, receiver, share) in [
        (0, 0, 8),
        (0, 1, 1152921504606846986),
        (0, 2, 13),
        (0, 3, 1152921504606846991),
        (0, 4, 18),
        (1, 1, 10),
        (5, 1, 0),
        (15, 4, 0),
    ] {
        assert!(rt; value(&other, place, 0, receiver) == Some(share));
    }
    Ok(())
}

#[test]
fn a_refresh_with_no_degree_left_stays(rt: HostRuntime) -> Result<(), OutOfMemory> {
    let alloc = rt.alloc();
    let phase = Phase {
        kind: PhaseKind::Refresh,
        setting: Setting::refresh(4, 1),
        down: 2,
        grids: constants(alloc, &[5, 6, 7])?,
        said: SaidList::new(alloc),
    };
    let other = other_by_one(alloc, &phase, 2, 2)?;
    for (place, constant) in [(0, 5), (4, 5), (5, 6), (9, 6), (10, 7), (14, 7)] {
        assert!(rt; value(&other, place, 0, 0) == Some(constant));
    }
    assert!(rt; value(&other, 15, 0, 0).is_none());
    Ok(())
}

// 13 and 19 become shares of 8 + 2 * x, on which the exposed first member keeps 10; nothing changes for the receiver that
// is down.
#[test]
fn a_move_changes_each_dealer_by_its_own_factor(rt: HostRuntime) -> Result<(), OutOfMemory> {
    let alloc = rt.alloc();
    let phase = Phase {
        kind: PhaseKind::Move,
        setting: Setting::moving(4, 1, 4, 1),
        down: 64,
        grids: lines(alloc, &[(10, 1), (13, 1), (16, 1), (19, 1)])?,
        said: SaidList::new(alloc),
    };
    let other = other_by_one(alloc, &phase, 1, 4)?;
    for (place, x, y, number) in [
        (0, 0, 0, 10),
        (5, 0, 0, 12),
        (10, 0, 0, 14),
        (15, 0, 0, 16),
        (15, 3, 1, 20),
        (15, 1, 3, 22),
        (16, 0, 0, 19),
    ] {
        assert!(rt; value(&other, place, x, y) == Some(number));
    }
    Ok(())
}

#[test]
fn two_exposed_of_bound_one_have_no_room(rt: HostRuntime) -> Result<(), OutOfMemory> {
    let alloc = rt.alloc();
    let phase = Phase {
        kind: PhaseKind::Create,
        setting: Setting::create(4, 1),
        down: 0,
        grids: lines(alloc, &[(7, 3), (0, 0), (0, 0), (0, 0)])?,
        said: SaidList::new(alloc),
    };
    assert!(rt; has_room(&phase, 3, 2));
    assert!(rt; !has_room(&phase, 0, 3));
    Ok(())
}
