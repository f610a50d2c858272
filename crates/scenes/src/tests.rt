//! Phases of rehearsals as another implementation of the rules draws them, and numbers that were worked out by hand.

ghost use Rattle.std.specs.Prelude.{◌≡◌, ◌≤◌, true, IfOk};
ghost use Rattle.sizes.specs.Committees.{is_bound, is_size};
ghost use Rattle.scenes.specs.Law.{AreSides};

use super::*;
use drillbook::{Order, Verb};
use lists::OutOfMemory;
use sizes::Committee;
use std::alloc::Global;

// A committee as size, bound, mask of who has no share, mask of who is down, and how many are.
type Shown = (u32, u32, u32, u32, u32);

// An order as party, round, verb, and the number or receiver that the verb names, 0 for none.
type Told = (u32, u32, u32, u64);

// A phase: its committees, and what its drilled members are told.
type Row<'a> = (&'a [Shown], &'a [Told]);

const SILENT: u32 = 0;

const SKEW: u32 = 1;

const WRONG: u32 = 2;

const ACCUSE: u32 = 3;

const VETO: u32 = 4;

const OTHER: u32 = 5;

fn shown(side: &Side) -> Shown
    requires { side.now.members ≤ 30 }
{
    (
        side.members,
        side.bound,
        side.shareless,
        side.down(),
        side.down_count(),
    )
}

fn told(order: &Order) -> Told {
    let (verb, number) = match order.verb {
        Verb::Silent => (SILENT, 0),
        Verb::Skew { by } => (SKEW, by.get()),
        Verb::Wrong { by } => (WRONG, by.get()),
        Verb::Accuse { receiver } => (ACCUSE, u64::from(receiver)),
        Verb::Veto => (VETO, 0),
        _ => (OTHER, 0),
    };
    (order.party, order.round, verb, number)
}

// The committees of a phase, in a list that has one for a create or refresh.
fn committees(alloc: Global, scene: &Scene) -> Result<Vec<Shown>, OutOfMemory>
    requires { AreSides scene.now }
{
    let mut list = Vec::new(alloc);
    list.push(shown(&scene.old_side()))?;
    if let Scene::Move { new, .. } = scene {
        list.push(shown(new))?;
    }
    Ok(list)
}

fn orders(alloc: Global, scene: &Scene) -> Result<Vec<Told>, OutOfMemory>
    requires { AreSides scene.now }
{
    let mut list = Vec::new(alloc);
    for order in scene.drill(alloc)?.as_slice() {
        list.push(told(order))?;
    }
    Ok(list)
}

// The phase with this number.
fn scene(alloc: Global, committee: Committee, number: u32, phase: u32) -> Result<Scene, OutOfMemory>
    requires size { is_size committee.members ≡ true }
    requires bound { is_bound committee.members committee.bound ≡ true }
    requires phase { phase ≤ 64 }
    ensures { IfOk result AreSides }
{
    let scenes = scenes_of(alloc, committee, phase, number)?;
    Ok(scenes[phase as usize])
}

// The first of these phases, up to the last, that is another one: its number, its committees and its orders.
fn first_other(
    alloc: Global,
    committee: Committee,
    number: u32,
    last: u32,
    rows: &[Row],
) -> Result<Option<(u32, Vec<Shown>, Vec<Told>)>, OutOfMemory>
    requires size { is_size committee.members ≡ true }
    requires bound { is_bound committee.members committee.bound ≡ true }
    requires last { last ≤ 64 }
{
    for phase in 0..last + 1 {
        let scene = scene(alloc, committee, number, phase)?;
        let found = committees(alloc, &scene)?;
        let orders = orders(alloc, &scene)?;
        match rows.get(phase as usize) {
            Some((sides, drill)) if found.as_slice() == *sides && orders.as_slice() == *drill => {}
            _ => return Ok(Some((phase, found, orders))),
        }
    }
    Ok(None)
}

#[test]
fn draws_are_those_that_were_worked_out(rt: HostRuntime) {
    for (number, draws) in [
        (0, [167951807, 218396424, 1299921937, 861605236]),
        (u32::MAX, [69501759, 1503429036, 1091279824, 2129514251]),
    ] {
        let mut numbers = Numbers::new(number);
        for draw in draws {
            assert_eq!(rt; numbers.draw(), draw);
        }
    }
}

#[test]
fn ten_phases_of_thirteen_members(rt: HostRuntime) -> Result<(), OutOfMemory> {
    let rows: [Row; 10] = [
        (&[(13, 4, 0, 4, 1)], &[(3, 1, SKEW, 1)]),
        (&[(13, 4, 4, 36, 2)], &[(6, 1, SILENT, 0)]),
        (&[(13, 4, 36, 37, 3)], &[(1, 5, VETO, 0)]),
        (
            &[(13, 4, 37, 293, 4), (4, 1, 0, 8, 1)],
            &[(9, 4, SILENT, 0), (17, 2, SKEW, 1)],
        ),
        (&[(4, 1, 8, 8, 1)], &[]),
        (&[(4, 1, 8, 8, 1)], &[]),
        (&[(4, 1, 8, 8, 1), (5, 1, 0, 16, 1)], &[(9, 5, VETO, 0)]),
        (&[(5, 1, 16, 16, 1)], &[]),
        (&[(5, 1, 16, 16, 1)], &[]),
        (&[(5, 1, 16, 16, 1), (7, 2, 0, 8, 1)], &[(9, 5, VETO, 0)]),
    ];
    let committee = Committee {
        members: 13,
        bound: 4,
    };
    assert_eq!(rt;
        first_other(rt.alloc(), committee, 9, 9, rows.as_slice())?,
        None
    );
    Ok(())
}

#[test]
fn eight_phases_of_ten_members(rt: HostRuntime) -> Result<(), OutOfMemory> {
    let rows: [Row; 8] = [
        (&[(10, 3, 0, 256, 1)], &[(9, 5, VETO, 0)]),
        (&[(10, 3, 256, 264, 2)], &[(4, 1, SKEW, 1)]),
        (&[(10, 3, 264, 296, 3)], &[(6, 5, VETO, 0)]),
        (
            &[(10, 3, 296, 296, 3), (13, 4, 0, 32, 1)],
            &[(16, 3, ACCUSE, 7)],
        ),
        (&[(13, 4, 32, 2080, 2)], &[(12, 5, VETO, 0)]),
        (&[(13, 4, 2080, 2592, 3)], &[(10, 1, SILENT, 0)]),
        (
            &[(13, 4, 2592, 2608, 4), (4, 1, 0, 2, 1)],
            &[(5, 1, WRONG, 1), (15, 5, VETO, 0)],
        ),
        (&[(4, 1, 2, 2, 1)], &[]),
    ];
    let committee = Committee {
        members: 10,
        bound: 3,
    };
    assert_eq!(rt;
        first_other(rt.alloc(), committee, 7, 7, rows.as_slice())?,
        None
    );
    Ok(())
}

#[test]
fn seven_phases_of_seven_members(rt: HostRuntime) -> Result<(), OutOfMemory> {
    let rows: [Row; 7] = [
        (&[(7, 1, 0, 8, 1)], &[(4, 5, VETO, 0)]),
        (&[(7, 1, 8, 8, 1)], &[]),
        (&[(7, 1, 8, 8, 1)], &[]),
        (&[(7, 1, 8, 8, 1), (10, 3, 0, 512, 1)], &[(17, 2, SKEW, 1)]),
        (&[(10, 3, 512, 520, 2)], &[(4, 3, ACCUSE, 5)]),
        (&[(10, 3, 520, 584, 3)], &[(7, 1, SKEW, 1)]),
        (
            &[(10, 3, 584, 584, 3), (13, 4, 0, 2, 1)],
            &[(12, 5, VETO, 0)],
        ),
    ];
    let committee = Committee {
        members: 7,
        bound: 1,
    };
    assert_eq!(rt;
        first_other(rt.alloc(), committee, 3, 6, rows.as_slice())?,
        None
    );
    Ok(())
}

#[test]
fn who_is_exposed_period_by_period(rt: HostRuntime) -> Result<(), OutOfMemory> {
    let cases: [((u32, u32, u32, u32), &[u32]); 4] = [
        ((4, 1, 8, 0), &[8, 8, 8, 16, 16, 16, 72, 72, 72]),
        ((13, 4, 9, 9), &[39, 39, 293, 8, 8, 8, 16, 16, 16, 9]),
        ((7, 1, 6, 3), &[8, 8, 8, 521, 584, 584, 15]),
        ((10, 3, 7, 7), &[265, 296, 296, 2083, 2593, 2608, 2, 2]),
    ];
    for ((members, bound, periods, number), masks) in cases {
        let committee = Committee { members, bound };
        assert!(rt; committee.can_be_made() && periods <= 64);
        let exposed = exposed_masks(rt.alloc(), committee, periods, number)?;
        assert_eq!(rt;
            exposed.as_slice(),
            masks,
            "{members} {bound} {periods} {number}"
        );
    }
    Ok(())
}

#[test]
fn a_seed_has_its_numbers_most_significant_byte_first(rt: HostRuntime) {
    let seed = [
        0, 0, 0, 0, 255, 255, 255, 255, 0, 0, 0, 0, 0, 0, 0, 64, 0, 0, 0, 0, 0, 0, 0, 26, 0, 0, 0,
        0, 0, 0, 0, 0,
    ];
    assert_eq!(rt; seed_of(u32::MAX, 64, 26), seed);
}
