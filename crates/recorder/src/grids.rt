//! The grids of the dealers of a drawn phase that aren't down, drawn from their seeds.

ghost use Rattle.std.specs.Prelude.{◌≡◌, ◌≤◌, ◌++◌, ℕ, List, [], cond, length, IfOk, OnOk};
ghost use Rattle.chance61.specs.Draws.{grids_drawn, grids_drawn_with};
ghost use Rattle.commands.specs.Create.{play_created};
ghost use Rattle.commands.specs.Move.{dealt_shares, play_moved};
ghost use Rattle.commands.specs.Refresh.{play_refreshed};
ghost use Rattle.commands.specs.Standing.{seeds_for};
ghost use Rattle.scenes.specs.declared.scene.Scene.TheVariants as scene;
ghost use Rattle.scenes.specs.Law.{AreSides, IsSide};
ghost use Rattle.scenes.specs.Orders.{orders_of};
ghost use Rattle.scenes.specs.Scenes.{is_drilled};
ghost use Rattle.rehearsal_laws.specs.Standing.{standing_before};
ghost use Rattle.recorder.specs.Begun.{HaveShares};
ghost use Rattle.recorder.specs.Dealt.{AreGridsOf};

use crate::down::is_drilled;
use bivar61::{Grid, GridList};
use chance61::Chance;
use drillbook::Drill;
use field61::Fe;
use lists::OutOfMemory;
use scenes::Side;
use std::alloc::Global;

/// What an old member deals as its shares: the drill may tell it to add something to each.
fn dealt_shares(drill: &Drill, member: u32, lanes: &[Fe; 5]) -> [Fe; 5]
    ensures { result ≡ dealt_shares drill.now member lanes.now }
{
    let more = drill.wrong(member);
    [
        lanes[0].add(more),
        lanes[1].add(more),
        lanes[2].add(more),
        lanes[3].add(more),
        lanes[4].add(more),
    ]
}

/// Appends the five grids that a member draws from its seed, unless it is drilled.
fn push_drawn(
    alloc: Global,
    grids: &mut Vec<Grid>,
    side: &Side,
    member: u32,
    degree: u32,
    seed: &[u8; 32],
) -> Result<(), OutOfMemory>
    requires { degree ≤ 14 }
    ensures { OnOk result (grids.new.items ≡ grids.old.items ++ cond (is_drilled side.now.drilled member) [] (grids_drawn degree seed.now)) }
{
    if is_drilled(side, member) {
        return Ok(());
    }
    let mut chance = Chance::from_seed(*seed);
    let mut drawn = chance.draw_grids(alloc, degree)?.into_vec();
    grids.append(&mut drawn)?;
    Ok(())
}

/// Appends the five grids with these constants that a member draws from its seed, unless it is drilled.
fn push_drawn_with(
    alloc: Global,
    grids: &mut Vec<Grid>,
    side: &Side,
    member: u32,
    degree: u32,
    constants: &[Fe; 5],
    seed: &[u8; 32],
) -> Result<(), OutOfMemory>
    requires { degree ≤ 14 }
    ensures { OnOk result (grids.new.items ≡ grids.old.items ++ cond (is_drilled side.now.drilled member) [] (grids_drawn_with degree constants.now seed.now)) }
{
    if is_drilled(side, member) {
        return Ok(());
    }
    let mut chance = Chance::from_seed(*seed);
    let mut drawn = chance.draw_grids_with(alloc, degree, constants)?.into_vec();
    grids.append(&mut drawn)?;
    Ok(())
}

/// Those of a create: five for each member that isn't drilled, by index. The error is want of memory.
pub(crate) fn created_grids(
    alloc: Global,
    side: &Side,
    seeds: &[[u8; 32]],
) -> Result<GridList, OutOfMemory>
    requires side { IsSide side.now }
    requires seeds { length seeds.now ≡ side.now.members }
    ensures { IfOk result (λ grids. (masks : List ℕ) → AreGridsOf (scene.Create side.now)
        (play_created side.now.members side.now.bound (orders_of (scene.Create side.now)) seeds.now masks) grids) }
{
    let mut grids = Vec::new(alloc);
    let mut member = 1;
    for seed in seeds {
        push_drawn(alloc, &mut grids, side, member, side.bound, seed)?;
        member += 1;
    }
    Ok(GridList::from_vec(grids))
}

/// Those of a refresh: five for each member with shares that isn't drilled, by index. There is a seed for each member with
/// shares. The error is want of memory.
pub(crate) fn refreshed_grids(
    alloc: Global,
    side: &Side,
    shares: &[Option<[Fe; 5]>],
    seeds: &[[u8; 32]],
) -> Result<GridList, OutOfMemory>
    requires side { IsSide side.now }
    requires shares { HaveShares side.now shares.now }
    requires seeds { (place : ℕ) → length seeds.now ≡ seeds_for (standing_before place (scene.Refresh side.now) shares.now) }
    ensures { IfOk result (λ grids. (place : ℕ) (masks : List ℕ) → AreGridsOf (scene.Refresh side.now)
        (play_refreshed (standing_before place (scene.Refresh side.now) shares.now) seeds.now masks) grids) }
{
    let mut grids = Vec::new(alloc);
    let mut member = 1;
    let mut taken = 0;
    for share in shares {
        if share.is_some() {
            push_drawn(
                alloc,
                &mut grids,
                side,
                member,
                side.bound - 1,
                &seeds[taken],
            )?;
            taken += 1;
        }
        member += 1;
    }
    Ok(GridList::from_vec(grids))
}

/// Those of a move: five for each old member with shares that isn't drilled, by index, whose constants are its shares, as
/// the drill has it deal them. There is a seed for each old member with shares. The error is want of memory.
pub(crate) fn moved_grids(
    alloc: Global,
    old: &Side,
    new: &Side,
    drill: &Drill,
    shares: &[Option<[Fe; 5]>],
    seeds: &[[u8; 32]],
) -> Result<GridList, OutOfMemory>
    requires sides { AreSides (scene.Move old.now new.now) }
    requires told { drill.now ≡ orders_of (scene.Move old.now new.now) }
    requires shares { HaveShares old.now shares.now }
    requires seeds { (place : ℕ) → length seeds.now ≡ seeds_for (standing_before place (scene.Move old.now new.now) shares.now) }
    ensures { IfOk result (λ grids. (place : ℕ) (masks : List ℕ) → AreGridsOf (scene.Move old.now new.now)
        (play_moved (standing_before place (scene.Move old.now new.now) shares.now) new.now.members new.now.bound seeds.now masks) grids) }
{
    let mut grids = Vec::new(alloc);
    let mut member = 1;
    let mut taken = 0;
    for share in shares {
        if let Some(lanes) = share {
            let dealt = dealt_shares(drill, member, lanes);
            push_drawn_with(
                alloc,
                &mut grids,
                old,
                member,
                new.bound,
                &dealt,
                &seeds[taken],
            )?;
            taken += 1;
        }
        member += 1;
    }
    Ok(GridList::from_vec(grids))
}
