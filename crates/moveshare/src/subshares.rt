//! What a receiver has of the dealers, and its syndromes.

ghost use Rattle.std.specs.Prelude.{◌≡◌, ℕ, ◌<◌, ◌≤◌, ◌++◌, map, true, IfOk, OnOk};
ghost use Rattle.talk.specs.Shape.{receives};
ghost use Rattle.checks61.specs.Checks.{syndrome_of};
ghost use Rattle.plays.specs.Said.{points_up_to};
ghost use Rattle.members.specs.Shares.{IsDone, kept_in};
ghost use Rattle.periods.specs.Move.{old_bound, syndrome_list};
ghost use Rattle.periods.specs.Mover.{subshare_in};
ghost use Rattle.moveshare.specs.Seat.{IsMoving};

use field61::FeList;
use lists::OutOfMemory;
use sharer::Sharer;
use sizes::{Instance, LANES};
use std::alloc::Global;
use subshare::syndrome_share;
use talk::Setting;

// How many of the old committee may be faulty.
pub(crate) fn old_bound(setting: &Setting) -> u32
    requires { IsMoving setting.now }
    ensures is { result ≡ old_bound setting.now }
    ensures few { setting.now.dealers ≤ 15 }
{
    setting.dealers() - setting.checks() - 1
}

// What a receiver has of each dealer in a lane.
pub(crate) fn subshares(alloc: Global, sharer: &Sharer, lane: u32) -> Result<FeList, OutOfMemory>
    requires receiver { receives sharer.now.shape sharer.now.seat ≡ true }
    requires done { IsDone sharer.now.stage }
    requires lane { lane < 5 }
    ensures { IfOk result
        (λ l. l ≡ map (subshare_in (kept_in sharer.now.stage) lane) (points_up_to sharer.now.shape.dealers)) }
{
    let mut list = FeList::new(alloc);
    for index in 0..sharer.setting().dealers() {
        let instance = Instance {
            dealer: index + 1,
            lane,
        };
        list.push(sharer.share(instance.number()))?;
    }
    Ok(list)
}

// The syndrome of what a receiver has in a lane.
fn syndrome_in(alloc: Global, sharer: &Sharer, lane: u32) -> Result<FeList, OutOfMemory>
    requires moving { IsMoving sharer.now.shape }
    requires receiver { receives sharer.now.shape sharer.now.seat ≡ true }
    requires done { IsDone sharer.now.stage }
    requires lane { lane < 5 }
    ensures { IfOk result
        (λ l. l ≡ syndrome_of sharer.now.shape.dealers sharer.now.shape.checks
        (subshare_in (kept_in sharer.now.stage) lane)) }
{
    let shares = subshares(alloc, sharer, lane)?;
    let bound = old_bound(sharer.setting());
    let values = syndrome_share(alloc, shares.as_slice(), bound)?;
    Ok(values)
}

// Puts values at the end of a list.
fn append(list: &mut FeList, values: &FeList) -> Result<(), OutOfMemory>
    ensures { OnOk result (list.new ≡ list.old ++ values.now) }
{
    for value in values.as_slice() {
        list.push(*value)?;
    }
    Ok(())
}

/// What a receiver's seat posts in the sixth round: the syndromes of what it got in each lane, one after another.
pub fn syndromes(alloc: Global, sharer: &Sharer) -> Result<FeList, OutOfMemory>
    requires moving { IsMoving sharer.now.shape }
    requires receiver { receives sharer.now.shape sharer.now.seat ≡ true }
    requires done { IsDone sharer.now.stage }
    ensures { IfOk result (λ l. l ≡ syndrome_list sharer.now.shape (subshare_in (kept_in sharer.now.stage))) }
{
    let mut list = FeList::new(alloc);
    for lane in 0..LANES {
        let values = syndrome_in(alloc, sharer, lane)?;
        append(&mut list, &values)?;
    }
    Ok(list)
}
