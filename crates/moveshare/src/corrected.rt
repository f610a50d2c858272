//! What is left when the errors are taken off, and whose shares had them.

ghost use Rattle.std.specs.Prelude.{◌≡◌, ℕ, ◌+◌, ◌<◌, ◌≤◌, length, map, true, IfOk};
ghost use Rattle.algebra61.specs.Field.{Fp};
ghost use Rattle.checks61.specs.Checks.{corrected, entry};
ghost use Rattle.talk.specs.Shape.{receives, seats};
ghost use Rattle.plays.specs.Said.{places};
ghost use Rattle.members.specs.Shares.{IsDone, kept_in};
ghost use Rattle.periods.specs.Move.{old_bound};
ghost use Rattle.periods.specs.Mover.{subshare_in};
ghost use Rattle.subshare.specs.Opening.{post_of};
ghost use Rattle.moveshare.specs.Lanes.{EachLane};
ghost use Rattle.moveshare.specs.Result.{AnswersPosts, AreCorrected, has_error, share_without};
ghost use Rattle.moveshare.specs.Seat.{IsMoving};

use crate::lanes::{LaneFault, LaneList, lane_errors};
use crate::out::MoveOut;
use crate::subshares::{old_bound, subshares};
use field61::Fe;
use lists::OutOfMemory;
use sharer::Sharer;
use sizes::LANES;
use std::alloc::Global;
use subshare::correct;
use talk::{PostList, mask_with};

// The share of a lane, less the lane's errors.
fn share_of(alloc: Global, sharer: &Sharer, errors: &LaneList, lane: u32) -> Result<Fe, OutOfMemory>
    requires moving { IsMoving sharer.now.shape }
    requires receiver { receives sharer.now.shape sharer.now.seat ≡ true }
    requires done { IsDone sharer.now.stage }
    requires errors { EachLane 5 (λ _ error. length error ≡ sharer.now.shape.dealers) errors.now }
    requires lane { lane < 5 }
    ensures { IfOk result (λ x. x ≡ share_without sharer.now errors.now lane) }
{
    let shares = subshares(alloc, sharer, lane)?;
    let error = errors.at(lane as usize);
    let bound = old_bound(sharer.setting());
    let share = correct(alloc, shares.as_slice(), error.as_slice(), bound)?;
    Ok(share)
}

/// The shares of all lanes that a receiver's seat has in the end, less the errors of each lane.
pub fn shares_without(
    alloc: Global,
    sharer: &Sharer,
    errors: &LaneList,
) -> Result<[Fe; 5], OutOfMemory>
    requires moving { IsMoving sharer.now.shape }
    requires receiver { receives sharer.now.shape sharer.now.seat ≡ true }
    requires done { IsDone sharer.now.stage }
    requires errors { EachLane 5 (λ _ error. length error ≡ sharer.now.shape.dealers) errors.now }
    ensures { IfOk result (λ xs. xs ≡ map (share_without sharer.now errors.now) (places 5)) }
{
    Ok([
        share_of(alloc, sharer, errors, 0)?,
        share_of(alloc, sharer, errors, 1)?,
        share_of(alloc, sharer, errors, 2)?,
        share_of(alloc, sharer, errors, 3)?,
        share_of(alloc, sharer, errors, 4)?,
    ])
}

// Whether a dealer has an error in some lane.
fn is_corrected(errors: &LaneList, dealer: u32) -> bool
    requires dealer { 1 ≤ dealer }
    requires errors { EachLane 5 (λ _ error. dealer ≤ length error) errors.now }
    ensures { result ≡ has_error errors.now dealer }
{
    for lane in 0..LANES {
        let error = errors.at(lane as usize);
        if error.at(dealer as usize - 1).get() != 0 {
            return true;
        }
    }
    false
}

// The mask of the dealers with an error.
fn corrected_in(errors: &LaneList, dealers: u32) -> u32
    requires few { dealers ≤ 15 }
    requires errors { EachLane 5 (λ _ error. length error ≡ dealers) errors.now }
    ensures { AreCorrected dealers errors.now result }
{
    let mut mask = 0;
    for index in 0..dealers {
        mask = mask_with(mask, index + 1, is_corrected(errors, index + 1));
    }
    mask
}

// What a receiver comes to by the posts of the sixth round.
pub(crate) fn result_of(
    alloc: Global,
    sharer: &Sharer,
    posts: &PostList,
) -> Result<MoveOut, OutOfMemory>
    requires moving { IsMoving sharer.now.shape }
    requires receiver { receives sharer.now.shape sharer.now.seat ≡ true }
    requires done { IsDone sharer.now.stage }
    requires all { length posts.now ≡ seats sharer.now.shape }
    ensures { IfOk result (AnswersPosts sharer.now (post_of sharer.now.shape posts.now)) }
{
    match lane_errors(alloc, posts, sharer.setting()) {
        Ok(errors) => Ok(MoveOut::Shares {
            shares: shares_without(alloc, sharer, &errors)?,
            corrected: corrected_in(&errors, sharer.setting().dealers()),
        }),
        Err(LaneFault::NotOpened { lane, place }) => Ok(MoveOut::NotOpened { lane, place }),
        Err(LaneFault::NoWord { lane, syndrome }) => Ok(MoveOut::NoWord { lane, syndrome }),
        Err(LaneFault::OutOfMemory) => Err(OutOfMemory),
    }
}
