//! The error vectors of the five lanes.

ghost use Rattle.std.specs.Prelude.{◌≡◌, ◌≤◌, length};
ghost use Rattle.talk.specs.Shape.{seats};
ghost use Rattle.subshare.specs.Opening.{post_of};
ghost use Rattle.moveshare.specs.Seat.{IsMoving};
ghost use Rattle.moveshare.specs.Lanes.{AnswersLanes, EachLane, FindsErrors, OpensLanes, fault_at};

use crate::subshares::old_bound;
use field61::FeList;
use lists::{OutOfMemory, TryCopy};
use rs61::{ErrorFault, error_of};
use sizes::LANES;
use std::alloc::Global;
use subshare::{OpenFault, open_syndrome};
use talk::{PostList, Setting};

/// Why the lanes don't have their error vectors.
#[derive(Drop)]
pub enum LaneFault {
    /// The least lane that isn't opened, and its least place that isn't.
    NotOpened { lane: u32, place: u32 },
    /// The least lane whose opened syndrome, this one, has no error vector.
    NoWord { lane: u32, syndrome: FeList },
    /// Want of memory.
    OutOfMemory,
}

impl From<OutOfMemory> for LaneFault {
    ghost use Rattle.std.specs.Prelude.{◌≡◌};
    ghost use Rattle.moveshare.specs.declared.lanes.LaneFault.TheVariants.{OutOfMemory};

    ghost from_gives = { λ _ e. e ≡ OutOfMemory };

    fn from(_e: lists::OutOfMemory) -> LaneFault {
        LaneFault::OutOfMemory
    }
}

/// A list for each lane. Contracts see the list of them.
pub type LaneList = lists::List<FeList>;

// What it means of a lane that opening it was refused.
fn fault_at(lane: u32, fault: OpenFault) -> LaneFault
    ensures { result ≡ fault_at lane fault }
{
    match fault {
        OpenFault::NotOpened { place } => LaneFault::NotOpened { lane, place },
        OpenFault::OutOfMemory => LaneFault::OutOfMemory,
    }
}

// The opened syndromes of the lanes.
fn open_lanes(alloc: Global, posts: &PostList, setting: &Setting) -> Result<LaneList, LaneFault>
    requires moving { IsMoving setting.now }
    requires all { length posts.now ≡ seats setting.now }
    ensures { OpensLanes setting.now (post_of setting.now posts.now) result }
{
    let mut lanes = LaneList::new(alloc);
    for lane in 0..LANES {
        match open_syndrome(alloc, posts, lane, setting) {
            Ok(syndrome) => lanes.push(syndrome)?,
            Err(fault) => return Err(fault_at(lane, fault)),
        }
    }
    Ok(lanes)
}

// The error vectors of the lanes' syndromes.
fn errors_of(alloc: Global, syndromes: &LaneList, setting: &Setting) -> Result<LaneList, LaneFault>
    requires moving { IsMoving setting.now }
    requires lanes { EachLane 5 (λ _ list. length list ≡ setting.now.checks) syndromes.now }
    ensures { FindsErrors setting.now syndromes.now result }
{
    let dealers = setting.dealers();
    let bound = old_bound(setting);
    let mut lanes = LaneList::new(alloc);
    for lane in 0..LANES {
        let syndrome = syndromes.at(lane as usize);
        match error_of(alloc, syndrome.as_slice(), dealers, bound) {
            Ok(error) => lanes.push(error)?,
            Err(ErrorFault::NoError) => {
                let syndrome = syndrome.copy(alloc)?;
                return Err(LaneFault::NoWord { lane, syndrome });
            }
            Err(ErrorFault::OutOfMemory) => return Err(LaneFault::OutOfMemory),
        }
    }
    Ok(lanes)
}

/// The error vectors of the lanes, by the posts of the sixth round, by seat. All lanes are opened before any lane's errors
/// are looked for.
pub fn lane_errors(
    alloc: Global,
    posts: &PostList,
    setting: &Setting,
) -> Result<LaneList, LaneFault>
    requires moving { IsMoving setting.now }
    requires all { length posts.now ≡ seats setting.now }
    ensures { AnswersLanes setting.now (post_of setting.now posts.now) result }
{
    let syndromes = open_lanes(alloc, posts, setting)?;
    errors_of(alloc, &syndromes, setting)
}
