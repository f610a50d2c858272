//! A recorded phase.

ghost use Rattle.std.specs.Prelude.{◌≡◌, ◌<◌, ◌≤◌, false};
ghost use Rattle.sizes.specs.Instances.{instance_at};
ghost use Rattle.talk.specs.Sync.{has};
ghost use Rattle.playback.specs.Kept.{IsKept};
ghost use Rattle.playback.specs.Recorded.{play_of};

use crate::kept::count_up;
use bivar61::{Grid, GridList};
use lists::{List, OutOfMemory, TryCopy};
use sizes::LANES;
use std::alloc::Global;
use talk::{Post, Ring, Setting};

/// What a phase does.
#[derive(Clone, Copy, Debug, Drop, PartialEq, Eq)]
pub enum PhaseKind {
    /// A committee creates a key.
    Create,
    /// It refreshes its shares.
    Refresh,
    /// It moves the key to another committee.
    Move,
}

/// What a seat that is down said in a round: a post, or a ring message to one other seat.
#[derive(Drop)]
pub struct SaidItem {
    /// The round, from 1.
    pub round: u32,
    /// The seat that said it, from 1.
    pub seat: u32,
    /// 0 where it is a post, else the seat that gets the ring message.
    pub to: u32,
    /// The post: Quiet where `to` isn't 0.
    pub post: Post,
    /// The ring message: Nothing where `to` is 0.
    pub ring: Ring,
}

/// What seats said, in a row. Contracts see the list of it.
pub type SaidList = List<SaidItem>;

/// A recorded phase: what those who are down said, and what the others chose. All else follows.
#[derive(Drop)]
pub struct Phase {
    /// What the phase does.
    pub kind: PhaseKind,
    /// Its setting.
    pub setting: Setting,
    /// The seats that are down: seat `k` has bit `k - 1`.
    pub down: u32,
    /// Five grids for each dealer that isn't down, by dealer and lane.
    pub grids: GridList,
    /// What the seats that are down said, ascending by round, seat and `to`. What isn't there is Quiet or Nothing.
    pub said: SaidList,
}

/// Phases in a row. Contracts see the list of them.
pub type PhaseList = List<Phase>;

impl Phase {
    /// The grid of a dealer that isn't down, in a lane.
    pub fn grid(&self, dealer: u32, lane: u32) -> &Grid
        requires kept { IsKept self.now }
        requires dealer { (1 ≤ dealer) × (dealer ≤ self.now.setting.dealers) }
        requires lane { lane < 5 }
        requires up { has self.now.down dealer ≡ false }
        ensures { result.now ≡ (play_of self.now).grid (instance_at dealer lane) }
    {
        let _dealers = self.setting.dealers();
        let place = LANES * count_up(self.down, dealer - 1) + lane;
        self.grids.at(place as usize)
    }
}

impl TryCopy for SaidItem {
    fn copy(&self, alloc: Global) -> Result<SaidItem, OutOfMemory> {
        Ok(SaidItem {
            round: self.round,
            seat: self.seat,
            to: self.to,
            post: self.post.copy(alloc)?,
            ring: self.ring.copy(alloc)?,
        })
    }
}

impl TryCopy for Phase {
    fn copy(&self, alloc: Global) -> Result<Phase, OutOfMemory> {
        Ok(Phase {
            kind: self.kind,
            setting: self.setting,
            down: self.down,
            grids: self.grids.copy(alloc)?,
            said: self.said.copy(alloc)?,
        })
    }
}
