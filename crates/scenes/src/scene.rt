//! Phases of a rehearsal.

ghost use Rattle.std.specs.Prelude.{◌≡◌, ℕ, ◌+◌, ◌-◌, ◌≤◌, true, IfOk, map};
ghost use Rattle.sizes.specs.Committees.{is_bound, is_size};
ghost use Rattle.talk.specs.Basics.{places};
ghost use Rattle.scenes.specs.Law.{AreSides, IsSide};
ghost use Rattle.scenes.specs.Numbers.{number_after};
ghost use Rattle.scenes.specs.Orders.{shape_of};
ghost use Rattle.scenes.specs.Scenes.{HasCome, new_side, old_side, scene_at};

use crate::members::committee_after;
use crate::{Numbers, Side};
use lists::OutOfMemory;
use sizes::Committee;
use std::alloc::Global;
use talk::Setting;

/// A phase of a rehearsal.
#[derive(Clone, Copy, Debug, Drop, PartialEq, Eq)]
pub enum Scene {
    /// A committee creates a key.
    Create { side: Side },
    /// It refreshes its shares.
    Refresh { side: Side },
    /// It moves the key to another committee.
    Move { old: Side, new: Side },
}

impl Scene {
    /// The first phase: a create, in which nobody is without a share.
    pub fn first(committee: Committee, numbers: &mut Numbers) -> Scene
        requires { (1 ≤ committee.members) × (committee.members ≤ 30) }
        ensures { (number : ℕ) → numbers.old ≡ number_after number 0 → HasCome committee.members committee.bound number 0 result numbers.new }
    {
        Scene::Create {
            side: Side::drawn(committee, 0, numbers),
        }
    }

    /// The phase after this one, whose number is `phase`: each third is a move, to the next size in the circle 4, 5, 7, 10,
    /// 13 with the largest bound, and each other a refresh. Who was down has no share in it; who gets a moved share has one.
    pub fn next(&self, phase: u32, numbers: &mut Numbers) -> Scene
        requires side { IsSide (new_side self.now) }
        requires phase { 1 ≤ phase }
        ensures { (members bound number : ℕ) → HasCome members bound number (phase - 1) self.now numbers.old → HasCome members bound number phase result numbers.new }
    {
        let last = self.new_side();
        let committee = Committee {
            members: last.members,
            bound: last.bound,
        };
        let old = Side::drawn(committee, last.down(), numbers);
        if phase % 3 == 0 {
            let new = Side::drawn(committee_after(last.members), 0, numbers);
            Scene::Move { old, new }
        } else {
            Scene::Refresh { side: old }
        }
    }

    /// The committee that begins the phase.
    pub fn old_side(&self) -> Side
        ensures { result ≡ old_side self.now }
    {
        match *self {
            Scene::Create { side } => side,
            Scene::Refresh { side } => side,
            Scene::Move { old, .. } => old,
        }
    }

    /// The committee that holds the key after the phase.
    pub fn new_side(&self) -> Side
        ensures { result ≡ new_side self.now }
    {
        match *self {
            Scene::Create { side } => side,
            Scene::Refresh { side } => side,
            Scene::Move { new, .. } => new,
        }
    }
}

/// The phases of the rehearsal from a number that a committee begins: the first, and so many more. The error is want of
/// memory.
pub fn scenes_of(
    alloc: Global,
    committee: Committee,
    periods: u32,
    number: u32,
) -> Result<Vec<Scene>, OutOfMemory>
    requires size { is_size committee.members ≡ true }
    requires bound { is_bound committee.members committee.bound ≡ true }
    requires periods { periods ≤ 64 }
    ensures { IfOk result (λ scenes. scenes.items ≡ map (scene_at committee.members committee.bound number) (places (periods + 1))) }
{
    let mut numbers = Numbers::new(number);
    let mut scene = Scene::first(committee, &mut numbers);
    let mut scenes = Vec::new(alloc);
    scenes.push(scene)?;
    for phase in 1..periods + 1 {
        scene = scene.next(phase, &mut numbers);
        scenes.push(scene)?;
    }
    Ok(scenes)
}
