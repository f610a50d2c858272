//! A committee in a phase.

ghost use Rattle.std.specs.Prelude.{◌≡◌, ℕ, ◌+◌, ◌^◌, ◌<◌, ◌≤◌};
ghost use Rattle.scenes.specs.Numbers.{number_after};
ghost use Rattle.scenes.specs.Scenes.{down_count, down_mask, drilled_by, is_down_on, is_drilled, side_drawn};

use crate::Numbers;
use crate::members::{count_in, first_unnamed, with_member};
use sizes::Committee;
use talk::in_mask;

/// A committee in a phase, who of it has no share, and whom a drill tells how to misbehave.
#[derive(Clone, Copy, Debug, Drop, PartialEq, Eq)]
pub struct Side {
    /// How many members it has.
    pub members: u32,
    /// How many of them may be faulty.
    pub bound: u32,
    /// The mask of the members without a share: member `i` has bit `i - 1`.
    pub shareless: u32,
    /// The member that is drilled. Nobody is where as many as the bound have no share.
    pub drilled: Option<u32>,
    /// How it misbehaves, one of four ways, from 0.
    pub manner: u32,
}

impl Side {
    // The committee with these members without a share, for which two draws are taken: who is drilled, and how. They are
    // taken also where nobody is drilled.
    pub(crate) fn drawn(committee: Committee, shareless: u32, numbers: &mut Numbers) -> Side
        requires { (1 ≤ committee.members) × (committee.members ≤ 30) }
        ensures side { (number before : ℕ) → numbers.old ≡ number_after number before → result ≡ side_drawn number before committee.members committee.bound shareless }
        ensures step { (number before : ℕ) → numbers.old ≡ number_after number before → numbers.new ≡ number_after number (before + 2) }
    {
        let who = numbers.draw();
        let how = numbers.draw();
        Side {
            members: committee.members,
            bound: committee.bound,
            shareless,
            drilled: drilled_by(committee, shareless, who),
            manner: how % 4,
        }
    }

    /// Whether a member is down: it has no share, or it is drilled.
    pub fn is_down(&self, member: u32) -> bool
        requires { (1 ≤ member) × (member ≤ 30) }
        ensures { result ≡ is_down_on self.now member }
    {
        in_mask(self.shareless, member) || is_drilled(self.drilled, member)
    }

    /// The mask of the members that are down.
    pub fn down(&self) -> u32
        requires { self.now.members ≤ 30 }
        ensures { result ≡ down_mask self.now }
    {
        let mut mask = 0;
        for member in 1..self.members + 1 {
            mask = with_member(mask, member, self.is_down(member));
        }
        mask
    }

    /// How many members are down.
    pub fn down_count(&self) -> u32
        requires { self.now.members ≤ 30 }
        ensures { result ≡ down_count self.now }
    {
        let mut count = 0;
        for member in 1..self.members + 1 {
            if self.is_down(member) {
                count += 1;
            }
        }
        count
    }
}

// Whom a draw drills.
fn drilled_by(committee: Committee, shareless: u32, draw: u32) -> Option<u32>
    requires members { (1 ≤ committee.members) × (committee.members ≤ 30) }
    requires draw { draw < 2 ^ 31 }
    ensures { result ≡ drilled_by committee.members committee.bound shareless draw }
{
    if count_in(shareless, committee.members) >= committee.bound {
        None
    } else {
        first_unnamed(committee.members, draw, shareless)
    }
}

fn is_drilled(drilled: Option<u32>, member: u32) -> bool
    ensures { result ≡ is_drilled drilled member }
{
    match drilled {
        Some(drilled) => drilled == member,
        None => false,
    }
}
