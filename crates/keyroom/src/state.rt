//! The states of a committee's members.
ghost use Rattle.keyroom.specs.Texts.{state_text};

use lists::{List, OutOfMemory, TryCopy};
use std::alloc::Global;
use std::fmt;

/// What stands on the shelf of a member's share.
#[derive(Clone, Copy, Debug, PartialEq, Eq)]
pub enum MemberState {
    /// The name of its share file isn't held.
    Missing,
    /// The name is held, and its bytes are no valid share file: they don't read, or say another key, committee, period
    /// or member.
    Damaged,
    /// The share file is valid, and in some lane it isn't the value of the decoded polynomial.
    Wrong,
    /// The share file is valid, and each lane is the value of the decoded polynomial.
    Fine,
}

impl fmt::Display for MemberState {
    ghost use Rattle.std.specs.Prelude.{Some};
    ghost use Rattle.keyroom.specs.Texts.{state_text};

    ghost output = { λ state. Some (state_text state) };

    fn fmt<W: fmt::Write>(&self, f: &mut fmt::Formatter<W>) -> fmt::Result {
        match self {
            MemberState::Missing => f.write_str("missing"),
            MemberState::Damaged => f.write_str("damaged"),
            MemberState::Wrong => f.write_str("wrong"),
            MemberState::Fine => f.write_str("ok"),
        }
    }
}

/// A list of states, by member.
pub type StateList = List<MemberState>;

impl TryCopy for MemberState {
    fn copy(&self, _alloc: Global) -> Result<MemberState, OutOfMemory> {
        Ok(*self)
    }
}
