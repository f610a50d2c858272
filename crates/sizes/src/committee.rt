//! Committees.

ghost use Rattle.std.specs.Prelude.{◌≡◌, ◌≤◌, ◌&&◌, IsTrue, Decides};
ghost use Rattle.sizes.specs.Committees.{IsCommittee, is_bound, is_index, is_library_size, is_size};

/// A committee: how many members it has, and how many of them may be faulty.
#[derive(Clone, Copy, Debug, Drop, PartialEq, Eq)]
pub struct Committee {
    /// How many members there are.
    pub members: u32,
    /// How many of them may be faulty.
    pub bound: u32,
}

impl Committee {
    /// Whether it is a committee of the library: at least one member may be faulty, fewer than a third of all, and
    /// there are at most 15.
    pub fn is_lawful(self) -> bool
        ensures { Decides result (IsCommittee self.members self.bound) }
    {
        self.members <= 15 && is_bound(self.members, self.bound)
    }

    /// Whether a command can make it: it has 4, 5, 7, 10 or 13 members, of whom at least one may be faulty, and fewer
    /// than a third.
    pub fn can_be_made(self) -> bool
        ensures made { result ≡ (is_size self.members && is_bound self.members self.bound) }
        ensures lawful { IsTrue result → IsCommittee self.members self.bound }
    {
        is_size(self.members) && is_bound(self.members, self.bound)
    }
}

/// Whether a bound is one of a committee: at least one member may be faulty, and fewer than a third of all.
pub fn is_bound(members: u32, bound: u32) -> bool
    ensures { result ≡ is_bound members bound }
{
    1 <= bound && 3 * u64::from(bound) < u64::from(members)
}

/// Whether the library has committees of this size: 4 to 15 members.
pub fn is_library_size(members: u32) -> bool
    ensures { result ≡ is_library_size members }
{
    4 <= members && members <= 15
}

/// Whether a command can make committees of this size: 4, 5, 7, 10 or 13 members.
pub fn is_size(members: u32) -> bool
    ensures is { result ≡ is_size members }
    ensures least { IsTrue result → 4 ≤ members }
    ensures most { IsTrue result → members ≤ 13 }
{
    members == 4 || members == 5 || members == 7 || members == 10 || members == 13
}

/// Whether an index is that of a member: members are numbered from 1.
pub fn is_index(members: u32, index: u32) -> bool
    ensures { result ≡ is_index members index }
{
    1 <= index && index <= members
}
