//! Syndromes of subshares: what a receiver posts of the subshares that it has, what the receivers' posts open, and the
//! share that is left when the errors are taken off.
#![tactic(auto)]

ghost use Rattle.std.specs.Prelude.{◌≡◌, ℕ, ◌+◌, ◌-◌, ◌≤◌, length, IfOk};
ghost use Rattle.checks61.specs.Checks.{syndrome_of, entry};

mod correction;
mod nearest;
mod opening;
#[cfg(test)]
mod tests;

pub use correction::correct;
use field61::{Fe, FeList};
use lists::OutOfMemory;
pub use opening::open_syndrome;
use rs61::syndrome;
use std::alloc::Global;

/// Why a syndrome was not opened.
#[derive(Clone, Copy, Debug, Drop, PartialEq, Eq)]
pub enum OpenFault {
    /// No polynomial is nearest to what was posted for this place, the least such.
    NotOpened { place: u32 },
    /// Want of memory.
    OutOfMemory,
}

impl From<OutOfMemory> for OpenFault {
    ghost use Rattle.std.specs.Prelude.{◌≡◌};
    ghost use Rattle.subshare.specs.declared.OpenFault.TheVariants.{OutOfMemory};

    ghost from_gives = { λ _ e. e ≡ OutOfMemory };

    fn from(_e: lists::OutOfMemory) -> OpenFault {
        OpenFault::OutOfMemory
    }
}

/// One receiver's values to post for one lane: the syndrome of its subshares, of which it has one of each old member, 30
/// at most. `bound` is that of the old committee; the syndrome has at least one value.
pub fn syndrome_share(alloc: Global, shares: &[Fe], bound: u32) -> Result<FeList, OutOfMemory>
    requires some { bound + 2 ≤ length shares.now }
    requires few { length shares.now ≤ 30 }
    ensures { IfOk result
        (λ l. l ≡ syndrome_of (length shares.now) (length shares.now - bound - 1) (entry shares.now)) }
{
    syndrome(alloc, shares, bound)
}
