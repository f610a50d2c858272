//! The shares with which a phase begins.

ghost use Rattle.std.specs.Prelude.{◌≡◌, ◌≤◌, length, IfOk};
ghost use Rattle.rehearsal.specs.Lived.{begun_with, kept_of};

use field61::Fe;
use lists::OutOfMemory;
use std::alloc::Global;
use talk::in_mask;

/// Those that the phase before left, by index, but for the members of the mask: these begin without. The error is want of
/// memory.
pub(crate) fn begun_with(
    alloc: Global,
    shareless: u32,
    shares: &[Option<[Fe; 5]>],
) -> Result<Vec<Option<[Fe; 5]>>, OutOfMemory>
    requires { length shares.now ≤ 30 }
    ensures { IfOk result (λ begun. begun.items ≡ begun_with shareless shares.now) }
{
    let mut begun = Vec::new(alloc);
    for member in 1..shares.len() as u32 + 1 {
        begun.push(kept_of(shareless, shares, member))?;
    }
    Ok(begun)
}

// What a member begins with.
fn kept_of(shareless: u32, shares: &[Option<[Fe; 5]>], member: u32) -> Option<[Fe; 5]>
    requires member { (1 ≤ member) × (member ≤ length shares.now) }
    requires few { length shares.now ≤ 30 }
    ensures { result ≡ kept_of shareless shares.now member }
{
    if in_mask(shareless, member) {
        None
    } else {
        shares[member as usize - 1]
    }
}
