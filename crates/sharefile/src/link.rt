//! What ties a committee to who holds its shares and to the committees before.
ghost use Rattle.std.specs.Prelude.{◌≡◌, IsTrue};
ghost use Rattle.sharefile.specs.Files.{committee_digest, are_holders};
ghost use Rattle.sizes.specs.Committees.{is_library_size, is_bound};

use crate::name::KeyName;
use sha2::{Digest, Sha256};

/// What a now file of version 2 says of its committee beside the sizes.
#[derive(Clone, Copy, Debug)]
pub struct Link {
    /// Who got a share file: member `i` at bit `i - 1`. Only members, and at least `n - t` of them.
    pub holders: u32,
    /// The digest of the committee: what `committee_digest` gives of the other fields.
    pub committee: [u8; 32],
    /// The digest of the committee before; zeros for a new key, and behind a now file of version 1.
    pub previous: [u8; 32],
}

/// The digest of a committee: the SHA-256 of byte 4, the name's 32 bytes, `n` and `t` in a byte
/// each, the period and the holders in four bytes each, and the digest of the committee before.
///
/// The committee has `n` members, from 4 to 15, and `t` is at least 1 with `3t < n`. No memory is
/// taken.
pub fn committee_digest(
    name: &KeyName,
    n: u32,
    t: u32,
    period: u32,
    holders: u32,
    previous: &[u8; 32],
) -> [u8; 32]
    requires size { IsTrue (is_library_size n) }
    requires bound { IsTrue (is_bound n t) }
    ensures { result ≡ committee_digest name.now n t period holders previous.now }
{
    let mut hasher = Sha256::new();
    hasher.update(&[4]);
    hasher.update(&name.bytes());
    hasher.update(&[n as u8, t as u8]);
    hasher.update(&period.to_be_bytes());
    hasher.update(&holders.to_be_bytes());
    hasher.update(previous);
    hasher.finalize()
}

/// Whether only members hold a share file, and `n - t` of them at least.
pub(crate) fn are_holders(n: u32, t: u32, holders: u32) -> bool
    requires size { IsTrue (is_library_size n) }
    requires bound { IsTrue (is_bound n t) }
    ensures { result ≡ are_holders n t holders }
{
    holders < 1 << n && n <= t + holders.count_ones()
}
