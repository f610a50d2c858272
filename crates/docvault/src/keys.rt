//! What is made of a key: its fingerprint, the key of the cipher and the key of the tag.
ghost use Rattle.std.specs.Prelude.{◌≡◌, ◌∷◌, Ok};
ghost use Rattle.sha2.specs.Sha256.{sha256};
ghost use Rattle.docvault.specs.Keys.{key_bytes, enc_key_of, mac_key_of, fingerprint_of};

use field61::Fe;
use lists::OutOfMemory;
use sha2::{Digest, Sha256};
use std::alloc::Global;

/// The SHA-256 of one byte and the key's 40 bytes.
fn digest_of(first: u8, key: &[Fe; 5]) -> [u8; 32]
    ensures { result ≡ sha256 (first ∷ key_bytes key.now) }
{
    let mut hasher = Sha256::new();
    hasher.update([first].as_slice());
    for lane in key {
        hasher.update(lane.to_bytes().as_slice());
    }
    hasher.finalize()
}

/// The key of the cipher.
pub(crate) fn enc_key(key: &[Fe; 5]) -> [u8; 32]
    ensures { result ≡ enc_key_of key.now }
{
    digest_of(1, key)
}

/// The key of the tag.
pub(crate) fn mac_key(key: &[Fe; 5]) -> [u8; 32]
    ensures { result ≡ mac_key_of key.now }
{
    digest_of(2, key)
}

/// The fingerprint of a key, by which it is named and compared: the SHA-256 of the byte 3 and the
/// key's 40 bytes, which are its five lanes of eight bytes each, the most significant first.
///
/// # Errors
/// None comes: no memory is taken.
pub fn fingerprint(_alloc: Global, key: &[Fe; 5]) -> Result<[u8; 32], OutOfMemory>
    ensures { result ≡ Ok (fingerprint_of key.now) }
{
    Ok(digest_of(3, key))
}
