//! HMAC over SHA-256 (RFC 2104).
ghost use Rattle.std.specs.Prelude.{◌≡◌, ◌≤◌, ◌++◌, Ok, length};
ghost use Rattle.sha2.specs.Sha256.{sha256};
ghost use Rattle.docvault.specs.Hmac.{hmac_of, key_block, zero_filled, xor_each};

use lists::OutOfMemory;
use sha2::{Digest, Sha256};
use std::alloc::Global;

/// The bytes, and zeros behind them up to a block.
fn zero_filled(bytes: &[u8]) -> [u8; 64]
    requires { length bytes.now ≤ 64 }
    ensures { result ≡ zero_filled bytes.now }
{
    let mut block = [0; 64];
    block[..bytes.len()].copy_from_slice(bytes);
    block
}

/// The key as one block: a longer key is hashed first, and a shorter one filled with zeros.
fn key_block(key: &[u8]) -> [u8; 64]
    ensures { result ≡ key_block key.now }
{
    if key.len() > 64 {
        let digest: [u8; 32] = Sha256::digest(key);
        return zero_filled(digest.as_slice());
    }
    zero_filled(key)
}

/// Each byte of a block, exclusive-or one byte.
fn xor_each(pad: u8, block: &[u8; 64]) -> [u8; 64]
    ensures { result ≡ xor_each pad block.now }
{
    let mut padded = *block;
    for i in 0..padded.len() {
        let byte = padded[i];
        padded[i] = byte ^ pad;
    }
    padded
}

/// The digest of two pieces behind one another.
fn digest_of_two(first: &[u8], second: &[u8]) -> [u8; 32]
    ensures { result ≡ sha256 (first.now ++ second.now) }
{
    let mut hasher = Sha256::new();
    hasher.update(first);
    hasher.update(second);
    hasher.finalize()
}

/// HMAC over SHA-256.
pub(crate) fn hmac(key: &[u8], text: &[u8]) -> [u8; 32]
    ensures { result ≡ hmac_of key.now text.now }
{
    let block = key_block(key);
    let inner = digest_of_two(xor_each(0x36, &block).as_slice(), text);
    digest_of_two(xor_each(0x5c, &block).as_slice(), inner.as_slice())
}

/// HMAC over SHA-256 with blocks of 64 bytes, as RFC 2104 defines it.
///
/// # Errors
/// None comes: no memory is taken.
pub fn hmac256(_alloc: Global, key: &[u8], text: &[u8]) -> Result<[u8; 32], OutOfMemory>
    ensures { result ≡ Ok (hmac_of key.now text.now) }
{
    Ok(hmac(key, text))
}
