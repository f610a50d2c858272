//! The keystream over a document: the ChaCha20 word sequence under a key, with the document's number
//! as its stream, from its first word on. Each word gives four bytes, the least significant first.
ghost use Rattle.std.specs.Prelude.{◌≡◌, ◌<◌, ◌≤◌, ◌+◌, ℕ, length, take, drop, slice_index};
ghost use Rattle.std.specs.Int.{byte_at};
ghost use Rattle.docvault.specs.Box.{IsSealed};
ghost use Rattle.docvault.specs.Masking.{IsMasked};

use rand_chacha::ChaCha20Rng;
use rand_core::SeedableRng;
use rand_core::utils::NextWord;

/// Takes the first bytes of a word, exclusive-or, into as many bytes from a place on.
fn mask_word(bytes: &mut [u8], place: usize, count: usize, word: u32)
    requires few { count ≤ 4 }
    requires room { place + count ≤ length bytes.old }
    ensures { IsMasked bytes.old bytes.new place count word }
{
    let mask = word.to_le_bytes();
    for j in 0..count {
        bytes[place + j] ^= mask[j];
    }
}

/// The four bytes from a place on as a word, the least significant first.
fn word_from(bytes: &[u8], place: usize) -> u32
    requires { place + 4 ≤ length bytes.now }
    ensures { (j : ℕ) → j < 4 → byte_at j result ≡ slice_index bytes.now (place + j) }
{
    let block = &bytes[place..place + 4];
    u32::from_le_bytes([block[0], block[1], block[2], block[3]])
}

/// Takes all four bytes of a word, exclusive-or, into those from a place on, in one step.
fn mask_four(bytes: &mut [u8], place: usize, word: u32)
    requires { place + 4 ≤ length bytes.old }
    ensures { IsMasked bytes.old bytes.new place 4 word }
{
    let masked = word_from(bytes, place) ^ word;
    bytes[place..place + 4].copy_from_slice(&masked.to_le_bytes());
}

/// Takes the keystream, exclusive-or, into all the bytes.
pub(crate) fn apply_keystream(bytes: &mut [u8], enc_key: [u8; 32], number: u32)
    ensures { IsSealed enc_key number bytes.old bytes.new }
{
    let mut words = ChaCha20Rng::from_seed(enc_key);
    words.set_stream(number as u64);
    let whole = bytes.len() / 4;
    for i in 0..whole {
        mask_four(bytes, 4 * i, words.next_word());
    }
    mask_word(bytes, 4 * whole, bytes.len() % 4, words.next_word());
}

/// Takes the keystream, exclusive-or, into the bytes from a place on.
pub(crate) fn apply_keystream_from(bytes: &mut [u8], start: usize, enc_key: [u8; 32], number: u32)
    requires { start ≤ length bytes.old }
    ensures front { take start bytes.new ≡ take start bytes.old }
    ensures behind { IsSealed enc_key number (drop start bytes.old) (drop start bytes.new) }
{
    apply_keystream(&mut bytes[start..], enc_key, number);
}
