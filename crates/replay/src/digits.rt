//! Bytes as text: two lower-case hexadecimal digits for each, and `-` for none.
ghost use Rattle.std.specs.Prelude.{◌≡◌, ◌≢◌, List, ℕ, Ok, IfOk, IfSome, IfNone, IsErr, IsTrue, ◌↔◌, string_bytes};
ghost use Rattle.hex.specs.Hex.{IsBytes, decode_of};
ghost use Rattle.replay.specs.Digits.{digits_of};

use hex::FromHexError;
use std::alloc::{AllocError, Global};

/// The text of these bytes.
pub fn digits_of(alloc: Global, bytes: &[u8]) -> Result<String, AllocError>
    ensures { IfOk result (λ text. string_bytes text ≡ digits_of bytes.now) }
{
    if bytes.is_empty() {
        return String::from_str(alloc, "-");
    }
    hex::encode(alloc, bytes)
}

#[tactic(auto, using(crate::proofs::Spelled::spelled, crate::proofs::Spelled::otherwise))]
/// The bytes whose text this is. `None` exactly where it is the text of no bytes.
pub fn read_digits(alloc: Global, text: &str) -> Result<Option<Vec<u8>>, AllocError>
    ensures found { IfOk result (λ found. IfSome found (λ bytes. text.now ≡ digits_of bytes.items)) }
    ensures none { IfOk result (λ found. IfNone found ((bytes : List ℕ) → IsBytes bytes → text.now ≢ digits_of bytes)) }
{
    if text == "-" {
        return Ok(Some(Vec::new(alloc)));
    }
    let Some(bytes) = decoded(alloc, text)? else {
        return Ok(None);
    };
    if !are_written(alloc, &bytes, text)? {
        return Ok(None);
    }
    Ok(Some(bytes))
}

/// Whether this is the text of these bytes.
fn are_written(alloc: Global, bytes: &[u8], text: &str) -> Result<bool, AllocError>
    ensures { IfOk result (λ are. IsTrue are ↔ (text.now ≡ digits_of bytes.now)) }
{
    Ok(digits_of(alloc, bytes)?.as_str() == text)
}

/// The bytes of hexadecimal digits in either case.
fn decoded(alloc: Global, text: &str) -> Result<Option<Vec<u8>>, AllocError>
    ensures found { IfOk result (λ found. IfSome found (λ bytes. decode_of text.now ≡ Ok bytes.items)) }
    ensures none { IfOk result (λ found. IfNone found (IsErr (decode_of text.now))) }
{
    match hex::decode(alloc, text) {
        Ok(bytes) => Ok(Some(bytes)),
        Err(FromHexError::OutOfMemory) => Err(AllocError),
        Err(_) => Ok(None),
    }
}

/// The seed with these 64 digits, or `None` where the text is no such digits.
pub fn read_seed(alloc: Global, text: &str) -> Result<Option<[u8; 32]>, AllocError>
    ensures { IfOk result (λ found. IfSome found (λ seed. text.now ≡ digits_of seed)) }
{
    let Some(bytes) = read_digits(alloc, text)? else {
        return Ok(None);
    };
    match <[u8; 32]>::try_from(bytes.as_slice()) {
        Ok(seed) => Ok(Some(seed)),
        Err(_) => Ok(None),
    }
}
