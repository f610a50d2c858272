//! Sealing a document into a box, and opening a box.
ghost use Rattle.std.specs.Prelude.{◌≡◌, ◌≤◌, ◌^◌, ◌+◌, ◌++◌, ℕ, List, length, take, drop, Some, IsTrue, IfNone, IfOk, IfErr, OnOk, ◌-◌, ◌<◌, slice_index, slice_range};
ghost use Rattle.sharefile.specs.Names.{is_key_name};
ghost use Rattle.docvault.specs.Keys.{enc_key_of, mac_key_of};
ghost use Rattle.docvault.specs.Box.{IsBox, IsSealed, box_head, tagged};
ghost use Rattle.docvault.specs.Opening.{box_fault, document_number_in, size_in, IsFault, Opens};

use crate::cipher::{apply_keystream, apply_keystream_from};
use crate::fault::BoxFault;
use crate::hmac::hmac;
use crate::keys::{enc_key, mac_key};
use field61::Fe;
use lists::OutOfMemory;
use sharefile::KeyName;
use std::alloc::Global;

const HEAD_SIZE: usize = 48;

const TAG_SIZE: usize = 32;

/// The first 48 bytes of a box.
fn head(name: &KeyName, number: u32, size: usize) -> [u8; HEAD_SIZE]
    requires { size ≤ 2 ^ 26 }
    ensures head { result ≡ box_head name.now number size }
    ensures name { IsTrue (is_key_name name.now) }
{
    let mut head = [0; HEAD_SIZE];
    head[..4].copy_from_slice(b"DKB1");
    head[4..8].copy_from_slice(&number.to_be_bytes());
    head[8..16].copy_from_slice(&(size as u64).to_be_bytes());
    head[16..].copy_from_slice(&name.bytes());
    head
}

/// Moves all bytes but the last 48, which are lost, by 48 places, and puts a head before them.
fn put_before(bytes: &mut [u8], head: &[u8; HEAD_SIZE])
    requires { 48 ≤ length bytes.old }
    ensures { bytes.new ≡ head.now ++ take (length bytes.old - 48) bytes.old }
{
    let size = bytes.len() - HEAD_SIZE;
    bytes.copy_within(..size, HEAD_SIZE);
    bytes[..HEAD_SIZE].copy_from_slice(head);
}

/// The document behind the head of its box, in the document's own memory, with room for the tag.
fn behind_head(name: &KeyName, number: u32, mut doc: Vec<u8>) -> Result<Vec<u8>, OutOfMemory>
    requires { length doc.items ≤ 2 ^ 26 }
    ensures head { IfOk result (λ bytes. bytes.items ≡ box_head name.now number (length doc.items) ++ doc.items) }
    ensures name { OnOk result (IsTrue (is_key_name name.now)) }
{
    let head = head(name, number, doc.len());
    doc.reserve_exact(HEAD_SIZE + TAG_SIZE)?;
    doc.extend_from_slice(&head)?;
    put_before(doc.as_mut_slice(), &head);
    Ok(doc)
}

/// A copy of the document behind the head of its box, with room for the tag.
fn copy_behind_head(
    alloc: Global,
    name: &KeyName,
    number: u32,
    doc: &[u8],
) -> Result<Vec<u8>, OutOfMemory>
    requires { length doc.now ≤ 2 ^ 26 }
    ensures head { IfOk result (λ bytes. bytes.items ≡ box_head name.now number (length doc.now) ++ doc.now) }
    ensures name { OnOk result (IsTrue (is_key_name name.now)) }
{
    let head = head(name, number, doc.len());
    let mut bytes = Vec::with_capacity(alloc, HEAD_SIZE + doc.len() + TAG_SIZE)?;
    bytes.extend_from_slice(&head)?;
    bytes.extend_from_slice(doc)?;
    Ok(bytes)
}

/// The head as it is, and what stands behind it under the keystream.
fn masked(key: &[Fe; 5], number: u32, mut bytes: Vec<u8>) -> Vec<u8>
    requires { 48 ≤ length bytes.items }
    ensures front { take 48 result.items ≡ take 48 bytes.items }
    ensures behind { IsSealed (enc_key_of key.now) number (drop 48 bytes.items) (drop 48 result.items) }
{
    apply_keystream_from(bytes.as_mut_slice(), HEAD_SIZE, enc_key(key), number);
    bytes
}

/// A text with its tag behind it.
fn tagged(key: &[Fe; 5], mut text: Vec<u8>) -> Result<Vec<u8>, OutOfMemory>
    ensures { IfOk result (λ bytes. bytes.items ≡ tagged (mac_key_of key.now) text.items) }
{
    let tag = hmac(&mac_key(key), text.as_slice());
    text.extend_from_slice(&tag)?;
    Ok(text)
}

/// The box of a document under a key and a name, made in the document's own memory: room for 80 more
/// bytes is asked for, and the document is held once. A document has one number, and no two documents
/// of a key may have the same.
///
/// # Errors
/// `OutOfMemory` alone. The document is then dropped.
pub fn seal_in_place(
    key: &[Fe; 5],
    name: &KeyName,
    number: u32,
    doc: Vec<u8>,
) -> Result<Vec<u8>, OutOfMemory>
    requires { length doc.items ≤ 2 ^ 26 }
    ensures { IfOk result (λ bytes. IsBox key.now name.now number doc.items bytes.items) }
{
    let text = behind_head(name, number, doc)?;
    tagged(key, masked(key, number, text))
}

/// The box of a document under a key and a name, made of a copy of the document. A document has one
/// number, and no two documents of a key may have the same.
///
/// # Errors
/// `OutOfMemory` alone.
pub fn seal(
    alloc: Global,
    key: &[Fe; 5],
    name: &KeyName,
    number: u32,
    doc: &[u8],
) -> Result<Vec<u8>, OutOfMemory>
    requires { length doc.now ≤ 2 ^ 26 }
    ensures { IfOk result (λ bytes. IsBox key.now name.now number doc.now bytes.items) }
{
    let text = copy_behind_head(alloc, name, number, doc)?;
    tagged(key, masked(key, number, text))
}

/// The first fault that holds of the bytes, if one does.
#[tactic(auto, unfolding(crate::specs::Opening::box_fault))]
fn first_fault(key: &[Fe; 5], name: &KeyName, bytes: &[u8]) -> Option<BoxFault>
    ensures first { result ≡ box_fault key.now name.now bytes.now }
    ensures long { IfNone result (80 ≤ length bytes.now) }
    ensures short { length bytes.now < 2 ^ 64 }
    ensures bytes { (k : ℕ) → slice_index bytes.now k < 2 ^ 8 }
    ensures name { IsTrue (is_key_name name.now) }
{
    let asked = name.bytes();
    let have = bytes.len() as u64;
    if bytes.len() < 80 {
        return Some(BoxFault::Short { have, need: 80 });
    }
    if &bytes[..4] != b"DKB1".as_slice() {
        return Some(BoxFault::Magic);
    }
    let found = size_in(bytes);
    if found != have - 80 {
        return Some(BoxFault::Length { found, have });
    }
    if &bytes[16..HEAD_SIZE] != asked.as_slice() {
        return Some(BoxFault::Name);
    }
    let (text, tag) = bytes.split_at(bytes.len() - TAG_SIZE);
    let computed = hmac(&mac_key(key), text);
    if tag != computed.as_slice() {
        let mut found = [0; 32];
        found.copy_from_slice(tag);
        return Some(BoxFault::Tag { found, computed });
    }
    None
}

/// The document's length, as the box says it.
fn size_in(bytes: &[u8]) -> u64
    requires { 16 ≤ length bytes.now }
    ensures { result ≡ size_in bytes.now }
{
    let mut number = [0; 8];
    number.copy_from_slice(&bytes[8..16]);
    u64::from_be_bytes(number)
}

/// The document's number, as the box says it.
fn number_in(bytes: &[u8]) -> u32
    requires { 8 ≤ length bytes.now }
    ensures { result ≡ document_number_in bytes.now }
{
    let mut number = [0; 4];
    number.copy_from_slice(&bytes[4..8]);
    u32::from_be_bytes(number)
}

/// The document whose bytes under the keystream are these, in their own memory.
fn unmasked(key: &[Fe; 5], number: u32, mut sealed: Vec<u8>) -> Vec<u8>
    ensures { IsSealed (enc_key_of key.now) number sealed.items result.items }
{
    apply_keystream(sealed.as_mut_slice(), enc_key(key), number);
    sealed
}

/// The number and the document of bytes that have no fault, in the bytes' own memory.
fn opened_in_place(key: &[Fe; 5], mut bytes: Vec<u8>) -> (u32, Vec<u8>)
    requires { 80 ≤ length bytes.items }
    ensures number { result.0 ≡ document_number_in bytes.items }
    ensures document { IsSealed (enc_key_of key.now) (document_number_in bytes.items)
        (slice_range bytes.items 48 (length bytes.items - 32)) result.1.items }
{
    let number = number_in(&bytes);
    let end = bytes.len() - TAG_SIZE;
    bytes.copy_within(HEAD_SIZE..end, 0);
    bytes.truncate(end - HEAD_SIZE);
    (number, unmasked(key, number, bytes))
}

/// The number and the document of a box under a key and a name. The document lies in the box's own
/// memory, and no other is taken.
///
/// # Errors
/// The first fault that holds, in the order of `BoxFault`, exactly where the bytes are the box of
/// no document under the key and the name. The bytes are then dropped, and nothing of a document is
/// given before its tag was found right. `OutOfMemory` doesn't come.
pub fn unseal_in_place(
    key: &[Fe; 5],
    name: &KeyName,
    bytes: Vec<u8>,
) -> Result<(u32, Vec<u8>), BoxFault>
    // What is opened has this box.
    ensures found { IfOk result (λ opened. IsBox key.now name.now opened.0 opened.1.items bytes.items) }
    // What has this box is opened.
    ensures only { (number : ℕ) (document : List ℕ) → IsBox key.now name.now number document bytes.items →
        Opens result number document }
    // A fault is the first that holds.
    ensures exact { IsFault result (box_fault key.now name.now bytes.items) }
    // A fault that is answered holds of the bytes, so want of memory isn't answered.
    ensures memory { IfErr result (λ fault. box_fault key.now name.now bytes.items ≡ Some fault) }
{
    match first_fault(key, name, &bytes) {
        None => Ok(opened_in_place(key, bytes)),
        Some(fault) => Err(fault),
    }
}

/// The number and the document of bytes that have no fault. The document alone is copied out of the
/// box.
fn opened(alloc: Global, key: &[Fe; 5], bytes: &[u8]) -> Result<(u32, Vec<u8>), BoxFault>
    requires { 80 ≤ length bytes.now }
    ensures number { IfOk result (λ opened. opened.0 ≡ document_number_in bytes.now) }
    ensures document { IfOk result (λ opened. IsSealed (enc_key_of key.now) (document_number_in bytes.now)
        (slice_range bytes.now 48 (length bytes.now - 32)) opened.1.items) }
    ensures memory { IfErr result (λ fault. fault ≡ BoxFault.OutOfMemory) }
{
    let number = number_in(bytes);
    let sealed = bytes[HEAD_SIZE..bytes.len() - TAG_SIZE].to_vec(alloc)?;
    Ok((number, unmasked(key, number, sealed)))
}

/// The number and the document of a box under a key and a name.
///
/// # Errors
/// The first fault that holds, in the order of `BoxFault`, exactly where the bytes are the box of
/// no document under the key and the name; and `OutOfMemory`. Nothing of a document is given
/// before its tag was found right, and nothing is copied before.
pub fn unseal(
    alloc: Global,
    key: &[Fe; 5],
    name: &KeyName,
    bytes: &[u8],
) -> Result<(u32, Vec<u8>), BoxFault>
    // What is opened has this box.
    ensures found { IfOk result (λ opened. IsBox key.now name.now opened.0 opened.1.items bytes.now) }
    // What has this box is opened.
    ensures only { (number : ℕ) (document : List ℕ) → IsBox key.now name.now number document bytes.now →
        Opens result number document }
    // A fault is the first that holds.
    ensures exact { IsFault result (box_fault key.now name.now bytes.now) }
{
    match first_fault(key, name, bytes) {
        Some(fault) => Err(fault),
        None => opened(alloc, key, bytes),
    }
}
