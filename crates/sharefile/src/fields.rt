//! What all files have: the envelope of magic bytes, version, length and digest, and the fields of
//! several kinds of files.
ghost use Rattle.std.specs.Prelude.{◌≡◌, ◌≤◌, ◌+◌, ◌-◌, ◌++◌, length, slice_index, slice_range, IfOk, OnOk};
ghost use Rattle.std.specs.Int.{w32, to_be_bytes};
ghost use Rattle.sharefile.specs.Files.{signed, version};
ghost use Rattle.sharefile.specs.Reading.{IsRead, head_at, is_version, field_number, name_at, whole};

use crate::fault::FileFault;
use crate::name::KeyName;
use byteorder::{BigEndian, ByteOrder};
use sha2::{Digest, Sha256};
use std::alloc::AllocError;

/// How many bytes a file of version 2 has, of either kind.
const TIED_SIZE: usize = 148;

/// The version of a file: 2 where it is tied to its committee, else 1.
pub(crate) fn version(tied: bool) -> u8
    ensures { result ≡ version tied }
{
    if tied { 2 } else { 1 }
}

fn is_version(version: u8) -> bool
    ensures { result ≡ is_version version }
{
    version == 1 || version == 2
}

/// How many bytes a file of a version has, where one of version 1 has `first`.
fn whole(first: usize, version: u8) -> usize
    ensures { result ≡ whole first version }
{
    if version == 1 { first } else { TIED_SIZE }
}

/// The file without its digest, where the envelope is right; `first` is the length of version 1.
#[tactic(auto, unfolding(crate::specs::Reading::head_at))]
pub(crate) fn head_of<'a>(
    magic: &[u8; 4],
    first: usize,
    bytes: &'a [u8],
) -> Result<&'a [u8], FileFault>
    requires { 37 ≤ first }
    ensures read { IsRead (λ head. head.now) result (head_at magic.now first bytes.now) }
    ensures length { IfOk result (λ head. length head.now ≡ whole first (slice_index head.now 4) - 32) }
{
    let have = bytes.len() as u64;
    if bytes.len() < 5 {
        return Err(FileFault::Short { have, need: 5 });
    }
    if &bytes[..4] != magic.as_slice() {
        return Err(FileFault::Magic);
    }
    let version = bytes[4];
    if !is_version(version) {
        return Err(FileFault::Version { found: version });
    }
    let size = whole(first, version);
    let need = size as u64;
    if bytes.len() < size {
        return Err(FileFault::Short { have, need });
    }
    if bytes.len() > size {
        return Err(FileFault::Extra { have, need });
    }
    let (head, digest) = bytes.split_at(size - 32);
    let computed: [u8; 32] = Sha256::digest(head);
    if digest != computed.as_slice() {
        let mut found = [0; 32];
        found.copy_from_slice(digest);
        return Err(FileFault::Digest { found, computed });
    }
    Ok(head)
}

/// The number in the four bytes from a place on.
#[tactic(auto, using(crate::proofs::Numbers::big_number_4))]
pub(crate) fn number_in(head: &[u8], place: usize) -> u32
    requires { place + 4 ≤ length head.now }
    ensures { result ≡ field_number head.now place }
{
    BigEndian::read_u32(&head[place..place + 4])
}

/// The name in the 32 bytes from a place on.
pub(crate) fn name_in(head: &[u8], place: u32) -> Result<KeyName, FileFault>
    requires { place + 32 ≤ length head.now }
    ensures { IsRead (λ name. name) result (name_at place head.now) }
{
    let start = place as usize;
    match KeyName::from_padded(&head[start..start + 32]) {
        Some(name) => Ok(name),
        None => Err(FileFault::Field { place }),
    }
}

/// The digest in the 32 bytes from a place on.
pub(crate) fn digest_in(head: &[u8], place: usize) -> [u8; 32]
    requires { place + 32 ≤ length head.now }
    ensures { result ≡ slice_range head.now place (place + 32) }
{
    let mut digest = [0; 32];
    digest.copy_from_slice(&head[place..place + 32]);
    digest
}

/// Appends the four bytes of a number.
pub(crate) fn put_u32(out: &mut Vec<u8>, number: u32) -> Result<(), AllocError>
    ensures { OnOk result (out.new.items ≡ out.old.items ++ to_be_bytes w32 number) }
{
    let mut bytes = [0; 4];
    BigEndian::write_u32(&mut bytes, number);
    out.extend_from_slice(&bytes)?;
    Ok(())
}

/// Appends the SHA-256 of what is there.
pub(crate) fn sign(out: &mut Vec<u8>) -> Result<(), AllocError>
    ensures { OnOk result (out.new.items ≡ signed out.old.items) }
{
    let digest: [u8; 32] = Sha256::digest(out.as_slice());
    out.extend_from_slice(&digest)?;
    Ok(())
}
