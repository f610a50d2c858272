//! The now file.
ghost use Rattle.std.specs.Prelude.{◌≡◌, ◌≤◌, ◌++◌, ◌-◌, ℕ, length, slice_index, IfOk, IfSome, Ok, OnOk};
ghost use Rattle.sharefile.specs.Files.{Now, IsNow, IsLink, committee_of, now_bytes, link_bytes};
ghost use Rattle.sharefile.specs.Reading.{IsRead, link_at, now_fields_at, now_at, whole};

use crate::fault::FileFault;
use crate::fields::{digest_in, head_of, name_in, number_in, put_u32, sign, version};
use crate::link::{Link, are_holders, committee_digest};
use crate::name::KeyName;
use lists::OutOfMemory;
use sizes::{is_bound, is_size};
use std::alloc::{AllocError, Global};
use std::marker::Model;

/// How many bytes a now file of version 1 has.
const NOW_SIZE: usize = 80;

/// Where a key stands: its committee of `n` members, of whom up to `t` may be faulty, its period, and
/// the number of its next document.
///
/// `n` is 4, 5, 7, 10 or 13, `t` is at least 1 with `3t < n`, and `period` is at least 1. A link has
/// at least `n - t` holders, members of the committee alone, and the digest that the other fields
/// give.
#[derive(Clone, Copy, Debug)]
pub struct NowFile {
    /// The name of the key.
    pub name: KeyName,
    /// How many members the committee has.
    pub n: u32,
    /// How many members may be faulty.
    pub t: u32,
    /// The period, from 1.
    pub period: u32,
    /// The number of the next document, from 0.
    pub next_number: u32,
    /// What ties the committee to its files; `None` in a file of version 1.
    pub link: Option<Link>,
}

impl Model for NowFile {
    ghost use Rattle.std.specs.Prelude.{refl};
    ghost use Rattle.sharefile.specs.Files.{Now, IsNow};

    ghost Value = { Now };

    ghost view = { λ f. record { name = f.name; n = f.n; t = f.t; period = f.period; next_number = f.next_number; link = f.link } };

    ghost invariant = { λ f. IsNow (record { name = f.name; n = f.n; t = f.t; period = f.period; next_number = f.next_number; link = f.link }) };

    ghost inverse = { λ f. record { name = f.name; n = f.n; t = f.t; period = f.period; next_number = f.next_number; link = f.link } };
}

impl NowFile {
    /// The digest of the committee, which a valid share file of it has too; `None` in version 1.
    pub fn committee(&self) -> Option<[u8; 32]>
        ensures digest { result ≡ committee_of self.now }
        ensures whole { IfSome result (λ digest. length digest ≡ 32) }
    {
        let link = self.link?;
        Some(link.committee)
    }
}

/// The fields that both versions have, without a link.
#[tactic(auto, unfolding(crate::specs::Reading::now_fields_at))]
fn now_fields(head: &[u8]) -> Result<NowFile, FileFault>
    requires { 48 ≤ length head.now }
    ensures { IsRead (λ f. f) result (now_fields_at head.now) }
{
    let n = u32::from(head[5]);
    if !is_size(n) {
        return Err(FileFault::Field { place: 5 });
    }
    let t = u32::from(head[6]);
    if !is_bound(n, t) {
        return Err(FileFault::Field { place: 6 });
    }
    if head[7] != 0 {
        return Err(FileFault::Field { place: 7 });
    }
    let period = number_in(head, 8);
    if period == 0 {
        return Err(FileFault::Field { place: 8 });
    }
    let next_number = number_in(head, 12);
    let name = name_in(head, 16)?;
    Ok(NowFile {
        name,
        n,
        t,
        period,
        next_number,
        link: None,
    })
}

/// The link behind the fields that both versions have; none in version 1.
#[tactic(auto, unfolding(crate::specs::Reading::link_at))]
fn link_of(head: &[u8], file: &NowFile) -> Result<Option<Link>, FileFault>
    requires { length head.now ≡ whole 80 (slice_index head.now 4) - 32 }
    ensures read { IsRead (λ link. link) result (link_at file.now head.now) }
    ensures fits { IfOk result (λ link. IfSome link (IsLink file.now.name file.now.n file.now.t file.now.period)) }
{
    if head[4] == 1 {
        return Ok(None);
    }
    let holders = number_in(head, 48);
    if !are_holders(file.n, file.t, holders) {
        return Err(FileFault::Field { place: 48 });
    }
    let committee = digest_in(head, 52);
    let previous = digest_in(head, 84);
    let computed = committee_digest(&file.name, file.n, file.t, file.period, holders, &previous);
    if committee.as_slice() != computed.as_slice() {
        return Err(FileFault::Field { place: 52 });
    }
    Ok(Some(Link {
        holders,
        committee,
        previous,
    }))
}

#[tactic(auto, unfolding(crate::specs::Reading::now_at))]
fn now_of(bytes: &[u8]) -> Result<NowFile, FileFault>
    ensures { IsRead (λ f. f) result (now_at bytes.now) }
{
    let head = head_of(b"DKNW", NOW_SIZE, bytes)?;
    let file = now_fields(head)?;
    let link = link_of(head, &file)?;
    Ok(NowFile { link, ..file })
}

/// The now file that has exactly these bytes.
///
/// # Errors
/// The first fault that holds, in the order that `FileFault` gives, exactly where the bytes are
/// those of no now file; and `OutOfMemory`.
pub fn read_now(bytes: &[u8]) -> Result<NowFile, FileFault>
    // What is read has these bytes.
    ensures found { IfOk result (λ f. IsNow f × (bytes.now ≡ now_bytes f)) }
    // What has these bytes is read.
    ensures only { (f : Now) → IsNow f → bytes.now ≡ now_bytes f → IsRead (λ f. f) result (Ok f) }
    // A fault is the first that holds.
    ensures exact { IsRead (λ f. f) result (now_at bytes.now) }
{
    now_of(bytes)
}

/// Appends the bytes of a link, where there is one.
fn put_link(out: &mut Vec<u8>, link: &Option<Link>) -> Result<(), AllocError>
    ensures { OnOk result (out.new.items ≡ out.old.items ++ link_bytes link.now) }
{
    let Some(link) = link else {
        return Ok(());
    };
    put_u32(out, link.holders)?;
    out.extend_from_slice(&link.committee)?;
    out.extend_from_slice(&link.previous)?;
    Ok(())
}

/// The bytes of a now file: 80 without a link, 148 with one.
///
/// # Errors
/// `OutOfMemory` alone.
pub fn write_now(alloc: Global, file: &NowFile) -> Result<Vec<u8>, OutOfMemory>
    ensures { IfOk result (λ bytes. bytes.items ≡ now_bytes file.now) }
{
    let mut out = Vec::new(alloc);
    out.extend_from_slice(b"DKNW")?;
    let version = version(file.link.is_some());
    out.extend_from_slice(&[version, file.n as u8, file.t as u8, 0])?;
    put_u32(&mut out, file.period)?;
    put_u32(&mut out, file.next_number)?;
    out.extend_from_slice(&file.name.bytes())?;
    put_link(&mut out, &file.link)?;
    sign(&mut out)?;
    Ok(out)
}
