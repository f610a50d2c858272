//! A member's share file.
ghost use Rattle.std.specs.Prelude.{◌≡◌, ◌≤◌, ◌+◌, ◌-◌, ◌++◌, ◌<◌, length, slice_index, IfOk, IfSome, OnOk, Ok};
ghost use Rattle.std.specs.List.{flat_map};
ghost use Rattle.sharefile.specs.Files.{Share, IsShare, lane_bytes, committee_bytes, share_bytes};
ghost use Rattle.sharefile.specs.Reading.{IsRead, lane_at, three_lanes_at, lanes_at, committee_at, share_fields_at, share_at, whole};

use crate::fault::FileFault;
use crate::fields::{digest_in, head_of, name_in, number_in, put_u32, sign, version};
use crate::name::KeyName;
use byteorder::{BigEndian, ByteOrder};
use field61::Fe;
use lists::OutOfMemory;
use sizes::{is_bound, is_index, is_library_size};
use std::alloc::{AllocError, Global};
use std::marker::Model;

/// How many bytes a share file of version 1 has.
const SHARE_SIZE: usize = 116;

/// A member's share of a key in a period, in its five lanes.
///
/// The committee has `n` members, from 4 to 15, of whom up to `t` may be faulty: `t` is at least 1
/// with `3t < n`. The member's index is from 1 to `n`, and the period is at least 1.
#[derive(Clone, Copy, Debug)]
pub struct ShareFile {
    /// The name of the key.
    pub name: KeyName,
    /// How many members the committee has.
    pub n: u32,
    /// How many members may be faulty.
    pub t: u32,
    /// The member's index, from 1.
    pub index: u32,
    /// The period, from 1.
    pub period: u32,
    /// The member's share in each lane.
    pub lanes: [Fe; 5],
    /// The digest of the committee; `None` in a file of version 1.
    pub committee: Option<[u8; 32]>,
}

impl Model for ShareFile {
    ghost use Rattle.std.specs.Prelude.{refl};
    ghost use Rattle.sharefile.specs.Files.{Share, IsShare, share_code};

    ghost Value = { Share };

    ghost coded = { share_code };

    ghost view = { λ f. record { name = f.name; n = f.n; t = f.t; index = f.index; period = f.period; lanes = f.lanes; committee = f.committee } };

    ghost invariant = { λ f. IsShare (record { name = f.name; n = f.n; t = f.t; index = f.index; period = f.period; lanes = f.lanes; committee = f.committee }) };

    ghost inverse = { λ f. record { name = f.name; n = f.n; t = f.t; index = f.index; period = f.period; lanes = f.lanes; committee = f.committee } };
}

/// The lane in the eight bytes from a place on.
#[tactic(auto, using(crate::proofs::Numbers::big_number_8, crate::proofs::Numbers::fe_is))]
fn lane_in(head: &[u8], place: u32) -> Result<Fe, FileFault>
    requires { place + 8 ≤ length head.now }
    ensures { IsRead (λ x. x) result (lane_at place head.now) }
{
    let start = place as usize;
    match Fe::from_u64(BigEndian::read_u64(&head[start..start + 8])) {
        Some(lane) => Ok(lane),
        None => Err(FileFault::Field { place }),
    }
}

#[tactic(auto, unfolding(crate::specs::Reading::three_lanes_at))]
fn three_lanes_in(head: &[u8], place: u32) -> Result<[Fe; 3], FileFault>
    requires low { place < 100 }
    requires room { place + 24 ≤ length head.now }
    ensures { IsRead (λ lanes. lanes) result (three_lanes_at place head.now) }
{
    let a = lane_in(head, place)?;
    let b = lane_in(head, place + 8)?;
    let c = lane_in(head, place + 16)?;
    Ok([a, b, c])
}

#[tactic(auto, unfolding(crate::specs::Reading::lanes_at))]
fn lanes_in(head: &[u8]) -> Result<[Fe; 5], FileFault>
    requires { 84 ≤ length head.now }
    ensures read { IsRead (λ lanes. lanes) result (lanes_at head.now) }
    ensures lanes { IfOk result (λ lanes. length lanes ≡ 5) }
{
    let [a, b, c] = three_lanes_in(head, 44)?;
    let d = lane_in(head, 68)?;
    let e = lane_in(head, 76)?;
    Ok([a, b, c, d, e])
}

/// The fields that both versions have, without a committee's digest.
#[tactic(auto, unfolding(crate::specs::Reading::share_fields_at))]
fn share_fields(head: &[u8]) -> Result<ShareFile, FileFault>
    requires { 84 ≤ length head.now }
    ensures { IsRead (λ f. f) result (share_fields_at head.now) }
{
    let n = u32::from(head[5]);
    if !is_library_size(n) {
        return Err(FileFault::Field { place: 5 });
    }
    let t = u32::from(head[6]);
    if !is_bound(n, t) {
        return Err(FileFault::Field { place: 6 });
    }
    let index = u32::from(head[7]);
    if !is_index(n, index) {
        return Err(FileFault::Field { place: 7 });
    }
    let period = number_in(head, 8);
    if period == 0 {
        return Err(FileFault::Field { place: 8 });
    }
    let name = name_in(head, 12)?;
    let lanes = lanes_in(head)?;
    Ok(ShareFile {
        name,
        n,
        t,
        index,
        period,
        lanes,
        committee: None,
    })
}

/// The digest of the committee behind the fields that both versions have; none in version 1.
fn committee_of(head: &[u8]) -> Option<[u8; 32]>
    requires { length head.now ≡ whole 116 (slice_index head.now 4) - 32 }
    ensures digest { result ≡ committee_at head.now }
    ensures whole { IfSome result (λ digest. length digest ≡ 32) }
{
    if head[4] == 1 {
        None
    } else {
        Some(digest_in(head, 84))
    }
}

#[tactic(auto, unfolding(crate::specs::Reading::share_at))]
fn share_of(bytes: &[u8]) -> Result<ShareFile, FileFault>
    ensures { IsRead (λ f. f) result (share_at bytes.now) }
{
    let head = head_of(b"DKSH", SHARE_SIZE, bytes)?;
    let file = share_fields(head)?;
    let committee = committee_of(head);
    Ok(ShareFile { committee, ..file })
}

/// The share file that has exactly these bytes.
///
/// # Errors
/// The first fault that holds, in the order that `FileFault` gives, exactly where the bytes are
/// those of no share file; and `OutOfMemory`.
pub fn read_share(bytes: &[u8]) -> Result<ShareFile, FileFault>
    // What is read has these bytes.
    ensures found { IfOk result (λ f. IsShare f × (bytes.now ≡ share_bytes f)) }
    // What has these bytes is read.
    ensures only { (f : Share) → IsShare f → bytes.now ≡ share_bytes f → IsRead (λ f. f) result (Ok f) }
    // A fault is the first that holds.
    ensures exact { IsRead (λ f. f) result (share_at bytes.now) }
{
    share_of(bytes)
}

/// Appends the eight bytes of a lane.
fn put_lane(out: &mut Vec<u8>, lane: Fe) -> Result<(), AllocError>
    ensures { OnOk result (out.new.items ≡ out.old.items ++ lane_bytes lane) }
{
    let mut bytes = [0; 8];
    BigEndian::write_u64(&mut bytes, lane.get());
    out.extend_from_slice(&bytes)?;
    Ok(())
}

/// Appends the bytes of all lanes.
fn put_lanes(out: &mut Vec<u8>, lanes: &[Fe; 5]) -> Result<(), AllocError>
    ensures { OnOk result (out.new.items ≡ out.old.items ++ flat_map lane_bytes lanes.now) }
{
    for lane in lanes {
        put_lane(out, *lane)?;
    }
    Ok(())
}

/// Appends the digest of the committee, where there is one.
fn put_committee(out: &mut Vec<u8>, committee: &Option<[u8; 32]>) -> Result<(), AllocError>
    ensures { OnOk result (out.new.items ≡ out.old.items ++ committee_bytes committee.now) }
{
    if let Some(digest) = committee {
        out.extend_from_slice(digest)?;
    }
    Ok(())
}

/// Appends what is behind the name.
fn put_values(
    out: &mut Vec<u8>,
    lanes: &[Fe; 5],
    committee: &Option<[u8; 32]>,
) -> Result<(), AllocError>
    ensures { OnOk result (out.new.items ≡ out.old.items ++ (flat_map lane_bytes lanes.now ++ committee_bytes committee.now)) }
{
    put_lanes(out, lanes)?;
    put_committee(out, committee)?;
    Ok(())
}

/// The bytes of a share file: 116 without the digest of the committee, 148 with it.
///
/// # Errors
/// `OutOfMemory` alone.
pub fn write_share(alloc: Global, file: &ShareFile) -> Result<Vec<u8>, OutOfMemory>
    ensures { IfOk result (λ bytes. bytes.items ≡ share_bytes file.now) }
{
    let mut out = Vec::new(alloc);
    out.extend_from_slice(b"DKSH")?;
    let version = version(file.committee.is_some());
    out.extend_from_slice(&[version, file.n as u8, file.t as u8, file.index as u8])?;
    put_u32(&mut out, file.period)?;
    out.extend_from_slice(&file.name.bytes())?;
    put_values(&mut out, &file.lanes, &file.committee)?;
    sign(&mut out)?;
    Ok(out)
}
