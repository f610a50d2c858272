//! What the members of a later phase find: the key and their share files, in memory.

ghost use Rattle.std.specs.Prelude.{◌≡◌, ◌≤◌, ℕ, codes, length, IfOk};
ghost use Rattle.drillbook.specs.Orders.{AllLawful};
ghost use Rattle.commands.specs.Phase.{IsReady, standing_of};
ghost use Rattle.commands.specs.Standing.{seeds_for};
ghost use Rattle.scenes.specs.Law.{AreSides, IsSide};
ghost use Rattle.scenes.specs.Lawful.{AreOrders};
ghost use Rattle.scenes.specs.Orders.{shape_of};
ghost use Rattle.scenes.specs.Scenes.{old_side};
ghost use Rattle.rehearsal_laws.specs.Played.{IsLater};
ghost use Rattle.rehearsal_laws.specs.Standing.{file_with, files_with, key_name, later_seeds, now_before, standing_before};
ghost use Rattle.recorder.specs.Begun.{IsBegun, MayGoOn};

use commands::Asked;
use field61::Fe;
use keyroom::Found;
use lists::OutOfMemory;
use scenes::{Scene, Side};
use sharefile::{KeyName, NowFile, ShareFile};
use std::alloc::Global;

/// What a command would find that plays the phase: the key of the committee that begins it, a share file for each member
/// that has shares, and the drill. The error is want of memory.
pub(crate) fn readied(
    alloc: Global,
    place: u32,
    scene: &Scene,
    shares: &[Option<[Fe; 5]>],
) -> Result<Asked, OutOfMemory>
    requires sides { AreSides scene.now }
    requires told { AreOrders scene.now }
    requires later { IsLater scene.now }
    requires begun { IsBegun place scene.now shares.now }
    ensures found { IfOk result (λ asked. standing_of asked ≡ standing_before place scene.now shares.now) }
    ensures ready { IfOk result (λ asked. IsReady (standing_of asked)) }
    ensures goes { IfOk result (λ asked. MayGoOn scene.now (standing_of asked)) }
    ensures lawful { IfOk result (λ asked. AllLawful (shape_of scene.now) asked.drill) }
    ensures seeds { IfOk result (λ asked. (number : ℕ) → length (later_seeds number place (old_side scene.now)) ≡ seeds_for (standing_of asked)) }
{
    let file = now_before(place, &scene.old_side());
    let files = files_with(alloc, &file, shares)?;
    let drill = scene.drill(alloc)?;
    Ok(Asked { file, files, drill })
}

/// Where the key stands before a later phase, which this committee begins.
fn now_before(place: u32, side: &Side) -> NowFile
    requires side { IsSide side.now }
    requires place { (1 ≤ place) × (place ≤ 64) }
    ensures { result ≡ now_before place side.now }
{
    NowFile {
        name: key_name(),
        n: side.members,
        t: side.bound,
        period: place,
        next_number: 0,
        link: None,
    }
}

/// What a key in memory is called.
fn key_name() -> KeyName
    ensures { result ≡ key_name }
{
    match KeyName::from_text("k") {
        Some(name) => name,
        None => unreachable!(),
    }
}

/// The share files of all members, by index: one for each that has shares. The error is want of memory.
fn files_with(
    alloc: Global,
    now: &NowFile,
    shares: &[Option<[Fe; 5]>],
) -> Result<Vec<Found>, OutOfMemory>
    requires all { length shares.now ≤ now.now.n }
    requires few { length shares.now ≤ 30 }
    ensures { IfOk result (λ files. files.items ≡ files_with now.now 1 shares.now) }
{
    let mut files = Vec::new(alloc);
    for place in 0..shares.len() {
        files.push(file_with(now, place as u32 + 1, shares[place]))?;
    }
    Ok(files)
}

/// The share file of a member, where it has shares.
fn file_with(now: &NowFile, member: u32, shares: Option<[Fe; 5]>) -> Found
    requires { (1 ≤ member) × (member ≤ now.now.n) }
    ensures { result ≡ file_with now.now member shares }
{
    match shares {
        None => Found::Absent,
        Some(lanes) => Found::Valid(ShareFile {
            name: now.name,
            n: now.n,
            t: now.t,
            index: member,
            period: now.period,
            lanes,
            committee: now.committee(),
        }),
    }
}
