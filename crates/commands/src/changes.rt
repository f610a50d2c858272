//! The changes of the commands that make a new period.
ghost use Rattle.std.specs.Prelude.{◌≡◌, ◌≤◌, ◌<◌, ◌*◌, ◌∷◌, [], ◌++◌, length, OnOk, IfOk};
ghost use Rattle.shelf.specs.Held.{Put};
ghost use Rattle.sharefile.specs.Files.{now_bytes};
ghost use Rattle.keyroom.specs.Names.{now_name};
ghost use Rattle.keyroom.specs.Changes.{changes_of};
ghost use Rattle.commands.specs.Period.{removal, removals, share_with, put_with};
ghost use Rattle.commands.specs.Phase.{puts_of, indexes_of, period_with, next_with};

use field61::{Fe, NumberList};
use keyroom::{Change, now_name, share_name};
use lists::OutOfMemory;
use sharefile::{KeyName, NowFile, ShareFile, write_now, write_share};
use std::alloc::Global;

fn push_removal(
    alloc: Global,
    changes: &mut Vec<Change>,
    name: &KeyName,
    period: u32,
    index: u32,
) -> Result<(), OutOfMemory>
    ensures { OnOk result (changes_of changes.new.items ≡ changes_of changes.old.items ++ removal name.now period index ∷ []) }
{
    let name = share_name(alloc, name, period, index)?;
    changes.push(Change::Remove { name })?;
    Ok(())
}

/// Appends the removals of the share files 1 to 15 of a period.
fn push_removals(
    alloc: Global,
    changes: &mut Vec<Change>,
    name: &KeyName,
    period: u32,
) -> Result<(), OutOfMemory>
    ensures { OnOk result (changes_of changes.new.items ≡ changes_of changes.old.items ++ removals name.now period) }
{
    for index in 1..16 {
        push_removal(alloc, changes, name, period, index)?;
    }
    Ok(())
}

/// The share file of a member.
fn share_with(now: &NowFile, index: u32, lanes: &[Fe; 5]) -> ShareFile
    requires low { 1 ≤ index }
    requires high { index ≤ now.now.n }
    ensures { result ≡ share_with now.now index lanes.now }
{
    ShareFile {
        name: now.name,
        n: now.n,
        t: now.t,
        index,
        period: now.period,
        lanes: *lanes,
        committee: now.committee(),
    }
}

fn push_put(
    alloc: Global,
    changes: &mut Vec<Change>,
    now: &NowFile,
    index: u32,
    lanes: &[Fe; 5],
) -> Result<(), OutOfMemory>
    requires low { 1 ≤ index }
    requires high { index ≤ now.now.n }
    ensures { OnOk result (changes_of changes.new.items ≡ changes_of changes.old.items ++ put_with now.now index lanes.now ∷ []) }
{
    let file = share_with(now, index, lanes);
    let name = share_name(alloc, &now.name, now.period, index)?;
    let bytes = write_share(alloc, &file)?;
    changes.push(Change::Put { name, bytes })?;
    Ok(())
}

/// Appends the put of a member's share file, where it has shares.
fn push_share(
    alloc: Global,
    changes: &mut Vec<Change>,
    now: &NowFile,
    index: u32,
    shares: &Option<[Fe; 5]>,
) -> Result<(), OutOfMemory>
    requires low { 1 ≤ index }
    requires high { index ≤ now.now.n }
    ensures { OnOk result (changes_of changes.new.items ≡ changes_of changes.old.items ++ puts_of now.now index (shares.now ∷ [])) }
{
    match shares {
        None => Ok(()),
        Some(lanes) => push_put(alloc, changes, now, index, lanes),
    }
}

/// Appends the puts of the share files of all members that have shares, by index.
fn push_shares(
    alloc: Global,
    changes: &mut Vec<Change>,
    now: &NowFile,
    shares: &[Option<[Fe; 5]>],
) -> Result<(), OutOfMemory>
    requires all { length shares.now ≡ now.now.n }
    requires few { length shares.now ≤ 15 }
    ensures { OnOk result (changes_of changes.new.items ≡ changes_of changes.old.items ++ puts_of now.now 1 shares.now) }
{
    let mut index = 1;
    for lanes in shares {
        push_share(alloc, changes, now, index, lanes)?;
        index += 1;
    }
    Ok(())
}

/// Appends the put of the now file.
fn push_now(alloc: Global, changes: &mut Vec<Change>, now: &NowFile) -> Result<(), OutOfMemory>
    ensures { OnOk result (changes_of changes.new.items ≡ changes_of changes.old.items ++ Put (now_name now.now.name) (now_bytes now.now) ∷ []) }
{
    let name = now_name(alloc, &now.name)?;
    let bytes = write_now(alloc, now)?;
    changes.push(Change::Put { name, bytes })?;
    Ok(())
}

/// Appends what makes a period: what a stopped run may have left of it is removed, then its files are put.
fn push_period(
    alloc: Global,
    changes: &mut Vec<Change>,
    now: &NowFile,
    shares: &[Option<[Fe; 5]>],
) -> Result<(), OutOfMemory>
    requires all { length shares.now ≡ now.now.n }
    requires few { length shares.now ≤ 15 }
    ensures { OnOk result (changes_of changes.new.items ≡ changes_of changes.old.items ++ period_with now.now shares.now) }
{
    push_removals(alloc, changes, &now.name, now.period)?;
    push_shares(alloc, changes, now, shares)?;
    push_now(alloc, changes, now)?;
    Ok(())
}

/// All changes of a create, in their order.
pub(crate) fn first_changes(
    alloc: Global,
    now: &NowFile,
    shares: &[Option<[Fe; 5]>],
) -> Result<Vec<Change>, OutOfMemory>
    requires all { length shares.now ≡ now.now.n }
    requires few { length shares.now ≤ 15 }
    ensures { IfOk result (λ changes. changes_of changes.items ≡ period_with now.now shares.now) }
{
    let mut changes = Vec::new(alloc);
    push_period(alloc, &mut changes, now, shares)?;
    Ok(changes)
}

/// All changes with which a period follows another, in their order.
pub(crate) fn next_changes(
    alloc: Global,
    before: &NowFile,
    now: &NowFile,
    shares: &[Option<[Fe; 5]>],
) -> Result<Vec<Change>, OutOfMemory>
    requires all { length shares.now ≡ now.now.n }
    requires few { length shares.now ≤ 15 }
    ensures { IfOk result (λ changes. changes_of changes.items ≡ next_with before.now now.now shares.now) }
{
    let mut changes = Vec::new(alloc);
    push_removals(alloc, &mut changes, &before.name, before.period - 1)?;
    push_period(alloc, &mut changes, now, shares)?;
    push_removals(alloc, &mut changes, &before.name, before.period)?;
    Ok(changes)
}

/// The indexes of the members that have shares.
pub(crate) fn indexes_of(
    alloc: Global,
    shares: &[Option<[Fe; 5]>],
) -> Result<NumberList, OutOfMemory>
    requires { length shares.now ≤ 15 }
    ensures { IfOk result (λ indexes. indexes ≡ indexes_of 1 shares.now) }
{
    let mut indexes = NumberList::new(alloc);
    let mut index = 1;
    for lanes in shares {
        if lanes.is_some() {
            indexes.push(index)?;
        }
        index += 1;
    }
    Ok(indexes)
}
