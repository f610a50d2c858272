//! Words as numbers.

ghost use Rattle.std.specs.Prelude.{◌≡◌, ◌≤◌, true, length};

use field61::{Fe, FeList};
use lists::OutOfMemory;
use std::alloc::Global;
use talk::{Complaint, Post, Reveal, Ring, RingList, Say};

fn push(list: &mut FeList, number: u64) -> Result<(), OutOfMemory> {
    list.push(Fe::reduce(number))
}

// A kind, and how many items it has.
fn write_head(list: &mut FeList, kind: u64, count: usize) -> Result<(), OutOfMemory> {
    push(list, kind)?;
    push(list, count as u64)
}

fn write_all(list: &mut FeList, more: &FeList) -> Result<(), OutOfMemory> {
    for x in more.as_slice() {
        list.push(*x)?;
    }
    Ok(())
}

// How many elements there are, and the elements.
fn write_counted(list: &mut FeList, more: &FeList) -> Result<(), OutOfMemory> {
    push(list, more.len() as u64)?;
    write_all(list, more)
}

fn write_complaints(list: &mut FeList, complaints: &[Complaint]) -> Result<(), OutOfMemory> {
    for c in complaints {
        push(list, u64::from(c.instance))?;
        push(list, u64::from(c.against))?;
        list.push(c.u)?;
        list.push(c.v)?;
    }
    Ok(())
}

fn write_reveals(list: &mut FeList, reveals: &[Reveal]) -> Result<(), OutOfMemory> {
    for r in reveals {
        push(list, u64::from(r.lane))?;
        push(list, u64::from(r.receiver))?;
        write_counted(list, &r.row)?;
        write_counted(list, &r.column)?;
    }
    Ok(())
}

fn write_votes(list: &mut FeList, votes: &[bool]) -> Result<(), OutOfMemory> {
    for vote in votes {
        push(list, u64::from(*vote))?;
    }
    Ok(())
}

// A post: 0 where it is Quiet; else its kind, how many items it has, and the items.
fn write_post(list: &mut FeList, post: &Post) -> Result<(), OutOfMemory> {
    match post {
        Post::Quiet => push(list, 0),
        Post::Complaints { list: items } => {
            write_head(list, 1, items.len())?;
            write_complaints(list, items.as_slice())
        }
        Post::Reveals { list: items } => {
            write_head(list, 2, items.len())?;
            write_reveals(list, items.as_slice())
        }
        Post::Votes { list: items } => {
            write_head(list, 3, items.len())?;
            write_votes(list, items.as_slice())
        }
        Post::Syndromes { list: items } => {
            write_head(list, 4, items.len())?;
            write_all(list, items)
        }
    }
}

// A ring message: 0 where it is Nothing; else its kind, how many elements it has, and the elements.
fn write_ring(list: &mut FeList, ring: &Ring) -> Result<(), OutOfMemory> {
    match ring {
        Ring::Nothing => push(list, 0),
        Ring::Dealt { list: items } => {
            write_head(list, 1, items.len())?;
            write_all(list, items)
        }
        Ring::Cross { list: items } => {
            write_head(list, 2, items.len())?;
            write_all(list, items)
        }
    }
}

// A manner of speaking, the post, and the ring messages.
fn write_spoken(
    list: &mut FeList,
    manner: u64,
    post: &Post,
    rings: &RingList,
) -> Result<(), OutOfMemory> {
    push(list, manner)?;
    write_post(list, post)?;
    for ring in rings.as_slice() {
        write_ring(list, ring)?;
    }
    Ok(())
}

// A word as numbers: 0 where it passes; else 1 in time and 2 late, the post, and the ring messages.
pub(crate) fn write_word(alloc: Global, word: &Say) -> Result<FeList, OutOfMemory> {
    let mut list = FeList::new(alloc);
    match word {
        Say::Pass => push(&mut list, 0)?,
        Say::Speak { post, rings } => write_spoken(&mut list, 1, post, rings)?,
        Say::PassThenSpeak { post, rings } => write_spoken(&mut list, 2, post, rings)?,
    }
    Ok(list)
}

fn starts_with(list: &[Fe], part: &[u64]) -> bool
    ensures { result ≡ true → length part.now ≤ length list.now }
{
    if list.len() < part.len() {
        return false;
    }
    for (x, number) in list.iter().zip(part) {
        if x.get() != *number {
            return false;
        }
    }
    true
}

// Whether the numbers are those of the parts, one after the other.
pub(crate) fn is_written(list: &FeList, parts: &[&[u64]]) -> bool {
    let mut rest = list.as_slice();
    for part in parts {
        if !starts_with(rest, part) {
            return false;
        }
        rest = &rest[part.len()..];
    }
    rest.is_empty()
}
