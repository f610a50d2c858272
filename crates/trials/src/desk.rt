//! A key in memory, and commands over it.
ghost use Rattle.std.specs.Prelude.{◌≤◌, ◌^◌, IfOk};

use committee::{Status, run};
use crews::FailCrew;
use field61::Fe;
use paces::StillPace;
use sharefile::{KeyName, NowFile, ShareFile, read_now, write_now, write_share};
use shelf::{MemoryEntropy, MemoryShelf, MemorySink, Shelf};
use std::sync::Wait;
use std::test::Fail;
use std::thread::Threads;

/// What a failing change of the shelf leaves.
#[derive(Clone, Copy)]
pub(crate) enum Failing {
    /// What was there.
    Kept,
    /// The whole change.
    Made,
}

pub(crate) const BOTH: [Failing; 2] = [Failing::Kept, Failing::Made];

pub(crate) const LETTER: &[u8; 14] = b"Meet at noon.\n";

/// The last line of a recovery of the key that `put_key` puts: its value is 7 in lane 0, and 0 elsewhere. Another
/// implementation has worked it out.
pub(crate) const PUT_KEY: &[u8; 69] =
    b"key 133e7f97ad4b6a1fc1bebc9e6a35d495f3de8d4df7615d75d074b69f4d1ec0c3\n";

/// The same of the key that a create by four members makes of the first four of the seven seeds.
pub(crate) const CREATED_KEY: &[u8; 69] =
    b"key e39a69c229a5f7107d42fc6b86e467b611279a1c57d1dfa4befdb8b2ee23bd95\n";

/// A shelf of which one call fails.
pub(crate) fn shelf_failing<R: AllocGlobal>(
    rt: &R,
    failing: Failing,
    call: u64,
) -> Result<MemoryShelf, Fail> {
    let alloc = rt.alloc();
    let fails = [call].to_vec(alloc)?;
    match failing {
        Failing::Kept => Ok(MemoryShelf::new(alloc, fails)),
        Failing::Made => Ok(MemoryShelf::made(alloc, fails)),
    }
}

/// Puts the share file of a member.
fn put_share<R: AllocGlobal>(
    rt: &R,
    shelf: &mut MemoryShelf,
    file: &str,
    index: u32,
    first: u64,
) -> Result<(), Fail>
    requires low { 1 ≤ index }
    requires high { index ≤ 4 }
{
    let alloc = rt.alloc();
    let zero = Fe::ZERO;
    let share = ShareFile {
        name: KeyName::from_text("k1").ok_or("a name")?,
        n: 4,
        t: 1,
        index,
        period: 1,
        lanes: [Fe::reduce(first), zero, zero, zero, zero],
        committee: None,
    };
    shelf.put(alloc, file, &write_share(alloc, &share)?)?;
    Ok(())
}

/// How many calls `put_key` makes.
pub(crate) const PUT_CALLS: u64 = 7;

/// Puts the key `k1` of four members in period 1, whose shares in lane 0 lie on 7 + 3x, the drill `d`, by which member 2
/// stays silent, and a letter.
pub(crate) fn put_key<R: AllocGlobal>(rt: &R, shelf: &mut MemoryShelf) -> Result<(), Fail> {
    let alloc = rt.alloc();
    let now = NowFile {
        name: KeyName::from_text("k1").ok_or("a name")?,
        n: 4,
        t: 1,
        period: 1,
        next_number: 0,
        link: None,
    };
    shelf.put(alloc, "k1.now", &write_now(alloc, &now)?)?;
    put_share(rt, shelf, "k1.1.1.share", 1, 10)?;
    put_share(rt, shelf, "k1.1.2.share", 2, 13)?;
    put_share(rt, shelf, "k1.1.3.share", 3, 16)?;
    put_share(rt, shelf, "k1.1.4.share", 4, 19)?;
    shelf.put(alloc, "d", b"2 1 silent\n")?;
    shelf.put(alloc, "letter.txt", LETTER)?;
    Ok(())
}

/// An entropy with seven seeds: 32 bytes 1, 32 bytes 2, and so on.
pub(crate) fn seven_seeds<R: AllocGlobal>(rt: &R, fails: &[u64]) -> Result<MemoryEntropy, Fail> {
    let alloc = rt.alloc();
    let mut seeds = Vec::new(alloc);
    for byte in 1..8u8 {
        seeds.push([byte; 32])?;
    }
    Ok(MemoryEntropy::new(seeds, fails.to_vec(alloc)?))
}

/// Runs a command over these objects.
pub(crate) fn run_on<R: Threads + Wait + Sync + AllocGlobal>(
    rt: &R,
    texts: &[&str],
    shelf: &mut MemoryShelf,
    entropy: &mut MemoryEntropy,
    crew: &mut FailCrew,
    out: &mut MemorySink,
) -> Result<Status, Fail> {
    let alloc = rt.alloc();
    let mut words = Vec::new(alloc);
    for text in texts {
        words.push(String::from_str(alloc, *text)?)?;
    }
    let mut pace = StillPace::new();
    Ok(run(rt, alloc, &words, shelf, entropy, crew, &mut pace, out))
}

/// Runs a command over a calm entropy, crew and sink.
fn run_calmly<R: Threads + Wait + Sync + AllocGlobal>(
    rt: &R,
    shelf: &mut MemoryShelf,
    texts: &[&str],
) -> Result<(Status, MemorySink), Fail> {
    let alloc = rt.alloc();
    let mut entropy = seven_seeds(rt, &[])?;
    let mut out = MemorySink::new(alloc, Vec::new(alloc));
    let mut crew = FailCrew::new(Vec::new(alloc));
    let status = run_on(rt, texts, shelf, &mut entropy, &mut crew, &mut out)?;
    Ok((status, out))
}

/// Runs a command that is done, and gives what it prints.
pub(crate) fn done<R: Threads + Wait + Sync + AllocGlobal>(
    rt: &R,
    shelf: &mut MemoryShelf,
    texts: &[&str],
) -> Result<MemorySink, Fail> {
    let (status, out) = run_calmly(rt, shelf, texts)?;
    match status {
        Status::Done => Ok(out),
        _ => Err("a command that isn't done".into()),
    }
}

/// Runs a command that is done or stopped by the shelf, and tells whether it is stopped. Then it has printed nothing.
pub(crate) fn is_stopped<R: Threads + Wait + Sync + AllocGlobal>(
    rt: &R,
    shelf: &mut MemoryShelf,
    texts: &[&str],
) -> Result<bool, Fail> {
    let (status, out) = run_calmly(rt, shelf, texts)?;
    match status {
        Status::Done => Ok(false),
        Status::ShelfFault if out.bytes().is_empty() => Ok(true),
        _ => Err("another answer".into()),
    }
}

/// Sees that recovery gives a key with this last line.
pub(crate) fn has_key<R: Threads + Wait + Sync + AllocGlobal>(
    rt: &R,
    shelf: &mut MemoryShelf,
    line: &[u8],
) -> Result<(), Fail> {
    let out = done(rt, shelf, &["recover", "k1"])?;
    if out.bytes().ends_with(line) {
        Ok(())
    } else {
        Err("another key".into())
    }
}

/// Whether the name is held.
pub(crate) fn holds<R: AllocGlobal>(
    rt: &R,
    shelf: &mut MemoryShelf,
    name: &str,
) -> Result<bool, Fail> {
    let alloc = rt.alloc();
    Ok(shelf.get(alloc, name)?.is_some())
}

/// Sees that a name is held with these bytes.
pub(crate) fn has_bytes<R: AllocGlobal>(
    rt: &R,
    shelf: &mut MemoryShelf,
    name: &str,
    bytes: &[u8],
) -> Result<(), Fail> {
    let alloc = rt.alloc();
    let held = shelf.get(alloc, name)?.ok_or("a file")?;
    if held.as_slice() == bytes {
        Ok(())
    } else {
        Err("other bytes".into())
    }
}

/// How many files a key of version 2 has: its now file and those of the members that have a share.
pub(crate) fn count_files<R: AllocGlobal>(rt: &R, shelf: &mut MemoryShelf) -> Result<u64, Fail>
    ensures { IfOk result (λ count. count ≤ 2 ^ 32) }
{
    let alloc = rt.alloc();
    let bytes = shelf.get(alloc, "k1.now")?.ok_or("a now file")?;
    let Ok(now) = read_now(&bytes) else {
        return Err("a sound now file".into());
    };
    let link = now.link.ok_or("version 2")?;
    Ok(u64::from(link.holders.count_ones()) + 1)
}
