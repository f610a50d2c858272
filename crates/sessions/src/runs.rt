ghost use Rattle.std.specs.Prelude.{◌≤◌};

mod held;
mod late;
mod rehearsed;

use committee::{Crew, Pace, Status, run};
use crews::{FailCrew, ThreadCrew};
use field61::Fe;
use keyroom::{MemberState, Sealed, check_key, open_doc, recover_key, seal_doc, share_name};
use lists::TryCopy;
use paces::StillPace;
use sharefile::{KeyName, NowFile, ShareFile, read_now, write_now, write_share};
use shelf::{MemoryEntropy, MemoryShelf, MemorySink, Shelf};
use std::alloc::Global;
use std::sync::Wait;
use std::test::Fail;
use std::thread::Threads;

fn words(alloc: Global, texts: &[&str]) -> Result<Vec<String>, Fail> {
    let mut words = Vec::new(alloc);
    for text in texts {
        words.push(String::from_str(alloc, *text)?)?;
    }
    Ok(words)
}

fn put_share(
    alloc: Global,
    shelf: &mut MemoryShelf,
    file: &str,
    index: u32,
    first: u64,
) -> Result<(), Fail>
    requires low { 1 ≤ index }
    requires high { index ≤ 4 }
{
    let zero = Fe::ZERO;
    let share = ShareFile {
        name: KeyName::from_text("k1").ok_or("a name")?,
        n: 4,
        t: 1,
        index,
        period: 1,
        lanes: [Fe::reduce(first), zero, zero, zero, zero],
        committee: None,
    };
    shelf.put(alloc, file, &write_share(alloc, &share)?)?;
    Ok(())
}

/// A shelf with the key `k1` of 4 members in period 1. In lane 0 the shares are 10, 13, 16 and 19, which lie on
/// 7 + 3x, but for member 3, whose share is handed in; the other lanes are 0.
fn shelf_of(alloc: Global, third: u64) -> Result<MemoryShelf, Fail> {
    let mut shelf = MemoryShelf::new(alloc, Vec::new(alloc));
    let now = NowFile {
        name: KeyName::from_text("k1").ok_or("a name")?,
        n: 4,
        t: 1,
        period: 1,
        next_number: 0,
        link: None,
    };
    shelf.put(alloc, "k1.now", &write_now(alloc, &now)?)?;
    put_share(alloc, &mut shelf, "k1.1.1.share", 1, 10)?;
    put_share(alloc, &mut shelf, "k1.1.2.share", 2, 13)?;
    put_share(alloc, &mut shelf, "k1.1.3.share", 3, third)?;
    put_share(alloc, &mut shelf, "k1.1.4.share", 4, 19)?;
    Ok(shelf)
}

/// The entropy with seven seeds: 32 bytes 1, 32 bytes 2, and so on.
fn seven_seeds(alloc: Global, fails: &[u64]) -> Result<MemoryEntropy, Fail> {
    let mut seeds = Vec::new(alloc);
    for byte in 1..8u8 {
        seeds.push([byte; 32])?;
    }
    Ok(MemoryEntropy::new(seeds, fails.to_vec(alloc)?))
}

/// Runs a command over a calm entropy and sink and a crew of threads, and fails where its line or its text is another.
fn runs<R: Threads + Wait + Sync>(
    rt: &R,
    alloc: Global,
    shelf: &mut MemoryShelf,
    texts: &[&str],
    line: &str,
    text: &str,
) -> Result<(), Fail> {
    let mut crew = ThreadCrew::new();
    let mut pace = StillPace::new();
    runs_with(rt, alloc, shelf, &mut crew, &mut pace, texts, line, text)
}

/// The same with any crew and any pace.
fn runs_with<C: Crew, Q: Pace + Send, R: Threads + Wait + Sync>(
    rt: &R,
    alloc: Global,
    shelf: &mut MemoryShelf,
    crew: &mut C,
    pace: &mut Q,
    texts: &[&str],
    line: &str,
    text: &str,
) -> Result<(), Fail> {
    let mut entropy = seven_seeds(alloc, &[])?;
    let mut out = MemorySink::new(alloc, Vec::new(alloc));
    let words = words(alloc, texts)?;
    let status = run(rt, alloc, &words, shelf, &mut entropy, crew, pace, &mut out);
    if status.line(alloc)?.as_str() != line {
        return Err("another line".into());
    }
    if out.bytes() != text.as_bytes() {
        return Err("another text".into());
    }
    Ok(())
}

#[test]
fn recovers_and_checks_with_wrong_and_missing_shares(rt: HostRuntime) -> Result<(), Fail> {
    let alloc = rt.alloc();
    let mut whole = shelf_of(alloc, 16)?;
    let text = "recover k1 4 1 period 1\n\
        member 1 ok\nmember 2 ok\nmember 3 ok\nmember 4 ok\n\
        key 133e7f97ad4b6a1fc1bebc9e6a35d495f3de8d4df7615d75d074b69f4d1ec0c3\n";
    runs(&rt, alloc, &mut whole, &["recover", "k1"], "", text)?;
    whole.remove(alloc, "k1.1.1.share")?;
    whole.put(alloc, "k1.1.1.share", b"DKSH")?;
    let text = "check k1 4 1 period 1\nmember 1 damaged\nmember 2 ok\nmember 3 ok\nmember 4 ok\n";
    runs(&rt, alloc, &mut whole, &["check", "k1"], "", text)?;
    let mut wrong = shelf_of(alloc, 99)?;
    let text = "recover k1 4 1 period 1\n\
        member 1 ok\nmember 2 ok\nmember 3 wrong\nmember 4 ok\n\
        key 133e7f97ad4b6a1fc1bebc9e6a35d495f3de8d4df7615d75d074b69f4d1ec0c3\n";
    runs(&rt, alloc, &mut wrong, &["recover", "k1"], "", text)?;
    wrong.remove(alloc, "k1.1.1.share")?;
    runs(
        &rt,
        alloc,
        &mut wrong,
        &["recover", "k1"],
        "refused 6 lane 0",
        "",
    )?;
    Ok(())
}

#[test]
fn recover_key_and_check_key_give_the_states(rt: HostRuntime) -> Result<(), Fail> {
    let alloc = rt.alloc();
    let name = KeyName::from_text("k1").ok_or("a name")?;
    let mut shelf = shelf_of(alloc, 99)?;
    let Ok(recovered) = recover_key(alloc, &mut shelf, &name) else {
        return Err("a key".into());
    };
    assert_eq!(rt; recovered.lanes[0].get(), 7);
    assert_eq!(rt; recovered.file.period, 1);
    let Ok(checked) = check_key(alloc, &mut shelf, &name) else {
        return Err("states".into());
    };
    let members = checked.members.copy(alloc)?;
    assert_eq!(rt; members.len(), 4);
    assert_eq!(rt; *members.at(1), MemberState::Fine);
    assert_eq!(rt; *members.at(2), MemberState::Wrong);
    Ok(())
}

/// Runs words that are no command over an empty shelf.
fn is_usage<R: Threads + Wait + Sync>(rt: &R, alloc: Global, texts: &[&str]) -> Result<(), Fail> {
    let mut shelf = MemoryShelf::new(alloc, Vec::new(alloc));
    runs(rt, alloc, &mut shelf, texts, "refused 2 usage", "")?;
    if shelf.len() != 0 {
        return Err("a changed shelf".into());
    }
    Ok(())
}

#[test]
fn refuses_words_that_are_no_command(rt: HostRuntime) -> Result<(), Fail> {
    let alloc = rt.alloc();
    is_usage(&rt, alloc, &[])?;
    is_usage(&rt, alloc, &["recover"])?;
    is_usage(&rt, alloc, &["recover", "K1"])?;
    is_usage(&rt, alloc, &["recover", "k1", "--help"])?;
    is_usage(&rt, alloc, &["create", "K1", "4", "1"])?;
    is_usage(&rt, alloc, &["create", "k1", "6", "1"])?;
    is_usage(&rt, alloc, &["create", "k1", "4", "2"])?;
    is_usage(&rt, alloc, &["create", "k1", "04", "1"])?;
    is_usage(&rt, alloc, &["create", "k1", "4", "1", "--help"])?;
    is_usage(&rt, alloc, &["help"])?;
    Ok(())
}

#[test]
fn refuses_a_key_that_is_not_held(rt: HostRuntime) -> Result<(), Fail> {
    let alloc = rt.alloc();
    let mut shelf = MemoryShelf::new(alloc, Vec::new(alloc));
    runs(
        &rt,
        alloc,
        &mut shelf,
        &["recover", "k9"],
        "refused 3 nosuch now",
        "",
    )
}

/// What the create of `k1` with 4 members prints.
const CREATED: &str = "create k1 4 1 period 1\n\
    round 1 mask 15\nround 2 mask 15\nround 3 mask 15\nround 4 mask 15\nround 5 mask 15\n\
    accepted 20 of 20\nshares 1 2 3 4\n";

#[test]
fn creates_a_key_that_recover_finds(rt: HostRuntime) -> Result<(), Fail> {
    let alloc = rt.alloc();
    let mut shelf = MemoryShelf::new(alloc, Vec::new(alloc));
    // What a stopped create may have left.
    shelf.put(alloc, "k1.1.9.share", b"left")?;
    runs(
        &rt,
        alloc,
        &mut shelf,
        &["create", "k1", "4", "1"],
        "",
        CREATED,
    )?;
    assert_eq!(rt; shelf.len(), 5);
    assert!(rt; shelf.get(alloc, "k1.1.9.share")?.is_none());
    // The key is the sum of the four members' constants, drawn from their seeds by another implementation.
    let text = "recover k1 4 1 period 1\n\
        member 1 ok\nmember 2 ok\nmember 3 ok\nmember 4 ok\n\
        key e39a69c229a5f7107d42fc6b86e467b611279a1c57d1dfa4befdb8b2ee23bd95\n";
    runs(&rt, alloc, &mut shelf, &["recover", "k1"], "", text)?;
    runs(
        &rt,
        alloc,
        &mut shelf,
        &["create", "k1", "4", "1"],
        "refused 4 exists",
        "",
    )?;
    Ok(())
}

#[test]
fn changes_nothing_where_the_first_seed_fails(rt: HostRuntime) -> Result<(), Fail> {
    let alloc = rt.alloc();
    let mut shelf = MemoryShelf::new(alloc, Vec::new(alloc));
    let mut out = MemorySink::new(alloc, Vec::new(alloc));
    let status = run(
        &rt,
        alloc,
        &words(alloc, &["create", "k1", "4", "1"])?,
        &mut shelf,
        &mut seven_seeds(alloc, &[0])?,
        &mut ThreadCrew::new(),
        &mut StillPace::new(),
        &mut out,
    );
    assert!(rt; matches!(status, Status::EntropyFault));
    assert_eq!(rt; shelf.len(), 0);
    assert_eq!(rt; out.bytes().len(), 0);
    Ok(())
}

#[test]
fn a_refused_start_changes_nothing(rt: HostRuntime) -> Result<(), Fail> {
    let alloc = rt.alloc();
    let mut shelf = MemoryShelf::new(alloc, Vec::new(alloc));
    let mut crew = FailCrew::new(Vec::from_elem(alloc, 0u64, 1)?);
    let mut pace = StillPace::new();
    let words = ["create", "k1", "4", "1"];
    let line = "refused 12 thread";
    runs_with(
        &rt, alloc, &mut shelf, &mut crew, &mut pace, &words, line, "",
    )?;
    assert_eq!(rt; shelf.len(), 0);
    assert_eq!(rt; crew.faults(), 1);
    assert_eq!(rt; crew.attended(), 0);
    // The next starts aren't refused.
    runs_with(
        &rt, alloc, &mut shelf, &mut crew, &mut pace, &words, "", CREATED,
    )?;
    assert_eq!(rt; crew.attended(), 4);
    Ok(())
}

const LETTER: &[u8; 14] = b"Meet at noon.\n";

/// The number that the next document of `k1` gets.
fn next_number(alloc: Global, shelf: &mut MemoryShelf) -> Result<u32, Fail> {
    let bytes = shelf.get(alloc, "k1.now")?.ok_or("a now file")?;
    let Ok(now) = read_now(&bytes) else {
        return Err("a sound now file".into());
    };
    Ok(now.next_number)
}

#[test]
fn a_sealed_letter_is_opened(rt: HostRuntime) -> Result<(), Fail> {
    let alloc = rt.alloc();
    let mut shelf = MemoryShelf::new(alloc, Vec::new(alloc));
    shelf.put(alloc, "letter.txt", LETTER)?;
    runs(
        &rt,
        alloc,
        &mut shelf,
        &["create", "k1", "4", "1"],
        "",
        CREATED,
    )?;
    let words = ["seal", "k1", "letter.txt", "letter.box"];
    runs(
        &rt,
        alloc,
        &mut shelf,
        &words,
        "",
        "seal k1 number 0 bytes 14\n",
    )?;
    assert_eq!(rt; next_number(alloc, &mut shelf)?, 1);
    let sealed = shelf.get(alloc, "letter.box")?.ok_or("a box")?;
    assert_eq!(rt; sealed.len(), 94);
    let words = ["open", "k1", "letter.box", "out.txt"];
    runs(
        &rt,
        alloc,
        &mut shelf,
        &words,
        "",
        "open k1 number 0 bytes 14\n",
    )?;
    let letter = shelf.get(alloc, "out.txt")?.ok_or("a document")?;
    assert_eq!(rt; letter.as_slice(), LETTER.as_slice());
    Ok(())
}

/// Runs `VERB k1 SOURCE TARGET` on a shelf, and fails where another line is answered, a text is printed or the number
/// of names changes.
fn refuses<R: Threads + Wait + Sync>(
    rt: &R,
    alloc: Global,
    shelf: &mut MemoryShelf,
    verb: &str,
    source: &str,
    target: &str,
    line: &str,
) -> Result<(), Fail> {
    let names = shelf.len();
    runs(rt, alloc, shelf, &[verb, "k1", source, target], line, "")?;
    if shelf.len() != names {
        return Err("a changed shelf".into());
    }
    Ok(())
}

#[test]
fn seal_and_open_refuse_in_their_order(rt: HostRuntime) -> Result<(), Fail> {
    let alloc = rt.alloc();
    let mut shelf = shelf_of(alloc, 16)?;
    shelf.put(alloc, "letter.txt", LETTER)?;
    refuses(
        &rt,
        alloc,
        &mut shelf,
        "seal",
        "none",
        "letter.txt",
        "refused 4 exists",
    )?;
    refuses(
        &rt,
        alloc,
        &mut shelf,
        "seal",
        "none",
        "a.box",
        "refused 3 nosuch document",
    )?;
    refuses(
        &rt,
        alloc,
        &mut shelf,
        "open",
        "none",
        "letter.txt",
        "refused 4 exists",
    )?;
    refuses(
        &rt,
        alloc,
        &mut shelf,
        "open",
        "none",
        "out.txt",
        "refused 3 nosuch box",
    )?;
    refuses(
        &rt,
        alloc,
        &mut shelf,
        "open",
        "letter.txt",
        "out.txt",
        "refused 7 box 1",
    )?;
    Ok(())
}

#[test]
fn words_that_name_no_document_are_usage(rt: HostRuntime) -> Result<(), Fail> {
    let alloc = rt.alloc();
    for word in ["", "-a", "k1.now", "a.share", "a\0b"] {
        is_usage(&rt, alloc, &["seal", "k1", word, "a.box"])?;
        is_usage(&rt, alloc, &["open", "k1", "a.box", word])?;
    }
    is_usage(&rt, alloc, &["seal", "k1", "a.txt"])
}

#[test]
fn a_box_with_a_changed_byte_is_refused(rt: HostRuntime) -> Result<(), Fail> {
    let alloc = rt.alloc();
    let mut shelf = shelf_of(alloc, 16)?;
    shelf.put(alloc, "letter.txt", LETTER)?;
    let words = ["seal", "k1", "letter.txt", "letter.box"];
    runs(
        &rt,
        alloc,
        &mut shelf,
        &words,
        "",
        "seal k1 number 0 bytes 14\n",
    )?;
    let mut sealed = shelf.get(alloc, "letter.box")?.ok_or("a box")?;
    *sealed.get_mut(50).ok_or("a byte")? ^= 1;
    shelf.put(alloc, "changed.box", &sealed)?;
    refuses(
        &rt,
        alloc,
        &mut shelf,
        "open",
        "changed.box",
        "out.txt",
        "refused 7 box 5",
    )?;
    Ok(())
}

#[test]
fn the_last_number_is_refused(rt: HostRuntime) -> Result<(), Fail> {
    let alloc = rt.alloc();
    let mut shelf = shelf_of(alloc, 16)?;
    shelf.put(alloc, "letter.txt", LETTER)?;
    let now = NowFile {
        name: KeyName::from_text("k1").ok_or("a name")?,
        n: 4,
        t: 1,
        period: 1,
        next_number: u32::MAX,
        link: None,
    };
    shelf.put(alloc, "k1.now", &write_now(alloc, &now)?)?;
    refuses(
        &rt,
        alloc,
        &mut shelf,
        "seal",
        "letter.txt",
        "a.box",
        "refused 8 full 4294967295",
    )
}

#[test]
fn a_document_of_one_byte_too_many_is_refused(rt: HostRuntime) -> Result<(), Fail> {
    let alloc = rt.alloc();
    let mut shelf = shelf_of(alloc, 16)?;
    let mut long = Vec::new(alloc);
    long.resize(67108865, 0)?;
    shelf.put(alloc, "long.txt", &long)?;
    refuses(
        &rt,
        alloc,
        &mut shelf,
        "seal",
        "long.txt",
        "a.box",
        "refused 16 length 67108865",
    )
}

#[test]
fn the_calls_seal_and_open(rt: HostRuntime) -> Result<(), Fail> {
    let alloc = rt.alloc();
    let name = KeyName::from_text("k1").ok_or("a name")?;
    let mut shelf = shelf_of(alloc, 99)?;
    shelf.put(alloc, "letter.txt", LETTER)?;
    let sealed = seal_doc(alloc, &mut shelf, &name, "letter.txt", "letter.box").ok();
    assert!(rt;
        sealed
            == Some(Sealed {
                number: 0,
                bytes: 14
            })
    );
    shelf.remove(alloc, "k1.1.3.share")?;
    let opened = open_doc(alloc, &mut shelf, &name, "letter.box", "out.txt").ok();
    assert!(rt;
        opened
            == Some(Sealed {
                number: 0,
                bytes: 14
            })
    );
    Ok(())
}

/// A shelf that holds the drill `d` alone.
fn shelf_with(alloc: Global, drill: &[u8]) -> Result<MemoryShelf, Fail> {
    let mut shelf = MemoryShelf::new(alloc, Vec::new(alloc));
    shelf.put(alloc, "d", drill)?;
    Ok(shelf)
}

/// Runs words over a shelf that holds the drill `d` alone.
fn drills<R: Threads + Wait + Sync>(
    rt: &R,
    alloc: Global,
    texts: &[&str],
    drill: &str,
    text: &str,
) -> Result<(), Fail> {
    let mut shelf = shelf_with(alloc, drill.as_bytes())?;
    runs(rt, alloc, &mut shelf, texts, "", text)
}

/// Runs `create k1 4 1 FILE` over a shelf that holds the drill `d` alone, and fails where another line is answered, a
/// text is printed, or the shelf then holds anything else.
fn refuses_drill<R: Threads + Wait + Sync>(
    rt: &R,
    alloc: Global,
    file: &str,
    drill: &[u8],
    line: &str,
) -> Result<(), Fail> {
    let mut shelf = shelf_with(alloc, drill)?;
    let words = ["create", "k1", "4", "1", file];
    runs(rt, alloc, &mut shelf, &words, line, "")?;
    let held = shelf.get(alloc, "d")?.ok_or("the drill")?;
    if shelf.len() != 1 || held.as_slice() != drill {
        return Err("a changed shelf".into());
    }
    Ok(())
}

#[test]
fn a_drilled_create_prints_who_was_heard_and_accepted(rt: HostRuntime) -> Result<(), Fail> {
    let alloc = rt.alloc();
    let four = ["create", "k1", "4", "1", "d"];
    let text = "create k1 4 1 period 1\n\
        round 1 mask 15\nround 2 mask 15\nround 3 mask 15\nround 4 mask 15\nround 5 mask 15\n\
        accepted 20 of 20\nshares 1 3 4\n";
    drills(&rt, alloc, &four, "2 1 skew 5", text)?;
    let text = "create k1 4 1 period 1\n\
        round 1 mask 15\nround 2 mask 15\nround 3 mask 15\nround 4 mask 13\nround 5 mask 13\n\
        accepted 15 of 20\nshares 1 3 4\n";
    drills(&rt, alloc, &four, "2 1 skew 5\n2 4 silent\n", text)?;
    let text = "create k1 4 1 period 1\n\
        round 1 mask 15\nround 2 mask 15\nround 3 mask 15\nround 4 mask 15\nround 5 mask 15\n\
        accepted 20 of 20\nshares 1 2 4\n";
    drills(&rt, alloc, &four, "3 3 accuse 1", text)?;
    let seven = ["create", "k1", "7", "2", "d"];
    let text = "create k1 7 2 period 1\n\
        round 1 mask 123\nround 2 mask 123\nround 3 mask 123\nround 4 mask 123\nround 5 mask 123\n\
        accepted 35 of 35\nshares 1 2 4 6 7\n";
    drills(&rt, alloc, &seven, "3 1 silent\n5 5 veto\n", text)
}

#[test]
fn a_drill_that_is_none_is_refused(rt: HostRuntime) -> Result<(), Fail> {
    let alloc = rt.alloc();
    let many = b"2 1 silent\n3 1 silent\n";
    refuses_drill(&rt, alloc, "d", many, "refused 9 drill named 2 bound 1")?;
    refuses_drill(&rt, alloc, "d", b"2 5 skew 1", "refused 9 drill line 1")?;
    refuses_drill(&rt, alloc, "d", b"5 1 silent", "refused 9 drill stranger 5")?;
    let twice = b"# who\n2 1 silent\n2 1 garble\n";
    refuses_drill(&rt, alloc, "d", twice, "refused 9 drill line 3")?;
    refuses_drill(&rt, alloc, "e", b"", "refused 3 nosuch drill")
}

#[test]
fn a_drill_of_odd_bytes_is_refused(rt: HostRuntime) -> Result<(), Fail> {
    let alloc = rt.alloc();
    refuses_drill(&rt, alloc, "d", b"2 1 silent\r\n", "refused 9 drill line 1")?;
    let greatest = b"18446744073709551615 1 silent";
    let line = "refused 9 drill stranger 18446744073709551615";
    refuses_drill(&rt, alloc, "d", greatest, line)?;
    let greater = b"18446744073709551616 1 silent";
    refuses_drill(&rt, alloc, "d", greater, "refused 9 drill line 1")
}

/// A megabyte of one byte, and a text behind it.
fn megabyte(alloc: Global, byte: u8, end: &[u8]) -> Result<Vec<u8>, Fail> {
    let mut text = Vec::new(alloc);
    text.resize(1_048_576, byte)?;
    text.extend_from_slice(end)?;
    Ok(text)
}

#[test]
fn a_drill_of_a_megabyte_is_refused_with_its_line(rt: HostRuntime) -> Result<(), Fail> {
    let alloc = rt.alloc();
    let one = megabyte(alloc, b'2', b"")?;
    refuses_drill(&rt, alloc, "d", &one, "refused 9 drill line 1")?;
    let idle = megabyte(alloc, b'#', b"\n\n2 6 silent")?;
    refuses_drill(&rt, alloc, "d", &idle, "refused 9 drill line 3")?;
    let empty = megabyte(alloc, b'\n', b"4 2 veto\n")?;
    refuses_drill(&rt, alloc, "d", &empty, "refused 9 drill line 1048577")
}

/// What a refresh of `k1` with 4 members from period 1 prints.
const REFRESHED: &str = "refresh k1 4 1 period 2\n\
    round 1 mask 15\nround 2 mask 15\nround 3 mask 15\nround 4 mask 15\nround 5 mask 15\n\
    accepted 20 of 20\nshares 1 2 3 4\n";

#[test]
fn a_refresh_after_a_create_keeps_the_key(rt: HostRuntime) -> Result<(), Fail> {
    let alloc = rt.alloc();
    let mut shelf = MemoryShelf::new(alloc, Vec::new(alloc));
    runs(
        &rt,
        alloc,
        &mut shelf,
        &["create", "k1", "4", "1"],
        "",
        CREATED,
    )?;
    runs(&rt, alloc, &mut shelf, &["refresh", "k1"], "", REFRESHED)?;
    assert_eq!(rt; shelf.len(), 5);
    assert!(rt; shelf.get(alloc, "k1.2.4.share")?.is_some());
    let text = "recover k1 4 1 period 2\n\
        member 1 ok\nmember 2 ok\nmember 3 ok\nmember 4 ok\n\
        key e39a69c229a5f7107d42fc6b86e467b611279a1c57d1dfa4befdb8b2ee23bd95\n";
    runs(&rt, alloc, &mut shelf, &["recover", "k1"], "", text)
}

#[test]
fn a_drilled_member_of_a_refresh_gets_no_share(rt: HostRuntime) -> Result<(), Fail> {
    let alloc = rt.alloc();
    let mut shelf = shelf_of(alloc, 16)?;
    shelf.put(alloc, "d", b"2 1 silent\n")?;
    let text = "refresh k1 4 1 period 2\n\
        round 1 mask 13\nround 2 mask 13\nround 3 mask 13\nround 4 mask 13\nround 5 mask 13\n\
        accepted 20 of 20\nshares 1 3 4\n";
    runs(&rt, alloc, &mut shelf, &["refresh", "k1", "d"], "", text)?;
    let text = "recover k1 4 1 period 2\n\
        member 1 ok\nmember 2 missing\nmember 3 ok\nmember 4 ok\n\
        key 133e7f97ad4b6a1fc1bebc9e6a35d495f3de8d4df7615d75d074b69f4d1ec0c3\n";
    runs(&rt, alloc, &mut shelf, &["recover", "k1"], "", text)?;
    shelf.put(alloc, "d", b"4 1 silent")?;
    let line = "refused 5 sound 2 needed 3";
    runs(&rt, alloc, &mut shelf, &["refresh", "k1", "d"], line, "")
}

/// The shelf with the now file of `k1` in its last period.
fn last_period(alloc: Global) -> Result<MemoryShelf, Fail> {
    let mut shelf = MemoryShelf::new(alloc, Vec::new(alloc));
    let now = NowFile {
        name: KeyName::from_text("k1").ok_or("a name")?,
        n: 4,
        t: 1,
        period: u32::MAX,
        next_number: 0,
        link: None,
    };
    shelf.put(alloc, "k1.now", &write_now(alloc, &now)?)?;
    Ok(shelf)
}

/// The share file of a member of `k1` in its last period.
fn put_last_share(alloc: Global, shelf: &mut MemoryShelf, index: u32) -> Result<(), Fail>
    requires { (1 ≤ index) × (index ≤ 4) }
{
    let name = KeyName::from_text("k1").ok_or("a name")?;
    let share = ShareFile {
        name,
        n: 4,
        t: 1,
        index,
        period: u32::MAX,
        lanes: [Fe::ZERO; 5],
        committee: None,
    };
    let file = share_name(alloc, &name, u32::MAX, index)?;
    shelf.put(alloc, file.as_str(), &write_share(alloc, &share)?)?;
    Ok(())
}

#[test]
fn a_refresh_of_the_last_period_is_full(rt: HostRuntime) -> Result<(), Fail> {
    let alloc = rt.alloc();
    let mut shelf = last_period(alloc)?;
    let line = "refused 5 sound 0 needed 3";
    runs(&rt, alloc, &mut shelf, &["refresh", "k1"], line, "")?;
    for index in 1..5 {
        put_last_share(alloc, &mut shelf, index)?;
    }
    let line = "refused 8 full 4294967295";
    runs(&rt, alloc, &mut shelf, &["refresh", "k1"], line, "")?;
    assert_eq!(rt; shelf.len(), 5);
    Ok(())
}

#[test]
fn a_refresh_turns_files_of_version_1_into_version_2(rt: HostRuntime) -> Result<(), Fail> {
    let alloc = rt.alloc();
    let mut shelf = shelf_of(alloc, 16)?;
    runs(&rt, alloc, &mut shelf, &["refresh", "k1"], "", REFRESHED)?;
    assert_eq!(rt; shelf.len(), 5);
    let Some(bytes) = shelf.get(alloc, "k1.now")? else {
        return Err("a now file".into());
    };
    let Ok(now) = read_now(&bytes) else {
        return Err("a now file".into());
    };
    let link = now.link.ok_or("version 2")?;
    assert_eq!(rt; link.holders, 15);
    assert!(rt; link.previous == [0; 32]);
    runs(&rt, alloc, &mut shelf, &["refresh", "k1"], "", TWICE)
}

/// What the next refresh prints.
const TWICE: &str = "refresh k1 4 1 period 3\n\
    round 1 mask 15\nround 2 mask 15\nround 3 mask 15\nround 4 mask 15\nround 5 mask 15\n\
    accepted 20 of 20\nshares 1 2 3 4\n";

#[test]
fn a_move_keeps_the_key(rt: HostRuntime) -> Result<(), Fail> {
    let alloc = rt.alloc();
    let mut shelf = shelf_of(alloc, 16)?;
    let text = "move k1 4 1 to 5 1 period 2\n\
        round 1 mask 511\nround 2 mask 511\nround 3 mask 511\nround 4 mask 511\nround 5 mask 511\n\
        round 6 mask 511\naccepted 20 of 20\ncorrected none\nshares 1 2 3 4 5\n";
    runs(&rt, alloc, &mut shelf, &["move", "k1", "5", "1"], "", text)?;
    assert_eq!(rt; shelf.len(), 6);
    let text = "recover k1 5 1 period 2\n\
        member 1 ok\nmember 2 ok\nmember 3 ok\nmember 4 ok\nmember 5 ok\n\
        key 133e7f97ad4b6a1fc1bebc9e6a35d495f3de8d4df7615d75d074b69f4d1ec0c3\n";
    runs(&rt, alloc, &mut shelf, &["recover", "k1"], "", text)
}

#[test]
fn a_move_corrects_a_wrong_share(rt: HostRuntime) -> Result<(), Fail> {
    let alloc = rt.alloc();
    let mut shelf = shelf_of(alloc, 16)?;
    shelf.put(alloc, "d", b"1 1 wrong 1\n")?;
    let text = "move k1 4 1 to 7 2 period 2\n\
        round 1 mask 2047\nround 2 mask 2047\nround 3 mask 2047\nround 4 mask 2047\n\
        round 5 mask 2047\nround 6 mask 2047\n\
        accepted 20 of 20\ncorrected 1\nshares 1 2 3 4 5 6 7\n";
    runs(
        &rt,
        alloc,
        &mut shelf,
        &["move", "k1", "7", "2", "d"],
        "",
        text,
    )?;
    let text = "recover k1 7 2 period 2\n\
        member 1 ok\nmember 2 ok\nmember 3 ok\nmember 4 ok\nmember 5 ok\nmember 6 ok\nmember 7 ok\n\
        key 133e7f97ad4b6a1fc1bebc9e6a35d495f3de8d4df7615d75d074b69f4d1ec0c3\n";
    runs(&rt, alloc, &mut shelf, &["recover", "k1"], "", text)
}

#[test]
fn a_move_of_two_wrong_shares_of_four_has_no_result(rt: HostRuntime) -> Result<(), Fail> {
    let alloc = rt.alloc();
    let mut shelf = shelf_of(alloc, 16)?;
    put_share(alloc, &mut shelf, "k1.1.1.share", 1, 11)?;
    put_share(alloc, &mut shelf, "k1.1.2.share", 2, 14)?;
    let line = "refused 6 lane 0 syndrome 1537228672809129301 384307168202282326";
    runs(&rt, alloc, &mut shelf, &["move", "k1", "7", "2"], line, "")?;
    assert_eq!(rt; shelf.len(), 5);
    assert!(rt; shelf.get(alloc, "k1.1.4.share")?.is_some());
    Ok(())
}
