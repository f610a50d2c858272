//! Reading drills.

use drillbook::{Drill, DrillFault, Order, Verb, read_drill};
use field61::Fe;
use lists::OutOfMemory;
use std::alloc::Global;
use talk::Setting;

// How many orders a text has.
fn orders_in(alloc: Global, text: &str, setting: &Setting) -> Result<usize, DrillFault> {
    Ok(read_drill(alloc, text.as_bytes(), setting)?.len())
}

fn bad(line: u64) -> Result<usize, DrillFault> {
    Err(DrillFault::BadLine { line })
}

fn strange(party: u64) -> Result<usize, DrillFault> {
    Err(DrillFault::Stranger { line: 1, party })
}

fn many(named: u32, bound: u32) -> Result<usize, DrillFault> {
    Err(DrillFault::TooMany { named, bound })
}

#[test]
fn lines_are_read_or_refused(rt: HostRuntime) {
    let create = Setting::create(4, 1);
    let cases = [
        ("", Ok(0)),
        ("2 1 skew 5\n", Ok(1)),
        ("# none\n\n#\n2 3 accuse 1\n2 5 veto", Ok(2)),
        ("2 1 silent\n3 1 silent\n", many(2, 1)),
        ("2 5 skew 1\n", bad(1)),
        ("2 1 silent\n2 1 late\n", bad(2)),
        ("2 1 silent \n", bad(1)),
        (" \n", bad(1)),
        ("2 1 silent\r\n", bad(1)),
        ("02 1 silent", bad(1)),
        ("2  1 silent", bad(1)),
        ("2 6 silent", bad(1)),
        ("2 1 silent 1", bad(1)),
        ("2 1 skew", bad(1)),
        ("2 1 skew 2305843009213693951", bad(1)),
        ("2 1 wrong 1", bad(1)),
        ("2 3 accuse 2", bad(1)),
        ("2 3 accuse 5", bad(1)),
    ];
    for (text, outcome) in cases {
        assert_eq!(rt; orders_in(rt.alloc(), text, &create), outcome, "{text}");
    }
}

#[test]
fn strangers_are_told_from_bad_lines(rt: HostRuntime) {
    let create = Setting::create(4, 1);
    let cases = [
        ("5 1 silent", strange(5)),
        ("0 1 silent", strange(0)),
        ("5 0 veto \r", strange(5)),
        ("5 9 skew", strange(5)),
        ("18446744073709551615 1 late", strange(18446744073709551615)),
        ("18446744073709551616 1 late", bad(1)),
        ("5 18446744073709551616 late", bad(1)),
        ("5 1 silent ", bad(1)),
        ("5 1 quiet", bad(1)),
        ("5 1 skew 1 1", bad(1)),
    ];
    for (text, outcome) in cases {
        assert_eq!(rt; orders_in(rt.alloc(), text, &create), outcome, "{text}");
    }
}

#[test]
fn a_move_has_two_committees(rt: HostRuntime) {
    let moving = Setting::moving(4, 1, 7, 2);
    let cases = [
        ("1 1 wrong 1\n5 6 skew 1\n6 3 accuse 1\n", Ok(3)),
        ("1 1 silent\n2 1 silent", many(2, 1)),
        ("5 1 silent\n6 1 silent\n7 1 silent\n", many(3, 2)),
        ("5 1 wrong 1", bad(1)),
        ("4 6 skew 1", bad(1)),
        ("5 3 accuse 1", bad(1)),
        ("12 1 silent", strange(12)),
    ];
    for (text, outcome) in cases {
        assert_eq!(rt; orders_in(rt.alloc(), text, &moving), outcome, "{text}");
    }
}

#[test]
fn a_drill_tells_of_its_seats(rt: HostRuntime) -> Result<(), DrillFault> {
    let text = b"1 1 wrong 9\n6 3 accuse 1\n";
    let drill = read_drill(rt.alloc(), text.as_slice(), &Setting::moving(4, 1, 7, 2))?;
    assert_eq!(rt; drill.named(), 33);
    assert!(rt; drill.names(6) && !drill.names(2));
    assert!(rt; drill.wrong(1) == Fe::reduce(9) && drill.wrong(6) == Fe::ZERO);
    let none = Drill::none(rt.alloc());
    assert_eq!(rt; none.named(), 0);
    assert_eq!(rt; DrillFault::OutOfMemory.number(), 4);
    Ok(())
}

// A drill of two orders, by their parties and rounds.
fn made(
    alloc: Global,
    first: (u32, u32, Verb),
    second: (u32, u32, Verb),
) -> Result<Drill, OutOfMemory> {
    let mut drill = Drill::none(alloc);
    for (party, round, verb) in [first, second] {
        drill.push(Order { party, round, verb })?;
    }
    Ok(drill)
}

#[test]
fn a_drill_is_lawful_where_each_order_is(rt: HostRuntime) -> Result<(), OutOfMemory> {
    let create = Setting::create(4, 1);
    let moving = Setting::moving(4, 1, 4, 1);
    let wrong = Verb::Wrong { by: Fe::ONE };
    let accuse = Verb::Accuse { receiver: 2 };
    let drill = made(rt.alloc(), (4, 5, Verb::Veto), (1, 3, accuse))?;
    assert!(rt; drill.is_lawful(&create) && !drill.is_lawful(&moving));
    let drill = made(rt.alloc(), (4, 6, Verb::Late), (1, 1, wrong))?;
    assert!(rt; !drill.is_lawful(&create) && drill.is_lawful(&moving));
    let drill = made(rt.alloc(), (4, 1, Verb::Silent), (2, 3, accuse))?;
    assert!(rt; !drill.is_lawful(&create) && Drill::none(rt.alloc()).is_lawful(&create));
    Ok(())
}

// How many orders a text has for four who create.
fn read_long(alloc: Global, text: &[u8]) -> Result<usize, DrillFault> {
    Ok(read_drill(alloc, text, &Setting::create(4, 1))?.len())
}

// A text of a megabyte that says nothing: empty lines, and every other one with a number sign.
#[test]
fn a_long_text_is_read_in_time(rt: HostRuntime) -> Result<(), OutOfMemory> {
    let mut text = Vec::new(rt.alloc());
    for k in 0..1000000u32 {
        text.push(if k % 3 == 0 { b'#' } else { b'\n' })?;
    }
    assert_eq!(rt; read_long(rt.alloc(), text.as_slice()), Ok(0));
    Ok(())
}

// A start of a line, and a byte until the line has a megabyte.
fn long_line(alloc: Global, start: &[u8], byte: u8) -> Result<Vec<u8>, OutOfMemory> {
    let mut line = Vec::new(alloc);
    for c in start {
        line.push(*c)?;
    }
    for _ in start.len()..1000000 {
        line.push(byte)?;
    }
    Ok(line)
}

#[test]
fn a_line_of_a_megabyte_is_refused_in_time(rt: HostRuntime) -> Result<(), OutOfMemory> {
    let cases = [
        ("", b'x'),
        ("", b' '),
        ("2 1 skew ", b'0'),
        ("2 1 skew 1", b'1'),
    ];
    for (start, byte) in cases {
        let line = long_line(rt.alloc(), start.as_bytes(), byte)?;
        assert_eq!(rt; read_long(rt.alloc(), line.as_slice()), bad(1), "{start}");
    }
    Ok(())
}

// A hundred thousand lines that say nothing, and then a line.
#[test]
fn lines_that_say_nothing_count(rt: HostRuntime) -> Result<(), OutOfMemory> {
    let mut text = Vec::new(rt.alloc());
    for _ in 0..50000 {
        text.push(b'#')?;
        text.push(b'\n')?;
        text.push(b'\n')?;
    }
    text.push(b'x')?;
    assert_eq!(rt; read_long(rt.alloc(), text.as_slice()), bad(100001));
    Ok(())
}
