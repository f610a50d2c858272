//! The rings between two seats, run.

ghost use Rattle.std.specs.Prelude.{◌≡◌, length};
ghost use Rattle.pairrings.specs.Records.{AreRings};

use pairrings::{End, finish, lay};
use std::alloc::Global;
use std::process::Abort;
use std::test::Fail;
use std::thread::join;

// Seat 1 sends the item to seat 2.
fn send(rt: &impl Abort, ends: &mut Vec<End<u32, 2>>, item: u32)
    requires all { length ends.old.items ≡ 2 }
    requires rings { AreRings ends.old.items }
    ensures all { length ends.new.items ≡ 2 }
    ensures rings { AreRings ends.new.items }
{
    let end = &mut ends[0];
    assert!(rt; end.room_to(2) > 0);
    end.send(2, item);
}

// Seat 2 looks for an item of seat 1.
fn recv(ends: &mut Vec<End<u32, 2>>) -> Option<u32>
    requires all { length ends.old.items ≡ 2 }
    requires rings { AreRings ends.old.items }
    ensures all { length ends.new.items ≡ 2 }
    ensures rings { AreRings ends.new.items }
{
    let end = &mut ends[1];
    end.recv(1)
}

#[test]
fn the_record_counts_what_was_sent_and_received(rt: HostRuntime) -> Result<(), Fail> {
    let mut ends = lay::<u32, 2>(rt.alloc(), 3)?;
    send(&rt, &mut ends, 10);
    send(&rt, &mut ends, 20);
    send(&rt, &mut ends, 30);
    assert_eq!(rt; recv(&mut ends), Some(10));
    assert_eq!(rt; recv(&mut ends), Some(20));
    assert_eq!(rt; ends[0].sent_to(2), 3);
    assert_eq!(rt; ends[1].got_from(1), 2);
    assert_eq!(rt; ends[1].dry(1), 0);
    let record = finish(ends);
    assert_eq!(rt; record.sent(1, 2), 3);
    assert_eq!(rt; record.got(1, 2), 2);
    assert_eq!(rt; record.sent(2, 1), 0);
    assert_eq!(rt; record.got(2, 1), 0);
    Ok(())
}

#[test]
fn a_look_into_an_empty_ring_is_counted(rt: HostRuntime) -> Result<(), Fail> {
    let mut ends = lay::<u32, 2>(rt.alloc(), 3)?;
    assert_eq!(rt; recv(&mut ends), None);
    assert_eq!(rt; ends[1].dry(1), 1);
    Ok(())
}

#[test]
fn items_cross_between_two_threads_in_order(rt: HostRuntime) -> Result<(), Fail> {
    let mut ends = lay::<u32, 2>(rt.alloc(), 3)?;
    let mut second = ends.pop().ok_or("no second seat")?;
    let mut first = ends.pop().ok_or("no first seat")?;
    let (_, got) = join(
        &rt,
        || {
            for item in [10, 20, 30] {
                if first.room_to(2) > 0 {
                    first.send(2, item);
                }
            }
        },
        || {
            let a = second.wait_recv(&rt, 1);
            let b = second.wait_recv(&rt, 1);
            (a, b, second.wait_recv(&rt, 1))
        },
    );
    assert_eq!(rt; got, (10, 20, 30));
    Ok(())
}
