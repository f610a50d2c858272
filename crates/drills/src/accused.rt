//! False complaints. Four dealers deal five lanes each, so there are twenty instances.

use super::minds::{Manner, Place, said};
use super::numbers::{is_written, write_word};
use drillbook::DrillFault;
use lists::OutOfMemory;
use std::alloc::Global;
use talk::{Setting, shape_ok};

// The false complaints of the instances from the third on. The crossing points for the receiver on a seat are
// the multiples of ten from 1000 times the seat on, and the first of each pair is one greater in the complaint.
fn false_complaints(alloc: Global, receiver: u32, seat: u32) -> Result<Vec<u64>, OutOfMemory> {
    let mut numbers = Vec::new(alloc);
    for instance in 2..20u64 {
        let base = 1000 * u64::from(seat) + 20 * instance;
        numbers.push(instance)?;
        numbers.push(u64::from(receiver))?;
        numbers.push(base + 11)?;
        numbers.push(base + 20)?;
    }
    Ok(numbers)
}

// Whether a seat that is told to accuse a receiver posts so many complaints in the third round, of the right
// shape: those of the first two instances, and a false one in each other instance.
fn accuses(
    alloc: Global,
    place: &Place,
    text: &str,
    receiver: u32,
    count: u64,
    first: &[u64],
) -> Result<bool, DrillFault> {
    let word = said(alloc, place, text, 3)?;
    let written = write_word(alloc, &word)?;
    let shift = place.setting.shift();
    let others = false_complaints(alloc, receiver, shift.saturating_add(receiver))?;
    let rings = [0; 8];
    let seats = if shift == 0 { 4 } else { 8 };
    let parts: [&[u64]; 4] = [&[1, 1, count], first, others.as_slice(), &rings[..seats]];
    let right = shape_ok(&word.posted(alloc)?, 3, place.seat, &place.setting);
    Ok(right && is_written(&written, parts.as_slice()))
}

#[test]
fn a_false_complaint_stands_in_every_instance(rt: HostRuntime) -> Result<(), DrillFault> {
    let place = Place {
        setting: Setting::refresh(4, 1),
        seat: 2,
        points: 40,
        manner: Manner::InTime,
    };
    let cases: [(&str, u32, u64, &[u64]); 3] = [
        (
            "2 3 accuse 3",
            3,
            23,
            &[
                0, 1, 7, 7, 0, 3, 3011, 3020, 0, 4, 8, 8, 1, 3, 3031, 3040, 1, 4, 9, 9,
            ],
        ),
        (
            "2 2 silent\n2 3 accuse 1",
            1,
            23,
            &[
                0, 1, 1011, 1020, 0, 3, 1, 1, 0, 4, 8, 8, 1, 1, 1031, 1040, 1, 4, 9, 9,
            ],
        ),
        (
            "2 3 accuse 4",
            4,
            22,
            &[0, 1, 7, 7, 0, 3, 1, 1, 0, 4, 4011, 4020, 1, 4, 4031, 4040],
        ),
    ];
    for (text, receiver, count, first) in cases {
        assert!(rt;
            accuses(rt.alloc(), &place, text, receiver, count, first)?,
            "{text}"
        );
    }
    Ok(())
}

#[test]
fn the_accused_of_a_move_sits_behind_the_dealers(rt: HostRuntime) -> Result<(), DrillFault> {
    let place = Place {
        setting: Setting::moving(4, 1, 4, 1),
        seat: 6,
        points: 40,
        manner: Manner::InTime,
    };
    let cases: [(&str, u32, u64, &[u64]); 2] = [
        (
            "6 3 accuse 1",
            1,
            23,
            &[
                0, 1, 5011, 5020, 0, 3, 1, 1, 0, 4, 8, 8, 1, 1, 5031, 5040, 1, 4, 9, 9,
            ],
        ),
        (
            "6 3 accuse 4\n6 2 skew 1",
            4,
            22,
            &[0, 1, 7, 7, 0, 3, 1, 1, 0, 4, 8011, 8020, 1, 4, 8031, 8040],
        ),
    ];
    for (text, receiver, count, first) in cases {
        assert!(rt;
            accuses(rt.alloc(), &place, text, receiver, count, first)?,
            "{text}"
        );
    }
    Ok(())
}
