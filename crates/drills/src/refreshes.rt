//! Drilled words in a refresh by four members, of whom one may be faulty. A dealer's row and column have one
//! coefficient each.

use super::minds::{Manner, place_at, says};
use drillbook::DrillFault;
use talk::Setting;

#[test]
fn drilled_words_are_by_their_verbs(rt: HostRuntime) -> Result<(), DrillFault> {
    let place = place_at(Setting::refresh(4, 1), 2, Manner::InTime);
    let cases: [(&str, u32, &[&[u64]]); 12] = [
        (
            "3 1 silent",
            1,
            &[
                &[1, 0],
                &[1, 4, 10, 11, 12, 13],
                &[0],
                &[1, 4, 30, 31, 32, 33],
                &[1, 4, 40, 41, 42, 43],
            ],
        ),
        ("2 1 silent", 1, &[&[0]]),
        (
            "2 1 late",
            1,
            &[
                &[2, 0],
                &[1, 4, 10, 11, 12, 13],
                &[0],
                &[1, 4, 30, 31, 32, 33],
                &[1, 4, 40, 41, 42, 43],
            ],
        ),
        (
            "2 1 garble",
            1,
            &[&[1, 3, 0], &[2, 0], &[0], &[2, 0], &[2, 0]],
        ),
        (
            "2 2 garble",
            2,
            &[&[1, 3, 0], &[2, 0], &[0], &[2, 0], &[2, 0]],
        ),
        (
            "2 5 garble",
            5,
            &[&[1, 3, 0], &[2, 0], &[0], &[2, 0], &[2, 0]],
        ),
        (
            "2 1 skew 5",
            1,
            &[
                &[1, 0],
                &[1, 4, 15, 11, 17, 13],
                &[0],
                &[1, 4, 30, 31, 32, 33],
                &[1, 4, 40, 41, 42, 43],
            ],
        ),
        (
            "2 2 skew 5",
            2,
            &[
                &[1, 0],
                &[2, 4, 1015, 1020, 1035, 1040],
                &[0],
                &[2, 4, 3010, 3020, 3030, 3040],
                &[2, 4, 4010, 4020, 4030, 4040],
            ],
        ),
        (
            "2 4 skew 5",
            4,
            &[
                &[1, 2, 2],
                &[0, 3, 1, 9, 1, 6],
                &[1, 4, 1, 13, 1, 10],
                &[0, 0, 0, 0],
            ],
        ),
        ("2 5 veto", 5, &[&[1, 3, 3], &[0, 0, 0], &[0, 0, 0, 0]]),
        ("2 1 silent", 5, &[&[1, 3, 3], &[1, 0, 1], &[0, 0, 0, 0]]),
        (
            "2 1 silent",
            3,
            &[
                &[1, 1, 4],
                &[0, 1, 7, 7],
                &[0, 3, 1, 1],
                &[0, 4, 8, 8],
                &[1, 4, 9, 9],
                &[0, 0, 0, 0],
            ],
        ),
    ];
    for (text, round, parts) in cases {
        assert!(rt;
            says(rt.alloc(), &place, text, round, parts)?,
            "{text} in round {round}"
        );
    }
    Ok(())
}

// The lowest receiver on another seat than the first is the second.
#[test]
fn the_first_skews_what_the_second_gets(rt: HostRuntime) -> Result<(), DrillFault> {
    let place = place_at(Setting::refresh(4, 1), 1, Manner::InTime);
    let cases: [(&str, u32, &[&[u64]]); 2] = [
        (
            "1 1 skew 5",
            1,
            &[
                &[1, 0],
                &[0],
                &[1, 4, 25, 21, 27, 23],
                &[1, 4, 30, 31, 32, 33],
                &[1, 4, 40, 41, 42, 43],
            ],
        ),
        (
            "1 2 skew 2305843009213693950",
            2,
            &[
                &[1, 0],
                &[0],
                &[2, 4, 2009, 2020, 2029, 2040],
                &[2, 4, 3010, 3020, 3030, 3040],
                &[2, 4, 4010, 4020, 4030, 4040],
            ],
        ),
    ];
    for (text, round, parts) in cases {
        assert!(rt;
            says(rt.alloc(), &place, text, round, parts)?,
            "{text} in round {round}"
        );
    }
    Ok(())
}

// A word that is late already stays late.
#[test]
fn a_late_word_stays_late(rt: HostRuntime) -> Result<(), DrillFault> {
    let place = place_at(Setting::refresh(4, 1), 2, Manner::Late);
    let cases: [(&str, u32, &[&[u64]]); 5] = [
        ("2 5 late", 5, &[&[2, 3, 3], &[1, 0, 1], &[0, 0, 0, 0]]),
        ("2 5 silent", 5, &[&[0]]),
        ("2 5 veto", 5, &[&[2, 3, 3], &[0, 0, 0], &[0, 0, 0, 0]]),
        (
            "2 5 garble",
            5,
            &[&[2, 3, 0], &[2, 0], &[0], &[2, 0], &[2, 0]],
        ),
        (
            "2 1 skew 5",
            1,
            &[
                &[2, 0],
                &[1, 4, 15, 11, 17, 13],
                &[0],
                &[1, 4, 30, 31, 32, 33],
                &[1, 4, 40, 41, 42, 43],
            ],
        ),
    ];
    for (text, round, parts) in cases {
        assert!(rt;
            says(rt.alloc(), &place, text, round, parts)?,
            "{text} in round {round}"
        );
    }
    Ok(())
}

// Who passes goes on passing, whatever it is told.
#[test]
fn who_passes_goes_on_passing(rt: HostRuntime) -> Result<(), DrillFault> {
    let place = place_at(Setting::refresh(4, 1), 2, Manner::Passing);
    let cases = [
        ("2 1 silent", 1),
        ("2 1 late", 1),
        ("2 1 garble", 1),
        ("2 1 skew 5", 1),
        ("2 2 skew 5", 2),
        ("2 3 accuse 1", 3),
        ("2 4 skew 5", 4),
        ("2 5 veto", 5),
    ];
    for (text, round) in cases {
        assert!(rt;
            says(rt.alloc(), &place, text, round, &[&[0]])?,
            "{text} in round {round}"
        );
    }
    Ok(())
}
