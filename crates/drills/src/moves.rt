//! Drilled words in a move from four members to four others: the dealers sit on the seats 1 to 4, the receivers
//! on the seats 5 to 8. A dealer's row and column have two coefficients each.

use super::minds::{Manner, place_at, says};
use drillbook::DrillFault;
use talk::Setting;

#[test]
fn a_dealer_of_a_move_is_drilled(rt: HostRuntime) -> Result<(), DrillFault> {
    let place = place_at(Setting::moving(4, 1, 4, 1), 2, Manner::InTime);
    let cases: [(&str, u32, &[&[u64]]); 4] = [
        (
            "2 1 wrong 9",
            1,
            &[
                &[1, 0],
                &[0, 0, 0, 0],
                &[1, 8, 50, 51, 52, 53, 54, 55, 56, 57],
                &[1, 8, 60, 61, 62, 63, 64, 65, 66, 67],
                &[1, 8, 70, 71, 72, 73, 74, 75, 76, 77],
                &[1, 8, 80, 81, 82, 83, 84, 85, 86, 87],
            ],
        ),
        (
            "2 1 skew 5",
            1,
            &[
                &[1, 0],
                &[0, 0, 0, 0],
                &[1, 8, 55, 51, 52, 53, 59, 55, 56, 57],
                &[1, 8, 60, 61, 62, 63, 64, 65, 66, 67],
                &[1, 8, 70, 71, 72, 73, 74, 75, 76, 77],
                &[1, 8, 80, 81, 82, 83, 84, 85, 86, 87],
            ],
        ),
        (
            "2 4 skew 5",
            4,
            &[
                &[1, 2, 2],
                &[0, 3, 2, 9, 5, 2, 6, 7],
                &[1, 4, 2, 13, 9, 2, 10, 11],
                &[0, 0, 0, 0, 0, 0, 0, 0],
            ],
        ),
        (
            "2 1 garble",
            1,
            &[
                &[1, 3, 0],
                &[2, 0],
                &[0],
                &[2, 0],
                &[2, 0],
                &[2, 0],
                &[2, 0],
                &[2, 0],
                &[2, 0],
            ],
        ),
    ];
    for (text, round, parts) in cases {
        assert!(rt;
            says(rt.alloc(), &place, text, round, parts)?,
            "{text} in round {round}"
        );
    }
    Ok(())
}

#[test]
fn a_receiver_of_a_move_is_drilled(rt: HostRuntime) -> Result<(), DrillFault> {
    let place = place_at(Setting::moving(4, 1, 4, 1), 6, Manner::InTime);
    let cases: [(&str, u32, &[&[u64]]); 4] = [
        (
            "6 6 skew 7",
            6,
            &[&[1, 4, 4], &[8, 9, 10, 6], &[0, 0, 0, 0, 0, 0, 0, 0]],
        ),
        (
            "6 2 skew 5",
            2,
            &[
                &[1, 0],
                &[0, 0, 0, 0],
                &[2, 4, 5015, 5020, 5035, 5040],
                &[0],
                &[2, 4, 7010, 7020, 7030, 7040],
                &[2, 4, 8010, 8020, 8030, 8040],
            ],
        ),
        (
            "6 5 veto",
            5,
            &[&[1, 3, 3], &[0, 0, 0], &[0, 0, 0, 0, 0, 0, 0, 0]],
        ),
        (
            "6 2 garble",
            2,
            &[
                &[1, 3, 0],
                &[2, 0],
                &[2, 0],
                &[2, 0],
                &[2, 0],
                &[2, 0],
                &[0],
                &[2, 0],
                &[2, 0],
            ],
        ),
    ];
    for (text, round, parts) in cases {
        assert!(rt;
            says(rt.alloc(), &place, text, round, parts)?,
            "{text} in round {round}"
        );
    }
    Ok(())
}

// The lowest receiver on another seat than the first receiver's is the second.
#[test]
fn the_first_receiver_skews_what_the_second_gets(rt: HostRuntime) -> Result<(), DrillFault> {
    let place = place_at(Setting::moving(4, 1, 4, 1), 5, Manner::InTime);
    let parts: [&[u64]; 5] = [
        &[1, 0],
        &[0, 0, 0, 0, 0],
        &[2, 4, 6015, 6020, 6035, 6040],
        &[2, 4, 7010, 7020, 7030, 7040],
        &[2, 4, 8010, 8020, 8030, 8040],
    ];
    assert!(rt; says(rt.alloc(), &place, "5 2 skew 5", 2, parts.as_slice())?);
    Ok(())
}
