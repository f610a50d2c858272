//! Committees and instances at their ends.

use crate::{Committee, Instance, is_index};

#[test]
fn committees_are_judged(rt: HostRuntime) {
    let five = Committee {
        members: 5,
        bound: 1,
    };
    assert!(rt; five.is_lawful() && five.can_be_made());
    let fifteen = Committee {
        members: 15,
        bound: 4,
    };
    assert!(rt; fifteen.is_lawful() && !fifteen.can_be_made());
    let thin = Committee {
        members: 13,
        bound: 5,
    };
    assert!(rt; !thin.is_lawful() && !thin.can_be_made());
    assert!(rt; is_index(13, 13) && !is_index(13, 0) && !is_index(13, 14));
}

#[test]
fn instances_go_dealer_by_dealer(rt: HostRuntime) {
    let last = Instance {
        dealer: 15,
        lane: 4,
    };
    assert!(rt; last.number() == 74 && Instance::of(74) == last);
    assert!(rt; Instance::of(5) == Instance { dealer: 2, lane: 0 });
}
