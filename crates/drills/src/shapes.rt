//! Tests of shapes, settings and masks.

use super::values::{steps, votes};
use field61::Fe;
use lists::{OutOfMemory, TryCopy};
use std::alloc::Global;
use talk::{
    Complaint, ComplaintList, Post, Reveal, RevealList, Ring, Setting, as_read, in_mask, mask_with,
    ring_as_read, ring_ok, shape_ok,
};

fn complaints(alloc: Global, items: &[(u32, u32)]) -> Result<Post, OutOfMemory> {
    let mut list = ComplaintList::new(alloc);
    for (instance, against) in items {
        list.push(Complaint {
            instance: *instance,
            against: *against,
            u: Fe::ONE,
            v: Fe::ZERO,
        })?;
    }
    Ok(Post::Complaints { list })
}

// Reveals by lane, receiver and number of coefficients of the row; columns have two.
fn reveals(alloc: Global, items: &[(u32, u32, u64)]) -> Result<Post, OutOfMemory> {
    let mut list = RevealList::new(alloc);
    for (lane, receiver, count) in items {
        list.push(Reveal {
            lane: *lane,
            receiver: *receiver,
            row: steps(alloc, 0, 1, *count)?,
            column: steps(alloc, 0, 1, 2)?,
        })?;
    }
    Ok(Post::Reveals { list })
}

fn is_quiet(post: &Post) -> bool {
    matches!(post, Post::Quiet)
}

#[test]
fn posts_of_a_wrong_shape_are_read_as_quiet(rt: HostRuntime) -> Result<(), OutOfMemory> {
    let alloc = rt.alloc();
    let create = Setting::create(4, 1);
    let moving = Setting::moving(4, 1, 7, 2);
    let cases = [
        (votes(alloc, 20)?, 5, 1, create, true),
        (votes(alloc, 19)?, 5, 1, create, false),
        (votes(alloc, 20)?, 4, 1, create, false),
        (votes(alloc, 20)?, 5, 4, moving, false),
        (votes(alloc, 20)?, 5, 11, moving, true),
        (complaints(alloc, &[])?, 3, 2, create, true),
        (
            complaints(alloc, &[(0, 1), (0, 4), (19, 1)])?,
            3,
            2,
            create,
            true,
        ),
        (complaints(alloc, &[(3, 2), (3, 2)])?, 3, 2, create, false),
        (complaints(alloc, &[(3, 2), (2, 3)])?, 3, 2, create, false),
        (complaints(alloc, &[(20, 1)])?, 3, 2, create, false),
        (complaints(alloc, &[(0, 0)])?, 3, 2, create, false),
        (complaints(alloc, &[(0, 5)])?, 3, 2, create, false),
        (reveals(alloc, &[(0, 4, 2), (4, 1, 2)])?, 4, 3, create, true),
        (reveals(alloc, &[(5, 1, 2)])?, 4, 3, create, false),
        (reveals(alloc, &[(1, 1, 3)])?, 4, 3, create, false),
        (reveals(alloc, &[(1, 1, 2)])?, 4, 5, moving, false),
        (
            Post::Syndromes {
                list: steps(alloc, 0, 1, 10)?,
            },
            6,
            5,
            moving,
            true,
        ),
        (
            Post::Syndromes {
                list: steps(alloc, 0, 1, 11)?,
            },
            6,
            5,
            moving,
            false,
        ),
        (Post::Quiet, 1, 1, create, true),
    ];
    for (k, (post, round, seat, setting, right)) in cases.iter().enumerate() {
        assert_eq!(rt; shape_ok(post, *round, *seat, setting), *right, "post {k}");
    }
    let long = as_read(votes(alloc, 20)?, 5, 1, &create);
    let short = as_read(votes(alloc, 19)?, 5, 1, &create);
    assert!(rt; !is_quiet(&long));
    assert!(rt; is_quiet(&short));
    Ok(())
}

#[test]
fn ring_messages_of_a_wrong_shape_are_read_as_nothing(rt: HostRuntime) -> Result<(), OutOfMemory> {
    let alloc = rt.alloc();
    let create = Setting::create(4, 1);
    let refresh = Setting::refresh(4, 1);
    let moving = Setting::moving(4, 1, 7, 2);
    let cases = [
        (true, 20, 1, 1, 2, create, true),
        (true, 19, 1, 1, 2, create, false),
        (true, 20, 2, 1, 2, create, false),
        (true, 20, 1, 2, 2, create, false),
        (true, 10, 1, 1, 2, refresh, true),
        (true, 30, 1, 4, 5, moving, true),
        (true, 30, 1, 5, 6, moving, false),
        (true, 30, 1, 1, 2, moving, false),
        (false, 40, 2, 1, 2, create, true),
        (false, 40, 2, 5, 11, moving, true),
        (false, 40, 2, 4, 5, moving, false),
        (false, 41, 2, 1, 2, create, false),
        (false, 40, 1, 1, 2, create, false),
    ];
    for (k, (dealt, count, round, sender, to, setting, right)) in cases.iter().enumerate() {
        let list = steps(alloc, 0, 1, *count)?;
        let item = if *dealt {
            Ring::Dealt { list }
        } else {
            Ring::Cross { list }
        };
        assert_eq!(rt;
            ring_ok(&item, *round, *sender, *to, setting),
            *right,
            "ring message {k}"
        );
        let read = ring_as_read(item.copy(alloc)?, *round, *sender, *to, setting);
        assert_eq!(rt; matches!(read, Ring::Nothing), !*right, "ring message {k}");
    }
    Ok(())
}

#[test]
fn settings_have_the_numbers_of_their_phase(rt: HostRuntime) {
    let settings = [
        (Setting::create(4, 1), 4, 5, 20, 1),
        (Setting::refresh(13, 4), 13, 5, 65, 3),
        (Setting::moving(7, 2, 13, 4), 20, 6, 35, 4),
        (Setting::moving(15, 4, 15, 4), 30, 6, 75, 4),
    ];
    for (k, (setting, seats, rounds, instances, degree)) in settings.iter().enumerate() {
        assert_eq!(rt; setting.seats(), *seats, "setting {k}");
        assert_eq!(rt; setting.rounds(), *rounds, "setting {k}");
        assert_eq!(rt; setting.instances(), *instances, "setting {k}");
        assert_eq!(rt; setting.degree(), *degree, "setting {k}");
    }
}

#[test]
fn seats_are_put_into_a_mask(rt: HostRuntime) {
    let first = mask_with(0, 1, true);
    let both = mask_with(mask_with(first, 2, false), 3, true);
    assert_eq!(rt; both, 5);
    assert!(rt; in_mask(both, 1) && !in_mask(both, 2) && in_mask(both, 3));
}
