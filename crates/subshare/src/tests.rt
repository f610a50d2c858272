//! Tests over the move of a committee of four members to one of seven.

use crate::{OpenFault, correct, open_syndrome, syndrome_share};
use field61::{Fe, FeList};
use lists::OutOfMemory;
use std::alloc::Global;
use talk::{Post, PostList, Setting};

// Each of the two values of the syndrome of 11, 13, 16, 19: minus a sixth.
const OPENED: u64 = 384307168202282325;

// The elements with these numbers.
fn elements(alloc: Global, numbers: &[u64]) -> Result<FeList, OutOfMemory> {
    let mut list = FeList::new(alloc);
    for number in numbers {
        list.push(Fe::reduce(*number))?;
    }
    Ok(list)
}

// Whether the list holds exactly these numbers.
fn holds(list: &FeList, numbers: &[u64]) -> bool {
    list.len() == numbers.len()
        && list
            .as_slice()
            .iter()
            .zip(numbers.iter())
            .all(|(a, b)| a.get() == *b)
}

// A post with two values in the second lane, and 7 at both places of the first.
fn post_with(alloc: Global, values: Option<(u64, u64)>) -> Result<Post, OutOfMemory> {
    match values {
        Some((first, second)) => Ok(Post::Syndromes {
            list: elements(alloc, &[7, 7, first, second])?,
        }),
        None => Ok(Post::Quiet),
    }
}

// The posts of the eleven seats, of which the first four receive nothing.
fn posts_with(alloc: Global, values: &[Option<(u64, u64)>; 7]) -> Result<PostList, OutOfMemory> {
    let mut posts = PostList::new(alloc);
    for _ in 0..4 {
        posts.push(Post::Quiet)?;
    }
    for value in values {
        posts.push(post_with(alloc, *value)?)?;
    }
    Ok(posts)
}

// What the second lane opens.
fn open_second(alloc: Global, posts: &PostList) -> Result<FeList, OpenFault> {
    let setting = Setting::moving(4, 1, 7, 2);
    if posts.len() == 11 {
        open_syndrome(alloc, posts, 1, &setting)
    } else {
        Err(OpenFault::OutOfMemory)
    }
}

// The values of two polynomials of degree at most 2 that are OPENED at 0: OPENED + j and OPENED + j * j.
fn honest_values() -> [Option<(u64, u64)>; 7] {
    [
        Some((OPENED + 1, OPENED + 1)),
        Some((OPENED + 2, OPENED + 4)),
        Some((OPENED + 3, OPENED + 9)),
        Some((OPENED + 4, OPENED + 16)),
        Some((OPENED + 5, OPENED + 25)),
        Some((OPENED + 6, OPENED + 36)),
        Some((OPENED + 7, OPENED + 49)),
    ]
}

#[test]
fn a_wrong_and_a_missing_post_open_the_same(rt: HostRuntime) -> Result<(), OutOfMemory> {
    let mut values = honest_values();
    values[2] = None;
    values[4] = Some((7, 9));
    let posts = posts_with(rt.alloc(), &values)?;
    match open_second(rt.alloc(), &posts) {
        Ok(syndrome) => assert!(rt; holds(&syndrome, &[OPENED, OPENED])),
        Err(_) => assert!(rt; false),
    }
    Ok(())
}

#[test]
fn three_wrong_values_of_a_place_are_not_opened(rt: HostRuntime) -> Result<(), OutOfMemory> {
    let mut values = honest_values();
    values[0] = Some((OPENED + 1, 1));
    values[1] = Some((OPENED + 2, 3));
    values[3] = Some((OPENED + 4, 8));
    let posts = posts_with(rt.alloc(), &values)?;
    let opened = open_second(rt.alloc(), &posts);
    assert!(rt; matches!(opened, Err(OpenFault::NotOpened { place: 1 })));
    Ok(())
}

#[test]
fn the_error_of_one_old_share_is_taken_off(rt: HostRuntime) -> Result<(), OutOfMemory> {
    let shares = elements(rt.alloc(), &[11, 13, 16, 19])?;
    let errors = elements(rt.alloc(), &[1, 0, 0, 0])?;
    if shares.len() != 4 || errors.len() != 4 {
        assert!(rt; false);
        return Ok(());
    }
    let posted = syndrome_share(rt.alloc(), shares.as_slice(), 1)?;
    assert!(rt; holds(&posted, &[OPENED, OPENED]));
    let share = correct(rt.alloc(), shares.as_slice(), errors.as_slice(), 1)?;
    assert!(rt; share.get() == 7);
    Ok(())
}
