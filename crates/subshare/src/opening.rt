//! The opened syndrome of a lane.

ghost use Rattle.std.specs.Prelude.{◌≡◌, ℕ, ◌+◌, ◌<◌, ◌≤◌, length, IfOk, MatchOption};
ghost use Rattle.algebra61.specs.Field.{Fp};
ghost use Rattle.checks61.specs.Checks.{entry};
ghost use Rattle.talk.specs.Shape.{seats};
ghost use Rattle.periods.specs.Move.{syndrome_in, values_in, IsOpened};
ghost use Rattle.subshare.specs.Opening.{post_of, IsUnopened, Opens};

use crate::OpenFault;
use crate::nearest::nearest_to;
use field61::{Fe, FeList};
use lists::OutOfMemory;
use std::alloc::Global;
use talk::{Post, PostList, Setting};

// The value at place `k` of a list, 0 past its end. A list that is read has a value at each place.
fn value_in(list: &FeList, k: usize) -> Fe
    ensures { result ≡ entry list.now (k + 1) }
{
    if k < list.len() {
        *list.at(k)
    } else {
        Fe::ZERO
    }
}

// The value at place `k` of a post of syndromes; none where something else was posted.
fn value_of(post: &Post, k: usize) -> Option<Fe>
    ensures { result ≡ syndrome_in k post.now }
{
    match post {
        Post::Syndromes { list } => Some(value_in(list, k)),
        _ => None,
    }
}

// The value at place `k` of a receiver's post.
fn value_at(posts: &PostList, setting: &Setting, receiver: u32, k: usize) -> Option<Fe>
    requires all { length posts.now ≡ seats setting.now }
    requires receiver { (1 ≤ receiver) × (receiver ≤ setting.now.receivers) }
    ensures { result ≡ syndrome_in k (post_of setting.now posts.now receiver) }
{
    let seat = setting.seat_of(receiver);
    value_of(posts.at(seat as usize - 1), k)
}

// The values at place `k` of the receivers' posts.
fn values_at(
    alloc: Global,
    posts: &PostList,
    setting: &Setting,
    k: usize,
) -> Result<Vec<Option<Fe>>, OutOfMemory>
    requires all { length posts.now ≡ seats setting.now }
    ensures { IfOk result (λ v. v.items ≡ values_in k setting.now (post_of setting.now posts.now)) }
{
    let mut list = Vec::new(alloc);
    for index in 0..setting.receivers() {
        list.push(value_at(posts, setting, index + 1, k))?;
    }
    Ok(list)
}

// The opened value of a place in a lane; none where no polynomial is nearest.
fn open_value(
    alloc: Global,
    posts: &PostList,
    setting: &Setting,
    lane: u32,
    place: u32,
) -> Result<Option<Fe>, OutOfMemory>
    requires all { length posts.now ≡ seats setting.now }
    requires lane { lane ≤ 4 }
    requires place { place < setting.now.checks }
    ensures { IfOk result
        (λ o. MatchOption o (IsUnopened setting.now (post_of setting.now posts.now) lane place)
        (IsOpened setting.now (post_of setting.now posts.now) lane place)) }
{
    let checks = setting.checks();
    let k = (lane * checks + place) as usize;
    let values = values_at(alloc, posts, setting, k)?;
    let receivers = setting.receivers();
    prove!(receivers <= 15);
    let nearest = nearest_to(alloc, values.as_slice(), setting.degree())?;
    let Some(poly) = nearest else {
        return Ok(None);
    };
    Ok(Some(poly.eval(Fe::ZERO)))
}

/// The opened syndrome of a lane (0 to 4), from the posts of the sixth round, one for each seat: place by place the value
/// at 0 of the polynomial that is nearest to what the receivers posted.
///
/// `NotOpened` is answered exactly where some place has none, with the least such place.
pub fn open_syndrome(
    alloc: Global,
    posts: &PostList,
    lane: u32,
    setting: &Setting,
) -> Result<FeList, OpenFault>
    requires all { length posts.now ≡ seats setting.now }
    requires lane { lane ≤ 4 }
    requires checks { 1 ≤ setting.now.checks }
    ensures { Opens setting.now (post_of setting.now posts.now) lane result }
{
    let mut list = FeList::new(alloc);
    for place in 0..setting.checks() {
        let opened = open_value(alloc, posts, setting, lane, place)?;
        let Some(value) = opened else {
            return Err(OpenFault::NotOpened { place });
        };
        list.push(value)?;
    }
    Ok(list)
}
