//! One round of the synchronous run.

ghost use Rattle.std.specs.Prelude.{◌≡◌, ℕ, ◌+◌, ◌≤◌, length, cond, IfOk, OnOk};
ghost use Rattle.talk.specs.Shape.{seats};
ghost use Rattle.talk.specs.Read.{as_read, ring_as_read};
ghost use Rattle.talk.specs.Sync.{after_hears, after_words, has, heard_at, post_in, posts_heard, ring_in, rings_heard, ways, words_of};
ghost use Rattle.talk.specs.Hears.{Fits, Hearing, Seated};

use lists::OutOfMemory;
use std::alloc::Global;
use talk::{
    Heard, Mind, Post, PostList, Ring, RingList, Say, Setting, as_read, in_mask, ring_as_read,
};

/// Each mind says its word of the round. Where memory is wanting, nothing is known of the minds.
pub fn say_all<M: Mind>(
    alloc: Global,
    minds: &mut Vec<M>,
    round: u32,
) -> Result<Vec<Say>, OutOfMemory>
    requires { Hearing M.may_say round minds.old.items }
    ensures words { IfOk result (λ words.
        words.items ≡ words_of (ways M.word M.after_say M.after_hear) round minds.old.items) }
    ensures minds { OnOk result
        (minds.new.items ≡ after_words (ways M.word M.after_say M.after_hear) round minds.old.items) }
{
    let mut words = Vec::new(alloc);
    for mind in minds.iter_mut() {
        let word = mind.say(alloc, round)?;
        words.push(word).map_err(|_| OutOfMemory)?;
    }
    Ok(words)
}

/// Each mind hears what the seats of the mask said in the round, each post and ring message as read; `words` has the
/// word of each seat, in order of the seats. Where memory is wanting, nothing is known of the minds.
pub fn hear_all<M: Mind>(
    alloc: Global,
    minds: &mut Vec<M>,
    setting: &Setting,
    round: u32,
    mask: u32,
    words: &[Say],
) -> Result<(), OutOfMemory>
    requires few { length minds.old.items ≤ 30 }
    requires all { length words.now ≡ seats setting.now }
    requires may { Hearing M.may_hear round minds.old.items }
    requires made { Seated M.made_for setting.now 1 minds.old.items }
    ensures { OnOk result
        (minds.new.items ≡ after_hears (ways M.word M.after_say M.after_hear) setting.now round mask words.now 1
        minds.old.items) }
{
    let mut seat = 1;
    for mind in minds.iter_mut() {
        let heard = heard_on(alloc, setting, round, mask, words, seat)?;
        mind.hear(alloc, round, heard)?;
        seat += 1;
    }
    Ok(())
}

// What the mind on a seat hears.
#[tactic(auto, using(talk::proofs::Fit::fits_heard_at))]
fn heard_on(
    alloc: Global,
    setting: &Setting,
    round: u32,
    mask: u32,
    words: &[Say],
    to: u32,
) -> Result<Heard, OutOfMemory>
    requires all { length words.now ≡ seats setting.now }
    requires seat { 1 ≤ to }
    ensures is { IfOk result (λ heard. heard ≡ heard_at setting.now round mask words.now to) }
    ensures fits { IfOk result (λ heard. Fits setting.now to round heard) }
{
    let _seats = setting.seats();
    Ok(Heard {
        posts: posts_on(alloc, setting, round, mask, words)?,
        rings: rings_on(alloc, setting, round, mask, words, to)?,
    })
}

// The posts that all minds hear.
fn posts_on(
    alloc: Global,
    setting: &Setting,
    round: u32,
    mask: u32,
    words: &[Say],
) -> Result<PostList, OutOfMemory>
    requires { length words.now ≤ 30 }
    ensures { IfOk result (λ posts. posts ≡ posts_heard setting.now round mask 1 words.now) }
{
    let mut posts = PostList::new(alloc);
    let mut seat = 1;
    for word in words {
        posts.push(post_of(alloc, setting, round, mask, seat, word)?)?;
        seat += 1;
    }
    Ok(posts)
}

// What is heard of a seat's post.
fn post_of(
    alloc: Global,
    setting: &Setting,
    round: u32,
    mask: u32,
    seat: u32,
    word: &Say,
) -> Result<Post, OutOfMemory>
    requires { (1 ≤ seat) × (seat ≤ 30) }
    ensures { IfOk result (λ post.
        post ≡ cond (has mask seat) (as_read setting.now round seat (post_in word.now)) Post.Quiet) }
{
    if in_mask(mask, seat) {
        Ok(as_read(word.posted(alloc)?, round, seat, setting))
    } else {
        Ok(Post::Quiet)
    }
}

// The ring messages that the mind on a seat hears.
fn rings_on(
    alloc: Global,
    setting: &Setting,
    round: u32,
    mask: u32,
    words: &[Say],
    to: u32,
) -> Result<RingList, OutOfMemory>
    requires few { length words.now ≤ 30 }
    requires seat { 1 ≤ to }
    ensures { IfOk result (λ rings. rings ≡ rings_heard setting.now round mask to 1 words.now) }
{
    let mut rings = RingList::new(alloc);
    let mut seat = 1;
    for word in words {
        rings.push(ring_of(alloc, setting, round, mask, seat, to, word)?)?;
        seat += 1;
    }
    Ok(rings)
}

// What is heard of a seat's ring message to another.
fn ring_of(
    alloc: Global,
    setting: &Setting,
    round: u32,
    mask: u32,
    seat: u32,
    to: u32,
    word: &Say,
) -> Result<Ring, OutOfMemory>
    requires seat { (1 ≤ seat) × (seat ≤ 30) }
    requires to { 1 ≤ to }
    ensures { IfOk result (λ ring.
        ring ≡ cond (has mask seat) (ring_as_read setting.now round seat to (ring_in to word.now)) Ring.Nothing) }
{
    if in_mask(mask, seat) {
        Ok(ring_as_read(word.sent(alloc, to)?, round, seat, to, setting))
    } else {
        Ok(Ring::Nothing)
    }
}
