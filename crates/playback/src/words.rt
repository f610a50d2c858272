//! What is read of the seats in a round.

ghost use Rattle.std.specs.Prelude.{◌≡◌, ℕ, ◌+◌, ◌-◌, ◌<◌, ◌≤◌, ◌++◌, List, map, cond, true, IfOk, OnOk};
ghost use Rattle.std.specs.List.{flat_map};
ghost use Rattle.talk.specs.declared.messages.Post.{Post};
ghost use Rattle.talk.specs.declared.messages.Ring.{Ring};
ghost use Rattle.talk.specs.Hears.{Fits};
ghost use Rattle.talk.specs.Shape.{Lawful, rounds, seats};
ghost use Rattle.talk.specs.Sync.{has, post_in, ring_in, speaks};
ghost use Rattle.plays.specs.Heard.{play_heard};
ghost use Rattle.plays.specs.Said.{points_up_to};
ghost use Rattle.members.specs.Member.{rings_said};
ghost use Rattle.members.specs.Shares.{IsDone};
ghost use Rattle.periods.specs.Mover.{mover_post};
ghost use Rattle.moveshare.specs.Seat.{IsMoving};
ghost use Rattle.choices61.specs.Views.{rings_got};
ghost use Rattle.playback.specs.Recorded.{play_of};
ghost use Rattle.playback.specs.Kept.{IsKept};
ghost use Rattle.playback.specs.Playing.{posts_read_in, seat_after, seats_after, word_read, words_read};

use crate::phase::Phase;
use crate::said::{said_post, said_rings};
use lists::{OutOfMemory, TryCopy};
use moveshare::syndromes;
use sharer::Sharer;
use std::alloc::Global;
use talk::{Heard, Post, PostList, RingList, Say, in_mask};

// The last round of the sharing; in the one behind it the receivers of a move post their syndromes.
const SHARED: u32 = 5;

// The words of all seats in a round.
pub(crate) fn words_of(
    alloc: Global,
    phase: &Phase,
    states: &[Option<Sharer>],
    round: u32,
) -> Result<Vec<Say>, OutOfMemory>
    requires kept { IsKept phase.now }
    requires setting { Lawful phase.now.setting }
    requires sixth { rounds phase.now.setting ≡ 6 → IsMoving phase.now.setting }
    requires round { (1 ≤ round) × (round ≤ rounds phase.now.setting) }
    requires states { states.now ≡ seats_after (play_of phase.now) (round - 1) }
    ensures { IfOk result (λ v. v.items ≡ words_read (play_of phase.now) round) }
{
    let _seats = phase.setting.seats();
    let mut words = Vec::new(alloc);
    let mut seat = 1;
    for state in states {
        words.push(word_of(alloc, phase, state, round, seat)?)?;
        seat += 1;
    }
    Ok(words)
}

// The word of a seat in a round.
fn word_of(
    alloc: Global,
    phase: &Phase,
    state: &Option<Sharer>,
    round: u32,
    seat: u32,
) -> Result<Say, OutOfMemory>
    requires kept { IsKept phase.now }
    requires setting { Lawful phase.now.setting }
    requires sixth { rounds phase.now.setting ≡ 6 → IsMoving phase.now.setting }
    requires round { (1 ≤ round) × (round ≤ rounds phase.now.setting) }
    requires seat { (1 ≤ seat) × (seat ≤ seats phase.now.setting) }
    requires state { state.now ≡ seat_after (play_of phase.now) (round - 1) seat }
    ensures { IfOk result (λ w. w ≡ word_read (play_of phase.now) round seat) }
{
    match state {
        Some(sharer) => word_by_rules(alloc, sharer),
        None => {
            let post = said_post(alloc, phase.said.as_slice(), round, seat)?;
            let rings = said_rings(alloc, phase.said.as_slice(), round, seat, &phase.setting)?;
            Ok(Say::Speak { post, rings })
        }
    }
}

// The next word of a seat that goes by the rules: as a member of the sharing, and once that is done a receiver's syndromes.
fn word_by_rules(alloc: Global, sharer: &Sharer) -> Result<Say, OutOfMemory>
    requires moving { IsDone sharer.now.stage → IsMoving sharer.now.shape }
    ensures { IfOk result (λ w. w ≡ Say.Speak
        (mover_post sharer.now.shape sharer.now.seat sharer.now.grids sharer.now.stage)
        (rings_said sharer.now.shape sharer.now.seat sharer.now.grids sharer.now.stage)) }
{
    let word = sharer.say(alloc)?;
    if sharer.round() <= SHARED || !sharer.setting().receives(sharer.seat()) {
        return Ok(word);
    }
    let list = syndromes(alloc, sharer)?;
    Ok(posting(word, Post::Syndromes { list }))
}

// A word that is said in time, with another post.
fn posting(word: Say, post: Post) -> Say
    requires { speaks word ≡ true }
    ensures { (before : Post) (rings : List Ring) → word ≡ Say.Speak before rings → result ≡ Say.Speak post rings }
{
    match word {
        Say::Speak { rings, .. } => Say::Speak { post, rings },
        other => other,
    }
}

// What a seat hears of the words.
pub(crate) fn heard_on(
    alloc: Global,
    phase: &Phase,
    words: &[Say],
    round: u32,
    to: u32,
) -> Result<Heard, OutOfMemory>
    requires kept { IsKept phase.now }
    requires setting { Lawful phase.now.setting }
    requires round { (1 ≤ round) × (round ≤ 5) }
    requires to { (1 ≤ to) × (to ≤ seats phase.now.setting) }
    requires words { words.now ≡ words_read (play_of phase.now) round }
    ensures is { IfOk result (λ h. h ≡ play_heard (play_of phase.now) round to) }
    ensures fits { IfOk result (λ h. Fits phase.now.setting to round h) }
{
    let mut rings = RingList::new(alloc);
    let posts = posts_of(alloc, words)?;
    push_sent(alloc, &mut rings, words, to)?;
    Ok(Heard { posts, rings })
}

// What the words post.
pub(crate) fn posts_of(alloc: Global, words: &[Say]) -> Result<PostList, OutOfMemory>
    ensures { IfOk result (λ l. l ≡ map post_in words.now) }
{
    let mut posts = PostList::new(alloc);
    for word in words {
        posts.push(word.posted(alloc)?)?;
    }
    Ok(posts)
}

// Puts posts at the end of a list.
pub(crate) fn push_posts(
    alloc: Global,
    list: &mut PostList,
    posts: &PostList,
) -> Result<(), OutOfMemory>
    ensures { OnOk result (list.new ≡ list.old ++ posts.now) }
{
    for post in posts.as_slice() {
        list.push(post.copy(alloc)?)?;
    }
    Ok(())
}

// Puts what the words send to a seat at the end of a list.
fn push_sent(alloc: Global, list: &mut RingList, words: &[Say], to: u32) -> Result<(), OutOfMemory>
    requires { 1 ≤ to }
    ensures { OnOk result (list.new ≡ list.old ++ map (ring_in to) words.now) }
{
    for word in words {
        list.push(word.sent(alloc, to)?)?;
    }
    Ok(())
}

// Puts what the words send to the seats that are down at the end of a list.
pub(crate) fn push_got(
    alloc: Global,
    list: &mut RingList,
    phase: &Phase,
    words: &[Say],
    round: u32,
) -> Result<(), OutOfMemory>
    requires words { words.now ≡ words_read (play_of phase.now) round }
    ensures { OnOk result
        (list.new ≡ list.old ++ flat_map (rings_got (play_of phase.now) round)
        (points_up_to (seats phase.now.setting))) }
{
    for to in 1..phase.setting.seats() + 1 {
        push_if_down(alloc, list, phase, words, round, to)?;
    }
    Ok(())
}

// Puts what the words send to a seat at the end of a list, where the seat is down.
fn push_if_down(
    alloc: Global,
    list: &mut RingList,
    phase: &Phase,
    words: &[Say],
    round: u32,
    to: u32,
) -> Result<(), OutOfMemory>
    requires words { words.now ≡ words_read (play_of phase.now) round }
    requires to { (1 ≤ to) × (to ≤ seats phase.now.setting) }
    ensures { OnOk result (list.new ≡ list.old ++ rings_got (play_of phase.now) round to) }
{
    let _seats = phase.setting.seats();
    if in_mask(phase.down, to) {
        return push_sent(alloc, list, words, to);
    }
    Ok(())
}
