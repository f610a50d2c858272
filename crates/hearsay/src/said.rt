//! What minds hear of the seats that are down.

ghost use Rattle.std.specs.Prelude.{◌≡◌, ℕ, ◌+◌, ◌-◌, ◌≤◌, ◌&&◌, ◌++◌, Bool, List, cond, [], length, IfOk, OnOk};
ghost use Rattle.std.specs.List.{flat_map};
ghost use Rattle.algebra61.specs.Field.{Fp};
ghost use Rattle.talk.specs.Shape.{rounds, seats};
ghost use Rattle.talk.specs.Read.{as_read, ring_as_read};
ghost use Rattle.talk.specs.Sync.{has, post_in, posts_heard, ring_in, rings_heard, ways};
ghost use Rattle.talk.specs.Hears.{Hearing, Seated};
ghost use Rattle.plays.specs.Run.{run_play};
ghost use Rattle.plays.specs.Said.{points_up_to};
ghost use Rattle.plays.specs.Seat.{post_at, ring_at};
ghost use Rattle.hearsay.specs.Said.{Marks, post_items, ring_items, round_items, said_in, seat_items};

use driver::{hear_all, say_all};
use field61::NumberList;
use lists::OutOfMemory;
use playback::{SaidItem, SaidList};
use std::alloc::Global;
use talk::{Mind, Post, Ring, Say, Setting, as_read, in_mask, ring_as_read};

/// What the minds of a phase hear of the seats that are down, in the synchronous run with given masks. The fresh mind
/// at place `k` is on seat `k + 1`; there is one mask for each round, the first round's first; and `down` has bit
/// `k - 1` where seat `k` is down.
///
/// The items ascend by round, seat and receiving seat. A message is as it is read, and where nothing is heard there is
/// no item: so there is none of a seat in a round whose mask lacks the seat.
///
/// The error is want of memory.
pub fn said_of<M: Mind>(
    alloc: Global,
    mut minds: Vec<M>,
    masks: &NumberList,
    down: u32,
    setting: &Setting,
) -> Result<SaidList, OutOfMemory>
    requires all { length minds.items ≡ seats setting.now }
    requires fresh { Hearing M.may_say 1 minds.items }
    requires made { Seated M.made_for setting.now 1 minds.items }
    requires rounds { length masks.now ≡ rounds setting.now }
    ensures { IfOk result (λ said.
        (faulty : ℕ → Bool) (own : ℕ → List (List (List Fp))) → Marks setting.now down faulty →
        said ≡ said_in (run_play (ways M.word M.after_say M.after_hear) setting.now masks.now minds.items faulty own)) }
{
    let _seats = setting.seats();
    let mut said = SaidList::new(alloc);
    for round in 1..setting.rounds() + 1 {
        let mask = *masks.at(round as usize - 1);
        let words = say_all(alloc, &mut minds, round)?;
        push_round(
            alloc,
            &mut said,
            setting,
            round,
            mask,
            down,
            words.as_slice(),
        )?;
        hear_all(alloc, &mut minds, setting, round, mask, words.as_slice())?;
    }
    Ok(said)
}

// Puts at the end of a list what is heard in a round of the seats that are down, given the words of all seats.
fn push_round(
    alloc: Global,
    said: &mut SaidList,
    setting: &Setting,
    round: u32,
    mask: u32,
    down: u32,
    words: &[Say],
) -> Result<(), OutOfMemory>
    requires { length words.now ≡ seats setting.now }
    ensures { OnOk result (said.new ≡ said.old ++ round_items setting.now round (has down)
        (post_at (posts_heard setting.now round mask 1 words.now))
        (λ seat to. ring_at (rings_heard setting.now round mask to 1 words.now) seat)) }
{
    let _seats = setting.seats();
    let mut seat = 1;
    for word in words {
        let heard = is_heard(mask, down, seat);
        push_seat(alloc, said, setting, round, seat, heard, word)?;
        seat += 1;
    }
    Ok(())
}

// Whether a seat is down and in the round's mask.
fn is_heard(mask: u32, down: u32, seat: u32) -> bool
    requires { (1 ≤ seat) × (seat ≤ 30) }
    ensures { result ≡ (has down seat && has mask seat) }
{
    in_mask(down, seat) && in_mask(mask, seat)
}

// Puts what a seat says at the end of a list, as it is read, where the seat is heard.
fn push_seat(
    alloc: Global,
    said: &mut SaidList,
    setting: &Setting,
    round: u32,
    seat: u32,
    heard: bool,
    word: &Say,
) -> Result<(), OutOfMemory>
    ensures { OnOk result (said.new ≡ said.old ++ cond heard
        (seat_items setting.now round seat (as_read setting.now round seat (post_in word.now))
        (λ to. ring_as_read setting.now round seat to (ring_in to word.now))) []) }
{
    if !heard {
        return Ok(());
    }
    let post = as_read(word.posted(alloc)?, round, seat, setting);
    push_post(said, round, seat, post)?;
    push_rings(alloc, said, setting, round, seat, word)
}

// Puts a post at the end of a list, where it says something.
fn push_post(said: &mut SaidList, round: u32, seat: u32, post: Post) -> Result<(), OutOfMemory>
    ensures { OnOk result (said.new ≡ said.old ++ post_items round seat post) }
{
    match post {
        Post::Quiet => Ok(()),
        post => said.push(SaidItem {
            round,
            seat,
            to: 0,
            post,
            ring: Ring::Nothing,
        }),
    }
}

// Puts the ring messages of a word at the end of a list, as they are read.
fn push_rings(
    alloc: Global,
    said: &mut SaidList,
    setting: &Setting,
    round: u32,
    seat: u32,
    word: &Say,
) -> Result<(), OutOfMemory>
    ensures { OnOk result (said.new ≡ said.old ++ flat_map
        (λ to. ring_items round seat to (ring_as_read setting.now round seat to (ring_in to word.now)))
        (points_up_to (seats setting.now))) }
{
    for to in 1..setting.seats() + 1 {
        let ring = ring_as_read(word.sent(alloc, to)?, round, seat, to, setting);
        push_ring(said, round, seat, to, ring)?;
    }
    Ok(())
}

// Puts a ring message at the end of a list, where it says something.
fn push_ring(
    said: &mut SaidList,
    round: u32,
    seat: u32,
    to: u32,
    ring: Ring,
) -> Result<(), OutOfMemory>
    ensures { OnOk result (said.new ≡ said.old ++ ring_items round seat to ring) }
{
    match ring {
        Ring::Nothing => Ok(()),
        ring => said.push(SaidItem {
            round,
            seat,
            to,
            post: Post::Quiet,
            ring,
        }),
    }
}
