//! The playing of a recorded phase.

ghost use Rattle.std.specs.Prelude.{◌≡◌, ℕ, ◌+◌, ◌-◌, ◌<◌, ◌≤◌, min, IfOk, OnOk};
ghost use Rattle.talk.specs.Shape.{Lawful, rounds, seats};
ghost use Rattle.moveshare.specs.Seat.{IsMoving};
ghost use Rattle.playback.specs.Recorded.{play_of};
ghost use Rattle.playback.specs.Kept.{IsKept};
ghost use Rattle.playback.specs.Playing.{seats_after, words_read};
ghost use Rattle.playback.specs.Shares.{IsPlayed};

use crate::phase::Phase;
use crate::seats::{begin, hear_all};
use crate::words::{posts_of, push_got, push_posts, words_of};
use lists::OutOfMemory;
use sharer::Sharer;
use std::alloc::Global;
use talk::{PostList, RingList, Say};

// The last round of the sharing.
const SHARED: u32 = 5;

/// What a phase comes to.
#[derive(Drop)]
pub struct Played {
    /// The seats once the sharing is done: none where a seat is down.
    pub seats: Vec<Option<Sharer>>,
    /// The posts of the last round as they are read, by seat.
    pub last: PostList,
    /// All posts as they are read, by round and seat.
    pub posts: PostList,
    /// The ring messages, as they are read, that the seats get which are down, by round, receiver and sender.
    pub rings: RingList,
}

/// Plays a phase to its end. Only a move has a sixth round.
pub fn play(alloc: Global, phase: &Phase) -> Result<Played, OutOfMemory>
    requires kept { IsKept phase.now }
    requires setting { Lawful phase.now.setting }
    requires sixth { rounds phase.now.setting ≡ 6 → IsMoving phase.now.setting }
    ensures { IfOk result (IsPlayed (play_of phase.now)) }
{
    let mut states = begin(alloc, phase)?;
    let mut last = PostList::new(alloc);
    let mut posts = PostList::new(alloc);
    let mut rings = RingList::new(alloc);
    for round in 1..phase.setting.rounds() + 1 {
        let words = words_of(alloc, phase, states.as_slice(), round)?;
        last = posts_of(alloc, words.as_slice())?;
        push_posts(alloc, &mut posts, &last)?;
        push_got(alloc, &mut rings, phase, words.as_slice(), round)?;
        hear_shared(alloc, phase, &mut states, words.as_slice(), round)?;
    }
    Ok(Played {
        seats: states,
        last,
        posts,
        rings,
    })
}

// The seats hear a round of the sharing; the round behind it changes nothing of them.
fn hear_shared(
    alloc: Global,
    phase: &Phase,
    states: &mut Vec<Option<Sharer>>,
    words: &[Say],
    round: u32,
) -> Result<(), OutOfMemory>
    requires kept { IsKept phase.now }
    requires setting { Lawful phase.now.setting }
    requires round { (1 ≤ round) × (round ≤ 6) }
    requires words { words.now ≡ words_read (play_of phase.now) round }
    requires states { states.old.items ≡ seats_after (play_of phase.now) (round - 1) }
    ensures { OnOk result (states.new.items ≡ seats_after (play_of phase.now) (min round 5)) }
{
    if round <= SHARED {
        return hear_all(alloc, phase, states, words, round);
    }
    Ok(())
}
