//! Hearing one round.
ghost use Rattle.std.specs.Prelude.{◌≡◌, ◌≢◌, ℕ, ◌+◌, ◌-◌, ◌<◌, ◌≤◌, List, [], ◌∷◌, ◌++◌, Some, IfOk, IsSome, true, false, cond};
ghost use Rattle.roundboard.specs.Cells.{knows};
ghost use Rattle.roundboard.specs.Pens.{IsPen, cell_of, cells_of, events, log_of, mask_of, place_of, rounds_of};
ghost use Rattle.pairrings.specs.Ends.{got_from, sent_to, room_to, OnlyGot, SameRings};
ghost use Rattle.talk.specs.Shape.{Shape};
ghost use Rattle.talk.specs.Sync.{has};
ghost use Rattle.talk.specs.declared.messages.Post.{Post as PostValue};
ghost use Rattle.talk.specs.declared.messages.Ring.{Ring as RingValue};
ghost use Rattle.turns.specs.Turns.{Turn};
ghost use Rattle.party_crew.specs.Logs.{OnlyLearns};
ghost use Rattle.roundboard.specs.Logs.{Grew, NoArrivals};
ghost use Rattle.party_crew.specs.Turning.{HeardRound};
ghost use Rattle.party_crew.specs.Taken.{OnePost, PostsTaken, OneRing, RingsTaken};

use crate::waits::await_mask;
use lists::{OutOfMemory, TryCopy};
use pairrings::End;
use roundboard::{Board, Pen};
use std::alloc::Global;
use std::sync::Wait;
use talk::{Heard, Post, PostList, Ring, RingList, Setting, as_read, in_mask, ring_as_read};

// The post of one seat, as read.
fn take_post<const S: usize, R: Wait>(
    rt: &R,
    alloc: Global,
    board: &Board<Post, S>,
    pen: &mut Pen<Post, S>,
    setting: &Setting,
    round: u32,
    mask: u32,
    seat: u32,
) -> Result<Post, OutOfMemory>
    requires pen { IsPen board.now pen.old }
    requires round { (1 ≤ round) × (round ≤ rounds_of board.now) }
    requires seat { (1 ≤ seat) × (seat ≤ S) × (S ≤ 30) }
    requires mask { mask_of pen.old round ≡ Some mask }
    ensures pen { IsPen board.now pen.new }
    ensures place { (place_of pen.new) ≡ (place_of pen.old) }
    ensures log { (log_of pen.new) ≡ (log_of pen.old) }
    ensures learns { OnlyLearns (cells_of pen.old) (cells_of pen.new) }
    ensures taken { IfOk result (λ p. (x : PostValue) × OnePost setting.now S round mask seat (cells_of pen.new) x p) }
{
    match board.wait_read(rt, pen, round, seat) {
        None => Ok(Post::Quiet),
        Some(post) => Ok(as_read(post.copy(alloc)?, round, seat, setting)),
    }
}

pub(crate) fn take_posts<const S: usize, R: Wait>(
    rt: &R,
    alloc: Global,
    board: &Board<Post, S>,
    pen: &mut Pen<Post, S>,
    setting: &Setting,
    round: u32,
    mask: u32,
) -> Result<PostList, OutOfMemory>
    requires pen { IsPen board.now pen.old }
    requires round { (1 ≤ round) × (round ≤ rounds_of board.now) }
    requires few { S ≤ 30 }
    requires mask { mask_of pen.old round ≡ Some mask }
    ensures pen { IsPen board.now pen.new }
    ensures place { (place_of pen.new) ≡ (place_of pen.old) }
    ensures log { (log_of pen.new) ≡ (log_of pen.old) }
    ensures learns { OnlyLearns (cells_of pen.old) (cells_of pen.new) }
    ensures taken { IfOk result
        (λ ps. (raw : List PostValue) × PostsTaken setting.now S round mask S (cells_of pen.new) raw ps) }
{
    let mut posts = PostList::new(alloc);
    for place in 0..S {
        let post = take_post(
            rt,
            alloc,
            board,
            pen,
            setting,
            round,
            mask,
            place as u32 + 1,
        )?;
        posts.push(post)?;
    }
    Ok(posts)
}

// The ring message of one seat, as read.
fn take_ring<const S: usize, R: Wait>(
    rt: &R,
    end: &mut End<Ring, S>,
    setting: &Setting,
    round: u32,
    mask: u32,
    me: u32,
    seat: u32,
) -> Ring
    requires seat { (1 ≤ seat) × (seat ≤ S) × (S ≤ 30) }
    ensures same { SameRings end.old end.new }
    ensures others { OnlyGot (seat - 1) end.old end.new }
    ensures taken { (raw : RingValue)
        × OneRing setting.now round mask me seat
        (got_from end.old (seat - 1)) (got_from end.new (seat - 1)) raw result }
{
    if seat == me || !in_mask(mask, seat) {
        return Ring::Nothing;
    }
    ring_as_read(end.wait_recv(rt, seat), round, seat, me, setting)
}

pub(crate) fn take_rings<const S: usize, R: Wait>(
    rt: &R,
    alloc: Global,
    end: &mut End<Ring, S>,
    setting: &Setting,
    round: u32,
    mask: u32,
    me: u32,
) -> Result<RingList, OutOfMemory>
    requires few { S ≤ 30 }
    ensures same { SameRings end.old end.new }
    ensures sent { (k : ℕ) → (sent_to end.new k ≡ sent_to end.old k) × (room_to end.new k ≡ room_to end.old k) }
    ensures taken { IfOk result
        (λ rs. (raw : List RingValue)
        × RingsTaken setting.now round mask me S (got_from end.old) (got_from end.new) raw rs) }
{
    let mut rings = RingList::new(alloc);
    for place in 0..S {
        let ring = take_ring(rt, end, setting, round, mask, me, place as u32 + 1);
        rings.push(ring)?;
    }
    Ok(rings)
}

/// Waits for the mask of the round and takes in what its seats say.
pub(crate) fn hear_round<const S: usize, R: Wait>(
    rt: &R,
    alloc: Global,
    board: &Board<Post, S>,
    setting: &Setting,
    pen: &mut Pen<Post, S>,
    end: &mut End<Ring, S>,
    me: u32,
    round: u32,
) -> Result<(u32, Heard), OutOfMemory>
    requires pen { IsPen board.now pen.old }
    requires round { (1 ≤ round) × (round ≤ rounds_of board.now) }
    requires me { (1 ≤ me) × (me ≤ S) × (S ≤ 30) }
    ensures pen { IsPen board.now pen.new }
    ensures place { (place_of pen.new) ≡ (place_of pen.old) }
    ensures grew { Grew (round - 1) (events pen.old) (events pen.new) }
    ensures no_arrivals { NoArrivals (events pen.old) (events pen.new) }
    ensures learns { OnlyLearns (cells_of pen.old) (cells_of pen.new) }
    ensures sent { (k : ℕ) → (sent_to end.new k ≡ sent_to end.old k) × (room_to end.new k ≡ room_to end.old k) }
    ensures same { SameRings end.old end.new }
    ensures heard { IfOk result
        (λ r. (t : Turn) × HeardRound setting.now S me round r.0 r.1 (events pen.new) (knows (cells_of pen.new))
        (got_from end.old) (got_from end.new) t) }
{
    let Some(mask) = await_mask(rt, board, pen, round) else {
        return Err(OutOfMemory);
    };
    let posts = take_posts(rt, alloc, board, pen, setting, round, mask)?;
    let rings = take_rings(rt, alloc, end, setting, round, mask, me)?;
    Ok((mask, Heard { posts, rings }))
}
