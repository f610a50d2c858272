//! The right shapes of messages, and what a message is read as.

ghost use Rattle.std.specs.Prelude.{◌≡◌, ℕ, ◌+◌, ◌&&◌, length};
ghost use Rattle.talk.specs.Read.{comes_before, as_read, complaint_in, complaints_ok, post_ok, reveal_in, reveals_ok, ring_as_read, ring_ok};

use crate::{Complaint, Post, Reveal, Ring, Setting};
use sizes::LANES;

/// Whether a seat's post has its shape in a round. Quiet has it in every round. Each other kind has a round
/// of its own and a side that posts it, dealers or receivers. Complaints ascend strictly by instance and
/// then by the receiver complained of, and reveals by lane and then by receiver, each number in its range;
/// a revealed row and column have one element more than the degree, votes one value for each instance, and
/// syndromes one element for each lane and place.
pub fn shape_ok(post: &Post, round: u32, seat: u32, setting: &Setting) -> bool
    ensures { result ≡ post_ok setting.now round seat post.now }
{
    match post {
        Post::Quiet => true,
        Post::Complaints { list } => {
            round == 3 && setting.receives(seat) && complaints_fit(list.as_slice(), setting)
        }
        Post::Reveals { list } => round == 4
            && setting.deals(seat)
            && reveals_fit(list.as_slice(), setting),
        Post::Votes { list } => {
            round == 5 && setting.receives(seat) && list.len() == setting.instances() as usize
        }
        Post::Syndromes { list } => {
            round == 6
                && setting.receives(seat)
                && list.len() == (LANES * setting.checks()) as usize
        }
    }
}

/// Whether a ring message from one seat to another has its shape in a round. Nothing has it in every round.
/// A dealer deals in the first round, and a receiver sends crossing points in the second, each to receivers
/// on other seats; the lengths follow from the degree and from the number of instances.
pub fn ring_ok(item: &Ring, round: u32, sender: u32, to: u32, setting: &Setting) -> bool
    ensures { result ≡ ring_ok setting.now round sender to item.now }
{
    match item {
        Ring::Nothing => true,
        Ring::Dealt { list } => {
            round == 1
                && setting.deals(sender)
                && setting.receives(to)
                && sender != to
                && list.len() == (2 * LANES * (setting.degree() + 1)) as usize
        }
        Ring::Cross { list } => {
            round == 2
                && setting.receives(sender)
                && setting.receives(to)
                && sender != to
                && list.len() == 2 * setting.instances() as usize
        }
    }
}

/// What a seat's post is read as: itself where its shape is right, else Quiet.
pub fn as_read(post: Post, round: u32, seat: u32, setting: &Setting) -> Post
    ensures { result ≡ as_read setting.now round seat post }
{
    if shape_ok(&post, round, seat, setting) {
        post
    } else {
        Post::Quiet
    }
}

/// What a ring message is read as: itself where its shape is right, else Nothing.
pub fn ring_as_read(item: Ring, round: u32, sender: u32, to: u32, setting: &Setting) -> Ring
    ensures { result ≡ ring_as_read setting.now round sender to item }
{
    if ring_ok(&item, round, sender, to, setting) {
        item
    } else {
        Ring::Nothing
    }
}

// Whether complaints ascend strictly, each in its range.
#[tactic(auto, using(crate::proofs::Ascending::complaints_are))]
fn complaints_fit(list: &[Complaint], setting: &Setting) -> bool
    ensures { result ≡ complaints_ok setting.now list.now }
{
    let mut instance = 0;
    let mut against = 0;
    for complaint in list {
        if !complaint_next(complaint, instance, against, setting) {
            return false;
        }
        instance = complaint.instance;
        against = complaint.against;
    }
    true
}

// Whether a complaint is in its range and comes after an instance and a receiver.
fn complaint_next(complaint: &Complaint, instance: u32, against: u32, setting: &Setting) -> bool
    ensures { result
        ≡ (comes_before instance against complaint.now.instance complaint.now.against
        && complaint_in setting.now complaint.now) }
{
    comes_before(instance, against, complaint.instance, complaint.against)
        && complaint.instance < setting.instances()
        && 1 <= complaint.against
        && complaint.against <= setting.receivers()
}

// Whether reveals ascend strictly, each of its shape.
#[tactic(auto, using(crate::proofs::Ascending::reveals_are))]
fn reveals_fit(list: &[Reveal], setting: &Setting) -> bool
    ensures { result ≡ reveals_ok setting.now list.now }
{
    let mut lane = 0;
    let mut receiver = 0;
    for reveal in list {
        if !reveal_next(reveal, lane, receiver, setting) {
            return false;
        }
        lane = reveal.lane;
        receiver = reveal.receiver;
    }
    true
}

// Whether a reveal has its shape and comes after a lane and a receiver.
fn reveal_next(reveal: &Reveal, lane: u32, receiver: u32, setting: &Setting) -> bool
    ensures { result
        ≡ (comes_before lane receiver reveal.now.lane reveal.now.receiver && reveal_in setting.now reveal.now) }
{
    comes_before(lane, receiver, reveal.lane, reveal.receiver)
        && reveal.lane < LANES
        && 1 <= reveal.receiver
        && reveal.receiver <= setting.receivers()
        && reveal.row.len() == setting.degree() as usize + 1
        && reveal.column.len() == setting.degree() as usize + 1
}

// Whether a pair of numbers comes before another.
fn comes_before(first: u32, second: u32, next_first: u32, next_second: u32) -> bool
    ensures { result ≡ comes_before first second next_first next_second }
{
    first < next_first || (first == next_first && second < next_second)
}
