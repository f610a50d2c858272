//! What a message tells of one instance, lane or receiver.

ghost use Rattle.std.specs.Prelude.{◌≡◌, ℕ, ◌+◌, ◌*◌, ◌<◌, ◌≤◌, Bool, List, length, IfOk, is_none, Option};
ghost use Rattle.plays.specs.Read.{crossed_in, complaint_at, listed_in, reveal_at, shown_in, voted_in};
ghost use Rattle.vss_core.specs.States.{CrossLong};

use crate::PolyPair;
use lists::OutOfMemory;
use poly61::Poly;
use sharing61::Crossing;
use std::alloc::Global;
use talk::{Complaint, ComplaintList, Post, Reveal, RevealList, Ring};

// The crossing pair of an instance in a message of the second round.
pub(crate) fn crossing(ring: &Ring, instances: u32, instance: u32) -> Option<Crossing>
    requires long { CrossLong instances ring.now }
    requires instance { instance < instances }
    requires few { instances ≤ 75 }
    ensures { result ≡ crossed_in instance ring.now }
{
    match ring {
        Ring::Cross { list } => {
            let at = 2 * instance as usize;
            Some(Crossing {
                row: *list.at(at),
                column: *list.at(at + 1),
            })
        }
        Ring::Nothing | Ring::Dealt { .. } => None,
    }
}

// The two values that a complaint tells.
pub(crate) fn told_by(complaint: &Complaint) -> Crossing
    ensures { result ≡ record { row = complaint.now.u; column = complaint.now.v } }
{
    Crossing {
        row: complaint.u,
        column: complaint.v,
    }
}

// The complaint of an instance against a receiver in a post.
pub(crate) fn complaint_in(post: &Post, instance: u32, against: u32) -> Option<Crossing>
    ensures { result ≡ listed_in instance against post.now }
{
    match post {
        Post::Complaints { list } => complaint_at(list, instance, against),
        _ => None,
    }
}

// The first complaint of an instance against a receiver.
fn complaint_at(list: &ComplaintList, instance: u32, against: u32) -> Option<Crossing>
    ensures { result ≡ complaint_at instance against list.now }
{
    for complaint in list.as_slice() {
        if complaint.instance == instance && complaint.against == against {
            return Some(told_by(complaint));
        }
    }
    None
}

// The revealed pair of a lane and receiver in a post.
pub(crate) fn revealed_in(
    alloc: Global,
    post: &Post,
    lane: u32,
    receiver: u32,
) -> Result<Option<PolyPair>, OutOfMemory>
    ensures { IfOk result (λ o. o ≡ shown_in lane receiver post.now) }
{
    match post {
        Post::Reveals { list } => reveal_at(alloc, list, lane, receiver),
        _ => Ok(None),
    }
}

// The first revealed pair of a lane and receiver.
fn reveal_at(
    alloc: Global,
    list: &RevealList,
    lane: u32,
    receiver: u32,
) -> Result<Option<PolyPair>, OutOfMemory>
    ensures { IfOk result (λ o. o ≡ reveal_at lane receiver list.now) }
{
    for reveal in list.as_slice() {
        if reveal.lane == lane && reveal.receiver == receiver {
            return Ok(Some(PolyPair::new(
                Poly::from_coeffs(alloc, reveal.row.as_slice())?,
                Poly::from_coeffs(alloc, reveal.column.as_slice())?,
            )));
        }
    }
    Ok(None)
}

// Whether a post reveals no pair of a lane and receiver.
pub(crate) fn is_hidden(post: &Post, lane: u32, receiver: u32) -> bool
    ensures { result ≡ is_none (shown_in lane receiver post.now) }
{
    match post {
        Post::Reveals { list } => is_absent(list, lane, receiver),
        _ => true,
    }
}

// Whether no reveal of a lane and receiver is there.
fn is_absent(list: &RevealList, lane: u32, receiver: u32) -> bool
    ensures { result ≡ is_none (reveal_at lane receiver list.now) }
{
    for reveal in list.as_slice() {
        if reveal.lane == lane && reveal.receiver == receiver {
            return false;
        }
    }
    true
}

// The vote on an instance in a post.
pub(crate) fn voted_in(post: &Post, instance: u32) -> bool
    ensures { result ≡ voted_in instance post.now }
{
    match post {
        Post::Votes { list } => (instance as usize) < list.len() && *list.at(instance as usize),
        _ => false,
    }
}
