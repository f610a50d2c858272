//! What a drilled seat says in place of a word.

ghost use Rattle.std.specs.Prelude.{◌≡◌, ℕ, ◌+◌, ◌*◌, ◌-◌, ◌<◌, ◌≤◌, [], ◌++◌, map, false, IfOk, OnOk, Some, eqb, cond};
ghost use Rattle.std.specs.List.{flat_map};
ghost use Rattle.talk.specs.Basics.{places};
ghost use Rattle.talk.specs.Shape.{seats, instances};
ghost use Rattle.talk.specs.Sync.{ring_in};
ghost use Rattle.drillbook.specs.Orders.{AllLawful, NamesReceiver};
ghost use Rattle.drillbook.specs.Word.{accused, accused_row, added_each, complaints_of, drilled_word, garbled_rings, is_on, late_word, lie_in, lowest_other, reworded, ring_changed, skewed_cross, skewed_deal, skewed_post, skewed_reveal, skewed_reveals, skewed_rings, skewed_row, skewed_values, ordered_post, ordered_rings, ordered_word, vetoed};

use crate::side::Side;
use crate::{Drill, Verb};
use field61::{Fe, FeList};
use lists::{OutOfMemory, TryCopy};
use std::alloc::Global;
use talk::{
    Complaint, ComplaintList, Post, Reveal, RevealList, Ring, RingList, Say, Setting, VoteList,
};

// What a seat says under a drill in place of a word. `second` is the seat's own word of the second round.
#[tactic(auto, using(crate::proofs::Ordered::names_receiver), unfolding(crate::specs::Word::drilled_word))]
pub(crate) fn drilled(
    alloc: Global,
    setting: &Setting,
    drill: &Drill,
    seat: u32,
    round: u32,
    second: &Say,
    word: Say,
) -> Result<Say, OutOfMemory>
    requires { AllLawful setting.now drill.now }
    ensures { IfOk result (λ w. w ≡ drilled_word setting.now drill.now seat round second.now word) }
{
    match drill.order_at(seat, round) {
        None => Ok(word),
        Some(verb) => ordered(alloc, setting, seat, round, second, verb, word),
    }
}

// What it says by a verb.
fn ordered(
    alloc: Global,
    setting: &Setting,
    seat: u32,
    round: u32,
    second: &Say,
    verb: Verb,
    word: Say,
) -> Result<Say, OutOfMemory>
    requires { NamesReceiver setting.now verb }
    ensures { IfOk result (λ w. w ≡ ordered_word setting.now seat round second.now (Some verb) word) }
{
    match verb {
        Verb::Silent => Ok(Say::Pass),
        Verb::Late => Ok(late(word)),
        Verb::Wrong { .. } => Ok(word),
        Verb::Garble | Verb::Skew { .. } | Verb::Accuse { .. } | Verb::Veto => {
            reworded(alloc, setting, seat, round, second, verb, word)
        }
    }
}

// The word, said after passing.
fn late(word: Say) -> Say
    ensures { result ≡ late_word word }
{
    match word {
        Say::Speak { post, rings } => Say::PassThenSpeak { post, rings },
        other => other,
    }
}

// The word with its post and its ring messages as a verb changes them.
fn reworded(
    alloc: Global,
    setting: &Setting,
    seat: u32,
    round: u32,
    second: &Say,
    verb: Verb,
    word: Say,
) -> Result<Say, OutOfMemory>
    requires { NamesReceiver setting.now verb }
    ensures { IfOk result (λ w. w ≡ reworded setting.now seat round second.now verb word) }
{
    match word {
        Say::Pass => Ok(Say::Pass),
        Say::Speak { post, rings } => Ok(Say::Speak {
            post: ordered_post(alloc, setting, round, second, verb, post)?,
            rings: ordered_rings(alloc, setting, seat, round, verb, rings)?,
        }),
        Say::PassThenSpeak { post, rings } => Ok(Say::PassThenSpeak {
            post: ordered_post(alloc, setting, round, second, verb, post)?,
            rings: ordered_rings(alloc, setting, seat, round, verb, rings)?,
        }),
    }
}

// What a verb makes of a post.
fn ordered_post(
    alloc: Global,
    setting: &Setting,
    round: u32,
    second: &Say,
    verb: Verb,
    post: Post,
) -> Result<Post, OutOfMemory>
    requires { NamesReceiver setting.now verb }
    ensures { IfOk result (λ p. p ≡ ordered_post setting.now round second.now verb post) }
{
    match verb {
        Verb::Garble => Ok(Post::Votes {
            list: VoteList::new(alloc),
        }),
        Verb::Skew { by } => skewed_post(alloc, round, by, post),
        Verb::Accuse { receiver } => accused_by(alloc, setting, receiver, second, post),
        Verb::Veto => vetoed(alloc, post),
        Verb::Silent | Verb::Late | Verb::Wrong { .. } => Ok(post),
    }
}

// What a verb makes of the ring messages.
fn ordered_rings(
    alloc: Global,
    setting: &Setting,
    seat: u32,
    round: u32,
    verb: Verb,
    rings: RingList,
) -> Result<RingList, OutOfMemory>
    ensures { IfOk result (λ l. l ≡ ordered_rings setting.now seat round verb rings) }
{
    match verb {
        Verb::Garble => garbled_rings(alloc, setting.seats(), seat),
        Verb::Skew { by } => skewed_rings(alloc, setting, seat, round, by, rings),
        _ => Ok(rings),
    }
}

// An empty message of crossing points for each seat but the own.
fn garbled_rings(alloc: Global, count: u32, seat: u32) -> Result<RingList, OutOfMemory>
    ensures { IfOk result (λ l. l ≡ garbled_rings count seat) }
{
    let own = seat.saturating_sub(1);
    let mut rings = RingList::new(alloc);
    for place in 0..count {
        rings.push(garbled_ring(alloc, place, own))?;
    }
    Ok(rings)
}

// Nothing for the own place, and an empty message for any other.
fn garbled_ring(alloc: Global, place: u32, own: u32) -> Ring
    ensures { result ≡ cond (eqb place own) Ring.Nothing (Ring.Cross []) }
{
    if place == own {
        Ring::Nothing
    } else {
        Ring::Cross {
            list: FeList::new(alloc),
        }
    }
}

// What skew makes of the ring messages.
fn skewed_rings(
    alloc: Global,
    setting: &Setting,
    seat: u32,
    round: u32,
    by: Fe,
    rings: RingList,
) -> Result<RingList, OutOfMemory>
    ensures { IfOk result (λ l. l ≡ skewed_rings setting.now seat round by rings) }
{
    let to = lowest_other(setting, seat);
    match round {
        1 => deal_skewed(alloc, setting.degree(), to, by, rings),
        2 => cross_skewed(alloc, to, by, rings),
        _ => Ok(rings),
    }
}

// The seat of the lowest receiver on another seat.
fn lowest_other(setting: &Setting, seat: u32) -> u32
    ensures is { result ≡ lowest_other setting.now seat }
    ensures small { (1 ≤ result) × (result ≤ 30) }
{
    let first = setting.shift() + 1;
    if first == seat { first + 1 } else { first }
}

// The ring messages with `by` added to the constants of the rows that are dealt to a seat.
fn deal_skewed(
    alloc: Global,
    degree: u32,
    to: u32,
    by: Fe,
    rings: RingList,
) -> Result<RingList, OutOfMemory>
    requires few { degree ≤ 4 }
    requires seat { 1 ≤ to }
    ensures { IfOk result (λ l. l ≡ ring_changed to (skewed_deal degree by) rings) }
{
    let place = to as usize - 1;
    let mut items = rings.into_vec();
    if place < items.len() {
        let ring = skewed_deal(alloc, degree, by, &items[place])?;
        items[place] = ring;
    }
    Ok(RingList::from_vec(items))
}

// The ring messages with `by` added to the first value of each pair for a seat.
fn cross_skewed(alloc: Global, to: u32, by: Fe, rings: RingList) -> Result<RingList, OutOfMemory>
    requires { 1 ≤ to }
    ensures { IfOk result (λ l. l ≡ ring_changed to (skewed_cross by) rings) }
{
    let place = to as usize - 1;
    let mut items = rings.into_vec();
    if place < items.len() {
        let ring = skewed_cross(alloc, by, &items[place])?;
        items[place] = ring;
    }
    Ok(RingList::from_vec(items))
}

// A dealer's message with `by` added to the constant of each lane's row.
fn skewed_deal(alloc: Global, degree: u32, by: Fe, ring: &Ring) -> Result<Ring, OutOfMemory>
    requires { degree ≤ 4 }
    ensures { IfOk result (λ r. r ≡ skewed_deal degree by ring.now) }
{
    match ring {
        Ring::Dealt { list } => {
            let step = 2 * (degree as usize + 1);
            Ok(Ring::Dealt {
                list: added_each(alloc, step, by, list.as_slice())?,
            })
        }
        _ => ring.copy(alloc),
    }
}

// Crossing points with `by` added to the first of each pair.
fn skewed_cross(alloc: Global, by: Fe, ring: &Ring) -> Result<Ring, OutOfMemory>
    ensures { IfOk result (λ r. r ≡ skewed_cross by ring.now) }
{
    match ring {
        Ring::Cross { list } => Ok(Ring::Cross {
            list: added_each(alloc, 2, by, list.as_slice())?,
        }),
        _ => ring.copy(alloc),
    }
}

// The elements with `by` added to the first of each `step`.
fn added_each(alloc: Global, step: usize, by: Fe, list: &[Fe]) -> Result<FeList, OutOfMemory>
    requires { 0 < step }
    ensures { IfOk result (λ l. l ≡ added_each step by list.now) }
{
    let mut added = FeList::new(alloc);
    for (place, x) in list.iter().enumerate() {
        added.push(if place % step == 0 { x.add(by) } else { *x })?;
    }
    Ok(added)
}

// What skew makes of a post.
fn skewed_post(alloc: Global, round: u32, by: Fe, post: Post) -> Result<Post, OutOfMemory>
    ensures { IfOk result (λ p. p ≡ skewed_post round by post) }
{
    match round {
        4 => skewed_reveals(alloc, by, post),
        6 => skewed_values(alloc, by, post),
        _ => Ok(post),
    }
}

// Reveals with `by` added to the constant of each row.
fn skewed_reveals(alloc: Global, by: Fe, post: Post) -> Result<Post, OutOfMemory>
    ensures { IfOk result (λ p. p ≡ skewed_reveals by post) }
{
    match post {
        Post::Reveals { list } => Ok(Post::Reveals {
            list: reveals_skewed(alloc, by, list.as_slice())?,
        }),
        other => Ok(other),
    }
}

// Each reveal, with `by` added to the constant of its row.
fn reveals_skewed(alloc: Global, by: Fe, list: &[Reveal]) -> Result<RevealList, OutOfMemory>
    ensures { IfOk result (λ l. l ≡ map (skewed_reveal by) list.now) }
{
    let mut skewed = RevealList::new(alloc);
    for reveal in list {
        skewed.push(skewed_reveal(alloc, by, reveal)?)?;
    }
    Ok(skewed)
}

// A reveal with `by` added to the constant of its row.
fn skewed_reveal(alloc: Global, by: Fe, reveal: &Reveal) -> Result<Reveal, OutOfMemory>
    ensures { IfOk result (λ r. r ≡ skewed_reveal by reveal.now) }
{
    Ok(Reveal {
        lane: reveal.lane,
        receiver: reveal.receiver,
        row: skewed_row(alloc, by, reveal.row.as_slice())?,
        column: reveal.column.copy(alloc)?,
    })
}

// A row with `by` added to its constant.
fn skewed_row(alloc: Global, by: Fe, row: &[Fe]) -> Result<FeList, OutOfMemory>
    ensures { IfOk result (λ l. l ≡ skewed_row by row.now) }
{
    let mut skewed = FeList::new(alloc);
    for (place, x) in row.iter().enumerate() {
        skewed.push(if place == 0 { x.add(by) } else { *x })?;
    }
    Ok(skewed)
}

// Shares of syndromes with `by` added to each.
#[tactic(auto, using(crate::proofs::Lists::added_to_each))]
fn skewed_values(alloc: Global, by: Fe, post: Post) -> Result<Post, OutOfMemory>
    ensures { IfOk result (λ p. p ≡ skewed_values by post) }
{
    match post {
        Post::Syndromes { list } => Ok(Post::Syndromes {
            list: added_each(alloc, 1, by, list.as_slice())?,
        }),
        other => Ok(other),
    }
}

// Votes, each of them no.
fn vetoed(alloc: Global, post: Post) -> Result<Post, OutOfMemory>
    ensures { IfOk result (λ p. p ≡ vetoed post) }
{
    match post {
        Post::Votes { list } => Ok(Post::Votes {
            list: all_no(alloc, list.as_slice())?,
        }),
        other => Ok(other),
    }
}

// As many votes, each of them no.
fn all_no(alloc: Global, votes: &[bool]) -> Result<VoteList, OutOfMemory>
    ensures { IfOk result (λ l. l ≡ map (λ _. false) votes.now) }
{
    let mut list = VoteList::new(alloc);
    for vote in votes {
        let _vote = *vote;
        list.push(false)?;
    }
    Ok(list)
}

// A post with a false complaint against a receiver in every instance.
fn accused_by(
    alloc: Global,
    setting: &Setting,
    receiver: u32,
    second: &Say,
    post: Post,
) -> Result<Post, OutOfMemory>
    requires { (1 ≤ receiver) × (receiver ≤ setting.now.receivers) }
    ensures { IfOk result
        (λ p. p ≡ accused (instances setting.now) receiver (ring_in (setting.now.shift + receiver) second.now) post) }
{
    match post {
        Post::Complaints { list } => {
            let crossing = second.sent(alloc, setting.seat_of(receiver))?;
            Ok(Post::Complaints {
                list: accused_list(
                    alloc,
                    setting.instances(),
                    receiver,
                    &crossing,
                    list.as_slice(),
                )?,
            })
        }
        other => Ok(other),
    }
}

// The complaints of all instances.
fn accused_list(
    alloc: Global,
    instances: u32,
    receiver: u32,
    crossing: &Ring,
    own: &[Complaint],
) -> Result<ComplaintList, OutOfMemory>
    ensures { IfOk result (λ l. l ≡ flat_map (accused_row receiver crossing.now own.now) (places instances)) }
{
    let mut list = ComplaintList::new(alloc);
    for instance in 0..instances {
        push_row(&mut list, instance, receiver, crossing, own)?;
    }
    Ok(list)
}

// Adds the complaints of an instance.
fn push_row(
    list: &mut ComplaintList,
    instance: u32,
    receiver: u32,
    crossing: &Ring,
    own: &[Complaint],
) -> Result<(), OutOfMemory>
    ensures { OnOk result (list.new ≡ list.old ++ accused_row receiver crossing.now own.now instance) }
{
    push_side(list, instance, receiver, Side::Below, own)?;
    match lie_in(instance, receiver, crossing) {
        Some(complaint) => list.push(complaint)?,
        None => push_side(list, instance, receiver, Side::At, own)?,
    }
    push_side(list, instance, receiver, Side::Above, own)
}

// Adds the complaints of an instance against the receivers on one side of a receiver.
fn push_side(
    list: &mut ComplaintList,
    instance: u32,
    receiver: u32,
    side: Side,
    own: &[Complaint],
) -> Result<(), OutOfMemory>
    ensures { OnOk result (list.new ≡ list.old ++ complaints_of instance receiver side own.now) }
{
    for complaint in own {
        if complaint.instance == instance && is_on(side, receiver, complaint.against) {
            list.push(*complaint)?;
        }
    }
    Ok(())
}

// Whether a receiver is on one side of another.
fn is_on(side: Side, receiver: u32, other: u32) -> bool
    ensures { result ≡ is_on side receiver other }
{
    match side {
        Side::Below => other < receiver,
        Side::At => other == receiver,
        Side::Above => receiver < other,
    }
}

// The false complaint of an instance: its `u` is one greater than the first value for the receiver, and its `v`
// the second.
fn lie_in(instance: u32, receiver: u32, crossing: &Ring) -> Option<Complaint>
    ensures { result ≡ lie_in instance receiver crossing.now }
{
    let Ring::Cross { list } = crossing else {
        return None;
    };
    let first = 2 * instance as usize;
    if list.len() <= first + 1 {
        return None;
    }
    Some(Complaint {
        instance,
        against: receiver,
        u: list.at(first).add(Fe::ONE),
        v: *list.at(first + 1),
    })
}
