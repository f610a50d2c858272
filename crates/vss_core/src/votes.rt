//! A receiver's votes.

ghost use Rattle.std.specs.Prelude.{◌≡◌, ℕ, ◌+◌, ◌-◌, ◌<◌, ◌≤◌, Bool, List, [], length, IfOk, is_none, map};
ghost use Rattle.sharing61.specs.Count.{everyone};
ghost use Rattle.sharing61.specs.Rules.{Pair, fits, settled, told_same, votes_yes};
ghost use Rattle.talk.specs.Shape.{Shape, seats, instances};
ghost use Rattle.sizes.specs.Instances.{lane_of};
ghost use Rattle.plays.specs.Read.{shown_in};
ghost use Rattle.plays.specs.Said.{vote_list, places};
ghost use Rattle.plays.specs.Seat.{says_yes, heard_complaint, heard_shown, pair_at};
ghost use Rattle.vss_core.specs.States.{IsReceiver};
ghost use Rattle.vss_core.specs.Complaints.{settled_here};

use crate::complaints::ComplaintTables;
use crate::posts::{is_hidden, revealed_in};
use crate::{PairList, PolyPair};
use lists::OutOfMemory;
use sharing61::Crossing;
use sizes::Instance;
use std::alloc::Global;
use talk::{Post, PostList, Setting, VoteList};

// The votes on all instances.
pub(crate) fn votes_of(
    alloc: Global,
    setting: &Setting,
    me: u32,
    pairs: &PairList,
    third: &PostList,
    fourth: &PostList,
) -> Result<VoteList, OutOfMemory>
    requires receiver { IsReceiver setting.now me }
    requires pairs { length pairs.now ≡ instances setting.now }
    requires third { length third.now ≡ seats setting.now }
    requires fourth { length fourth.now ≡ seats setting.now }
    ensures { IfOk result
        (λ l. l ≡ vote_list (instances setting.now) (says_yes setting.now me pairs.now third.now fourth.now)) }
{
    let complaints = ComplaintTables::new(alloc, setting.instances(), third)?;
    let mut votes = VoteList::new(alloc);
    for i in 0..setting.instances() {
        votes.push(vote_on(
            alloc,
            setting,
            me,
            pairs.at(i as usize),
            &complaints,
            fourth,
            i,
        )?)?;
    }
    Ok(votes)
}

// The vote on an instance, of which `pair` is held: the receiver isn't revealed, all revealed pairs agree with its own,
// and all open complaints are settled.
fn vote_on(
    alloc: Global,
    setting: &Setting,
    me: u32,
    pair: &PolyPair,
    third: &ComplaintTables<'_>,
    fourth: &PostList,
    index: u32,
) -> Result<bool, OutOfMemory>
    requires receiver { IsReceiver setting.now me }
    requires third { length third.now ≡ seats setting.now }
    requires fourth { length fourth.now ≡ seats setting.now }
    requires instance { index < instances setting.now }
    ensures { IfOk result
        (λ b. b ≡ votes_yes setting.now.receivers (heard_complaint setting.now third.now index)
        (heard_shown fourth.now index) me pair.now) }
{
    let dealers = setting.dealers();
    let instance = Instance::of(index);
    prove!(instance.dealer <= dealers);
    let reveals = fourth.at((instance.dealer - 1) as usize);
    let vote = vote_by(alloc, setting, me, pair, third, reveals, index)?;
    Ok(vote)
}

// The same from what the dealer of the instance reveals.
fn vote_by(
    alloc: Global,
    setting: &Setting,
    me: u32,
    pair: &PolyPair,
    third: &ComplaintTables<'_>,
    reveals: &Post,
    index: u32,
) -> Result<bool, OutOfMemory>
    requires { length third.now ≡ seats setting.now }
    ensures { IfOk result
        (λ b. b ≡ votes_yes setting.now.receivers (heard_complaint setting.now third.now index)
        (λ j. shown_in (lane_of index) j reveals.now) me pair.now) }
{
    let lane = Instance::of(index).lane;
    let hidden = is_hidden(reveals, lane, me);
    let fit = all_fit(alloc, setting, me, pair, reveals, lane)?;
    let settled = all_settled(alloc, setting, third, reveals, index)?;
    Ok(hidden && (fit && settled))
}

// Whether each revealed pair of a lane agrees with the own.
fn all_fit(
    alloc: Global,
    setting: &Setting,
    me: u32,
    pair: &PolyPair,
    reveals: &Post,
    lane: u32,
) -> Result<bool, OutOfMemory>
    ensures { IfOk result
        (λ b. b ≡ everyone setting.now.receivers (λ k. fits me pair.now k (shown_in lane k reveals.now))) }
{
    let mut fit = true;
    for k in 1..setting.receivers() + 1 {
        let one = one_fits(alloc, me, pair, reveals, lane, k)?;
        fit = fit && one;
    }
    Ok(fit)
}

// Whether the revealed pair of a receiver, where there is one, agrees with the own.
fn one_fits(
    alloc: Global,
    me: u32,
    pair: &PolyPair,
    reveals: &Post,
    lane: u32,
    receiver: u32,
) -> Result<bool, OutOfMemory>
    ensures { IfOk result (λ b. b ≡ fits me pair.now receiver (shown_in lane receiver reveals.now)) }
{
    match revealed_in(alloc, reveals, lane, receiver)? {
        None => Ok(true),
        Some(theirs) => {
            let own = pair.at(receiver);
            let other = theirs.at(me);
            Ok(other.row == own.column && other.column == own.row)
        }
    }
}

// Whether every two receivers that complain of each other in an instance, and are not revealed, tell the same.
fn all_settled(
    alloc: Global,
    setting: &Setting,
    third: &ComplaintTables<'_>,
    reveals: &Post,
    index: u32,
) -> Result<bool, OutOfMemory>
    requires { length third.now ≡ seats setting.now }
    ensures { IfOk result
        (λ b. b ≡ everyone setting.now.receivers
        (λ k. everyone setting.now.receivers
        (λ l. settled (shown_in (lane_of index) k reveals.now) (shown_in (lane_of index) l reveals.now)
        (heard_complaint setting.now third.now index k l) (heard_complaint setting.now third.now index l k)))) }
{
    let hidden = all_hidden(alloc, setting, reveals, Instance::of(index).lane)?;
    Ok(each_two_settled(setting, third, hidden.as_slice(), index))
}

// Which receivers are not revealed in a lane: those by their index less 1.
fn all_hidden(
    alloc: Global,
    setting: &Setting,
    reveals: &Post,
    lane: u32,
) -> Result<Vec<bool>, OutOfMemory>
    ensures { IfOk result
        (λ l. l.items ≡ map (λ k. is_none (shown_in lane (k + 1) reveals.now)) (places setting.now.receivers)) }
{
    let mut hidden = Vec::new(alloc);
    for k in 0..setting.receivers() {
        hidden.push(is_hidden(reveals, lane, k + 1))?;
    }
    Ok(hidden)
}

// Whether all are settled, where `hidden` says which receivers are not revealed. Each two are looked at once.
fn each_two_settled(
    setting: &Setting,
    third: &ComplaintTables<'_>,
    hidden: &[bool],
    instance: u32,
) -> bool
    requires posts { length third.now ≡ seats setting.now }
    requires hidden { length hidden.now ≡ setting.now.receivers }
    ensures { result ≡ everyone setting.now.receivers
        (λ k. everyone k (settled_here setting.now third.now hidden.now instance k)) }
{
    let mut settled = true;
    for k in 1..setting.receivers() + 1 {
        settled = settled && settled_up_to(setting, third, hidden, instance, k);
    }
    settled
}

// The same for one receiver and those up to it.
fn settled_up_to(
    setting: &Setting,
    third: &ComplaintTables<'_>,
    hidden: &[bool],
    instance: u32,
    receiver: u32,
) -> bool
    requires posts { length third.now ≡ seats setting.now }
    requires hidden { length hidden.now ≡ setting.now.receivers }
    requires receiver { IsReceiver setting.now receiver }
    ensures { result ≡ everyone receiver (settled_here setting.now third.now hidden.now instance receiver) }
{
    let receivers = setting.receivers();
    prove!(receiver <= receivers);
    let mut settled = true;
    for l in 1..receiver + 1 {
        settled = settled && is_settled(setting, third, hidden, instance, receiver, l);
    }
    settled
}

// The same for two receivers.
fn is_settled(
    setting: &Setting,
    third: &ComplaintTables<'_>,
    hidden: &[bool],
    instance: u32,
    receiver: u32,
    against: u32,
) -> bool
    requires posts { length third.now ≡ seats setting.now }
    requires hidden { length hidden.now ≡ setting.now.receivers }
    requires first { IsReceiver setting.now receiver }
    requires second { IsReceiver setting.now against }
    ensures { result ≡ settled_here setting.now third.now hidden.now instance receiver against }
{
    if !hidden[(receiver - 1) as usize] || !hidden[(against - 1) as usize] {
        return true;
    }
    let one = third.complaint(setting.seat_of(receiver), instance, against);
    let other = third.complaint(setting.seat_of(against), instance, receiver);
    tell_the_same(one, other)
}

// Whether two complaints, where both are there, tell the same values, swapped.
fn tell_the_same(one: Option<Crossing>, other: Option<Crossing>) -> bool
    ensures { result ≡ told_same one other }
{
    match (one, other) {
        (Some(one), Some(other)) => one.row == other.column && one.column == other.row,
        _ => true,
    }
}
