//! The views of a history.

ghost use Rattle.std.specs.Prelude.{◌≡◌, ℕ, ◌+◌, ◌<◌, ◌≤◌, ◌++◌, length, IfOk, OnOk};
ghost use Rattle.talk.specs.Sync.{has};
ghost use Rattle.choices61.specs.Views.{shares_at};
ghost use Rattle.playback.specs.Recorded.{play_of};
ghost use Rattle.playback.specs.Shares.{IsPlayed};
ghost use Rattle.viewshift.specs.Listed.{course_of, mask_at, phase_at};
ghost use Rattle.viewshift.specs.Walk.{IsAt};
ghost use Rattle.viewshift.specs.Through.{coeffs_in};
ghost use Rattle.viewshift.specs.Seen.{AreSeen, HasViews, shares_seen};

use crate::history::History;
use crate::phases::{play_at, shares_left};
use crate::polynomials::{polynomials_of, values_at};
use field61::{Fe, FeList};
use lists::{List, OutOfMemory, TryCopy};
use playback::Played;
use poly61::PolyList;
use std::alloc::Global;
use talk::{PostList, RingList, in_mask};

/// What is seen of a history.
#[derive(Drop)]
pub struct Views {
    /// The posts as they are read, by phase, round and seat.
    pub posts: PostList,
    /// The ring messages, as they are read, that the seats get which are down, by phase, round, receiver and sender.
    pub rings: RingList,
    /// The shares of exposed members, by period, index and lane. A member that lacks its own has the value of the period's
    /// polynomial.
    pub shares: FeList,
}

/// The views of a history. Each phase is played once. The error is want of memory.
pub fn views_of(alloc: Global, history: &History) -> Result<Views, OutOfMemory>
    ensures { IfOk result (HasViews (course_of history.now.phases history.now.exposed)) }
{
    let phases = history.phases();
    let mut views = Views {
        posts: PostList::new(alloc),
        rings: RingList::new(alloc),
        shares: FeList::new(alloc),
    };
    let mut shares = Vec::new(alloc);
    for place in 0..phases.len() {
        let played = play_at(alloc, phases, place)?;
        shares = shares_left(alloc, phases, place, &played, shares.as_slice())?;
        see_phase(
            alloc,
            &mut views,
            history,
            place,
            &played,
            shares.as_slice(),
        )?;
    }
    Ok(views)
}

// Puts what is seen of the phase at a place at the end of the views, where it leaves these shares.
fn see_phase(
    alloc: Global,
    views: &mut Views,
    history: &History,
    place: usize,
    played: &Played,
    shares: &[Option<[Fe; 5]>],
) -> Result<(), OutOfMemory>
    requires place { place < length history.now.phases }
    requires played { IsPlayed (play_of (phase_at history.now.phases place)) played.now }
    requires left { IsAt history.now.phases (place + 1) shares.now }
    requires before { AreSeen history.now.phases history.now.exposed place views.old }
    ensures { OnOk result (AreSeen history.now.phases history.now.exposed (place + 1) views.new) }
{
    push_all(alloc, &mut views.posts, &played.posts)?;
    push_all(alloc, &mut views.rings, &played.rings)?;
    let members = history.phases().at(place).setting.receivers();
    let mask = history.mask_after(place);
    let polynomials = polynomials_of(alloc, shares)?;
    push_exposed(&mut views.shares, members, mask, &polynomials)
}

// Puts items at the end of a list.
fn push_all<T: TryCopy + Drop>(
    alloc: Global,
    list: &mut List<T>,
    items: &List<T>,
) -> Result<(), OutOfMemory>
    ensures { OnOk result (list.new ≡ list.old ++ items.now) }
{
    for item in items.as_slice() {
        list.push(item.copy(alloc)?)?;
    }
    Ok(())
}

// Puts the values of the polynomials at the points of the exposed members at the end of a list, by member and lane.
fn push_exposed(
    list: &mut FeList,
    members: u32,
    mask: u32,
    polynomials: &PolyList,
) -> Result<(), OutOfMemory>
    requires members { members ≤ 15 }
    requires lanes { length polynomials.now ≡ 5 }
    ensures { OnOk result (list.new ≡ list.old ++ shares_seen members mask (coeffs_in polynomials.now)) }
{
    for member in 1..members + 1 {
        push_if_exposed(list, member, mask, polynomials)?;
    }
    Ok(())
}

// Puts the values at a member's point at the end of a list, lane by lane, where it is exposed.
fn push_if_exposed(
    list: &mut FeList,
    member: u32,
    mask: u32,
    polynomials: &PolyList,
) -> Result<(), OutOfMemory>
    requires member { (1 ≤ member) × (member ≤ 15) }
    requires lanes { length polynomials.now ≡ 5 }
    ensures { OnOk result (list.new ≡ list.old ++ shares_at (coeffs_in polynomials.now) (has mask) member) }
{
    if !in_mask(mask, member) {
        return Ok(());
    }
    let values = values_at(polynomials, Fe::reduce(u64::from(member)));
    for value in &values {
        list.push(*value)?;
    }
    Ok(())
}
