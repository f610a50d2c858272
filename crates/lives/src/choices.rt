//! Tests of other choices, on worked values.

use bivar61::{Grid, GridList};
use field61::Fe;
use lists::OutOfMemory;
use std::alloc::Global;
use talk::{Complaint, Post, Reveal, Ring, Setting};
use viewshift::{
    History, HistoryFault, Phase, PhaseKind, PhaseList, SaidList, Views, key_of, other_choices,
    views_of,
};

// ---- histories

// The grid constant + slope * y + 5 * x + 11 * x * y, or the constant alone where the degree is 0.
fn grid(alloc: Global, degree: u32, constant: u64, slope: u64) -> Result<Grid, OutOfMemory> {
    let first = Fe::reduce(constant);
    if degree == 0 {
        return Grid::from_elements(alloc, 0, &[first]);
    }
    let elements = [first, Fe::reduce(slope), Fe::reduce(5), Fe::reduce(11)];
    Grid::from_elements(alloc, 1, &elements)
}

// The grids of dealers, each with this constant and slope in the first lane, and 0 in the others.
fn grids(alloc: Global, degree: u32, dealers: &[(u64, u64)]) -> Result<GridList, OutOfMemory> {
    let mut list = GridList::new(alloc);
    for (constant, slope) in dealers {
        list.push(grid(alloc, degree, *constant, *slope)?)?;
        for _ in 0..4 {
            list.push(grid(alloc, degree, 0, 0)?)?;
        }
    }
    Ok(list)
}

// A create of four members, in which nobody is down: the first lane has 7 + 3 * x.
fn create(alloc: Global) -> Result<Phase, OutOfMemory> {
    Ok(Phase {
        kind: PhaseKind::Create,
        setting: Setting::create(4, 1),
        down: 0,
        grids: grids(alloc, 1, &[(7, 3), (0, 0), (0, 0), (0, 0)])?,
        said: SaidList::new(alloc),
    })
}

// Their refresh, in which the second is down: the shares become 7 + 7 * x.
fn refresh(alloc: Global) -> Result<Phase, OutOfMemory> {
    Ok(Phase {
        kind: PhaseKind::Refresh,
        setting: Setting::refresh(4, 1),
        down: 2,
        grids: grids(alloc, 0, &[(4, 0), (0, 0), (0, 0)])?,
        said: SaidList::new(alloc),
    })
}

// Their move to five members, in which the second old and the third new one are down.
fn moving(alloc: Global) -> Result<Phase, OutOfMemory> {
    Ok(Phase {
        kind: PhaseKind::Move,
        setting: Setting::moving(4, 1, 5, 1),
        down: 66,
        grids: grids(alloc, 1, &[(14, 1), (28, 2), (35, 3)])?,
        said: SaidList::new(alloc),
    })
}

// The refresh of the five, in which the third is down.
fn last_refresh(alloc: Global) -> Result<Phase, OutOfMemory> {
    Ok(Phase {
        kind: PhaseKind::Refresh,
        setting: Setting::refresh(5, 1),
        down: 4,
        grids: grids(alloc, 0, &[(9, 0), (0, 0), (1, 0), (0, 0)])?,
        said: SaidList::new(alloc),
    })
}

// The create alone.
fn birth(alloc: Global) -> Result<PhaseList, OutOfMemory> {
    let mut list = PhaseList::new(alloc);
    list.push(create(alloc)?)?;
    Ok(list)
}

// The create and the refresh.
fn youth(alloc: Global) -> Result<PhaseList, OutOfMemory> {
    let mut list = birth(alloc)?;
    list.push(refresh(alloc)?)?;
    Ok(list)
}

// All four phases.
fn life(alloc: Global) -> Result<PhaseList, OutOfMemory> {
    let mut list = youth(alloc)?;
    list.push(moving(alloc)?)?;
    list.push(last_refresh(alloc)?)?;
    Ok(list)
}

// Masks in a row.
fn copied(alloc: Global, masks: &[u32]) -> Result<Vec<u32>, OutOfMemory> {
    let mut list = Vec::new(alloc);
    list.extend_from_slice(masks)?;
    Ok(list)
}

// The history of at most four phases, with these masks.
fn history_of(alloc: Global, phases: PhaseList, masks: &[u32]) -> Result<History, HistoryFault> {
    let exposed = copied(alloc, masks)?;
    if phases.len() > 4 {
        return Err(HistoryFault::OutOfMemory);
    }
    if exposed.len() > 4 {
        return Err(HistoryFault::OutOfMemory);
    }
    History::new(alloc, phases, exposed)
}

// ---- a history as numbers

fn push_elements(list: &mut Vec<u64>, elements: &[Fe]) -> Result<(), OutOfMemory> {
    list.push(elements.len() as u64)?;
    for element in elements {
        list.push(element.get())?;
    }
    Ok(())
}

fn push_complaint(list: &mut Vec<u64>, complaint: &Complaint) -> Result<(), OutOfMemory> {
    list.push(u64::from(complaint.instance))?;
    list.push(u64::from(complaint.against))?;
    push_elements(list, &[complaint.u, complaint.v])
}

fn push_reveal(list: &mut Vec<u64>, reveal: &Reveal) -> Result<(), OutOfMemory> {
    list.push(u64::from(reveal.lane))?;
    list.push(u64::from(reveal.receiver))?;
    push_elements(list, reveal.row.as_slice())?;
    push_elements(list, reveal.column.as_slice())
}

fn push_complaints(list: &mut Vec<u64>, complaints: &[Complaint]) -> Result<(), OutOfMemory> {
    list.push(complaints.len() as u64)?;
    for complaint in complaints {
        push_complaint(list, complaint)?;
    }
    Ok(())
}

fn push_reveals(list: &mut Vec<u64>, reveals: &[Reveal]) -> Result<(), OutOfMemory> {
    list.push(reveals.len() as u64)?;
    for reveal in reveals {
        push_reveal(list, reveal)?;
    }
    Ok(())
}

fn push_votes(list: &mut Vec<u64>, votes: &[bool]) -> Result<(), OutOfMemory> {
    list.push(votes.len() as u64)?;
    for vote in votes {
        list.push(u64::from(*vote))?;
    }
    Ok(())
}

fn push_post(list: &mut Vec<u64>, post: &Post) -> Result<(), OutOfMemory> {
    match post {
        Post::Quiet => list.push(0)?,
        Post::Complaints { list: items } => push_complaints(list, items.as_slice())?,
        Post::Reveals { list: items } => push_reveals(list, items.as_slice())?,
        Post::Votes { list: items } => push_votes(list, items.as_slice())?,
        Post::Syndromes { list: items } => push_elements(list, items.as_slice())?,
    }
    Ok(())
}

fn push_ring(list: &mut Vec<u64>, ring: &Ring) -> Result<(), OutOfMemory> {
    match ring {
        Ring::Nothing => list.push(0)?,
        Ring::Dealt { list: items } => push_elements(list, items.as_slice())?,
        Ring::Cross { list: items } => push_elements(list, items.as_slice())?,
    }
    Ok(())
}

// The posts of a history's views, as numbers.
fn posts_of(alloc: Global, views: &Views) -> Result<Vec<u64>, OutOfMemory> {
    let mut list = Vec::new(alloc);
    for post in views.posts.as_slice() {
        push_post(&mut list, post)?;
    }
    Ok(list)
}

// The ring messages.
fn rings_of(alloc: Global, views: &Views) -> Result<Vec<u64>, OutOfMemory> {
    let mut list = Vec::new(alloc);
    for ring in views.rings.as_slice() {
        push_ring(&mut list, ring)?;
    }
    Ok(list)
}

// The shares.
fn shares_of(alloc: Global, views: &Views) -> Result<Vec<u64>, OutOfMemory> {
    let mut list = Vec::new(alloc);
    for share in views.shares.as_slice() {
        list.push(share.get())?;
    }
    Ok(list)
}

// Whether the same is seen of two histories, item by item.
fn same_views(alloc: Global, one: &History, other: &History) -> Result<bool, OutOfMemory> {
    let seen = views_of(alloc, one)?;
    let more = views_of(alloc, other)?;
    let same_posts = posts_of(alloc, &seen)?.as_slice() == posts_of(alloc, &more)?.as_slice();
    let same_rings = rings_of(alloc, &seen)?.as_slice() == rings_of(alloc, &more)?.as_slice();
    let same_shares = shares_of(alloc, &seen)?.as_slice() == shares_of(alloc, &more)?.as_slice();
    Ok(same_posts && same_rings && same_shares)
}

// The values of a phase's grids at four points, which tell grids of degree 1 apart.
fn grids_of(alloc: Global, phase: &Phase) -> Result<Vec<u64>, OutOfMemory> {
    let mut list = Vec::new(alloc);
    for grid in phase.grids.as_slice() {
        list.push(grid.at(Fe::ZERO, Fe::ZERO).get())?;
        list.push(grid.at(Fe::ZERO, Fe::ONE).get())?;
        list.push(grid.at(Fe::ONE, Fe::ZERO).get())?;
        list.push(grid.at(Fe::ONE, Fe::ONE).get())?;
    }
    Ok(list)
}

// How many phases have the same grids in both.
fn same_grids(alloc: Global, one: &History, other: &History) -> Result<u32, OutOfMemory> {
    let mut count: u32 = 0;
    for (phase, more) in one
        .phases()
        .as_slice()
        .iter()
        .zip(other.phases().as_slice())
    {
        if grids_of(alloc, phase)?.as_slice() == grids_of(alloc, more)?.as_slice() {
            count = count.saturating_add(1);
        }
    }
    Ok(count)
}

// What the grids of a create's first lane add up to at a member's point. Where nobody is down it is the member's share.
fn share_of(phase: &Phase, member: u64) -> u64 {
    let point = Fe::reduce(member);
    let mut sum = Fe::ZERO;
    for (place, grid) in phase.grids.as_slice().iter().enumerate() {
        if place % 5 == 0 {
            sum = sum.add(grid.at(Fe::ZERO, point));
        }
    }
    sum.get()
}

// Whether the first phase leaves this share.
fn has_share(history: &History, member: u64, share: u64) -> bool {
    match history.phases().as_slice().get(0) {
        Some(phase) => share_of(phase, member) == share,
        None => false,
    }
}

// A key that is 0 in all lanes but the first.
fn key(first: u64) -> [Fe; 5] {
    [Fe::reduce(first), Fe::ZERO, Fe::ZERO, Fe::ZERO, Fe::ZERO]
}

// ---- tests

#[test]
fn a_share_that_is_exposed_stays_and_the_others_give_the_wished_key(
    rt: HostRuntime,
) -> Result<(), HistoryFault> {
    let alloc = rt.alloc();
    let history = history_of(alloc, birth(alloc)?, &[2])?;
    let other = other_choices(alloc, &history, key(8))?;
    assert!(rt; has_share(&other, 1, 1152921504606846986));
    assert!(rt; has_share(&other, 2, 13));
    assert!(rt; has_share(&other, 3, 1152921504606846991));
    assert!(rt; has_share(&other, 4, 18));
    assert!(rt; same_views(alloc, &history, &other)?);
    assert_eq!(rt; same_grids(alloc, &history, &other)?, 0);
    Ok(())
}

#[test]
fn a_refresh_with_as_many_down_as_the_bound_keeps_its_grids(
    rt: HostRuntime,
) -> Result<(), HistoryFault> {
    let alloc = rt.alloc();
    let history = history_of(alloc, youth(alloc)?, &[2, 2])?;
    let other = other_choices(alloc, &history, key(8))?;
    assert_eq!(rt; same_grids(alloc, &history, &other)?, 1);
    assert!(rt; same_views(alloc, &history, &other)?);
    Ok(())
}

#[test]
fn a_life_has_every_key_and_the_first_one_again(rt: HostRuntime) -> Result<(), HistoryFault> {
    let alloc = rt.alloc();
    let history = history_of(alloc, life(alloc)?, &[2, 2, 4, 4])?;
    for wished in [0, 2305843009213693950, 7] {
        let other = other_choices(alloc, &history, key(wished))?;
        assert!(rt; key_of(alloc, &other)?[0].get() == wished);
        assert!(rt; same_views(alloc, &history, &other)?);
        let again = other_choices(alloc, &other, key(7))?;
        assert_eq!(rt; same_grids(alloc, &history, &again)?, 4);
    }
    Ok(())
}
