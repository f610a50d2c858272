//! Tests of the key and the views of lives of four members, of whom one may be faulty. Expected values are worked by hand:
//! all lanes but the first hold 0.

ghost use Rattle.std.specs.Prelude.{◌≡◌, ℕ, ◌+◌, ◌*◌, ◌<◌, ◌≤◌, length, IfOk};

use bivar61::{Grid, GridList};
use field61::{Fe, FeList};
use lists::OutOfMemory;
use std::alloc::Global;
use talk::{Post, PostList, Ring, RingList, Setting};
use viewshift::{History, Phase, PhaseKind, PhaseList, SaidList, key_of, views_of};

// Puts a dealer's five grids of degree 1 at the end of a list: in the first lane constant + slope * y.
fn deal_line(
    alloc: Global,
    list: &mut GridList,
    constant: u64,
    slope: u64,
) -> Result<(), OutOfMemory> {
    let first = [Fe::reduce(constant), Fe::reduce(slope), Fe::ZERO, Fe::ZERO];
    list.push(Grid::from_elements(alloc, 1, &first)?)?;
    for _ in 0..4 {
        list.push(Grid::from_elements(alloc, 1, &[Fe::ZERO; 4])?)?;
    }
    Ok(())
}

// Puts a dealer's five grids of degree 0 at the end of a list: in the first lane the constant.
fn deal_constant(alloc: Global, list: &mut GridList, constant: u64) -> Result<(), OutOfMemory> {
    list.push(Grid::from_elements(alloc, 0, &[Fe::reduce(constant)])?)?;
    for _ in 0..4 {
        list.push(Grid::from_elements(alloc, 0, &[Fe::ZERO; 1])?)?;
    }
    Ok(())
}

// A create of the shares 10, 13, 16, 19, in which nobody is down.
fn create(alloc: Global) -> Result<Phase, OutOfMemory> {
    let mut grids = GridList::new(alloc);
    deal_line(alloc, &mut grids, 7, 3)?;
    for _ in 0..3 {
        deal_line(alloc, &mut grids, 0, 0)?;
    }
    Ok(Phase {
        kind: PhaseKind::Create,
        setting: Setting::create(4, 1),
        down: 0,
        grids,
        said: SaidList::new(alloc),
    })
}

// A refresh by grids that add up to 4, in which the fourth member is down and says nothing: 14, 21, 28 are left.
fn refresh(alloc: Global) -> Result<Phase, OutOfMemory> {
    let mut grids = GridList::new(alloc);
    for constant in [1, 3, 0] {
        deal_constant(alloc, &mut grids, constant)?;
    }
    Ok(Phase {
        kind: PhaseKind::Refresh,
        setting: Setting::refresh(4, 1),
        down: 8,
        grids,
        said: SaidList::new(alloc),
    })
}

// A move of these to four others, by 14 + 2 * y, 21 + y and 28: the shares are 10, 13, 16, 19 again.
fn moved(alloc: Global) -> Result<Phase, OutOfMemory> {
    let mut grids = GridList::new(alloc);
    for (constant, slope) in [(14, 2), (21, 1), (28, 0)] {
        deal_line(alloc, &mut grids, constant, slope)?;
    }
    Ok(Phase {
        kind: PhaseKind::Move,
        setting: Setting::moving(4, 1, 4, 1),
        down: 8,
        grids,
        said: SaidList::new(alloc),
    })
}

// The create alone.
fn birth(alloc: Global) -> Result<PhaseList, OutOfMemory>
    ensures { IfOk result (λ l. length l ≤ 1) }
{
    let mut phases = PhaseList::new(alloc);
    phases.push(create(alloc)?)?;
    Ok(phases)
}

// A create, a refresh and a move.
fn life(alloc: Global) -> Result<PhaseList, OutOfMemory>
    ensures { IfOk result (λ l. length l ≤ 3) }
{
    let mut phases = PhaseList::new(alloc);
    phases.push(create(alloc)?)?;
    phases.push(refresh(alloc)?)?;
    phases.push(moved(alloc)?)?;
    Ok(phases)
}

// Masks of up to three periods.
fn masks(alloc: Global, given: &[u32]) -> Result<Vec<u32>, OutOfMemory>
    requires { length given.now ≤ 3 }
    ensures { IfOk result (λ v. v.items ≡ given.now) }
{
    let mut list = Vec::new(alloc);
    for mask in given {
        list.push(*mask)?;
    }
    Ok(list)
}

// Whether the elements are these numbers.
fn are(elements: &[Fe], numbers: &[u64]) -> bool {
    elements.len() == numbers.len()
        && elements
            .iter()
            .zip(numbers)
            .all(|(element, number)| element.get() == *number)
}

// Whether the ring message at a place deals these numbers.
fn deals(rings: &RingList, place: usize, numbers: &[u64]) -> bool {
    match rings.as_slice().get(place) {
        Some(Ring::Dealt { list }) => are(list.as_slice(), numbers),
        _ => false,
    }
}

// Whether the post at a place is so many votes.
fn votes(posts: &PostList, place: usize, count: usize) -> bool {
    match posts.as_slice().get(place) {
        Some(Post::Votes { list }) => list.len() == count,
        _ => false,
    }
}

#[test]
fn a_create_has_its_constant_as_key(rt: HostRuntime) -> Result<(), OutOfMemory> {
    let alloc = rt.alloc();
    match History::new(alloc, birth(alloc)?, masks(alloc, &[2])?) {
        Ok(history) => assert!(rt; are(&key_of(alloc, &history)?, &[7, 0, 0, 0, 0])),
        Err(_) => assert!(rt; false),
    }
    Ok(())
}

#[test]
fn an_exposed_member_of_a_create_shows_its_share(rt: HostRuntime) -> Result<(), OutOfMemory> {
    let alloc = rt.alloc();
    match History::new(alloc, birth(alloc)?, masks(alloc, &[2])?) {
        Ok(history) => {
            let views = views_of(alloc, &history)?;
            assert_eq!(rt; views.posts.len(), 20);
            assert_eq!(rt; views.rings.len(), 0);
            assert!(rt; votes(&views.posts, 16, 20));
            assert!(rt; are(views.shares.as_slice(), &[13, 0, 0, 0, 0]));
        }
        Err(_) => assert!(rt; false),
    }
    Ok(())
}

#[test]
fn a_life_keeps_its_key(rt: HostRuntime) -> Result<(), OutOfMemory> {
    let alloc = rt.alloc();
    match History::new(alloc, life(alloc)?, masks(alloc, &[8, 8, 2])?) {
        Ok(history) => assert!(rt; are(&key_of(alloc, &history)?, &[7, 0, 0, 0, 0])),
        Err(_) => assert!(rt; false),
    }
    Ok(())
}

#[test]
fn a_missing_share_of_a_life_counts_as_seen(rt: HostRuntime) -> Result<(), OutOfMemory> {
    let alloc = rt.alloc();
    match History::new(alloc, life(alloc)?, masks(alloc, &[8, 8, 2])?) {
        Ok(history) => {
            let views = views_of(alloc, &history)?;
            assert_eq!(rt; views.posts.len(), 88);
            assert_eq!(rt; views.rings.len(), 68);
            assert!(rt; deals(&views.rings, 1, &[3, 3, 0, 0, 0, 0, 0, 0, 0, 0]));
            let seen = [19, 0, 0, 0, 0, 35, 0, 0, 0, 0, 13, 0, 0, 0, 0];
            assert!(rt; are(views.shares.as_slice(), &seen));
        }
        Err(_) => assert!(rt; false),
    }
    Ok(())
}
