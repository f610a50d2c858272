//! Tests of the playing, on worked values: a create, a refresh and a move of four members, of whom the fourth is down in
//! the create and says nothing.

ghost use Rattle.std.specs.Prelude.{◌≡◌, ℕ, ◌+◌, ◌*◌, ◌<◌, ◌≤◌, IfOk, MatchOption};
ghost use Rattle.talk.specs.Shape.{Lawful, create_shape, rounds};
ghost use Rattle.moveshare.specs.Seat.{IsMoving};
ghost use Rattle.playback.specs.Recorded.{play_of};
ghost use Rattle.playback.specs.Kept.{IsKept};
ghost use Rattle.playback.specs.Shares.{IsPlayed};

use bivar61::{Grid, GridList};
use field61::Fe;
use lists::{OutOfMemory, TryCopy};
use playback::{Phase, PhaseKind, SaidItem, SaidList, created_shares, is_kept, play};
use std::alloc::Global;
use talk::{Post, Ring, Setting};

// The grids of the first three members: in the first lane of the first member 7 + 3 * y, all others 0.
fn grids(alloc: Global) -> Result<GridList, OutOfMemory> {
    let mut list = GridList::new(alloc);
    let key = [Fe::reduce(7), Fe::reduce(3), Fe::ZERO, Fe::ZERO];
    list.push(Grid::from_elements(alloc, 1, &key)?)?;
    for _ in 0..14 {
        list.push(Grid::from_elements(alloc, 1, &[Fe::ZERO; 4])?)?;
    }
    Ok(list)
}

// What the fourth member says: in the third round nothing, by an item of its own.
fn said(alloc: Global) -> Result<SaidList, OutOfMemory> {
    let mut list = SaidList::new(alloc);
    let item = SaidItem {
        round: 3,
        seat: 4,
        to: 0,
        post: Post::Quiet,
        ring: Ring::Nothing,
    };
    list.push(item.copy(alloc)?)?;
    Ok(list)
}

// The create.
fn create(alloc: Global) -> Result<Phase, OutOfMemory>
    ensures { IfOk result (λ p. p.setting ≡ create_shape 4 1) }
{
    Ok(Phase {
        kind: PhaseKind::Create,
        setting: Setting::create(4, 1),
        down: 8,
        grids: grids(alloc)?,
        said: said(alloc)?,
    })
}

// The shares that a create leaves, where it keeps what it has to.
fn shares_of(alloc: Global, phase: &Phase) -> Result<Vec<Option<[Fe; 5]>>, OutOfMemory>
    requires { phase.now.setting ≡ create_shape 4 1 }
{
    if !is_kept(phase) {
        return Ok(Vec::new(alloc));
    }
    let played = play(alloc, phase)?;
    let shares = created_shares(alloc, phase, &played)?;
    Ok(shares)
}

// Whether a member has this share in the first lane and 0 in the others.
fn has(shares: &[Option<[Fe; 5]>], place: usize, number: u64) -> bool {
    match shares.get(place) {
        Some(Some(values)) => values[0].get() == number && values[4].get() == 0,
        _ => false,
    }
}

#[test]
fn a_create_leaves_shares_on_a_line(rt: HostRuntime) -> Result<(), OutOfMemory> {
    let alloc = rt.alloc();
    let phase = create(alloc)?.copy(alloc)?;
    let shares = shares_of(alloc, &phase)?;
    assert_eq!(rt; shares.len(), 4);
    assert!(rt; has(shares.as_slice(), 0, 10));
    assert!(rt; has(shares.as_slice(), 1, 13));
    assert!(rt; has(shares.as_slice(), 2, 16));
    assert!(rt; !has(shares.as_slice(), 3, 19));
    Ok(())
}
