//! An old member's mind.

ghost use Rattle.std.specs.Prelude.{◌≡◌, ℕ, ◌+◌, ◌*◌, ◌<◌, ◌≤◌, Result, IfOk, OnOk, OnErr};
ghost use Rattle.sizes.specs.Committees.{IsCommittee};
ghost use Rattle.talk.specs.Part.{part_after_hear, part_after_say, part_made_for, part_may, part_word};
ghost use Rattle.talk.specs.Hears.{StaysMade, WordFits};
ghost use Rattle.talk.specs.Shape.{Shape, move_shape};
ghost use Rattle.talk.specs.declared.part.Part.TheVariants.{Away, In};
ghost use Rattle.chance61.specs.Draws.{five_grids_drawn_with};
ghost use Rattle.vss_core.specs.States.{FiveGrids};
ghost use Rattle.periods.specs.Mover.{mover_at, mover_word, mover_after_say, mover_after_hear};
ghost use Rattle.moveshare.specs.Seat.{MadeForMove, may_move};
ghost use Rattle.moveshare.specs.Turns.{part_hear_keeps, part_hears_next, part_say_keeps, part_says_next};

use crate::seat::MoveSeat;
use bivar61::GridList;
use chance61::Chance;
use field61::Fe;
use lists::OutOfMemory;
use std::alloc::Global;
use std::marker::Model;
use talk::{Heard, Mind, Part, Say, Setting};

/// An old member's mind in a move from a committee of `N` members, 4 to 15: on the seat of its own number it deals grids
/// whose constants are its shares, and reveals. It receives nothing. Contracts see a mover, or that the seat is away: then
/// it passes in every round. Where memory is wanting in a call, it is as it was.
#[derive(Drop)]
pub struct MoveOld<const N: usize> {
    part: Part<MoveSeat>,
}

impl<const N: usize> Model for MoveOld<N> {
    ghost use Rattle.talk.specs.declared.part.Part.{Part};
    ghost use Rattle.periods.specs.Mover.{Mover};
    ghost use Rattle.moveshare.specs.OldView.{view_old};

    ghost Value = { Part Mover };

    ghost view = { view_old N };
}

impl<const N: usize> Mind for MoveOld<N> {
    ghost made_for = { part_made_for MadeForMove };

    ghost may_say = { part_may may_move };

    ghost may_hear = { part_may may_move };

    ghost word = { part_word mover_word };

    ghost after_say = { part_after_say mover_after_say };

    ghost after_hear = { part_after_hear mover_after_hear };

    ghost say_keeps = { part_say_keeps };

    ghost hear_keeps = { part_hear_keeps };

    ghost hears_next = { part_hears_next };

    ghost says_next = { λ p round h s seat may made less. part_says_next p round h s may less };

    fn say(&mut self, alloc: Global, round: u32) -> Result<Say, OutOfMemory>
        ensures word { IfOk result (λ w. w ≡ part_word mover_word self.old round) }
        ensures rings { IfOk result
            (λ w. (s : Shape) (seat : ℕ) → part_made_for MadeForMove self.old s seat → WordFits s seat w) }
        ensures after { OnOk result (self.new ≡ part_after_say mover_after_say self.old round) }
        ensures kept { OnErr result
            (StaysMade (part_made_for MadeForMove self.old) (part_made_for MadeForMove self.new)) }
        ensures same { OnErr result (self.new ≡ self.old) }
    {
        match &mut self.part {
            Part::Away => Ok(Say::Pass),
            Part::In { mind } => mind.say(alloc, round),
        }
    }

    fn hear(&mut self, alloc: Global, round: u32, heard: Heard) -> Result<(), OutOfMemory> {
        self.part.hear(alloc, round, heard)
    }
}

impl<const N: usize> MoveOld<N> {
    /// Member `me` of the `N`, of whom as many as the bound may be faulty, in a move to receivers who have a bound of their
    /// own. It deals five grids of degree `new_bound`, lane by lane, whose constants are its shares; their other coefficients
    /// are drawn from a source. After `OutOfMemory` no word was taken.
    pub fn new(
        alloc: Global,
        bound: u32,
        me: u32,
        receivers: u32,
        new_bound: u32,
        shares: [Fe; 5],
        chance: &mut Chance,
    ) -> Result<MoveOld<N>, OutOfMemory>
        requires old { IsCommittee N bound }
        requires new { IsCommittee receivers new_bound }
        requires member { (1 ≤ me) × (me ≤ N) }
        ensures is { IfOk result
            (λ p. p ≡ In
            (mover_at (move_shape N bound receivers new_bound) me
            (five_grids_drawn_with new_bound shares chance.old.seed chance.old.taken).0)) }
        ensures after { OnOk result (chance.new ≡ record {
          seed = chance.old.seed;
          taken = (five_grids_drawn_with new_bound shares chance.old.seed chance.old.taken).1;
        }) }
        ensures kept { OnErr result (chance.new ≡ chance.old) }
    {
        let grids = chance.draw_grids_with(alloc, new_bound, &shares)?;
        Ok(MoveOld::made(bound, me, receivers, new_bound, grids))
    }

    /// The same with given grids, all of degree `new_bound`, lane by lane: their constants are what it says its shares are. It takes
    /// no memory, and always answers `Ok`.
    pub fn with_grids(
        _alloc: Global,
        bound: u32,
        me: u32,
        receivers: u32,
        new_bound: u32,
        grids: GridList,
    ) -> Result<MoveOld<N>, OutOfMemory>
        requires old { IsCommittee N bound }
        requires new { IsCommittee receivers new_bound }
        requires member { (1 ≤ me) × (me ≤ N) }
        requires grids { FiveGrids new_bound grids }
        ensures { result ≡ Result.Ok (In (mover_at (move_shape N bound receivers new_bound) me grids)) }
    {
        Ok(MoveOld::made(bound, me, receivers, new_bound, grids))
    }

    /// A member that takes no part: it passes in every round.
    pub fn away(_bound: u32, _me: u32, _receivers: u32, _new_bound: u32) -> MoveOld<N>
        requires old { IsCommittee N _bound }
        requires new { IsCommittee _receivers _new_bound }
        requires member { (1 ≤ _me) × (_me ≤ N) }
        ensures { result ≡ Away }
    {
        MoveOld { part: Part::Away }
    }

    // The member before the first round.
    fn made(bound: u32, me: u32, receivers: u32, new_bound: u32, grids: GridList) -> MoveOld<N>
        requires old { IsCommittee N bound }
        requires new { IsCommittee receivers new_bound }
        requires member { (1 ≤ me) × (me ≤ N) }
        requires grids { FiveGrids new_bound grids }
        ensures { result ≡ In (mover_at (move_shape N bound receivers new_bound) me grids) }
    {
        let setting = Setting::moving(N as u32, bound, receivers, new_bound);
        MoveOld {
            part: Part::In {
                mind: MoveSeat::dealing(setting, me, grids),
            },
        }
    }
}
