//! A member's mind.

ghost use Rattle.std.specs.Prelude.{◌≡◌, ℕ, ◌+◌, ◌-◌, ◌*◌, ◌<◌, ◌≤◌, ◌↔◌, List, IfOk, Result, OnOk, OnErr, true};
ghost use Rattle.talk.specs.Shape.{Shape, refresh_shape, rounds};
ghost use Rattle.talk.specs.Hears.{StaysMade, WordFits};
ghost use Rattle.talk.specs.Part.{part_after_hear, part_after_say, part_made_for, part_may, part_word};
ghost use Rattle.talk.specs.declared.part.Part.TheVariants.{Away, In};
ghost use Rattle.vss_core.specs.States.{FiveGrids};
ghost use Rattle.chance61.specs.Draws.{five_grids_drawn};
ghost use Rattle.members.proofs.Turns.{says_after};
ghost use Rattle.periods.specs.Keeper.{keeper_at, keeper_word, keeper_after_say, keeper_after_hear};
ghost use Rattle.zeroshare.specs.Refresh.{HasResult, accepted_by, keeper_made_for, keeper_may, shares_in};

use crate::keeping::Keeping;
use bivar61::GridList;
use chance61::Chance;
use field61::Fe;
use lists::OutOfMemory;
use sharer::Sharer;
use std::alloc::Global;
use std::marker::Model;
use talk::{Heard, Mind, Part, Say, Setting};

/// A member's mind in a refresh of the shares of a key among `N` members, 4 to 15. Contracts see a seat that is away, or
/// one that takes part with a keeper: a member of the sharing, and beside it the shares that it had before, lane by lane.
///
/// Who takes part is made for exactly its setting and its seat, which is its own number. It says and hears the five
/// rounds in turn: it deals, sends its crossing pairs, and posts its complaints, its reveals and its votes. Who is away
/// passes in every round, and is made for every setting and seat. Where memory is wanting in a call, it is as it was.
#[derive(Drop)]
pub struct Refresh<const N: usize> {
    part: Part<Keeping>,
}

impl<const N: usize> Model for Refresh<N> {
    ghost use Rattle.talk.specs.declared.part.Part.{Part};
    ghost use Rattle.periods.specs.Keeper.{Keeper};
    ghost use Rattle.zeroshare.specs.View.{view_refresh};

    ghost Value = { Part Keeper };

    ghost view = { view_refresh N };
}

impl<const N: usize> Mind for Refresh<N> {
    ghost made_for = { part_made_for keeper_made_for };

    ghost may_say = { part_may keeper_may };

    ghost may_hear = { part_may keeper_may };

    ghost word = { part_word keeper_word };

    ghost after_say = { part_after_say keeper_after_say };

    ghost after_hear = { part_after_hear keeper_after_hear };

    ghost say_keeps = { λ p round. elim p as (λ k. Self.may_say k round → StaysMade (Self.made_for k) (Self.made_for (Self.after_say k round))) [ Away ↦ λ may s seat. (λ made. made, λ made. made) | In k ↦ λ may s seat. (λ made. made, λ made. made) ] };

    ghost hear_keeps = { λ p round h. elim p as (λ k. Self.may_hear k round → StaysMade (Self.made_for k) (Self.made_for (Self.after_hear k round h))) [ Away ↦ λ may s seat. (λ made. made, λ made. made) | In k ↦ λ may s seat. (λ made. made, λ made. made) ] };

    ghost hears_next = { λ p round. elim p as (λ k. Self.may_say k round → Self.may_hear (Self.after_say k round) round) [ Away ↦ λ may. tt | In k ↦ λ may. may ] };

    ghost says_next = { λ p round h s seat. elim p as (λ k. Self.may_hear k round → Self.made_for k s seat → round < rounds s → Self.may_say (Self.after_hear k round h) (round + 1)) [ Away ↦ λ may made less. tt | In k ↦ λ may made less. says_after k.member round h s made.2 may less ] };

    fn say(&mut self, alloc: Global, round: u32) -> Result<Say, OutOfMemory>
        ensures word { IfOk result (λ w. w ≡ part_word keeper_word self.old round) }
        ensures rings { IfOk result
            (λ w. (s : Shape) (seat : ℕ) → part_made_for keeper_made_for self.old s seat → WordFits s seat w) }
        ensures after { OnOk result (self.new ≡ part_after_say keeper_after_say self.old round) }
        ensures kept { OnErr result
            (StaysMade (part_made_for keeper_made_for self.old) (part_made_for keeper_made_for self.new)) }
        ensures same { OnErr result (self.new ≡ self.old) }
    {
        match &mut self.part {
            Part::Away => Ok(Say::Pass),
            Part::In { mind } => mind.say(alloc, round),
        }
    }

    fn hear(&mut self, alloc: Global, round: u32, heard: Heard) -> Result<(), OutOfMemory> {
        self.part.hear(alloc, round, heard)
    }
}

impl<const N: usize> Refresh<N> {
    /// Member `me` of the `N`, of whom `t` may be faulty, with its old shares, lane by lane, and five grids of degree
    /// `t - 1` drawn from a source, lane by lane. After `OutOfMemory` no word was taken.
    pub fn new(
        alloc: Global,
        t: u32,
        me: u32,
        old: [Fe; 5],
        chance: &mut Chance,
    ) -> Result<Refresh<N>, OutOfMemory>
        requires small { N ≤ 15 }
        requires bound { (1 ≤ t) × (3 * t < N) }
        requires member { (1 ≤ me) × (me ≤ N) }
        ensures is { IfOk result
            (λ m. m ≡ In
            (keeper_at (refresh_shape N t) me (five_grids_drawn (t - 1) chance.old.seed chance.old.taken).0 old)) }
        ensures after { OnOk result (chance.new ≡ record {
          seed = chance.old.seed;
          taken = (five_grids_drawn (t - 1) chance.old.seed chance.old.taken).1;
        }) }
        ensures kept { OnErr result (chance.new ≡ chance.old) }
    {
        let setting = Setting::refresh(N as u32, t);
        let sharer = Sharer::drawing(alloc, setting, me, chance)?;
        let mind = Keeping::new(sharer, old);
        Ok(Refresh {
            part: Part::In { mind },
        })
    }

    /// The same with given grids, all of degree `t - 1`, lane by lane. It takes no memory, and always answers `Ok`.
    pub fn with_grids(
        _alloc: Global,
        t: u32,
        me: u32,
        old: [Fe; 5],
        grids: GridList,
    ) -> Result<Refresh<N>, OutOfMemory>
        requires small { N ≤ 15 }
        requires bound { (1 ≤ t) × (3 * t < N) }
        requires member { (1 ≤ me) × (me ≤ N) }
        requires grids { FiveGrids (t - 1) grids }
        ensures { result ≡ Result.Ok (In (keeper_at (refresh_shape N t) me grids old)) }
    {
        let setting = Setting::refresh(N as u32, t);
        let mind = Keeping::new(Sharer::dealing(setting, me, grids), old);
        Ok(Refresh {
            part: Part::In { mind },
        })
    }

    /// A member that takes no part: it passes in every round and has no shares in the end. It is the same for each member
    /// of each committee.
    pub fn away(_t: u32, _me: u32) -> Refresh<N>
        ensures { result ≡ Away }
    {
        Refresh { part: Part::Away }
    }

    /// Whether it takes part and has heard all rounds, so that it has shares.
    pub fn has_result(&self) -> bool
        ensures { (result ≡ true) ↔ HasResult self.now }
    {
        match &self.part {
            Part::Away => false,
            Part::In { mind } => mind.is_done(),
        }
    }

    /// Its shares in the end, lane by lane: to its old share its number times the sum over the dealers of the row's value
    /// at 0 is added, which is 0 in an instance that isn't accepted. It takes part, and all rounds are heard. It takes no
    /// memory.
    pub fn shares(&self) -> [Fe; 5]
        requires { HasResult self.now }
        ensures { result ≡ shares_in self.now }
    {
        match &self.part {
            Part::Away => [Fe::ZERO; 5],
            Part::In { mind } => mind.shares(),
        }
    }

    /// How many instances are accepted. It takes part, and all rounds are heard. It takes no memory.
    pub fn accepted(&self) -> u32
        requires { HasResult self.now }
        ensures { result ≡ accepted_by self.now }
    {
        match &self.part {
            Part::Away => 0,
            Part::In { mind } => mind.accepted(),
        }
    }
}
