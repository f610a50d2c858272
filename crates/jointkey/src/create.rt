//! A member's mind.

ghost use Rattle.std.specs.Prelude.{◌≡◌, ℕ, ◌+◌, ◌-◌, ◌*◌, ◌<◌, ◌≤◌, List, IfOk, Result, OnOk, OnErr};
ghost use Rattle.talk.specs.Shape.{Shape};
ghost use Rattle.talk.specs.Hears.{StaysMade, WordFits};
ghost use Rattle.plays.specs.Stage.{IsTurn};
ghost use Rattle.vss_core.specs.States.{FiveGrids};
ghost use Rattle.chance61.specs.Draws.{five_grids_drawn};
ghost use Rattle.members.specs.Member.{member_at, member_word, member_after_say, member_after_hear};
ghost use Rattle.members.specs.Shares.{IsDone, member_shares, accepted_in};
ghost use Rattle.members.proofs.Turns.{says_after};
ghost use Rattle.sharer.specs.Sharer.{MadeFor};
ghost use Rattle.talk.specs.Shape.{create_shape};

use bivar61::GridList;
use chance61::Chance;
use field61::Fe;
use lists::OutOfMemory;
use sharer::Sharer;
use std::alloc::Global;
use std::marker::Model;
use talk::{Heard, Mind, Say, Setting};

/// A member's mind in the creation of a key by `N` members, 4 to 15. Contracts see a member of a sharing: the setting,
/// the seat, which is its own number, the five grids that it deals, and how far it has come.
///
/// It is made for exactly its setting and its seat. It says and hears the five rounds in turn: it deals, sends its
/// crossing pairs, and posts its complaints, its reveals and its votes. Where memory is wanting in a call, it is as it
/// was.
#[derive(Drop)]
pub struct Create<const N: usize> {
    inner: Sharer,
}

impl<const N: usize> Model for Create<N> {
    ghost use Rattle.members.specs.Member.{Member};
    ghost use Rattle.jointkey.specs.View.{view_create, Whole};

    ghost Value = { Member };

    ghost view = { view_create N };

    ghost invariant = { Whole N };
}

impl<const N: usize> Mind for Create<N> {
    ghost made_for = { MadeFor };

    ghost may_say = { λ m round. IsTurn round m.stage };

    ghost may_hear = { λ m round. IsTurn round m.stage };

    ghost word = { member_word };

    ghost after_say = { member_after_say };

    ghost after_hear = { member_after_hear };

    ghost say_keeps = { λ m round may s seat. (λ made. made, λ made. made) };

    ghost hear_keeps = { λ m round h may s seat. (λ made. made, λ made. made) };

    ghost hears_next = { λ m round may. may };

    ghost says_next = { λ m round h s seat may made less. says_after m round h s made.2 may less };

    fn say(&mut self, alloc: Global, round: u32) -> Result<Say, OutOfMemory>
        ensures word { IfOk result (λ w. w ≡ member_word self.old round) }
        ensures rings { IfOk result (λ w. (s : Shape) (seat : ℕ) → MadeFor self.old s seat → WordFits s seat w) }
        ensures after { OnOk result (self.new ≡ self.old) }
        ensures kept { OnErr result (StaysMade (MadeFor self.old) (MadeFor self.new)) }
        ensures same { OnErr result (self.new ≡ self.old) }
    {
        self.inner.say(alloc)
    }

    fn hear(&mut self, alloc: Global, round: u32, heard: Heard) -> Result<(), OutOfMemory> {
        self.inner.hear(alloc, &heard)
    }
}

impl<const N: usize> Create<N> {
    /// Member `me` of the `N`, of whom `t` may be faulty, with five grids of degree `t` drawn from a source, lane by
    /// lane. After `OutOfMemory` no word was taken.
    pub fn new(
        alloc: Global,
        t: u32,
        me: u32,
        chance: &mut Chance,
    ) -> Result<Create<N>, OutOfMemory>
        requires small { N ≤ 15 }
        requires bound { (1 ≤ t) × (3 * t < N) }
        requires member { (1 ≤ me) × (me ≤ N) }
        ensures is { IfOk result
            (λ m. m ≡ member_at (create_shape N t) me (five_grids_drawn t chance.old.seed chance.old.taken).0) }
        ensures after { OnOk result (chance.new ≡ record {
          seed = chance.old.seed;
          taken = (five_grids_drawn t chance.old.seed chance.old.taken).1;
        }) }
        ensures kept { OnErr result (chance.new ≡ chance.old) }
    {
        let setting = Setting::create(N as u32, t);
        let inner = Sharer::drawing(alloc, setting, me, chance)?;
        Ok(Create { inner })
    }

    /// The same with given grids, all of degree `t`, lane by lane. It takes no memory, and always answers `Ok`.
    pub fn with_grids(
        _alloc: Global,
        t: u32,
        me: u32,
        grids: GridList,
    ) -> Result<Create<N>, OutOfMemory>
        requires small { N ≤ 15 }
        requires bound { (1 ≤ t) × (3 * t < N) }
        requires member { (1 ≤ me) × (me ≤ N) }
        requires grids { FiveGrids t grids }
        ensures { result ≡ Result.Ok (member_at (create_shape N t) me grids) }
    {
        Ok(Create {
            inner: Sharer::dealing(Setting::create(N as u32, t), me, grids),
        })
    }

    /// Its shares in the end, lane by lane: in each the sum over the dealers of the row's value at 0, which is 0 in an
    /// instance that isn't accepted. All rounds are heard. It takes no memory.
    pub fn shares(&self) -> [Fe; 5]
        requires { IsDone self.now.stage }
        ensures { result ≡ member_shares self.now }
    {
        self.inner.shares()
    }

    /// How many instances are accepted. All rounds are heard. It takes no memory.
    pub fn accepted(&self) -> u32
        requires { IsDone self.now.stage }
        ensures { result ≡ accepted_in self.now.stage }
    {
        self.inner.accepted()
    }
}
