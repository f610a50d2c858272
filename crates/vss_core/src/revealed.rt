//! A receiver after the fourth round.

ghost use Rattle.std.specs.Prelude.{◌≡◌, ℕ, ◌+◌, ◌-◌, ◌<◌, ◌≤◌, List, [], length, IfOk, MatchResult, map};
ghost use Rattle.sharing61.specs.Count.{how_many};
ghost use Rattle.talk.specs.Shape.{Shape, seats, instances};
ghost use Rattle.plays.specs.Read.{voted_in};
ghost use Rattle.plays.specs.Said.{places};
ghost use Rattle.plays.specs.Seat.{keeps, heard_accepted, post_at, pair_at, heard_shown};
ghost use Rattle.plays.specs.Play.{seat_of};
ghost use Rattle.sharing61.specs.Rules.{Pair, kept_of};
ghost use Rattle.vss_core.specs.States.{RevealedState, DoneState, IsReceiver, RoundPosts};

use crate::posts::{revealed_in, voted_in};
use crate::{Done, PairList, PolyPair, StepError};
use lists::{OutOfMemory, TryCopy};
use sizes::Instance;
use std::alloc::Global;
use std::marker::Model;
use talk::{PostList, Setting, VoteList};

/// A receiver after the fourth round. Contracts see its setting, its index, its pairs, the posts of the fourth round
/// and its votes.
#[derive(Drop)]
pub struct Revealed {
    setting: Setting,
    me: u32,
    pairs: PairList,
    fourth: PostList,
    votes: VoteList,
}

impl Model for Revealed {
    ghost use Rattle.std.specs.Prelude.{◌≡◌, length};
    ghost use Rattle.talk.specs.Shape.{instances, seats};
    ghost use Rattle.vss_core.specs.States.{RevealedState, IsReceiver};

    ghost Value = { RevealedState };

    ghost view = { λ d. record { shape = d.setting; me = d.me; pairs = d.pairs; fourth = d.fourth; votes = d.votes } };

    ghost invariant = { λ d. IsReceiver d.setting d.me
        × ((length d.pairs ≡ instances d.setting) × (length d.fourth ≡ seats d.setting)) };
}

impl Revealed {
    // The state of these.
    pub(crate) fn made(
        setting: Setting,
        me: u32,
        pairs: PairList,
        fourth: PostList,
        votes: VoteList,
    ) -> Revealed
        requires receiver { IsReceiver setting me }
        requires pairs { length pairs ≡ instances setting }
        requires fourth { length fourth ≡ seats setting }
        ensures { result ≡ record { shape = setting; me = me; pairs = pairs; fourth = fourth; votes = votes } }
    {
        Revealed {
            setting,
            me,
            pairs,
            fourth,
            votes,
        }
    }

    /// The posts of the fourth round as they were heard, by seat.
    pub fn fourth(&self) -> &PostList
        ensures { result.now ≡ self.now.fourth }
    {
        &self.fourth
    }

    /// The votes that it posts in the fifth round, one for each instance.
    pub fn votes(&self, alloc: Global) -> Result<VoteList, OutOfMemory>
        ensures { IfOk result (λ l. l ≡ self.now.votes) }
    {
        self.votes.copy(alloc)
    }

    /// Hears the fifth round: in an instance with at least receivers - bound votes it has the revealed pair, where it
    /// is revealed, else the one that it held; in any other two zero polynomials.
    pub fn hear_votes(self, alloc: Global, posts: &PostList) -> Result<Done, StepError<Revealed>>
        requires { RoundPosts self.shape 5 posts.now }
        ensures { MatchResult result
            (λ d. d
            ≡ record {
              shape = self.shape;
              me = self.me;
              kept = map
                  (keeps self.shape self.me self.pairs self.fourth posts.now)
                  (places (instances self.shape));
              accepted = map (heard_accepted self.shape posts.now)
                  (places (instances self.shape));
            }) (λ k. k.state ≡ self) }
    {
        let Ok(accepted) = all_accepted(alloc, &self.setting, posts) else {
            return Err(StepError { state: self });
        };
        let Ok(kept) = kept_pairs(
            alloc,
            &self.setting,
            self.me,
            &self.pairs,
            &self.fourth,
            posts,
        ) else {
            return Err(StepError { state: self });
        };
        Ok(Done::made(self.setting, self.me, kept, accepted))
    }
}

// Which instances are accepted.
fn all_accepted(alloc: Global, setting: &Setting, posts: &PostList) -> Result<VoteList, OutOfMemory>
    requires { length posts.now ≡ seats setting.now }
    ensures { IfOk result (λ l. l ≡ map (heard_accepted setting.now posts.now) (places (instances setting.now))) }
{
    let mut accepted = VoteList::new(alloc);
    for i in 0..setting.instances() {
        accepted.push(is_accepted(setting, posts, i))?;
    }
    Ok(accepted)
}

// Whether an instance is accepted.
fn is_accepted(setting: &Setting, posts: &PostList, instance: u32) -> bool
    requires { length posts.now ≡ seats setting.now }
    ensures { result ≡ heard_accepted setting.now posts.now instance }
{
    yes_votes(setting, posts, instance) >= setting.receivers() - setting.bound()
}

// How many receivers vote yes on an instance.
fn yes_votes(setting: &Setting, posts: &PostList, instance: u32) -> u32
    requires { length posts.now ≡ seats setting.now }
    ensures { result ≡ how_many setting.now.receivers
        (λ j. voted_in instance (post_at posts.now (seat_of setting.now j))) }
{
    let mut count = 0;
    for j in 1..setting.receivers() + 1 {
        if voted_in(posts.at((setting.seat_of(j) - 1) as usize), instance) {
            count += 1;
        }
    }
    count
}

// The pairs of all instances in the end.
fn kept_pairs(
    alloc: Global,
    setting: &Setting,
    me: u32,
    pairs: &PairList,
    fourth: &PostList,
    fifth: &PostList,
) -> Result<PairList, OutOfMemory>
    requires pairs { length pairs.now ≡ instances setting.now }
    requires fourth { length fourth.now ≡ seats setting.now }
    requires fifth { length fifth.now ≡ seats setting.now }
    ensures { IfOk result
        (λ l. l ≡ map (keeps setting.now me pairs.now fourth.now fifth.now) (places (instances setting.now))) }
{
    let mut kept = PairList::new(alloc);
    for i in 0..setting.instances() {
        kept.push(kept_pair(alloc, setting, me, pairs.at(i as usize), fourth, fifth, i)?)?;
    }
    Ok(kept)
}

// The pair of an instance in the end, of which `pair` is held.
fn kept_pair(
    alloc: Global,
    setting: &Setting,
    me: u32,
    pair: &PolyPair,
    fourth: &PostList,
    fifth: &PostList,
    index: u32,
) -> Result<PolyPair, OutOfMemory>
    requires fourth { length fourth.now ≡ seats setting.now }
    requires fifth { length fifth.now ≡ seats setting.now }
    requires instance { index < instances setting.now }
    ensures { IfOk result
        (λ p. p ≡ kept_of (heard_accepted setting.now fifth.now index) (heard_shown fourth.now index me) pair.now) }
{
    if !is_accepted(setting, fifth, index) {
        return PolyPair::zero(alloc);
    }
    let dealers = setting.dealers();
    let instance = Instance::of(index);
    prove!(instance.dealer <= dealers);
    let post = fourth.at((instance.dealer - 1) as usize);
    match revealed_in(alloc, post, instance.lane, me)? {
        Some(shown) => Ok(shown),
        None => pair.copy(alloc),
    }
}
