//! A receiver after the third round.

ghost use Rattle.std.specs.Prelude.{◌≡◌, ℕ, ◌+◌, ◌-◌, ◌<◌, ◌≤◌, List, [], length, IfOk, MatchResult};
ghost use Rattle.talk.specs.Shape.{Shape, seats, instances};
ghost use Rattle.plays.specs.Said.{vote_list};
ghost use Rattle.plays.specs.Seat.{says_yes};
ghost use Rattle.vss_core.specs.States.{ComplainedState, RevealedState, IsReceiver, RoundPosts};

use crate::votes::votes_of;
use crate::{PairList, Revealed, StepError};
use lists::TryCopy;
use std::alloc::Global;
use std::marker::Model;
use talk::{PostList, Setting};

/// A receiver after the third round. Contracts see its setting, its index, its pairs and the posts of the third round.
#[derive(Drop)]
pub struct Complained {
    setting: Setting,
    me: u32,
    pairs: PairList,
    third: PostList,
}

impl Model for Complained {
    ghost use Rattle.std.specs.Prelude.{◌≡◌, length};
    ghost use Rattle.talk.specs.Shape.{instances, seats};
    ghost use Rattle.vss_core.specs.States.{ComplainedState, IsReceiver};

    ghost Value = { ComplainedState };

    ghost view = { λ d. record { shape = d.setting; me = d.me; pairs = d.pairs; third = d.third } };

    ghost invariant = { λ d. IsReceiver d.setting d.me
        × ((length d.pairs ≡ instances d.setting) × (length d.third ≡ seats d.setting)) };
}

impl Complained {
    // The state of these.
    pub(crate) fn made(setting: Setting, me: u32, pairs: PairList, third: PostList) -> Complained
        requires receiver { IsReceiver setting me }
        requires pairs { length pairs ≡ instances setting }
        requires third { length third ≡ seats setting }
        ensures { result ≡ record { shape = setting; me = me; pairs = pairs; third = third } }
    {
        Complained {
            setting,
            me,
            pairs,
            third,
        }
    }

    /// The posts of the third round as they were heard, by seat.
    pub fn third(&self) -> &PostList
        ensures is { result.now ≡ self.now.third }
        ensures all { length self.now.third ≡ seats self.now.shape }
    {
        &self.third
    }

    /// Hears the fourth round: it votes, from the complaints and the reveals.
    pub fn hear_reveals(
        self,
        alloc: Global,
        posts: &PostList,
    ) -> Result<Revealed, StepError<Complained>>
        requires { RoundPosts self.shape 4 posts.now }
        ensures { MatchResult result
            (λ r. r
            ≡ record {
              shape = self.shape;
              me = self.me;
              pairs = self.pairs;
              fourth = posts.now;
              votes = vote_list
                  (instances self.shape) (says_yes self.shape self.me self.pairs self.third posts.now);
            })
            (λ k. k.state ≡ self) }
    {
        let Ok(votes) = votes_of(
            alloc,
            &self.setting,
            self.me,
            &self.pairs,
            &self.third,
            posts,
        ) else {
            return Err(StepError { state: self });
        };
        let Ok(fourth) = posts.copy(alloc) else {
            return Err(StepError { state: self });
        };
        Ok(Revealed::made(self.setting, self.me, self.pairs, fourth, votes))
    }
}
