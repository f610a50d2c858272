//! How a seat that only deals goes from one round to the next.

ghost use Rattle.std.specs.Prelude.{◌≡◌, MatchResult};
ghost use Rattle.sharer.specs.Sharer.{round_of};
ghost use Rattle.sharer.specs.View.{stage_at, turn_after};

use lists::TryCopy;
use std::alloc::Global;
use talk::{Heard, PostList};

// The round that it says next. Of what it hears it keeps the posts of the third round, from which its reveals follow, and
// those of the fourth, each for one round.
#[derive(Drop)]
pub(crate) enum Turn {
    First,
    Second,
    Third,
    Fourth { third: PostList },
    Fifth { fourth: PostList },
    Over,
}

impl Turn {
    // The round that it says next.
    pub(crate) fn round(&self) -> u32
        ensures { result ≡ round_of (stage_at self.now) }
    {
        match self {
            Turn::First => 1,
            Turn::Second => 2,
            Turn::Third => 3,
            Turn::Fourth { .. } => 4,
            Turn::Fifth { .. } => 5,
            Turn::Over => 6,
        }
    }

    // The turn after hearing a round. Where memory is wanting, the old one comes back.
    pub(crate) fn next(self, alloc: Global, heard: &Heard) -> Result<Turn, Turn>
        ensures { MatchResult result (λ t. t ≡ turn_after heard.now self) (λ t. t ≡ self) }
    {
        match self {
            Turn::First => Ok(Turn::Second),
            Turn::Second => Ok(Turn::Third),
            Turn::Third => match heard.posts.copy(alloc) {
                Ok(third) => Ok(Turn::Fourth { third }),
                Err(_) => Err(Turn::Third),
            },
            Turn::Fourth { third } => match heard.posts.copy(alloc) {
                Ok(fourth) => Ok(Turn::Fifth { fourth }),
                Err(_) => Err(Turn::Fourth { third }),
            },
            Turn::Fifth { .. } | Turn::Over => Ok(Turn::Over),
        }
    }
}
