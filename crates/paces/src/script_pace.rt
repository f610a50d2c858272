//! A pace that cuts by a list.
ghost use Rattle.std.specs.Prelude.{◌≡◌, ◌<◌, ◌↔◌, IsTrue};
ghost use Rattle.paces.specs.Picks.{Picked, IsScripted};
ghost use Rattle.paces.specs.Tallies.{cuts_in, asked_in};

use crate::Pace;
use crate::missing::with_place;
use crate::nap::nap;
use crate::tally::Tally;
use std::sync::Wait;

/// Cuts the listed seats in the listed rounds, as soon as they are missing when it is asked.
#[derive(Drop)]
pub struct ScriptPace {
    list: Vec<(u32, u32)>,
    tally: Tally,
}

impl ScriptPace {
    /// A pace that cuts these pairs of round and seat, and was never asked.
    pub fn new(list: Vec<(u32, u32)>) -> ScriptPace
        ensures { ⟦<ScriptPace as Pace>⟧.answered_count result ≡ 0 }
    {
        ScriptPace {
            list,
            tally: Tally::new(),
        }
    }
}

// Whether the place is missing, and listed for the round.
fn is_scripted(list: &[(u32, u32)], round: u32, missing: u32, place: u32) -> bool
    requires { place < 32 }
    ensures { IsTrue result ↔ IsScripted list.now round missing place }
{
    (missing >> place) % 2 == 1 && list.contains(&(round, place + 1))
}

// The missing seats that are listed for the round.
fn scripted(list: &[(u32, u32)], round: u32, missing: u32) -> u32
    ensures { Picked 32 (IsScripted list.now round missing) result }
{
    let mut answer = 0u32;
    for place in 0..32u32 {
        answer = with_place(answer, place, is_scripted(list, round, missing, place));
    }
    answer
}

impl Pace for ScriptPace {
    ghost cuts_of = { λ p. cuts_in p.tally };

    ghost asked_of = { λ p. asked_in p.tally };

    ghost answered_count = { λ p. p.tally.answered };

    ghost answered_has_a_last_value = { λ p. p.tally.few };

    ghost answers = { λ p round missing answer. Picked 32 (IsScripted p.list.items round missing) answer };

    fn begin(&mut self) {
        self.tally.begin();
    }

    fn cut<R: Wait>(&mut self, rt: &R, round: u32, missing: u32) -> u32 {
        let answer = scripted(&self.list, round, missing);
        self.tally.count(round, answer);
        if answer == 0 {
            nap(rt);
        }
        answer
    }

    fn cuts(&self, round: u32) -> u32 {
        self.tally.cuts[round as usize - 1]
    }

    fn asked(&self, round: u32) -> u64 {
        self.tally.asked[round as usize - 1]
    }

    fn answered(&self) -> u64 {
        self.tally.answered
    }
}
