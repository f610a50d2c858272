//! The synchronous run on one thread.

ghost use Rattle.std.specs.Prelude.{◌≡◌, ℕ, ◌+◌, ◌<◌, ◌≤◌, length, IfOk};
ghost use Rattle.talk.specs.Shape.{rounds, seats};
ghost use Rattle.talk.specs.Sync.{AllAllowed, all_seats, nobody, sync, ways};
ghost use Rattle.talk.specs.Hears.{Hearing, Seated};
ghost use Rattle.driver.specs.Spoken.{AllSpoken};

use crate::masks::spoken_mask;
use crate::{hear_all, say_all};
use field61::NumberList;
use lists::OutOfMemory;
use std::alloc::Global;
use talk::{Driven, Mind, Setting, all_in};

/// Runs all rounds of a phase on one thread, with the fresh mind at place `k` on seat `k + 1`. In each round
/// every mind says its word, and then every mind hears the posts and ring messages of the seats in the
/// round's mask, each as read. In the mask is who was in the one before and speaks in time: a seat that
/// passes or speaks late is out from then on, and what it says is not heard. It fails only where memory is wanting.
pub fn drive<M: Mind>(
    alloc: Global,
    mut minds: Vec<M>,
    setting: &Setting,
) -> Result<Driven<M>, OutOfMemory>
    requires all { length minds.items ≡ seats setting.now }
    requires fresh { Hearing M.may_say 1 minds.items }
    requires made { Seated M.made_for setting.now 1 minds.items }
    ensures minds { IfOk result (λ driven.
        driven.minds.items ≡ sync (ways M.word M.after_say M.after_hear) setting.now 1 driven.masks minds.items) }
    ensures rounds { IfOk result (λ driven. length driven.masks ≡ rounds setting.now) }
    ensures allowed { IfOk result (λ driven.
        AllAllowed (ways M.word M.after_say M.after_hear) setting.now 1 (all_seats setting.now) nobody driven.masks
        minds.items) }
    ensures spoken { IfOk result (λ driven.
        AllSpoken (ways M.word M.after_say M.after_hear) setting.now 1 (all_seats setting.now) driven.masks
        minds.items) }
{
    let mut masks = NumberList::new(alloc);
    let mut before = all_in(setting);
    for round in 1..setting.rounds() + 1 {
        let words = say_all(alloc, &mut minds, round)?;
        let mask = spoken_mask(&words, before);
        hear_all(alloc, &mut minds, setting, round, mask, &words)?;
        masks.push(mask)?;
        before = mask;
    }
    Ok(Driven { minds, masks })
}
