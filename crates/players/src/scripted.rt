//! Minds that say what they were told to say.

ghost use Rattle.std.specs.Prelude.{◌≡◌};
ghost use Rattle.players.specs.Script.{script_fits, word_at};

use lists::{OutOfMemory, TryCopy};
use std::alloc::Global;
use std::marker::Model;
use talk::{Heard, Mind, Say};

/// A mind that says in each round the item of that round, the first round's first, and passes past the end of its
/// items. It keeps nothing of what it hears. It is made for each setting for which every item's ring messages are one
/// for each seat, and for each seat at which these are `Nothing`. Contracts see it as the list of its items.
#[derive(Drop)]
pub struct Scripted {
    says: Vec<Say>,
}

impl Model for Scripted {
    ghost use Rattle.std.specs.Prelude.{List};
    ghost use Rattle.talk.specs.declared.messages.Say.{Say};

    ghost Value = { List Say };

    ghost view = { λ a. a.says.items };
}

impl Scripted {
    /// A mind that will say these items. It may say every round.
    pub fn new(says: Vec<Say>) -> Scripted
        ensures { result ≡ says.items }
    {
        Scripted { says }
    }
}

impl Mind for Scripted {
    ghost made_for = { λ says s seat. script_fits says s seat };

    ghost may_say = { λ says round. Unit {0} };

    ghost may_hear = { λ says round. Unit {0} };

    ghost word = { λ says round. word_at says round };

    ghost after_say = { λ says round. says };

    ghost after_hear = { λ says round h. says };

    ghost say_keeps = { λ says round may s seat. (λ made. made, λ made. made) };

    ghost hear_keeps = { λ says round h may s seat. (λ made. made, λ made. made) };

    ghost hears_next = { λ says round may. tt };

    ghost says_next = { λ says round h s seat may made less. tt };

    fn say(&mut self, alloc: Global, round: u32) -> Result<Say, OutOfMemory> {
        match self.says.get(round.saturating_sub(1) as usize) {
            Some(word) => word.copy(alloc),
            None => Ok(Say::Pass),
        }
    }

    fn hear(&mut self, _alloc: Global, _round: u32, _heard: Heard) -> Result<(), OutOfMemory> {
        Ok(())
    }
}
