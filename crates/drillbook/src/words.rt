//! The words of a drill's text.

ghost use Rattle.std.specs.Prelude.{◌≡◌, ◌==◌, ◌+◌, ◌<◌, ◌∷◌, [], take, drop, length, MatchOption};
ghost use Rattle.std.specs.List.{position};
ghost use Rattle.drillbook.specs.Text.{split, plain_verb, argued_verb, is_verb};

use crate::Verb;
use decimals::read_u64;
use field61::Fe;

// Where the first separator stands.
#[tactic(auto, using(crate::proofs::Parts::cut_is))]
pub(crate) fn cut_at(text: &[u8], separator: u8) -> Option<usize>
    ensures { MatchOption result (split separator text.now ≡ text.now ∷ [])
        (λ k. (k < length text.now)
        × (split separator text.now ≡ take k text.now ∷ split separator (drop (k + 1) text.now))) }
{
    separator_at(text, separator)
}

// The place of the first separator.
fn separator_at(text: &[u8], separator: u8) -> Option<usize>
    ensures { result ≡ position (λ c. c == separator) text.now }
{
    text.iter().position(|c| *c == separator)
}

// The verb that takes no argument.
pub(crate) fn plain_verb(word: &[u8]) -> Option<Verb>
    ensures { result ≡ plain_verb word.now }
{
    if word == b"silent".as_slice() {
        Some(Verb::Silent)
    } else if word == b"late".as_slice() {
        Some(Verb::Late)
    } else if word == b"garble".as_slice() {
        Some(Verb::Garble)
    } else if word == b"veto".as_slice() {
        Some(Verb::Veto)
    } else {
        None
    }
}

// The verb with its argument.
pub(crate) fn argued_verb(word: &[u8], argument: &[u8]) -> Option<Verb>
    ensures { result ≡ argued_verb word.now argument.now }
{
    let number = read_u64(argument);
    if word == b"skew".as_slice() {
        Some(Verb::Skew {
            by: Fe::from_u64(number?)?,
        })
    } else if word == b"wrong".as_slice() {
        Some(Verb::Wrong {
            by: Fe::from_u64(number?)?,
        })
    } else if word == b"accuse".as_slice() {
        Some(Verb::Accuse {
            receiver: u32::try_from(number?).ok()?,
        })
    } else {
        None
    }
}

// Whether a word is a verb.
pub(crate) fn is_verb(word: &[u8]) -> bool
    ensures { result ≡ is_verb word.now }
{
    plain_verb(word).is_some()
        || word == b"skew".as_slice()
        || word == b"wrong".as_slice()
        || word == b"accuse".as_slice()
}
