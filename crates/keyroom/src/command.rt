//! The words of a command.
ghost use Rattle.std.specs.Prelude.{◌≡◌, ◌≢◌, ◌≤◌, ℕ, ◌↔◌, [], ◌∷◌, ◌==◌, not, eqb, IfSome, IfNone, IsTrue, codes, decimal};
ghost use Rattle.std.specs.List.{list_all, starts_with};
ghost use Rattle.keyroom.specs.Words.{texts, optional, ReadsAs, IsUsage, ReadsAsMaking, MakesNothing, is_plain_text, ends_like_a_key_file, is_file_name};
ghost use Rattle.sizes.specs.Committees.{is_size, is_bound};
ghost use Rattle.keyroom.specs.Commands.{command_of, text_of};

use decimals::read_u32;
use sharefile::KeyName;
use sizes::Committee;

/// A command. Words that may be long are lent by whoever read them, so that reading takes no memory.
#[derive(Clone, Copy, Debug)]
pub enum Command<'a> {
    /// `create NAME N T` and `create NAME N T DRILL`: makes a key of N members, of whom at most T may be faulty, and of
    /// whom some misbehave as the drill says, where one is named.
    Create {
        name: KeyName,
        committee: Committee,
        drill: Option<&'a str>,
    },
    /// `refresh NAME` and `refresh NAME DRILL`: begins a new period of the key with new shares, in which some misbehave as
    /// the drill says, where one is named.
    Refresh {
        name: KeyName,
        drill: Option<&'a str>,
    },
    /// `move NAME N T` and `move NAME N T DRILL`: gives the key to another committee of N members, of whom at most T may be
    /// faulty. Some of the old and the new members misbehave as the drill says, where one is named.
    Move {
        name: KeyName,
        committee: Committee,
        drill: Option<&'a str>,
    },
    /// `recover NAME`: prints the members' states and the fingerprint of the key.
    Recover {
        name: KeyName,
    },
    /// `check NAME`: prints the members' states.
    Check {
        name: KeyName,
    },
    /// `seal NAME DOC BOX`: seals the document under the name `doc` into a box under the name `target`.
    Seal {
        name: KeyName,
        doc: &'a str,
        target: &'a str,
    },
    /// `open NAME BOX DOC`: opens the box under the name `source` into a document under the name `target`.
    Open {
        name: KeyName,
        source: &'a str,
        target: &'a str,
    },
    /// `rehearse N T PERIODS NUMBER`: plays a whole life of a key from the number, with no files: a create among N members,
    /// of whom at most T may be faulty, and 1 to 64 periods after the first.
    Rehearse {
        committee: Committee,
        periods: u32,
        number: u32,
    },
}

/// The command that these words are. `None` exactly where no command is spelled so.
pub fn read_words(words: &[String]) -> Option<Command<'_>>
    ensures found { IfSome result (λ command. ReadsAs (texts words.now) (command_of command)) }
    ensures none { IfNone result (IsUsage (texts words.now)) }
{
    let (first, rest) = words.split_first()?;
    match first.as_str() {
        "create" => create_words(rest),
        "refresh" => refresh_words(rest),
        "move" => move_words(rest),
        "recover" => recover_words(rest),
        "check" => check_words(rest),
        "seal" => seal_words(rest),
        "open" => open_words(rest),
        "rehearse" => rehearse_words(rest),
        _ => None,
    }
}

/// The committee of a size and a bound by their digits, where a command can make it.
fn read_committee(members: &str, bound: &str) -> Option<Committee>
    ensures found { IfSome result (λ c. (members.now ≡ decimal c.members) × (bound.now ≡ decimal c.bound) × IsTrue (is_size c.members) × IsTrue (is_bound c.members c.bound)) }
    ensures none { IfNone result ((n t : ℕ) → IsTrue (is_size n) → IsTrue (is_bound n t) → members.now ≡ decimal n → bound.now ≢ decimal t) }
{
    let size = read_u32(members.as_bytes())?;
    let most = read_u32(bound.as_bytes())?;
    let committee = Committee {
        members: size,
        bound: most,
    };
    if committee.can_be_made() {
        Some(committee)
    } else {
        None
    }
}

/// What a command that makes a committee is told: the key's name, the committee, and the drill, where one is named.
#[derive(Clone, Copy, Debug)]
struct Making<'a> {
    name: KeyName,
    committee: Committee,
    drill: Option<&'a str>,
}

/// What the words behind the first tell a command that makes a committee.
fn making_words(rest: &[String]) -> Option<Making<'_>>
    ensures found { IfSome result (λ m. ReadsAsMaking (texts rest.now) m.name m.committee.members m.committee.bound (text_of m.drill)) }
    ensures none { IfNone result (MakesNothing (texts rest.now)) }
{
    match rest {
        [name, members, bound] => {
            making_of(name.as_str(), members.as_str(), bound.as_str(), None)
        }
        [name, members, bound, drill] if is_file_name(drill.as_str()) => making_of(
            name.as_str(),
            members.as_str(),
            bound.as_str(),
            Some(drill.as_str()),
        ),
        _ => None,
    }
}

/// What these words tell, of which the last may be left out.
fn making_of<'a>(
    name: &str,
    members: &str,
    bound: &str,
    drill: Option<&'a str>,
) -> Option<Making<'a>>
    requires { IfSome (text_of drill) (λ file. IsTrue (is_file_name file)) }
    ensures found { IfSome result (λ m. ReadsAsMaking (name.now ∷ members.now ∷ bound.now ∷ optional (text_of drill.entry)) m.name m.committee.members m.committee.bound (text_of m.drill)) }
    ensures none { IfNone result (MakesNothing (name.now ∷ members.now ∷ bound.now ∷ optional (text_of drill.entry))) }
{
    let name = KeyName::from_text(name)?;
    let committee = read_committee(members, bound)?;
    Some(Making {
        name,
        committee,
        drill,
    })
}

fn create_words(rest: &[String]) -> Option<Command<'_>>
    ensures found { IfSome result (λ command. ReadsAs (codes "create" ∷ texts rest.now) (command_of command)) }
    ensures none { IfNone result (IsUsage (codes "create" ∷ texts rest.now)) }
{
    let Some(making) = making_words(rest) else {
        return None;
    };
    Some(Command::Create {
        name: making.name,
        committee: making.committee,
        drill: making.drill,
    })
}

fn move_words(rest: &[String]) -> Option<Command<'_>>
    ensures found { IfSome result (λ command. ReadsAs (codes "move" ∷ texts rest.now) (command_of command)) }
    ensures none { IfNone result (IsUsage (codes "move" ∷ texts rest.now)) }
{
    let Some(making) = making_words(rest) else {
        return None;
    };
    Some(Command::Move {
        name: making.name,
        committee: making.committee,
        drill: making.drill,
    })
}

fn refresh_words(rest: &[String]) -> Option<Command<'_>>
    ensures found { IfSome result (λ command. ReadsAs (codes "refresh" ∷ texts rest.now) (command_of command)) }
    ensures none { IfNone result (IsUsage (codes "refresh" ∷ texts rest.now)) }
{
    match rest {
        [name] => refresh_of(name.as_str(), None),
        [name, drill] if is_file_name(drill.as_str()) => {
            refresh_of(name.as_str(), Some(drill.as_str()))
        }
        _ => None,
    }
}

/// The refresh of these words, of which the last may be left out.
fn refresh_of<'a>(name: &str, drill: Option<&'a str>) -> Option<Command<'a>>
    requires { IfSome (text_of drill) (λ file. IsTrue (is_file_name file)) }
    ensures found { IfSome result (λ command. ReadsAs (codes "refresh" ∷ name.now ∷ optional (text_of drill.entry)) (command_of command)) }
    ensures none { IfNone result (IsUsage (codes "refresh" ∷ name.now ∷ optional (text_of drill.entry))) }
{
    let name = KeyName::from_text(name)?;
    Some(Command::Refresh { name, drill })
}

fn recover_words(rest: &[String]) -> Option<Command<'_>>
    ensures found { IfSome result (λ command. ReadsAs (codes "recover" ∷ texts rest.now) (command_of command)) }
    ensures none { IfNone result (IsUsage (codes "recover" ∷ texts rest.now)) }
{
    match rest {
        [name] => Some(Command::Recover {
            name: KeyName::from_text(name.as_str())?,
        }),
        _ => None,
    }
}

fn check_words(rest: &[String]) -> Option<Command<'_>>
    ensures found { IfSome result (λ command. ReadsAs (codes "check" ∷ texts rest.now) (command_of command)) }
    ensures none { IfNone result (IsUsage (codes "check" ∷ texts rest.now)) }
{
    match rest {
        [name] => Some(Command::Check {
            name: KeyName::from_text(name.as_str())?,
        }),
        _ => None,
    }
}

fn begins_with_a_dash(text: &[u8]) -> bool
    ensures { result ≡ starts_with eqb text.now (codes "-") }
{
    text.starts_with(b"-")
}

fn has_no_zero(text: &[u8]) -> bool
    ensures { result ≡ list_all (λ b. not (b == 0)) text.now }
{
    text.iter().all(|b| *b != 0)
}

/// Whether the text doesn't begin with `-` and holds no zero byte.
fn is_plain_text(text: &[u8]) -> bool
    ensures { result ≡ is_plain_text text.now }
{
    !begins_with_a_dash(text) && has_no_zero(text)
}

/// Whether the text ends like the name of a key's file.
fn ends_like_a_key_file(text: &[u8]) -> bool
    ensures { result ≡ ends_like_a_key_file text.now }
{
    text.ends_with(b".now") || text.ends_with(b".share")
}

/// Whether a word may name a file that is none of a key's.
#[tactic(auto, unfolding(crate::specs::Words::is_file_name))]
fn is_file_name(word: &str) -> bool
    ensures { result ≡ is_file_name word.now }
{
    let text = word.as_bytes();
    1 <= text.len() && text.len() <= 255 && is_plain_text(text) && !ends_like_a_key_file(text)
}

/// Whether both words may name such files.
fn are_file_names(first: &str, second: &str) -> bool
    ensures { IsTrue result ↔ (IsTrue (is_file_name first.now) × IsTrue (is_file_name second.now)) }
{
    is_file_name(first) && is_file_name(second)
}

fn seal_words(rest: &[String]) -> Option<Command<'_>>
    ensures found { IfSome result (λ command. ReadsAs (codes "seal" ∷ texts rest.now) (command_of command)) }
    ensures none { IfNone result (IsUsage (codes "seal" ∷ texts rest.now)) }
{
    match rest {
        [name, doc, target] if are_file_names(doc.as_str(), target.as_str()) => Some(
            Command::Seal {
                name: KeyName::from_text(name.as_str())?,
                doc: doc.as_str(),
                target: target.as_str(),
            },
        ),
        _ => None,
    }
}

fn open_words(rest: &[String]) -> Option<Command<'_>>
    ensures found { IfSome result (λ command. ReadsAs (codes "open" ∷ texts rest.now) (command_of command)) }
    ensures none { IfNone result (IsUsage (codes "open" ∷ texts rest.now)) }
{
    match rest {
        [name, source, target] if are_file_names(source.as_str(), target.as_str()) => {
            Some(Command::Open {
                name: KeyName::from_text(name.as_str())?,
                source: source.as_str(),
                target: target.as_str(),
            })
        }
        _ => None,
    }
}

/// How many periods a rehearsal has after the first: 1 to 64, by its digits.
fn read_periods(word: &str) -> Option<u32>
    ensures found { IfSome result (λ periods. (word.now ≡ decimal periods) × (1 ≤ periods) × (periods ≤ 64)) }
    ensures none { IfNone result ((periods : ℕ) → 1 ≤ periods → periods ≤ 64 → word.now ≢ decimal periods) }
{
    let periods = read_u32(word.as_bytes())?;
    if 1 <= periods && periods <= 64 {
        Some(periods)
    } else {
        None
    }
}

/// The rehearsal of these words.
fn rehearsal_of<'a>(members: &str, bound: &str, periods: &str, number: &str) -> Option<Command<'a>>
    ensures found { IfSome result (λ command. ReadsAs (codes "rehearse" ∷ members.now ∷ bound.now ∷ periods.now ∷ number.now ∷ []) (command_of command)) }
    ensures none { IfNone result (IsUsage (codes "rehearse" ∷ members.now ∷ bound.now ∷ periods.now ∷ number.now ∷ [])) }
{
    let committee = read_committee(members, bound)?;
    let periods = read_periods(periods)?;
    let number = read_u32(number.as_bytes())?;
    Some(Command::Rehearse {
        committee,
        periods,
        number,
    })
}

fn rehearse_words(rest: &[String]) -> Option<Command<'_>>
    ensures found { IfSome result (λ command. ReadsAs (codes "rehearse" ∷ texts rest.now) (command_of command)) }
    ensures none { IfNone result (IsUsage (codes "rehearse" ∷ texts rest.now)) }
{
    match rest {
        [members, bound, periods, number] => rehearsal_of(
            members.as_str(),
            bound.as_str(),
            periods.as_str(),
            number.as_str(),
        ),
        _ => None,
    }
}
