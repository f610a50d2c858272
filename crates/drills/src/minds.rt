//! A mind whose words are known, and what it says under a drill.

ghost use Rattle.std.specs.Prelude.{eqb, cond, IfOk};
ghost use Rattle.talk.specs.Hears.{OneEach, WordFits};

use super::numbers::{is_written, write_word};
use super::values::{steps, votes};
use drillbook::{DrillFault, Drilled, read_drill};
use field61::Fe;
use lists::{OutOfMemory, TryCopy};
use std::alloc::Global;
use talk::{
    Complaint, ComplaintList, Heard, Mind, Post, Reveal, RevealList, Ring, RingList, Say, Setting,
};

// A mind that says one word in the second round and another in every other round.
#[derive(Drop)]
pub(crate) struct Plain {
    second: Say,
    word: Say,
}

impl Mind for Plain {
    ghost made_for = { λ p s seat. WordFits s seat p.second × WordFits s seat p.word };

    ghost may_say = { λ p round. Unit {0} };

    ghost may_hear = { λ p round. Unit {0} };

    ghost word = { λ p round. cond (eqb round 2) p.second p.word };

    ghost after_say = { λ p round. p };

    ghost after_hear = { λ p round h. p };

    ghost say_keeps = { λ p round may s seat. (λ m. m, λ m. m) };

    ghost hear_keeps = { λ p round h may s seat. (λ m. m, λ m. m) };

    ghost hears_next = { λ p round may. tt };

    ghost says_next = { λ p round h s seat may made less. tt };

    fn say(&mut self, alloc: Global, round: u32) -> Result<Say, OutOfMemory> {
        if round == 2 {
            self.second.copy(alloc)
        } else {
            self.word.copy(alloc)
        }
    }

    fn hear(&mut self, _alloc: Global, _round: u32, _heard: Heard) -> Result<(), OutOfMemory> {
        Ok(())
    }
}

// Whether and when a mind says its words.
#[derive(Clone, Copy)]
pub(crate) enum Manner {
    InTime,
    Late,
    Passing,
}

// Where a mind sits, how many crossing points it sends, two for an instance, and how it says its words.
#[derive(Drop)]
pub(crate) struct Place {
    pub(crate) setting: Setting,
    pub(crate) seat: u32,
    pub(crate) points: u64,
    pub(crate) manner: Manner,
}

// A seat from which the crossing points of two instances are sent.
pub(crate) fn place_at(setting: Setting, seat: u32, manner: Manner) -> Place {
    Place {
        setting,
        seat,
        points: 4,
        manner,
    }
}

fn complaint(instance: u32, against: u32, value: u64) -> Complaint {
    Complaint {
        instance,
        against,
        u: Fe::reduce(value),
        v: Fe::reduce(value),
    }
}

fn complaints(alloc: Global) -> Result<Post, OutOfMemory> {
    let mut list = ComplaintList::new(alloc);
    list.push(complaint(0, 1, 7))?;
    list.push(complaint(0, 3, 1))?;
    list.push(complaint(0, 4, 8))?;
    list.push(complaint(1, 4, 9))?;
    Ok(Post::Complaints { list })
}

// A reveal of as many coefficients as there are, those of the row from `first` on, those of the column from
// `first + 2` on.
fn reveal(
    alloc: Global,
    lane: u32,
    receiver: u32,
    first: u32,
    count: u64,
) -> Result<Reveal, OutOfMemory> {
    Ok(Reveal {
        lane,
        receiver,
        row: steps(alloc, u64::from(first), 1, count)?,
        column: steps(alloc, u64::from(first) + 2, 1, count)?,
    })
}

fn reveals(alloc: Global, count: u64) -> Result<Post, OutOfMemory> {
    let mut list = RevealList::new(alloc);
    list.push(reveal(alloc, 0, 3, 4, count)?)?;
    list.push(reveal(alloc, 1, 4, 8, count)?)?;
    Ok(Post::Reveals { list })
}

// Four values, the last of which is the greatest.
fn syndromes(alloc: Global) -> Result<Post, OutOfMemory> {
    let mut list = steps(alloc, 1, 1, 3)?;
    list.push(Fe::ZERO.sub(Fe::ONE))?;
    Ok(Post::Syndromes { list })
}

// What the mind posts in a round.
fn post_in(alloc: Global, setting: &Setting, round: u32) -> Result<Post, OutOfMemory> {
    match round {
        3 => complaints(alloc),
        4 => reveals(alloc, u64::from(setting.degree()) + 1),
        5 => votes(alloc, 3),
        6 => syndromes(alloc),
        _ => Ok(Post::Quiet),
    }
}

// What it sends to a seat in a round: as a dealer two lanes to each other receiver, as a receiver crossing
// points.
fn ring_to(alloc: Global, place: &Place, round: u32, to: u32) -> Result<Ring, OutOfMemory> {
    let s = &place.setting;
    if to == place.seat || !s.receives(to) {
        Ok(Ring::Nothing)
    } else if round == 1 && s.deals(place.seat) {
        Ok(Ring::Dealt {
            list: steps(
                alloc,
                10 * u64::from(to),
                1,
                4 * (u64::from(s.degree()) + 1),
            )?,
        })
    } else if round == 2 && s.receives(place.seat) {
        Ok(Ring::Cross {
            list: steps(alloc, 1000 * u64::from(to) + 10, 10, place.points)?,
        })
    } else {
        Ok(Ring::Nothing)
    }
}

fn rings_in(alloc: Global, place: &Place, round: u32) -> Result<RingList, OutOfMemory>
    ensures { IfOk result (λ l. OneEach place.now.setting place.now.seat l) }
{
    let mut rings = RingList::new(alloc);
    for to in 1..place.setting.seats() + 1 {
        rings.push(ring_to(alloc, place, round, to)?)?;
    }
    expect_one_each(rings, &place.setting, place.seat)
}

// The ring messages, where there is one for each seat and none for the own.
fn expect_one_each(rings: RingList, setting: &Setting, seat: u32) -> Result<RingList, OutOfMemory>
    ensures { IfOk result (λ l. OneEach setting.now seat l) }
{
    let own = seat.saturating_sub(1) as usize;
    if rings.len() != setting.seats() as usize || own >= rings.len() {
        return Err(OutOfMemory);
    }
    match rings.at(own) {
        Ring::Nothing => Ok(rings),
        Ring::Dealt { .. } | Ring::Cross { .. } => Err(OutOfMemory),
    }
}

fn word_in(alloc: Global, place: &Place, round: u32) -> Result<Say, OutOfMemory>
    ensures { IfOk result (λ w. WordFits place.now.setting place.now.seat w) }
{
    let post = post_in(alloc, &place.setting, round)?;
    let rings = rings_in(alloc, place, round)?;
    match place.manner {
        Manner::InTime => Ok(Say::Speak { post, rings }),
        Manner::Late => Ok(Say::PassThenSpeak { post, rings }),
        Manner::Passing => Ok(Say::Pass),
    }
}

// What the mind says in a round under a drill, after its word of the second round.
pub(crate) fn said(
    alloc: Global,
    place: &Place,
    text: &str,
    round: u32,
) -> Result<Say, DrillFault> {
    let drill = read_drill(alloc, text.as_bytes(), &place.setting)?;
    let mind = Plain {
        second: word_in(alloc, place, 2)?,
        word: word_in(alloc, place, round)?,
    };
    let mut drilled = Drilled::new(alloc, mind, &drill, place.seat, place.setting)?;
    drilled.say(alloc, 2)?;
    Ok(drilled.say(alloc, round)?)
}

// Whether that is the word that the parts write, one after the other.
pub(crate) fn says(
    alloc: Global,
    place: &Place,
    text: &str,
    round: u32,
    parts: &[&[u64]],
) -> Result<bool, DrillFault> {
    let word = said(alloc, place, text, round)?;
    Ok(is_written(&write_word(alloc, &word)?, parts))
}
