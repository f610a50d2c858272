//! Reading a drill's text.

ghost use Rattle.std.specs.Prelude.{◌≡◌, ℕ, ◌+◌, ◌<◌, ◌≤◌, ◌≢◌, List, [], ◌∷◌, length, true, false, Ok, Err, IfOk, MatchResult};
ghost use Rattle.std.proofs.Common.{leb};
ghost use Rattle.sharing61.specs.Count.{how_many};
ghost use Rattle.drillbook.specs.Orders.{AllLawful, is_lawful, names};
ghost use Rattle.decimals.specs.Decimals.{number_in};
ghost use Rattle.drillbook.specs.Text.{Fails, Reads, counted, drill_at, line_at, lines_at, old_bound, order_in, order_of, split, stranger_in, stranger_of, with_order};

use crate::drill::{is_lawful, named_among};
use crate::words::{argued_verb, cut_at, is_verb, plain_verb};
use crate::{Drill, DrillFault, Order, Verb};
use decimals::read_u64;
use std::alloc::Global;
use talk::Setting;

/// Reads a drill for a setting. The text is lines, parted by line feeds; the last line feed may be missing. An
/// empty line and a line that begins with `#` say nothing. Each other line is `PARTY ROUND VERB` or
/// `PARTY ROUND VERB ARGUMENT` with single spaces, an order that is lawful for the setting; no party has two
/// orders for one round. Numbers are decimal without leading zeros.
///
/// The first refused line decides whether the fault is `BadLine` or `Stranger`; `TooMany` comes where no line
/// is refused.
pub fn read_drill(alloc: Global, text: &[u8], setting: &Setting) -> Result<Drill, DrillFault>
    ensures is { Reads result (drill_at setting.now text.now) }
    ensures lawful { IfOk result (λ d. AllLawful setting.now d) }
    ensures few { IfOk result
        (λ d. how_many setting.now.receivers (λ j. names d (setting.now.shift + j)) ≤ setting.now.bound) }
    ensures old { IfOk result
        (λ d. setting.now.shift ≢ 0 → how_many setting.now.dealers (names d) ≤ old_bound setting.now) }
{
    let drill = read_lines(alloc, text, setting)?;
    expect_few_named(&drill, setting)?;
    Ok(drill)
}

// Refuses a drill that names more of a committee than may be faulty, the old one of a move first.
fn expect_few_named(drill: &Drill, setting: &Setting) -> Result<(), DrillFault>
    ensures { MatchResult result (λ _. counted setting.now drill.now ≡ Ok drill.now)
        (λ e. counted setting.now drill.now ≡ Err e) }
{
    if setting.shift() != 0 {
        let bound = setting
            .dealers()
            .saturating_sub(setting.checks())
            .saturating_sub(1);
        expect_few(named_among(drill, 0, setting.dealers()), bound)?;
    }
    expect_few(
        named_among(drill, setting.shift(), setting.receivers()),
        setting.bound(),
    )
}

// Refuses more named members than may be faulty.
fn expect_few(named: u32, bound: u32) -> Result<(), DrillFault>
    ensures { MatchResult result (λ _. leb named bound ≡ true)
        (λ e. (leb named bound ≡ false) × (e ≡ DrillFault.TooMany named bound)) }
{
    if named <= bound {
        Ok(())
    } else {
        Err(DrillFault::TooMany { named, bound })
    }
}

// The orders of all lines.
fn read_lines(alloc: Global, text: &[u8], setting: &Setting) -> Result<Drill, DrillFault>
    ensures { Reads result (lines_at setting.now 1 [] (split 10 text.now)) }
{
    let mut drill = Drill::none(alloc);
    let mut line: u64 = 1;
    let mut rest = text;
    while let Some(end) = cut_at(rest, b'\n') {
        read_line(&mut drill, &rest[..end], line, setting)?;
        rest = &rest[end + 1..];
        line += 1;
    }
    read_line(&mut drill, rest, line, setting)?;
    Ok(drill)
}

// Adds the order of a line.
fn read_line(drill: &mut Drill, text: &[u8], line: u64, setting: &Setting) -> Result<(), DrillFault>
    ensures { MatchResult result (λ _. line_at setting.now line drill.old text.now ≡ Ok drill.new)
        (λ e. Fails e (line_at setting.now line drill.old text.now)) }
{
    if text.is_empty() || text[0] == b'#' {
        return Ok(());
    }
    let said = read_words(text, setting);
    if let Some(party) = said.stranger {
        return Err(DrillFault::Stranger { line, party });
    }
    match said.order {
        Some(order) => add_order(drill, line, order),
        None => Err(DrillFault::BadLine { line }),
    }
}

// Adds an order, unless its party has one for its round.
fn add_order(drill: &mut Drill, line: u64, order: Order) -> Result<(), DrillFault>
    ensures { MatchResult result (λ _. with_order line drill.old order ≡ Ok drill.new)
        (λ e. Fails e (with_order line drill.old order)) }
{
    if drill.order_at(order.party, order.round).is_some() {
        return Err(DrillFault::BadLine { line });
    }
    drill.push(order)?;
    Ok(())
}

// What the words of a line say: a party that is no seat, and an order that is lawful.
#[derive(Drop)]
struct Said {
    stranger: Option<u64>,
    order: Option<Order>,
}

// What a line's words say.
fn read_words(text: &[u8], setting: &Setting) -> Said
    ensures stranger { result.stranger ≡ stranger_in setting.now (split 32 text.now) }
    ensures order { result.order ≡ order_in setting.now (split 32 text.now) }
{
    let nothing = Said {
        stranger: None,
        order: None,
    };
    let Some(first) = cut_at(text, b' ') else {
        return nothing;
    };
    let rest = &text[first + 1..];
    let Some(second) = cut_at(rest, b' ') else {
        return nothing;
    };
    let party = read_u64(&text[..first]);
    let round = read_u64(&rest[..second]);
    read_verb(party, round, &rest[second + 1..], setting)
}

// What they say, given the numbers before the verb.
fn read_verb(party: Option<u64>, round: Option<u64>, text: &[u8], setting: &Setting) -> Said
    ensures stranger { (first second : List ℕ) → party ≡ number_in first → round ≡ number_in second →
        result.stranger ≡ stranger_in setting.now (first ∷ second ∷ split 32 text.now) }
    ensures order { (first second : List ℕ) → party ≡ number_in first → round ≡ number_in second →
        result.order ≡ order_in setting.now (first ∷ second ∷ split 32 text.now) }
{
    match cut_at(text, b' ') {
        None => Said {
            stranger: stranger_of(setting, party, round, is_verb(text)),
            order: order_of(setting, party, round, plain_verb(text)),
        },
        Some(end) => read_argument(party, round, &text[..end], &text[end + 1..], setting),
    }
}

// What they say, given the words before the argument.
#[tactic(auto, using(crate::proofs::Parts::fifth_stranger, crate::proofs::Parts::fifth_order))]
fn read_argument(
    party: Option<u64>,
    round: Option<u64>,
    verb: &[u8],
    text: &[u8],
    setting: &Setting,
) -> Said
    ensures stranger { (first second : List ℕ) → party ≡ number_in first → round ≡ number_in second →
        result.stranger ≡ stranger_in setting.now (first ∷ second ∷ verb.now ∷ split 32 text.now) }
    ensures order { (first second : List ℕ) → party ≡ number_in first → round ≡ number_in second →
        result.order ≡ order_in setting.now (first ∷ second ∷ verb.now ∷ split 32 text.now) }
{
    if cut_at(text, b' ').is_some() {
        return Said {
            stranger: None,
            order: None,
        };
    }
    let whole = is_verb(verb) && !text.is_empty();
    Said {
        stranger: stranger_of(setting, party, round, whole),
        order: order_of(setting, party, round, argued_verb(verb, text)),
    }
}

// The party, where all is there and it is no seat.
fn stranger_of(setting: &Setting, party: Option<u64>, round: Option<u64>, verb: bool) -> Option<u64>
    ensures { result ≡ stranger_of setting.now party round verb }
{
    let party = party?;
    round?;
    if (1 <= party && party <= u64::from(setting.seats())) || !verb {
        return None;
    }
    Some(party)
}

// The order, where all is there and it is lawful.
fn order_of(
    setting: &Setting,
    party: Option<u64>,
    round: Option<u64>,
    verb: Option<Verb>,
) -> Option<Order>
    ensures { result ≡ order_of setting.now party round verb }
{
    let party = party?;
    let round = round?;
    let verb = verb?;
    if party > u64::from(setting.seats()) || round > u64::from(setting.rounds()) {
        return None;
    }
    let order = Order {
        party: party as u32,
        round: round as u32,
        verb,
    };
    if is_lawful(&order, setting) {
        Some(order)
    } else {
        None
    }
}
