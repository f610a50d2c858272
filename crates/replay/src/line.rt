//! Lines of the input.

use crate::case::{File, Given};
use crate::digits::{read_digits, read_seed};
use crate::fault::Fault;
use decimals::{read_u32, read_u64};
use std::alloc::{AllocError, Global};

/// One line of the input.
#[derive(Drop)]
pub enum Line {
    /// An empty line, or a remark.
    Nothing,
    /// `case LABEL`
    Case { label: String },
    /// A line within a case.
    Given(Given),
    /// `end`
    End,
}

/// The line with these bytes, which have no line feed.
///
/// # Errors
/// `OtherForm` where they are no line, and `OutOfMemory`.
pub fn read_line(alloc: Global, bytes: &[u8]) -> Result<Line, Fault> {
    let Ok(text) = str::from_utf8(bytes) else {
        return Err(Fault::OtherForm);
    };
    if text.is_empty() || text.starts_with('#') {
        return Ok(Line::Nothing);
    }
    let words: Vec<&str> = text.split(' ').collect(alloc)?;
    if words.iter().any(|word| word.is_empty()) {
        return Err(Fault::OtherForm);
    }
    line_of(alloc, &words)
}

/// The line with these words.
fn line_of(alloc: Global, words: &[&str]) -> Result<Line, Fault> {
    match words {
        [first] if *first == "end" => Ok(Line::End),
        [first, label] if *first == "case" => Ok(Line::Case {
            label: String::from_str(alloc, *label)?,
        }),
        [first, rest @ ..] => Ok(Line::Given(given_of(alloc, *first, rest)?)),
        [] => Err(Fault::OtherForm),
    }
}

/// What a line within a case gives it.
fn given_of(alloc: Global, first: &str, rest: &[&str]) -> Result<Given, Fault> {
    match first {
        "words" => Ok(Given::Words(copies(alloc, rest)?)),
        "seed" => seed_of(alloc, rest),
        "held" => held_of(alloc, rest),
        "shelf_fails" => Ok(Given::ShelfFails(numbers(alloc, rest)?)),
        "entropy_fails" => Ok(Given::EntropyFails(numbers(alloc, rest)?)),
        "crew_fails" => Ok(Given::CrewFails(numbers(alloc, rest)?)),
        "cut" => cut_of(rest),
        "sink_fails" => Ok(Given::SinkFails(numbers(alloc, rest)?)),
        _ => Err(Fault::OtherForm),
    }
}

fn copies(alloc: Global, words: &[&str]) -> Result<Vec<String>, AllocError> {
    let mut copies = Vec::new(alloc);
    for word in words {
        copies.push(String::from_str(alloc, *word)?)?;
    }
    Ok(copies)
}

fn numbers(alloc: Global, words: &[&str]) -> Result<Vec<u64>, Fault> {
    let mut numbers = Vec::new(alloc);
    for word in words {
        let Some(number) = read_u64(word.as_bytes()) else {
            return Err(Fault::OtherForm);
        };
        numbers.push(number)?;
    }
    Ok(numbers)
}

fn cut_of(rest: &[&str]) -> Result<Given, Fault> {
    let [round, seat] = rest else {
        return Err(Fault::OtherForm);
    };
    match (read_u32(round.as_bytes()), read_u32(seat.as_bytes())) {
        (Some(round), Some(seat)) => Ok(Given::Cut((round, seat))),
        _ => Err(Fault::OtherForm),
    }
}

fn seed_of(alloc: Global, rest: &[&str]) -> Result<Given, Fault> {
    let [digits] = rest else {
        return Err(Fault::OtherForm);
    };
    match read_seed(alloc, *digits)? {
        Some(seed) => Ok(Given::Seed(seed)),
        None => Err(Fault::OtherForm),
    }
}

fn held_of(alloc: Global, rest: &[&str]) -> Result<Given, Fault> {
    let [name, digits] = rest else {
        return Err(Fault::OtherForm);
    };
    let Some(bytes) = read_digits(alloc, *digits)? else {
        return Err(Fault::OtherForm);
    };
    let name = String::from_str(alloc, *name)?;
    Ok(Given::Held(File { name, bytes }))
}
