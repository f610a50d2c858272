//! The key of a history.

ghost use Rattle.std.specs.Prelude.{IfOk};
ghost use Rattle.viewshift.specs.Listed.{course_of};
ghost use Rattle.viewshift.specs.Key.{HasKey};

use crate::history::History;
use crate::phases::{play_at, shares_left};
use crate::polynomials::{polynomials_of, values_at};
use field61::Fe;
use lists::OutOfMemory;
use std::alloc::Global;

/// The key of a history, lane by lane: in each period the sound members' shares lie on one polynomial, and all of these have
/// the key as value at 0. Only the first phase is played. The error is want of memory.
pub fn key_of(alloc: Global, history: &History) -> Result<[Fe; 5], OutOfMemory>
    ensures { IfOk result (HasKey (course_of history.now.phases history.now.exposed)) }
{
    let phases = history.phases();
    let played = play_at(alloc, phases, 0)?;
    let before = Vec::new(alloc);
    let shares = shares_left(alloc, phases, 0, &played, before.as_slice())?;
    let polynomials = polynomials_of(alloc, shares.as_slice())?;
    Ok(values_at(&polynomials, Fe::ZERO))
}
