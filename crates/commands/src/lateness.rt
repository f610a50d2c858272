//! Who is down after a phase, and whether enough members are left.
ghost use Rattle.std.specs.Prelude.{◌≡◌, ◌≤◌, ◌+◌, ◌-◌, ℕ, length, Ok, Err, IfOk, IfErr};
ghost use Rattle.sharing61.specs.Count.{how_many};
ghost use Rattle.keyroom.specs.Causes.{Refusal, cause_of};
ghost use Rattle.keyroom.specs.Outcome.{AnswersStep};
ghost use Rattle.commands.specs.Causes.{IsFromWork};
ghost use Rattle.commands.specs.Late.{in_each, down_after, enough_after};
ghost use Rattle.commands.specs.MovePhase.{both_enough};
ghost use Rattle.commands.specs.Phase.{marked, marks_of};

use crate::down::is_marked;
use field61::NumberList;
use keyroom::Status;
use lists::OutOfMemory;
use sizes::Committee;
use std::alloc::Global;
use talk::in_mask;

/// Whether a seat is in each of the masks.
fn in_each(masks: &[u32], seat: u32) -> bool
    requires { (1 ≤ seat) × (seat ≤ 30) }
    ensures { result ≡ in_each masks.now seat }
{
    for mask in masks {
        if !in_mask(*mask, seat) {
            return false;
        }
    }
    true
}

/// Whether a seat is down after a phase with these masks.
fn is_down_after(before: &[bool], masks: &[u32], seat: u32) -> bool
    requires { (1 ≤ seat) × (seat ≤ 30) }
    ensures { result ≡ down_after (marked before.now) masks.now seat }
{
    is_marked(before, seat) || !in_each(masks, seat)
}

/// Who is down after a phase with these masks: who was marked before, and who isn't in each of them.
pub(crate) fn down_after(
    alloc: Global,
    before: &[bool],
    masks: &NumberList,
) -> Result<Vec<bool>, OutOfMemory>
    requires { length before.now ≤ 30 }
    ensures { IfOk result (λ marks. marks.items ≡ marks_of (down_after (marked before.now) masks.now) (length before.now)) }
{
    let mut marks = Vec::new(alloc);
    let masks = masks.as_slice();
    for seat in 1..before.len() as u32 + 1 {
        marks.push(is_down_after(before, masks, seat))?;
    }
    Ok(marks)
}

/// How many of the members 1 to `n` aren't marked.
fn left_of(down: &[bool], n: u32) -> u32
    requires { n ≤ 30 }
    ensures { result ≡ n - how_many n (marked down.now) }
{
    let mut left = 0;
    for member in 1..n + 1 {
        if !is_marked(down, member) {
            left += 1;
        }
    }
    left
}

/// Sees that at least `n - t` of the members 1 to `n` aren't marked, and gives how many. It refuses with `TooFewSound`
/// where fewer are.
pub(crate) fn enough_after(n: u32, t: u32, down: &[bool]) -> Result<u32, Status>
    requires { (t ≤ n) × (n ≤ 30) }
    ensures gives { AnswersStep (λ left. left) result (enough_after n t (marked down.now)) }
    ensures cause { IfErr result IsFromWork }
{
    let left = left_of(down, n);
    let needed = n - t;
    if left < needed {
        return Err(Status::TooFewSound {
            sound: left,
            needed,
        });
    }
    Ok(left)
}

/// The marks of the `count` seats behind the first `shift`.
fn marks_behind(
    alloc: Global,
    marks: &[bool],
    shift: u32,
    count: u32,
) -> Result<Vec<bool>, OutOfMemory>
    requires { (shift ≤ 15) × (count ≤ 15) }
    ensures { IfOk result (λ behind. behind.items ≡ marks_of (λ j. marked marks.now (shift + j)) count) }
{
    let mut behind = Vec::new(alloc);
    for member in 1..count + 1 {
        behind.push(is_marked(marks, shift + member))?;
    }
    Ok(behind)
}

/// Which members of a new committee, who sit behind those of an old one, are down after a phase with these masks, by index. It
/// refuses with `TooFewSound` where too few of the old members aren't, or too few of the new ones.
pub(crate) fn new_down_after(
    alloc: Global,
    old: Committee,
    new: Committee,
    before: &[bool],
    masks: &NumberList,
) -> Result<Vec<bool>, Status>
    requires old { (old.bound ≤ old.members) × (old.members ≤ 15) }
    requires new { (new.bound ≤ new.members) × (new.members ≤ 15) }
    requires all { length before.now ≡ old.members + new.members }
    ensures down { IfOk result (λ marks. marks.items ≡ marks_of (λ j. down_after (marked before.now) masks.now (old.members + j)) new.members) }
    ensures left { IfOk result (λ _. (left : ℕ) × (both_enough old.members old.bound new.members new.bound (down_after (marked before.now) masks.now) ≡ Ok left)) }
    ensures few { IfErr result (λ status. cause_of status ≡ Refusal → both_enough old.members old.bound new.members new.bound (down_after (marked before.now) masks.now) ≡ Err status) }
    ensures cause { IfErr result IsFromWork }
{
    let down = down_after(alloc, before, masks)?;
    let _old = enough_after(old.members, old.bound, &down)?;
    let behind = marks_behind(alloc, &down, old.members, new.members)?;
    let _new = enough_after(new.members, new.bound, &behind)?;
    Ok(behind)
}
