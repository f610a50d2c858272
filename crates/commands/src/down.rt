//! Who is down in a phase: marks of the members, from member 1.
ghost use Rattle.std.specs.Prelude.{◌≡◌, ◌≤◌, ◌+◌, length, IfOk};
ghost use Rattle.drillbook.specs.Orders.{names};
ghost use Rattle.keyroom.specs.Sound.{is_down, is_down_in_move};
ghost use Rattle.commands.specs.Phase.{marked, marks_of};

use drillbook::Drill;
use keyroom::{Found, is_down, is_down_in_move};
use lists::OutOfMemory;
use std::alloc::Global;

/// Whether the member on a seat is marked.
pub(crate) fn is_marked(marks: &[bool], seat: u32) -> bool
    requires { 1 ≤ seat }
    ensures { result ≡ marked marks.now seat }
{
    match marks.get((seat - 1) as usize) {
        Some(mark) => *mark,
        None => false,
    }
}

/// Marks of who of the members 1 to `n` is drilled. The error is want of memory.
pub fn drilled_marks(alloc: Global, drill: &Drill, n: u32) -> Result<Vec<bool>, OutOfMemory>
    requires { n ≤ 15 }
    ensures { IfOk result (λ marks. marks.items ≡ marks_of (names drill.now) n) }
{
    let mut marks = Vec::new(alloc);
    for seat in 1..n + 1 {
        marks.push(drill.names(seat))?;
    }
    Ok(marks)
}

/// Marks of who of the members whose share files these are, from member 1, is drilled or has no valid share file. The error is
/// want of memory.
pub fn down_marks(alloc: Global, files: &[Found], drill: &Drill) -> Result<Vec<bool>, OutOfMemory>
    requires { length files.now ≤ 15 }
    ensures { IfOk result (λ marks. marks.items ≡ marks_of (is_down (names drill.now) files.now) (length files.now)) }
{
    let mut marks = Vec::new(alloc);
    for seat in 1..files.len() as u32 + 1 {
        marks.push(is_down(files, drill, seat))?;
    }
    Ok(marks)
}

/// Which of the seats of a move to `count` members are down before its phase: those of the old members, whose files these are
/// and who sit on the first seats, that are drilled or have no valid share file, and those of the new ones that are drilled. The
/// error is want of memory.
pub fn moving_marks(
    alloc: Global,
    files: &[Found],
    drill: &Drill,
    count: u32,
) -> Result<Vec<bool>, OutOfMemory>
    requires old { length files.now ≤ 15 }
    requires new { count ≤ 15 }
    ensures { IfOk result (λ marks. marks.items ≡ marks_of (is_down_in_move (names drill.now) files.now) (length files.now + count)) }
{
    let mut marks = Vec::new(alloc);
    let seats = files.len() as u32 + count;
    for seat in 1..seats + 1 {
        marks.push(is_down_in_move(files, drill, seat))?;
    }
    Ok(marks)
}
