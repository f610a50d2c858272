//! The posts of the third round, with their complaints laid out for look-up.

ghost use Rattle.std.specs.Prelude.{◌≡◌, ℕ, ◌+◌, ◌*◌, ◌<◌, ◌≤◌, ◌&&◌, eqb, List, length, get_or, IfOk, None, Option};
ghost use Rattle.plays.specs.Read.{complaint_at, listed_in};
ghost use Rattle.talk.specs.Basics.{first_of};
ghost use Rattle.plays.specs.Seat.{post_at};
ghost use Rattle.talk.specs.declared.messages.Post.{Post};
ghost use Rattle.vss_core.specs.Complaints.{AllLaidOut, LaidOut, cell_of};

use crate::posts::{complaint_in, told_by};
use lists::OutOfMemory;
use sharing61::Crossing;
use std::alloc::Global;
use std::marker::Model;
use talk::{Complaint, ComplaintList, Post, PostList};

// How many columns a table has: more than the greatest index of a receiver, which is 15.
const COLUMNS: usize = 16;

// The complaints of one post, in a row for each instance and a column for each receiver complained of.
#[derive(Drop)]
struct ComplaintTable {
    cells: Vec<Option<Crossing>>,
}

impl Model for ComplaintTable {
    ghost use Rattle.std.specs.Prelude.{List, Option};
    ghost use Rattle.std.specs.Coded.{coded_list, coded_option};
    ghost use Rattle.sharing61.specs.declared.Crossing.{Crossing};
    ghost use Rattle.vss_core.specs.States.{crossing_code};

    ghost Value = { List (Option Crossing) };

    ghost coded = { coded_list (coded_option crossing_code) };

    ghost view = { λ t. t.cells.items };
}

// Posts by seat, with a table of the complaints of each. Contracts see the posts.
#[derive(Drop)]
pub(crate) struct ComplaintTables<'a> {
    posts: &'a PostList,
    tables: Vec<ComplaintTable>,
}

impl<'a> Model for ComplaintTables<'a> {
    ghost use Rattle.std.specs.Prelude.{List};
    ghost use Rattle.talk.specs.declared.messages.Post.{Post};
    ghost use Rattle.vss_core.specs.Complaints.{AllLaidOut};

    ghost Value = { List Post };

    ghost view = { λ t. t.posts.now };

    ghost invariant = { λ t. AllLaidOut t.tables.items t.posts.now };
}

impl<'a> ComplaintTables<'a> {
    // The posts, with tables for the instances below `instances`.
    pub(crate) fn new(
        alloc: Global,
        instances: u32,
        posts: &'a PostList,
    ) -> Result<ComplaintTables<'a>, OutOfMemory>
        ensures { IfOk result (λ t. t ≡ posts.now) }
    {
        let tables = all_tables(alloc, instances, posts)?;
        Ok(ComplaintTables { posts, tables })
    }

    // The complaint of an instance against a receiver in a seat's post. Past the table it reads the post itself.
    pub(crate) fn complaint(&self, seat: u32, instance: u32, against: u32) -> Option<Crossing>
        requires { (1 ≤ seat) × (seat ≤ length self.now) }
        ensures { result ≡ listed_in instance against (post_at self.now seat) }
    {
        let at = (seat - 1) as usize;
        let table = &self.tables[at];
        let cell = cell_at(instance, against);
        if (against as usize) < COLUMNS && cell < table.cells.len() {
            return table.cells[cell];
        }
        complaint_in(self.posts.at(at), instance, against)
    }
}

// The cell in an instance's row and a receiver's column.
fn cell_at(instance: u32, receiver: u32) -> usize
    ensures { result ≡ instance * 16 + receiver }
{
    instance as usize * COLUMNS + receiver as usize
}

// The tables of all posts.
fn all_tables(
    alloc: Global,
    instances: u32,
    posts: &PostList,
) -> Result<Vec<ComplaintTable>, OutOfMemory>
    ensures { IfOk result (λ t. AllLaidOut t.items posts.now) }
{
    let mut tables = Vec::new(alloc);
    for k in 0..posts.len() {
        let table = table_of(alloc, instances, posts.at(k))?;
        tables.push(table)?;
    }
    Ok(tables)
}

// The table of a post: without cells, where it has no complaints.
fn table_of(alloc: Global, instances: u32, post: &Post) -> Result<ComplaintTable, OutOfMemory>
    ensures { IfOk result (λ t. LaidOut t post.now) }
{
    match post {
        Post::Complaints { list } => {
            let cells = cells_of(alloc, instances, list)?;
            Ok(ComplaintTable { cells })
        }
        _ => Ok(ComplaintTable {
            cells: Vec::new(alloc),
        }),
    }
}

// The cells of a list of complaints. The last is written first, so that of two in one cell the first stays.
fn cells_of(
    alloc: Global,
    instances: u32,
    list: &ComplaintList,
) -> Result<Vec<Option<Crossing>>, OutOfMemory>
    ensures { IfOk result
        (λ t. (i k : ℕ) → k < 16 → i * 16 + k < length t.items → cell_of t.items i k ≡ complaint_at i k list.now) }
{
    let mut cells = no_cells(alloc, instances as usize * COLUMNS)?;
    let complaints = list.as_slice();
    for done in 0..complaints.len() {
        write(&mut cells, &complaints[complaints.len() - 1 - done]);
    }
    Ok(cells)
}

// That many empty cells.
fn no_cells(alloc: Global, count: usize) -> Result<Vec<Option<Crossing>>, OutOfMemory>
    ensures { IfOk result (λ t. (k : ℕ) → get_or t.items k None ≡ None) }
{
    Ok(vec![in alloc; None; count]?)
}

// Puts a complaint into its cell, where there is one.
fn write(cells: &mut [Option<Crossing>], complaint: &Complaint)
    ensures { (i k : ℕ) → k < 16 → i * 16 + k < length cells.new → cell_of cells.new i k ≡ first_of
        (eqb complaint.now.instance i && eqb complaint.now.against k)
        (record { row = complaint.now.u; column = complaint.now.v }) (cell_of cells.old i k) }
{
    let cell = cell_at(complaint.instance, complaint.against);
    if (complaint.against as usize) < COLUMNS && cell < cells.len() {
        cells[cell] = Some(told_by(complaint));
    }
}
