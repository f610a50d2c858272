//! Starting members, and joining them.
ghost use Rattle.std.specs.Prelude.{◌≡◌, ℕ, ◌+◌, ◌≤◌, ◌<◌, length, IfOk, IsOk, IfErr, IfSome, IsNone, IsTrue, [], Some, slice_get, vec_capacity};
ghost use Rattle.crews.specs.Crews.{AllReady, EachAttended};
ghost use Rattle.crews.specs.Starts.{Returns, Ends, EachStarted, EachEnded};

use crate::Member;
use crate::hold::Hold;
use std::alloc::Global;
use std::snapshot::Snapshot;
use std::sync::Wait;
use std::sync::atomic::AtomicU64;
use std::sync::atomic::Ordering::SeqCst;
use std::thread;
use std::thread::{Promise, PromisedHandle, Scope, Threads};

/// Why not all members attended.
#[derive(Clone, Copy, PartialEq, Eq, Debug)]
pub enum Stop {
    /// The crew refused a start.
    Barred,
    /// The machine had no thread for a member, which the calling thread was not to attend.
    NoThread,
    /// There was no memory.
    NoMemory,
}

/// Why not all members attended, and how many did.
#[derive(Clone, Copy, PartialEq, Eq, Debug)]
pub struct Halt {
    pub(crate) stop: Stop,
    pub(crate) attended: u64,
}

/// What a member was before it attended, as a promise of what comes back.
#[derive(Drop)]
pub struct Before<M: Drop> {
    pub(crate) member: Snapshot<M>,
}

/// What comes back of a member.
#[derive(Drop)]
pub enum Back<M: Drop> {
    Attended(M),
    Released(M),
}

impl<M: Member> Promise<Back<M>> for Before<M> {
    ghost kept_by = { λ p r. Returns M.attends p.member.value r };
}

/// A member on a thread of its own, or one that the calling thread attended.
#[derive(Drop)]
pub enum Started<M: Member> {
    Child(PromisedHandle<Back<M>, Before<M>>),
    Done(Back<M>),
}

/// Who attended, in order, and whether that is everyone who was started.
#[derive(Drop)]
pub struct Joined<M: Drop> {
    pub(crate) attended: Vec<M>,
    pub(crate) complete: bool,
}

/// What all members of a run look at: the number of the one whose start the machine refused, 0 where there is none, and who is held.
#[derive(Drop)]
pub struct Watch {
    refused: AtomicU64,
    held: Option<Hold>,
}

// The member with this number attends, unless it is the one whose start was refused: that one is released. Numbers are those of the places, from 1. Where it is the one that is held, it waits first.
fn attended_or_released<M: Member, R: Wait>(
    rt: &R,
    watch: &Watch,
    number: u64,
    member: M,
) -> Back<M>
    requires ready { M.ready member }
    requires number { 1 ≤ number }
    ensures { Returns M.attends member result }
{
    let mut member = member;
    if watch.refused.load(SeqCst) == number {
        member.release();
        return Back::Released(member);
    }
    if let Some(hold) = &watch.held {
        hold.wait(number - 1);
    }
    member.attend(rt);
    Back::Attended(member)
}

// How starts go.
#[derive(Clone, Copy)]
pub(crate) struct Plan {
    // The start at which so many members are left, that one among them, is refused. None: 0.
    pub(crate) barred: usize,
    // Whether the calling thread attends one member for which the machine has no thread.
    pub(crate) patient: bool,
}

// Starts the members from the last on. Where the calling thread attends one itself, it does so when all are started, and before any is joined.
fn start_rest<'s, E, M: Member + 's, R: Threads + Wait + Sync>(
    scope: &Scope<'s, E>,
    rt: &'s R,
    watch: &'s Watch,
    plan: Plan,
    members: &mut Vec<M>,
    started: &mut Vec<Started<M>>,
) -> Option<Stop>
    requires ready { AllReady M.ready members.old.items }
    requires empty { started.old.items ≡ [] }
    requires room { length members.old.items ≤ vec_capacity started.old }
    ensures room { vec_capacity started.new ≡ vec_capacity started.old }
    ensures few { length started.new.items ≤ length members.old.items }
    ensures barred { IfSome result (λ stop. stop ≡ Stop.Barred → 1 ≤ plan.barred) }
    ensures each { IsNone result → EachStarted M.attends members.old.items started.new.items }
{
    let number = members.len();
    let Some(mut member) = members.pop() else {
        return None;
    };
    if number == plan.barred {
        member.release();
        return Some(Stop::Barred);
    }
    let before = Before {
        member: Snapshot::of(&member),
    };
    let child = scope.spawn_with(
        before,
        move || -> Back<M>
            requires ready { M.ready member }
            requires number { 1 ≤ number }
            ensures { Returns M.attends member result }
        { attended_or_released(rt, watch, number as u64, member) },
    );
    match child {
        Ok(child) => {
            let stop = start_rest(scope, rt, watch, plan, members, started);
            started.push_reserved(Started::Child(child));
            stop
        }
        Err(back) => {
            if !plan.patient {
                watch.refused.store(number as u64, SeqCst);
                let _released = (back.value)();
                return Some(Stop::NoThread);
            }
            let busy = Plan {
                barred: plan.barred,
                patient: false,
            };
            let stop = start_rest(scope, rt, watch, busy, members, started);
            started.push_reserved(Started::Done((back.value)()));
            stop
        }
    }
}

// Waits for the end of one.
fn end_of<M: Member, R: Threads + Wait>(rt: &R, one: Started<M>) -> Back<M>
    ensures { Ends M.attends one result }
{
    match one {
        Started::Child(child) => child.join(rt),
        Started::Done(back) => back,
    }
}

// Joins all, in order, and keeps those that attended.
fn join_all<M: Member, R: Threads + Wait>(
    rt: &R,
    started: Vec<Started<M>>,
    room: Vec<M>,
) -> Joined<M>
    requires empty { room.items ≡ [] }
    requires room { length started.items ≤ vec_capacity room }
    ensures few { length result.attended.items ≤ length started.items }
    ensures each { IsTrue result.complete → EachEnded M.attends started.items result.attended.items }
{
    let mut attended = room;
    let mut complete = true;
    for one in started {
        match end_of(rt, one) {
            Back::Attended(member) => attended.push_reserved(member),
            Back::Released(_member) => complete = false,
        }
    }
    Joined { attended, complete }
}

// Starts all, attends `own` where all were started, and joins all that were started. Gives `own` back.
fn run_in<'s, 'o, E, M: Member + 's, D: Member, R: Threads + Wait + Sync>(
    scope: &Scope<'s, E>,
    rt: &'s R,
    watch: &'s Watch,
    plan: Plan,
    members: Vec<M>,
    started: Vec<Started<M>>,
    ended: Vec<M>,
    own: &'o mut D,
) -> (Result<Vec<M>, Halt>, &'o mut D)
    requires ready { AllReady M.ready members.items }
    requires own { D.ready own.old }
    requires empty { (started.items ≡ []) × (ended.items ≡ []) }
    requires started_room { length members.items ≤ vec_capacity started }
    requires ended_room { length members.items ≤ vec_capacity ended }
    ensures same { result.1.ghost_name ≡ own.entry.ghost_name }
    ensures own { IsOk result.0 → D.attends own.old result.1.now }
    ensures each { IfOk result.0 (λ v. EachAttended M.attends members.items v.items) }
    ensures barred { IfErr result.0 (λ halt. halt.stop ≡ Stop.Barred → 1 ≤ plan.barred) }
    ensures few { IfErr result.0 (λ halt. halt.attended ≤ length members.items) }
{
    let mut members = members;
    let mut started = started;
    let stop = start_rest(scope, rt, watch, plan, &mut members, &mut started);
    if stop.is_none() {
        own.attend(rt);
    }
    let joined = join_all(rt, started, ended);
    (outcome_of(stop, joined), own)
}

// What came of it.
fn outcome_of<M: Drop>(stop: Option<Stop>, joined: Joined<M>) -> Result<Vec<M>, Halt>
    ensures ok { IfOk result (λ v. IsNone stop × IsTrue joined.complete × (v.items ≡ joined.attended.items)) }
    ensures err { IfErr result (λ halt. halt.stop ≡ Stop.Barred → stop ≡ Some halt.stop) }
    ensures few { IfErr result (λ halt. halt.attended ≡ length joined.attended.items) }
{
    let Joined { attended, complete } = joined;
    let stop = match stop {
        Some(stop) => stop,
        None if complete => return Ok(attended),
        None => Stop::NoMemory,
    };
    Err(Halt {
        stop,
        attended: attended.len() as u64,
    })
}

/// Lets all members attend beside one another.
pub(crate) fn run_members<'o, M: Member, D: Member, R: Threads + Wait + Sync>(
    rt: &R,
    alloc: Global,
    plan: Plan,
    held: Option<Hold>,
    members: Vec<M>,
    own: &'o mut D,
) -> Result<Vec<M>, Halt>
    requires ready { AllReady M.ready members.items }
    requires own { D.ready own.old }
    ensures own { IsOk result → D.attends own.old own.new }
    ensures each { IfOk result (λ v. EachAttended M.attends members.items v.items) }
    ensures barred { IfErr result (λ halt. halt.stop ≡ Stop.Barred → 1 ≤ plan.barred) }
    ensures few { IfErr result (λ halt. halt.attended ≤ length members.items) }
{
    let no_memory = Halt {
        stop: Stop::NoMemory,
        attended: 0,
    };
    let Ok(started) = Vec::with_capacity(alloc, members.len()) else {
        return Err(no_memory);
    };
    let Ok(ended) = Vec::with_capacity(alloc, members.len()) else {
        return Err(no_memory);
    };
    let watch = Watch {
        refused: AtomicU64::new(0),
        held,
    };
    let watched = &watch;
    let (ended, _own) = thread::scope(
        thread::scope_env(),
        rt,
        |scope| -> (Result<Vec<M>, Halt>, &mut D)
            requires ready { AllReady M.ready members.items }
            requires own { D.ready own.now }
            requires empty { (started.items ≡ []) × (ended.items ≡ []) }
            requires started_room { length members.items ≤ vec_capacity started }
            requires ended_room { length members.items ≤ vec_capacity ended }
            ensures same { result.1.ghost_name ≡ own.entry.ghost_name }
            ensures own { IsOk result.0 → D.attends own.entry.now result.1.now }
            ensures each { IfOk result.0 (λ v. EachAttended M.attends members.items v.items) }
            ensures barred { IfErr result.0 (λ halt. halt.stop ≡ Stop.Barred → 1 ≤ plan.barred) }
            ensures few { IfErr result.0 (λ halt. halt.attended ≤ length members.items) }
        { run_in(scope, rt, watched, plan, members, started, ended, own) },
    );
    ended
}
