//! The phase of a move.
ghost use Rattle.std.specs.Prelude.{◌≡◌, ◌≤◌, ◌<◌, ◌-◌, ◌+◌, ◌^◌, ◌++◌, Some, None, false, length, map, min, drop, count_by, IfOk, IfErr, OnOk};
ghost use Rattle.std.specs.List.{range_with_len};
ghost use Rattle.sizes.specs.Committees.{IsCommittee};
ghost use Rattle.talk.specs.Shape.{move_shape};
ghost use Rattle.drillbook.specs.Orders.{AllLawful};
ghost use Rattle.keyroom.specs.Sound.{is_valid};
ghost use Rattle.commands.specs.Causes.{IsFromPhase};
ghost use Rattle.commands.specs.Crews.{Lent};
ghost use Rattle.commands.specs.Late.{cuts_in};
ghost use Rattle.commands.specs.Move.{dealt_shares, moving, moving_of, down_moving};
ghost use Rattle.commands.specs.MovePhase.{old_on, new_on, minds_on, IsEnd, accepted_at, ComesTo, OutIs, AllCome, MayMove, IsMovePhase, RefusesPhase};
ghost use Rattle.commands.specs.Phase.{marked, marks_of, AllDone, standing_of};
ghost use Rattle.commands.specs.Run.{numbered, drilled_on, drilled_all};
ghost use Rattle.commands.specs.Standing.{holdings, seeds_for};

use crate::down::is_marked;
use crate::lateness::new_down_after;
use crate::phase::{Party, accepted_by};
use crate::running::run_minds;
use crate::standing::Asked;
use chance61::Chance;
use drillbook::{Drill, Drilled};
use field61::{Fe, NumberList};
use keyroom::{Found, Status};
use lists::OutOfMemory;
use moveshare::{MoveMind, MoveNew, MoveOld, MoveOut};
use party_crew::{Crew, Pace};
use sizes::Committee;
use std::alloc::Global;
use std::sync::Wait;
use std::thread::Threads;
use talk::Setting;

/// What the phase of a move leaves.
#[derive(Drop)]
pub struct Moved {
    /// The mask of each round.
    pub masks: NumberList,
    /// Which of the new members were down, by index.
    pub down: Vec<bool>,
    /// How many instances were accepted.
    pub accepted: u32,
    /// What each new member comes to, by index; nothing for one that was down.
    pub outs: Vec<Option<MoveOut>>,
}

/// How many members of the old and of the new committee may be faulty.
#[derive(Clone, Copy)]
pub struct Bounds {
    /// That of the old committee.
    pub old: u32,
    /// That of the new one.
    pub new: u32,
}

impl<const N: usize, const M: usize> Party for MoveMind<N, M> {
    ghost is_done = { IsEnd };

    ghost count = { accepted_at };

    fn end_accepted(&self) -> u32 {
        match self {
            MoveMind::Old(_) => 0,
            MoveMind::New(mind) => mind.accepted(),
        }
    }
}

/// What an old member deals as its shares: the drill may tell it to add something to each.
fn dealt_shares(drill: &Drill, index: u32, lanes: &[Fe; 5]) -> [Fe; 5]
    ensures { result ≡ dealt_shares drill.now index lanes.now }
{
    let more = drill.wrong(index);
    [
        lanes[0].add(more),
        lanes[1].add(more),
        lanes[2].add(more),
        lanes[3].add(more),
        lanes[4].add(more),
    ]
}

/// The mind of an old member with a valid share file, before the first round: it draws its grids from its seed.
fn dealer_of<const N: usize, const M: usize>(
    alloc: Global,
    bounds: Bounds,
    drill: &Drill,
    index: u32,
    lanes: &[Fe; 5],
    seed: &[u8; 32],
) -> Result<Drilled<MoveMind<N, M>>, OutOfMemory>
    requires old { IsCommittee N bounds.old }
    requires new { IsCommittee M bounds.new }
    requires index { (1 ≤ index) × (index ≤ N) }
    requires lines { AllLawful (move_shape N bounds.old M bounds.new) drill.now }
    ensures { IfOk result (λ m. m ≡ drilled_on (move_shape N bounds.old M bounds.new) drill.now index
        (old_on (move_shape N bounds.old M bounds.new) index (Some (moving drill.now bounds.new index lanes.now seed.now)))) }
{
    let mut chance = Chance::from_seed(*seed);
    let shares = dealt_shares(drill, index, lanes);
    let mind = MoveOld::new(
        alloc,
        bounds.old,
        index,
        M as u32,
        bounds.new,
        shares,
        &mut chance,
    )?;
    let setting = Setting::moving(N as u32, bounds.old, M as u32, bounds.new);
    Drilled::new(alloc, MoveMind::Old(mind), drill, index, setting)
}

/// The mind of an old member without one: it is away.
fn away_of<const N: usize, const M: usize>(
    alloc: Global,
    bounds: Bounds,
    drill: &Drill,
    index: u32,
) -> Result<Drilled<MoveMind<N, M>>, OutOfMemory>
    requires old { IsCommittee N bounds.old }
    requires new { IsCommittee M bounds.new }
    requires index { (1 ≤ index) × (index ≤ N) }
    requires lines { AllLawful (move_shape N bounds.old M bounds.new) drill.now }
    ensures { IfOk result (λ m. m ≡ drilled_on (move_shape N bounds.old M bounds.new) drill.now index
        (old_on (move_shape N bounds.old M bounds.new) index None)) }
{
    let mind = MoveOld::away(bounds.old, index, M as u32, bounds.new);
    let setting = Setting::moving(N as u32, bounds.old, M as u32, bounds.new);
    Drilled::new(alloc, MoveMind::Old(mind), drill, index, setting)
}

/// The mind of a new member.
fn receiver_of<const N: usize, const M: usize>(
    alloc: Global,
    bounds: Bounds,
    drill: &Drill,
    member: u32,
) -> Result<Drilled<MoveMind<N, M>>, OutOfMemory>
    requires old { IsCommittee N bounds.old }
    requires new { IsCommittee M bounds.new }
    requires member { (1 ≤ member) × (member ≤ M) }
    requires lines { AllLawful (move_shape N bounds.old M bounds.new) drill.now }
    ensures { IfOk result (λ m. m ≡ drilled_on (move_shape N bounds.old M bounds.new) drill.now (N + member)
        (new_on (move_shape N bounds.old M bounds.new) member)) }
{
    let mind = MoveNew::new(bounds.old, bounds.new, member);
    let setting = Setting::moving(N as u32, bounds.old, M as u32, bounds.new);
    Drilled::new(
        alloc,
        MoveMind::New(mind),
        drill,
        N as u32 + member,
        setting,
    )
}

/// The minds of the old members: those with a valid share file take the seeds, one after the other.
fn old_minds<const N: usize, const M: usize>(
    alloc: Global,
    bounds: Bounds,
    drill: &Drill,
    files: &[Found],
    seeds: &[[u8; 32]],
) -> Result<Vec<Drilled<MoveMind<N, M>>>, OutOfMemory>
    requires old { IsCommittee N bounds.old }
    requires new { IsCommittee M bounds.new }
    requires lines { AllLawful (move_shape N bounds.old M bounds.new) drill.now }
    requires files { length files.now ≡ N }
    requires seeds { length seeds.now ≡ count_by is_valid files.now }
    ensures { IfOk result (λ minds. minds.items ≡ drilled_all (move_shape N bounds.old M bounds.new) drill.now
        (numbered (old_on (move_shape N bounds.old M bounds.new)) 1 (holdings (moving drill.now bounds.new) 1 files.now seeds.now))) }
{
    let mut minds = Vec::new(alloc);
    let mut seat = 1;
    let mut taken = 0;
    for file in files {
        if let Found::Valid(share) = file {
            let mind = dealer_of(alloc, bounds, drill, seat, &share.lanes, &seeds[taken])?;
            minds.push(mind)?;
            taken += 1;
        } else {
            minds.push(away_of(alloc, bounds, drill, seat)?)?;
        }
        seat += 1;
    }
    Ok(minds)
}

/// Appends the minds of the new members.
fn push_receivers<const N: usize, const M: usize>(
    alloc: Global,
    minds: &mut Vec<Drilled<MoveMind<N, M>>>,
    bounds: Bounds,
    drill: &Drill,
) -> Result<(), OutOfMemory>
    requires old { IsCommittee N bounds.old }
    requires new { IsCommittee M bounds.new }
    requires lines { AllLawful (move_shape N bounds.old M bounds.new) drill.now }
    ensures { OnOk result (minds.new.items ≡ minds.old.items
        ++ map (λ j. drilled_on (move_shape N bounds.old M bounds.new) drill.now (N + j) (new_on (move_shape N bounds.old M bounds.new) j)) (range_with_len 1 M)) }
{
    for member in 1..M as u32 + 1 {
        minds.push(receiver_of(alloc, bounds, drill, member)?)?;
    }
    Ok(())
}

/// The minds on all seats of a move from N members to M, before the first round: the old members with a valid share file take
/// the seeds, one after the other, and the new ones sit behind them. The error is want of memory.
pub fn move_minds<const N: usize, const M: usize>(
    alloc: Global,
    bounds: Bounds,
    asked: &Asked,
    seeds: &[[u8; 32]],
) -> Result<Vec<Drilled<MoveMind<N, M>>>, OutOfMemory>
    requires old { IsCommittee N bounds.old }
    requires new { IsCommittee M bounds.new }
    requires lines { AllLawful (move_shape N bounds.old M bounds.new) asked.now.drill }
    requires files { length asked.now.files.items ≡ N }
    requires seeds { length seeds.now ≡ count_by is_valid asked.now.files.items }
    ensures { IfOk result (λ minds. minds.items ≡ drilled_all (move_shape N bounds.old M bounds.new) asked.now.drill
        (minds_on (move_shape N bounds.old M bounds.new) (holdings (moving asked.now.drill bounds.new) 1 asked.now.files.items seeds.now) M)) }
{
    let mut minds = old_minds(alloc, bounds, &asked.drill, &asked.files, seeds)?;
    push_receivers(alloc, &mut minds, bounds, &asked.drill)?;
    Ok(minds)
}

/// The minds of the new members, which come behind those of the old ones.
fn new_minds<const N: usize, const M: usize>(
    minds: &[Drilled<MoveMind<N, M>>],
) -> &[Drilled<MoveMind<N, M>>]
    requires { N ≤ length minds.now }
    ensures { result.now ≡ drop N minds.now }
{
    let (_, receivers) = minds.split_at(N);
    receivers
}

/// What a new member's mind comes to.
fn end_of<const N: usize, const M: usize>(
    alloc: Global,
    mind: &MoveMind<N, M>,
) -> Result<MoveOut, OutOfMemory>
    requires { IsEnd mind.now }
    ensures { IfOk result (ComesTo mind.now) }
{
    match mind {
        MoveMind::Old(_) => unreachable!(),
        MoveMind::New(mind) => mind.result(alloc),
    }
}

/// What a new member comes to, or nothing where it is down.
fn out_of<const N: usize, const M: usize>(
    alloc: Global,
    down: &[bool],
    member: u32,
    mind: &Drilled<MoveMind<N, M>>,
) -> Result<Option<MoveOut>, OutOfMemory>
    requires member { 1 ≤ member }
    requires end { marked down.now member ≡ false → IsEnd mind.now.inner }
    ensures { IfOk result (OutIs (marked down.now member) (ComesTo mind.now.inner)) }
{
    if is_marked(down, member) {
        return Ok(None);
    }
    let out = end_of(alloc, mind.inner())?;
    Ok(Some(out))
}

/// What the new members come to, by index, where these are their minds.
fn outs_of<const N: usize, const M: usize>(
    alloc: Global,
    down: &[bool],
    minds: &[Drilled<MoveMind<N, M>>],
) -> Result<Vec<Option<MoveOut>>, OutOfMemory>
    requires few { length minds.now ≤ 15 }
    requires end { AllDone IsEnd (marked down.now) 1 minds.now }
    ensures { IfOk result (λ outs. AllCome (marked down.now) 1 minds.now outs.items) }
{
    let mut outs = Vec::new(alloc);
    let mut member = 1;
    for mind in minds {
        outs.push(out_of(alloc, down, member, mind)?)?;
        member += 1;
    }
    Ok(outs)
}

/// The phase from N members to M.
fn phase_among<
    C: Crew,
    Q: Pace + Send,
    R: Threads + Wait + Sync,
    const N: usize,
    const M: usize,
    const S: usize,
>(
    rt: &R,
    alloc: Global,
    bound: u32,
    asked: &Asked,
    committee: Committee,
    before: &[bool],
    seeds: &[[u8; 32]],
    crew: &mut C,
    pace: &mut Q,
) -> Result<Moved, Status>
    requires old { N ≡ asked.now.file.n }
    requires bound { bound ≡ asked.now.file.t }
    requires new { M ≡ committee.members }
    requires seats { S ≡ N + M }
    requires may { MayMove (standing_of asked.now) committee.members committee.bound }
    requires lines { AllLawful (moving_of (standing_of asked.now) committee.members committee.bound) asked.now.drill }
    requires before { before.now ≡ marks_of (down_moving (standing_of asked.now)) (asked.now.file.n + committee.members) }
    requires seeds { length seeds.now ≡ seeds_for (standing_of asked.now) }
    ensures left { IfOk result (IsMovePhase (standing_of asked.now) committee.members committee.bound seeds.now (cuts_in Q.answered_count Q.cuts_of pace.old pace.new)) }
    ensures few { IfErr result (RefusesPhase (standing_of asked.now) committee.members committee.bound seeds.now (cuts_in Q.answered_count Q.cuts_of pace.old pace.new)) }
    ensures lent { Lent C.fault_count C.attended_count C.calm crew.old crew.new }
    ensures attended { IfOk result (λ _. C.attended_count crew.new ≡ min (C.attended_count crew.old + (asked.now.file.n + committee.members)) (2 ^ 64 - 1)) }
    ensures cause { IfErr result (IsFromPhase (C.fault_count crew.old) (C.fault_count crew.new)) }
{
    let bounds = Bounds {
        old: bound,
        new: committee.bound,
    };
    let setting = Setting::moving(N as u32, bounds.old, M as u32, bounds.new);
    let minds = move_minds::<N, M>(alloc, bounds, asked, seeds)?;
    let ran = run_minds::<Drilled<MoveMind<N, M>>, C, Q, R, S>(
        rt, alloc, minds, &setting, crew, pace,
    )?;
    let old = Committee {
        members: N as u32,
        bound,
    };
    let down = new_down_after(alloc, old, committee, before, &ran.masks)?;
    let receivers = new_minds(&ran.minds);
    let accepted = accepted_by(&down, receivers);
    let outs = outs_of(alloc, &down, receivers)?;
    Ok(Moved {
        masks: ran.masks,
        down,
        accepted,
        outs,
    })
}

/// The phase from N members; the other numbers are those of all seats, by the size of the new committee.
fn phase_from<
    C: Crew,
    Q: Pace + Send,
    R: Threads + Wait + Sync,
    const N: usize,
    const WITH_4: usize,
    const WITH_5: usize,
    const WITH_7: usize,
    const WITH_10: usize,
    const WITH_13: usize,
>(
    rt: &R,
    alloc: Global,
    bound: u32,
    asked: &Asked,
    committee: Committee,
    before: &[bool],
    seeds: &[[u8; 32]],
    crew: &mut C,
    pace: &mut Q,
) -> Result<Moved, Status>
    requires old { N ≡ asked.now.file.n }
    requires seats { (WITH_4 ≡ N + 4) × (WITH_5 ≡ N + 5) × (WITH_7 ≡ N + 7) × (WITH_10 ≡ N + 10) × (WITH_13 ≡ N + 13) }
    requires bound { bound ≡ asked.now.file.t }
    requires may { MayMove (standing_of asked.now) committee.members committee.bound }
    requires lines { AllLawful (moving_of (standing_of asked.now) committee.members committee.bound) asked.now.drill }
    requires before { before.now ≡ marks_of (down_moving (standing_of asked.now)) (asked.now.file.n + committee.members) }
    requires seeds { length seeds.now ≡ seeds_for (standing_of asked.now) }
    ensures left { IfOk result (IsMovePhase (standing_of asked.now) committee.members committee.bound seeds.now (cuts_in Q.answered_count Q.cuts_of pace.old pace.new)) }
    ensures few { IfErr result (RefusesPhase (standing_of asked.now) committee.members committee.bound seeds.now (cuts_in Q.answered_count Q.cuts_of pace.old pace.new)) }
    ensures lent { Lent C.fault_count C.attended_count C.calm crew.old crew.new }
    ensures attended { IfOk result (λ _. C.attended_count crew.new ≡ min (C.attended_count crew.old + (asked.now.file.n + committee.members)) (2 ^ 64 - 1)) }
    ensures cause { IfErr result (IsFromPhase (C.fault_count crew.old) (C.fault_count crew.new)) }
{
    match committee.members {
        4 => phase_among::<C, Q, R, N, 4, WITH_4>(
            rt, alloc, bound, asked, committee, before, seeds, crew, pace,
        ),
        5 => phase_among::<C, Q, R, N, 5, WITH_5>(
            rt, alloc, bound, asked, committee, before, seeds, crew, pace,
        ),
        7 => phase_among::<C, Q, R, N, 7, WITH_7>(
            rt, alloc, bound, asked, committee, before, seeds, crew, pace,
        ),
        10 => phase_among::<C, Q, R, N, 10, WITH_10>(
            rt, alloc, bound, asked, committee, before, seeds, crew, pace,
        ),
        _ => phase_among::<C, Q, R, N, 13, WITH_13>(
            rt, alloc, bound, asked, committee, before, seeds, crew, pace,
        ),
    }
}

/// The phase of a move to a committee that the program has, with a seed for each valid share file. Whose seats are marked is
/// down before it. It refuses as `run_create` does, and with `TooFewSound` where too few of the old or the new members are
/// left.
pub fn run_move<C: Crew, Q: Pace + Send, R: Threads + Wait + Sync>(
    rt: &R,
    alloc: Global,
    asked: &Asked,
    committee: Committee,
    before: &[bool],
    seeds: &[[u8; 32]],
    crew: &mut C,
    pace: &mut Q,
) -> Result<Moved, Status>
    requires may { MayMove (standing_of asked.now) committee.members committee.bound }
    requires lines { AllLawful (moving_of (standing_of asked.now) committee.members committee.bound) asked.now.drill }
    requires before { before.now ≡ marks_of (down_moving (standing_of asked.now)) (asked.now.file.n + committee.members) }
    requires seeds { length seeds.now ≡ seeds_for (standing_of asked.now) }
    ensures left { IfOk result (IsMovePhase (standing_of asked.now) committee.members committee.bound seeds.now (cuts_in Q.answered_count Q.cuts_of pace.old pace.new)) }
    ensures few { IfErr result (RefusesPhase (standing_of asked.now) committee.members committee.bound seeds.now (cuts_in Q.answered_count Q.cuts_of pace.old pace.new)) }
    ensures lent { Lent C.fault_count C.attended_count C.calm crew.old crew.new }
    ensures attended { IfOk result (λ _. C.attended_count crew.new ≡ min (C.attended_count crew.old + (asked.now.file.n + committee.members)) (2 ^ 64 - 1)) }
    ensures cause { IfErr result (IsFromPhase (C.fault_count crew.old) (C.fault_count crew.new)) }
{
    let bound = asked.file.t;
    match asked.file.n {
        4 => phase_from::<C, Q, R, 4, 8, 9, 11, 14, 17>(
            rt, alloc, bound, asked, committee, before, seeds, crew, pace,
        ),
        5 => phase_from::<C, Q, R, 5, 9, 10, 12, 15, 18>(
            rt, alloc, bound, asked, committee, before, seeds, crew, pace,
        ),
        7 => phase_from::<C, Q, R, 7, 11, 12, 14, 17, 20>(
            rt, alloc, bound, asked, committee, before, seeds, crew, pace,
        ),
        10 => phase_from::<C, Q, R, 10, 14, 15, 17, 20, 23>(
            rt, alloc, bound, asked, committee, before, seeds, crew, pace,
        ),
        _ => phase_from::<C, Q, R, 13, 17, 18, 20, 23, 26>(
            rt, alloc, bound, asked, committee, before, seeds, crew, pace,
        ),
    }
}
