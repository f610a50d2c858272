//! The phase of a create.
ghost use Rattle.std.specs.Prelude.{◌≡◌, ◌≤◌, ◌<◌, ◌*◌, ◌+◌, ◌-◌, ◌^◌, length, min, IfOk, IfErr, IsTrue};
ghost use Rattle.sizes.specs.Committees.{IsCommittee, is_size, is_bound};
ghost use Rattle.chance61.specs.Draws.{grids_drawn};
ghost use Rattle.members.specs.Member.{member_at};
ghost use Rattle.members.specs.Shares.{IsDone, accepted_in, member_shares};
ghost use Rattle.talk.specs.Shape.{create_shape};
ghost use Rattle.drillbook.specs.Orders.{names, AllLawful};
ghost use Rattle.commands.specs.Causes.{IsFromCrew};
ghost use Rattle.commands.specs.Crews.{Lent};
ghost use Rattle.commands.specs.Late.{cuts_in};
ghost use Rattle.commands.specs.Create.{dealt_by, members_on};
ghost use Rattle.commands.specs.Phase.{marks_of, IsCreatePhase};
ghost use Rattle.commands.specs.Run.{drilled_on, drilled_all};

use crate::phase::{Keeps, Party, Phase, phase_of};
use chance61::Chance;
use drillbook::{Drill, Drilled};
use field61::Fe;
use jointkey::Create;
use keyroom::Status;
use lists::OutOfMemory;
use party_crew::{Crew, Pace};
use sizes::Committee;
use std::alloc::Global;
use std::sync::Wait;
use std::thread::Threads;
use talk::Setting;

impl<const N: usize> Party for Create<N> {
    ghost is_done = { λ m. IsDone m.stage };

    ghost count = { λ m. accepted_in m.stage };

    fn end_accepted(&self) -> u32 {
        self.accepted()
    }
}

impl<const N: usize> Keeps for Create<N> {
    ghost lanes = { member_shares };

    fn end_shares(&self) -> [Fe; 5] {
        self.shares()
    }
}

/// The mind on a seat, before the first round: it draws its grids from its seed.
fn mind_of<const N: usize>(
    alloc: Global,
    bound: u32,
    drill: &Drill,
    seat: u32,
    seed: &[u8; 32],
) -> Result<Drilled<Create<N>>, OutOfMemory>
    requires committee { IsCommittee N bound }
    requires seat { (1 ≤ seat) × (seat ≤ N) }
    requires lines { AllLawful (create_shape N bound) drill.now }
    ensures { IfOk result (λ m. m ≡ drilled_on (create_shape N bound) drill.now seat (member_at (create_shape N bound) seat (grids_drawn bound seed.now))) }
{
    let mut chance = Chance::from_seed(*seed);
    let mind = Create::new(alloc, bound, seat, &mut chance)?;
    Drilled::new(alloc, mind, drill, seat, Setting::create(N as u32, bound))
}

/// The minds on all seats of a create among N members, before the first round: each is drilled, and draws its grids from the
/// seed of its place. The error is want of memory.
pub fn create_minds<const N: usize>(
    alloc: Global,
    bound: u32,
    drill: &Drill,
    seeds: &[[u8; 32]],
) -> Result<Vec<Drilled<Create<N>>>, OutOfMemory>
    requires committee { IsCommittee N bound }
    requires lines { AllLawful (create_shape N bound) drill.now }
    requires seeds { length seeds.now ≡ N }
    ensures { IfOk result (λ minds. minds.items ≡ drilled_all (create_shape N bound) drill.now (members_on (create_shape N bound) (dealt_by bound seeds.now))) }
{
    let mut minds = Vec::new(alloc);
    let mut seat = 1;
    for seed in seeds {
        minds.push(mind_of(alloc, bound, drill, seat, seed)?)?;
        seat += 1;
    }
    Ok(minds)
}

/// The phase among N members, of whom the drilled ones are marked.
fn phase_among<C: Crew, Q: Pace + Send, R: Threads + Wait + Sync, const N: usize>(
    rt: &R,
    alloc: Global,
    bound: u32,
    drill: &Drill,
    drilled: &[bool],
    seeds: &[[u8; 32]],
    crew: &mut C,
    pace: &mut Q,
) -> Result<Phase, Status>
    requires committee { IsCommittee N bound }
    requires lines { AllLawful (create_shape N bound) drill.now }
    requires drilled { drilled.now ≡ marks_of (names drill.now) N }
    requires seeds { length seeds.now ≡ N }
    ensures left { IfOk result (IsCreatePhase N bound drill.now seeds.now (cuts_in Q.answered_count Q.cuts_of pace.old pace.new)) }
    ensures lent { Lent C.fault_count C.attended_count C.calm crew.old crew.new }
    ensures attended { IfOk result (λ _. C.attended_count crew.new ≡ min (C.attended_count crew.old + N) (2 ^ 64 - 1)) }
    ensures cause { IfErr result (IsFromCrew (C.fault_count crew.old) (C.fault_count crew.new)) }
{
    let setting = Setting::create(N as u32, bound);
    let minds = create_minds::<N>(alloc, bound, drill, seeds)?;
    let phase = phase_of::<Create<N>, C, Q, R, N>(rt, alloc, minds, drilled, &setting, crew, pace)?;
    Ok(phase)
}

/// The phase of a create among the members of a committee that the program has, with a seed for each; the drilled ones are
/// marked. It refuses with `NoThread` only where the crew's count of faults rose; else the error is want of memory.
pub fn run_create<C: Crew, Q: Pace + Send, R: Threads + Wait + Sync>(
    rt: &R,
    alloc: Global,
    committee: Committee,
    drill: &Drill,
    drilled: &[bool],
    seeds: &[[u8; 32]],
    crew: &mut C,
    pace: &mut Q,
) -> Result<Phase, Status>
    requires size { IsTrue (is_size committee.members) }
    requires bound { IsTrue (is_bound committee.members committee.bound) }
    requires lines { AllLawful (create_shape committee.members committee.bound) drill.now }
    requires drilled { drilled.now ≡ marks_of (names drill.now) committee.members }
    requires seeds { length seeds.now ≡ committee.members }
    ensures left { IfOk result (IsCreatePhase committee.members committee.bound drill.now seeds.now (cuts_in Q.answered_count Q.cuts_of pace.old pace.new)) }
    ensures lent { Lent C.fault_count C.attended_count C.calm crew.old crew.new }
    ensures attended { IfOk result (λ _. C.attended_count crew.new ≡ min (C.attended_count crew.old + committee.members) (2 ^ 64 - 1)) }
    ensures cause { IfErr result (IsFromCrew (C.fault_count crew.old) (C.fault_count crew.new)) }
{
    let bound = committee.bound;
    match committee.members {
        4 => phase_among::<C, Q, R, 4>(rt, alloc, bound, drill, drilled, seeds, crew, pace),
        5 => phase_among::<C, Q, R, 5>(rt, alloc, bound, drill, drilled, seeds, crew, pace),
        7 => phase_among::<C, Q, R, 7>(rt, alloc, bound, drill, drilled, seeds, crew, pace),
        10 => phase_among::<C, Q, R, 10>(rt, alloc, bound, drill, drilled, seeds, crew, pace),
        _ => phase_among::<C, Q, R, 13>(rt, alloc, bound, drill, drilled, seeds, crew, pace),
    }
}
