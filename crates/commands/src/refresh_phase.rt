//! The phase of a refresh.
ghost use Rattle.std.specs.Prelude.{◌≡◌, ◌≤◌, ◌<◌, ◌-◌, ◌+◌, ◌*◌, ◌^◌, Some, None, length, min, count_by, drop, IfOk, IfErr};
ghost use Rattle.sizes.specs.Committees.{IsCommittee};
ghost use Rattle.chance61.specs.Draws.{grids_drawn};
ghost use Rattle.talk.specs.Shape.{refresh_shape};
ghost use Rattle.zeroshare.specs.Refresh.{HasResult, shares_in, accepted_by};
ghost use Rattle.drillbook.specs.Orders.{AllLawful};
ghost use Rattle.keyroom.specs.Sound.{is_valid};
ghost use Rattle.commands.specs.Causes.{IsFromCrew};
ghost use Rattle.commands.specs.Crews.{Lent};
ghost use Rattle.commands.specs.Late.{cuts_in};
ghost use Rattle.commands.specs.Refresh.{setting_of, keeping, keeper_on, keepers_on};
ghost use Rattle.commands.specs.Standing.{down_in, holdings, seeds_for};
ghost use Rattle.commands.specs.Phase.{marks_of, standing_of, IsReady, IsRefreshPhase};
ghost use Rattle.commands.specs.Run.{drilled_on, drilled_all};

use crate::phase::{Keeps, Party, Phase, phase_of};
use crate::standing::Asked;
use chance61::Chance;
use drillbook::{Drill, Drilled};
use field61::Fe;
use keyroom::{Found, Status};
use lists::OutOfMemory;
use party_crew::{Crew, Pace};
use std::alloc::Global;
use std::sync::Wait;
use std::thread::Threads;
use talk::Setting;
use zeroshare::Refresh;

impl<const N: usize> Party for Refresh<N> {
    ghost is_done = { HasResult };

    ghost count = { accepted_by };

    fn end_accepted(&self) -> u32 {
        self.accepted()
    }
}

impl<const N: usize> Keeps for Refresh<N> {
    ghost lanes = { shares_in };

    fn end_shares(&self) -> [Fe; 5] {
        self.shares()
    }
}

/// The mind of a member with a valid share file, before the first round: it draws its grids from its seed.
fn keeper_of<const N: usize>(
    alloc: Global,
    bound: u32,
    drill: &Drill,
    seat: u32,
    old: [Fe; 5],
    seed: &[u8; 32],
) -> Result<Drilled<Refresh<N>>, OutOfMemory>
    requires committee { IsCommittee N bound }
    requires seat { (1 ≤ seat) × (seat ≤ N) }
    requires lines { AllLawful (refresh_shape N bound) drill.now }
    ensures { IfOk result (λ m. m ≡ drilled_on (refresh_shape N bound) drill.now seat
        (keeper_on (refresh_shape N bound) seat (Some (record { old = old; grids = grids_drawn (bound - 1) seed.now })))) }
{
    let mut chance = Chance::from_seed(*seed);
    let mind = Refresh::new(alloc, bound, seat, old, &mut chance)?;
    Drilled::new(alloc, mind, drill, seat, Setting::refresh(N as u32, bound))
}

/// The mind of a member without one: it is away.
fn away_of<const N: usize>(
    alloc: Global,
    bound: u32,
    drill: &Drill,
    seat: u32,
) -> Result<Drilled<Refresh<N>>, OutOfMemory>
    requires committee { IsCommittee N bound }
    requires seat { (1 ≤ seat) × (seat ≤ N) }
    requires lines { AllLawful (refresh_shape N bound) drill.now }
    ensures { IfOk result (λ m. m ≡ drilled_on (refresh_shape N bound) drill.now seat (keeper_on (refresh_shape N bound) seat None)) }
{
    let mind = Refresh::away(bound, seat);
    Drilled::new(alloc, mind, drill, seat, Setting::refresh(N as u32, bound))
}

/// The minds on all seats of a refresh among N members, before the first round: those with a valid share file take the seeds,
/// one after the other, and the others are away. The error is want of memory.
pub fn refresh_minds<const N: usize>(
    alloc: Global,
    bound: u32,
    drill: &Drill,
    files: &[Found],
    seeds: &[[u8; 32]],
) -> Result<Vec<Drilled<Refresh<N>>>, OutOfMemory>
    requires committee { IsCommittee N bound }
    requires lines { AllLawful (refresh_shape N bound) drill.now }
    requires files { length files.now ≡ N }
    requires seeds { length seeds.now ≡ count_by is_valid files.now }
    ensures { IfOk result (λ minds. minds.items ≡ drilled_all (refresh_shape N bound) drill.now (keepers_on (refresh_shape N bound) (holdings (keeping (bound - 1)) 1 files.now seeds.now))) }
{
    let mut minds = Vec::new(alloc);
    let mut seat = 1;
    let mut taken = 0;
    for file in files {
        if let Found::Valid(share) = file {
            let mind = keeper_of(alloc, bound, drill, seat, share.lanes, &seeds[taken])?;
            minds.push(mind)?;
            taken += 1;
        } else {
            minds.push(away_of(alloc, bound, drill, seat)?)?;
        }
        seat += 1;
    }
    Ok(minds)
}

/// The phase among N members.
fn phase_among<C: Crew, Q: Pace + Send, R: Threads + Wait + Sync, const N: usize>(
    rt: &R,
    alloc: Global,
    bound: u32,
    asked: &Asked,
    before: &[bool],
    seeds: &[[u8; 32]],
    crew: &mut C,
    pace: &mut Q,
) -> Result<Phase, Status>
    requires size { N ≡ asked.now.file.n }
    requires bound { bound ≡ asked.now.file.t }
    requires ready { IsReady (standing_of asked.now) }
    requires lines { AllLawful (setting_of (standing_of asked.now)) asked.now.drill }
    requires before { before.now ≡ marks_of (down_in (standing_of asked.now)) asked.now.file.n }
    requires seeds { length seeds.now ≡ seeds_for (standing_of asked.now) }
    ensures left { IfOk result (IsRefreshPhase (standing_of asked.now) seeds.now (cuts_in Q.answered_count Q.cuts_of pace.old pace.new)) }
    ensures lent { Lent C.fault_count C.attended_count C.calm crew.old crew.new }
    ensures attended { IfOk result (λ _. C.attended_count crew.new ≡ min (C.attended_count crew.old + asked.now.file.n) (2 ^ 64 - 1)) }
    ensures cause { IfErr result (IsFromCrew (C.fault_count crew.old) (C.fault_count crew.new)) }
{
    let setting = Setting::refresh(N as u32, bound);
    let minds = refresh_minds::<N>(alloc, bound, &asked.drill, &asked.files, seeds)?;
    let phase = phase_of::<Refresh<N>, C, Q, R, N>(rt, alloc, minds, before, &setting, crew, pace)?;
    Ok(phase)
}

/// The phase of a refresh, with a seed for each valid share file; who is down before it is marked. It refuses as `run_create`
/// does.
pub fn run_refresh<C: Crew, Q: Pace + Send, R: Threads + Wait + Sync>(
    rt: &R,
    alloc: Global,
    asked: &Asked,
    before: &[bool],
    seeds: &[[u8; 32]],
    crew: &mut C,
    pace: &mut Q,
) -> Result<Phase, Status>
    requires ready { IsReady (standing_of asked.now) }
    requires lines { AllLawful (setting_of (standing_of asked.now)) asked.now.drill }
    requires before { before.now ≡ marks_of (down_in (standing_of asked.now)) asked.now.file.n }
    requires seeds { length seeds.now ≡ seeds_for (standing_of asked.now) }
    ensures left { IfOk result (IsRefreshPhase (standing_of asked.now) seeds.now (cuts_in Q.answered_count Q.cuts_of pace.old pace.new)) }
    ensures lent { Lent C.fault_count C.attended_count C.calm crew.old crew.new }
    ensures attended { IfOk result (λ _. C.attended_count crew.new ≡ min (C.attended_count crew.old + asked.now.file.n) (2 ^ 64 - 1)) }
    ensures cause { IfErr result (IsFromCrew (C.fault_count crew.old) (C.fault_count crew.new)) }
{
    let bound = asked.file.t;
    match asked.file.n {
        4 => phase_among::<C, Q, R, 4>(rt, alloc, bound, asked, before, seeds, crew, pace),
        5 => phase_among::<C, Q, R, 5>(rt, alloc, bound, asked, before, seeds, crew, pace),
        7 => phase_among::<C, Q, R, 7>(rt, alloc, bound, asked, before, seeds, crew, pace),
        10 => phase_among::<C, Q, R, 10>(rt, alloc, bound, asked, before, seeds, crew, pace),
        _ => phase_among::<C, Q, R, 13>(rt, alloc, bound, asked, before, seeds, crew, pace),
    }
}
