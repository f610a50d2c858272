//! The command `move NAME M U`, with or without a drill.
ghost use Rattle.std.specs.Prelude.{◌≡◌, ◌≤◌, ◌+◌, ◌-◌, ◌^◌, ℕ, List, length, map, min, string_bytes, IsTrue, IfOk, IfSome, IfErr};
ghost use Rattle.shelf.specs.Causes.{OnlyReads};
ghost use Rattle.sizes.specs.Committees.{is_size, is_bound};
ghost use Rattle.drillbook.specs.Orders.{AllLawful};
ghost use Rattle.keyroom.specs.Causes.{IsFromPlan};
ghost use Rattle.keyroom.specs.Outcome.{AnswersStep};
ghost use Rattle.keyroom.specs.Commands.{text_of};
ghost use Rattle.keyroom.specs.Texts.{move_text};
ghost use Rattle.commands.specs.Planning.{UnderSome, PlansWith, HasEnoughSeeds};
ghost use Rattle.commands.specs.Causes.{before_text, IsFromCommand, IsFromWork, IsFromPhase, IsFromSeeds};
ghost use Rattle.commands.specs.Crews.{Lent, AllSeatsAttended};
ghost use Rattle.commands.specs.Late.{cuts_in};
ghost use Rattle.commands.specs.Move.{move_asked, moving_of, Moves, MeansMove, MoveTakes};
ghost use Rattle.commands.specs.MovePhase.{MayMove, shares_at, AreOpened, first_end, members_in, PlansMove};
ghost use Rattle.commands.specs.Standing.{seeds_for, HasSoundNow};
ghost use Rattle.commands.specs.Phase.{indexes_of, standing_of};

use crate::changes::{indexes_of, next_changes};
use crate::down::moving_marks;
use crate::holders::following_now;
use crate::moving_phase::{Moved, run_move};
use crate::seeds::seeds_of;
use crate::standing::{Asked, standing_at, valid_count};
use field61::{Fe, NumberList};
use keyroom::{Plan, Status, move_text, now_of};
use lists::{OutOfMemory, TryCopy};
use moveshare::MoveOut;
use party_crew::{Crew, Pace};
use sharefile::{KeyName, NowFile};
use shelf::{Entropy, Shelf};
use sizes::Committee;
use std::alloc::Global;
use std::sync::Wait;
use std::thread::Threads;
use talk::{Setting, in_mask};

/// What a move finds on the shelf. It refuses as `now_of` and `standing_at` do.
fn asked_of<H: Shelf>(
    alloc: Global,
    name: &KeyName,
    committee: Committee,
    drill: Option<&str>,
    shelf: &mut H,
) -> Result<Asked, Status>
    requires size { IsTrue (is_size committee.members) }
    requires bound { IsTrue (is_bound committee.members committee.bound) }
    ensures reads { OnlyReads H.held H.fault_count H.calm shelf.old shelf.new }
    ensures gives { IfSome (H.held shelf.old) (λ m. AnswersStep standing_of result (move_asked name.now committee.members committee.bound (text_of drill.entry) m)) }
    ensures may { IfOk result (λ asked. MayMove (standing_of asked) committee.members committee.bound) }
    ensures lines { IfOk result (λ asked. AllLawful (moving_of (standing_of asked) committee.members committee.bound) asked.drill) }
    ensures cause { IfErr result (IsFromPlan (H.fault_count shelf.old) (H.fault_count shelf.new)) }
{
    let now = now_of(alloc, name, shelf)?;
    let setting = Setting::moving(now.n, now.t, committee.members, committee.bound);
    let asked = standing_at(alloc, now, drill, &setting, shelf)?;
    Ok(asked)
}

/// Which old members were corrected, as a mask, by the first new member that isn't down: all of these agree. It refuses
/// with `NoWord` where the move has no result.
fn corrected_by(alloc: Global, outs: &[Option<MoveOut>]) -> Result<u32, Status>
    requires { AreOpened outs.now }
    ensures gives { AnswersStep (λ mask. mask) result (first_end outs.now) }
    ensures cause { IfErr result IsFromWork }
{
    for out in outs {
        match out {
            None => {}
            Some(MoveOut::Shares { corrected, .. }) => return Ok(*corrected),
            Some(MoveOut::NotOpened { .. }) => unreachable!(),
            Some(MoveOut::NoWord { lane, syndrome }) => {
                let syndrome = syndrome.copy(alloc)?;
                return Err(Status::NoWord {
                    lane: *lane,
                    syndrome,
                });
            }
        }
    }
    Ok(0)
}

/// The shares that a new member comes to, if any.
fn shares_at(out: &Option<MoveOut>) -> Option<[Fe; 5]>
    ensures { result ≡ shares_at out.now }
{
    match out {
        Some(MoveOut::Shares { shares, .. }) => Some(*shares),
        _ => None,
    }
}

/// The shares that the new members come to, by index.
fn shares_of(alloc: Global, outs: &[Option<MoveOut>]) -> Result<Vec<Option<[Fe; 5]>>, OutOfMemory>
    ensures { IfOk result (λ shares. shares.items ≡ map shares_at outs.now) }
{
    let mut shares = Vec::new(alloc);
    for out in outs {
        shares.push(shares_at(out))?;
    }
    Ok(shares)
}

/// The members 1 to `count` that are in a mask.
fn members_in(alloc: Global, mask: u32, count: u32) -> Result<NumberList, OutOfMemory>
    requires { count ≤ 15 }
    ensures { IfOk result (λ members. members ≡ members_in mask count) }
{
    let mut members = NumberList::new(alloc);
    for member in 1..count + 1 {
        if in_mask(mask, member) {
            members.push(member)?;
        }
    }
    Ok(members)
}

/// What is printed of a move from the members of one now file to those of another.
fn moved_text(
    alloc: Global,
    before: &NowFile,
    now: &NowFile,
    moved: &Moved,
    corrected: u32,
    shares: &[Option<[Fe; 5]>],
) -> Result<String, OutOfMemory>
    requires { length shares.now ≤ 15 }
    ensures { IfOk result (λ s. string_bytes s ≡ move_text before.now now.now moved.now.masks moved.now.accepted (members_in corrected before.now.n) (indexes_of 1 shares.now)) }
{
    let members = members_in(alloc, corrected, before.n)?;
    let indexes = indexes_of(alloc, shares)?;
    move_text(
        alloc,
        before,
        now,
        &moved.masks,
        moved.accepted,
        &members,
        &indexes,
    )
}

/// The plan, with the seeds known. It refuses as the phase does, and with `NoWord` where that has no result.
fn plan_of<C: Crew, Q: Pace + Send, R: Threads + Wait + Sync>(
    rt: &R,
    alloc: Global,
    asked: &Asked,
    committee: Committee,
    seeds: &[[u8; 32]],
    crew: &mut C,
    pace: &mut Q,
) -> Result<Plan, Status>
    requires may { MayMove (standing_of asked.now) committee.members committee.bound }
    requires lines { AllLawful (moving_of (standing_of asked.now) committee.members committee.bound) asked.now.drill }
    requires seeds { length seeds.now ≡ seeds_for (standing_of asked.now) }
    ensures meaning { PlansMove (standing_of asked.now) committee.members committee.bound seeds.now (cuts_in Q.answered_count Q.cuts_of pace.old pace.new) result }
    ensures lent { Lent C.fault_count C.attended_count C.calm crew.old crew.new }
    ensures attended { IfOk result (λ _. C.attended_count crew.new ≡ min (C.attended_count crew.old + (asked.now.file.n + committee.members)) (2 ^ 64 - 1)) }
    ensures cause { IfErr result (IsFromPhase (C.fault_count crew.old) (C.fault_count crew.new)) }
{
    let before = moving_marks(alloc, &asked.files, &asked.drill, committee.members)?;
    let moved = run_move(rt, alloc, asked, committee, &before, seeds, crew, pace)?;
    let corrected = corrected_by(alloc, &moved.outs)?;
    let now = following_now(&asked.file, committee, &moved.down);
    let shares = shares_of(alloc, &moved.outs)?;
    let changes = next_changes(alloc, &asked.file, &now, &shares)?;
    let text = moved_text(alloc, &asked.file, &now, &moved, corrected, &shares)?;
    Ok(Plan { changes, text })
}

/// The plan of a move, with what it finds known: it takes a seed for each valid share file, and runs the phase.
fn plan_with<E: Entropy, C: Crew, Q: Pace + Send, R: Threads + Wait + Sync>(
    rt: &R,
    alloc: Global,
    asked: &Asked,
    committee: Committee,
    entropy: &mut E,
    crew: &mut C,
    pace: &mut Q,
) -> Result<Plan, Status>
    requires may { MayMove (standing_of asked.now) committee.members committee.bound }
    requires lines { AllLawful (moving_of (standing_of asked.now) committee.members committee.bound) asked.now.drill }
    ensures meaning { PlansWith (λ o. (masks : List ℕ) × Moves committee.members committee.bound (E.coming entropy.old) (cuts_in Q.answered_count Q.cuts_of pace.old pace.new) masks (standing_of asked.now) o) (λ count. count ≡ seeds_for (standing_of asked.now)) (E.coming entropy.old) (E.coming entropy.new) result }
    ensures later { E.fault_count entropy.old ≤ E.fault_count entropy.new }
    ensures cause { IfErr result (IsFromSeeds (E.fault_count entropy.old) (E.fault_count entropy.new) (C.fault_count crew.old) (C.fault_count crew.new)) }
    ensures lent { Lent C.fault_count C.attended_count C.calm crew.old crew.new }
    ensures attended { IfOk result (λ _. C.attended_count crew.new ≡ min (C.attended_count crew.old + (asked.now.file.n + committee.members)) (2 ^ 64 - 1)) }
    ensures calm { E.calm entropy.old → IfSome (E.coming entropy.old) (λ seeds. seeds_for (standing_of asked.now) ≤ length seeds) → E.calm entropy.new }
{
    let count = valid_count(&asked.files);
    let seeds = seeds_of(alloc, count, entropy)?;
    let plan = plan_of(rt, alloc, asked, committee, &seeds, crew, pace)?;
    Ok(plan)
}

/// What `move NAME M U` will do, under the drill in the file that is named, if one is. Before the phase it refuses as
/// `plan_refresh` does; further with
/// `EntropyFault` where a seed could not be had, with `NoThread` where a thread could not, with `TooFewSound` where the phase
/// leaves too few of the old or the new members, and with `NoWord` where it has no result.
pub fn plan_move<H: Shelf, E: Entropy, C: Crew, Q: Pace + Send, R: Threads + Wait + Sync>(
    rt: &R,
    alloc: Global,
    name: &KeyName,
    committee: Committee,
    drill: Option<&str>,
    shelf: &mut H,
    entropy: &mut E,
    crew: &mut C,
    pace: &mut Q,
) -> Result<Plan, Status>
    requires size { IsTrue (is_size committee.members) }
    requires bound { IsTrue (is_bound committee.members committee.bound) }
    ensures reads { OnlyReads H.held H.fault_count H.calm shelf.old shelf.new }
    ensures meaning { IfSome (H.held shelf.old) (λ m.
        PlansWith (UnderSome (MeansMove name.now committee.members committee.bound (text_of drill.entry) m (E.coming entropy.old) (cuts_in Q.answered_count Q.cuts_of pace.old pace.new)))
        (MoveTakes name.now committee.members committee.bound (text_of drill.entry) m) (E.coming entropy.old) (E.coming entropy.new) result) }
    ensures later { E.fault_count entropy.old ≤ E.fault_count entropy.new }
    ensures cause { IfErr result (IsFromCommand (before_text (H.fault_count shelf.old) (E.fault_count entropy.old) (C.fault_count crew.old)) (before_text (H.fault_count shelf.new) (E.fault_count entropy.new) (C.fault_count crew.new))) }
    ensures calm { E.calm entropy.old → HasEnoughSeeds 13 (MoveTakes name.now committee.members committee.bound (text_of drill.entry)) (H.held shelf.old) (E.coming entropy.old) → E.calm entropy.new }
    ensures now { IfOk result (λ _. IfSome (H.held shelf.old) (HasSoundNow name.now)) }
    ensures lent { Lent C.fault_count C.attended_count C.calm crew.old crew.new }
    ensures attended { IfOk result (λ _. AllSeatsAttended name.now (λ file. file.n + committee.members) (H.held shelf.old) (C.attended_count crew.old) (C.attended_count crew.new)) }
{
    let asked = asked_of(alloc, name, committee, drill, shelf)?;
    plan_with(rt, alloc, &asked, committee, entropy, crew, pace)
}
