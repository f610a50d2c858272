//! Phases of four seats.
ghost use Rattle.std.specs.Prelude.{◌≡◌, ◌∷◌, [], length, IfOk};
ghost use Rattle.talk.specs.Shape.{seats};
ghost use Rattle.talk.specs.declared.messages.Post.TheVariants.{Quiet as QuietPost};
ghost use Rattle.talk.specs.declared.messages.Ring.TheVariants.{Nothing as NoRing};
ghost use Rattle.talk.specs.declared.messages.Say.TheVariants.{Speak as Speaking};

use lists::OutOfMemory;
use party_crew::{
    Crew, FailCrew, Gate, HoldCrew, HoldPace, OpenGate, Pace, ScriptPace, StillPace, ThreadCrew,
    TurnPace, run_phase,
};
use std::alloc::Global;
use std::sync::atomic::AtomicBool;
use std::sync::atomic::Ordering::SeqCst;
use std::sync::{Arc, Wait};
use std::test::Fail;
use std::thread;
use std::thread::Threads;
use talk::{Heard, Mind, Post, Ring, RingList, Say, Setting};

// A mind among four that speaks in each round, and says nothing.
#[derive(Clone, Copy, Debug, Drop)]
struct Talker;

impl Mind for Talker {
    ghost made_for = { λ _ s _. seats s ≡ 4 };

    ghost may_say = { λ _ _. Unit {0} };

    ghost may_hear = { λ _ _. Unit {0} };

    ghost word = { λ _ _. Speaking QuietPost (NoRing ∷ NoRing ∷ NoRing ∷ NoRing ∷ []) };

    ghost after_say = { λ m _. m };

    ghost after_hear = { λ m _ _. m };

    fn say(&mut self, alloc: Global, _round: u32) -> Result<Say, OutOfMemory> {
        let mut rings = RingList::new(alloc);
        rings.push(Ring::Nothing)?;
        rings.push(Ring::Nothing)?;
        rings.push(Ring::Nothing)?;
        rings.push(Ring::Nothing)?;
        Ok(Say::Speak {
            post: Post::Quiet,
            rings,
        })
    }

    fn hear(&mut self, _alloc: Global, _round: u32, heard: Heard) -> Result<(), OutOfMemory> {
        let _heard = heard;
        Ok(())
    }

    ghost say_keeps = { λ m r may s seat. ((λ h. h), (λ h. h)) };

    ghost hear_keeps = { λ m r h may s seat. ((λ x. x), (λ x. x)) };

    ghost hears_next = { λ m r may. tt };

    ghost says_next = { λ m r h s seat may made lt. tt };
}

// Holds one seat in the first round until another has come to a round, or for a great many looks.
#[derive(Drop)]
struct Holds {
    held: u32,
    awaited: u32,
    round: u32,
    came: AtomicBool,
    failed: AtomicBool,
}

impl Holds {
    fn new(held: u32, awaited: u32, round: u32) -> Holds {
        Holds {
            held,
            awaited,
            round,
            came: AtomicBool::new(false),
            failed: AtomicBool::new(false),
        }
    }
}

impl Gate for Holds {
    fn reach<R: Wait>(&self, _rt: &R, seat: u32, round: u32) {
        if seat == self.awaited && round == self.round {
            self.came.store(true, SeqCst);
        }
        if seat != self.held || round != 1 {
            return;
        }
        for look in 0..1_000_000_000u64 {
            if self.came.load(SeqCst) {
                return;
            }
            if look % 1024 == 1023 {
                thread::yield_now();
            }
        }
        self.failed.store(true, SeqCst);
    }
}

fn four(alloc: Global) -> Result<Vec<Talker>, Fail>
    ensures { IfOk result (λ v. length v.items ≡ 4) }
{
    Ok(Vec::from_elem(alloc, Talker, 4)?)
}

// The masks of a phase of four seats and five rounds. None where there was none.
fn masks_of<C: Crew, G: Gate + Sync, Q: Pace + Send, R: Threads + Wait + Sync>(
    rt: &R,
    alloc: Global,
    crew: &mut C,
    gate: &G,
    pace: &mut Q,
) -> Result<Option<[Option<u32>; 5]>, Fail> {
    let minds = four(alloc)?;
    let setting = Setting::create(4, 1);
    match run_phase::<Talker, C, G, Q, R, 4>(rt, alloc, minds, &setting, crew, gate, pace) {
        Ok(record) => {
            let board = record.board;
            Ok(Some([
                board.mask(1),
                board.mask(2),
                board.mask(3),
                board.mask(4),
                board.mask(5),
            ]))
        }
        Err(_) => Ok(None),
    }
}

// Whether a phase in which nobody is cut goes through with everyone in each mask, while the seat `held` waits for
// `awaited`.
fn gated<R: Threads + Wait + Sync>(
    rt: &R,
    alloc: Global,
    held: u32,
    awaited: u32,
) -> Result<bool, Fail> {
    let gate = Holds::new(held, awaited, 1);
    let mut crew = ThreadCrew::new();
    let masks = masks_of(rt, alloc, &mut crew, &gate, &mut StillPace::new())?;
    let counted = crew.attended() == 4 && crew.faults() == 0;
    Ok(masks == Some([Some(15); 5]) && counted && !gate.failed.load(SeqCst))
}

#[test]
fn members_run_beside_one_another(rt: HostRuntime) -> Result<(), Fail> {
    assert!(rt; gated(&rt, rt.alloc(), 1, 2)?);
    assert!(rt; gated(&rt, rt.alloc(), 2, 1)?);
    Ok(())
}

#[test]
fn a_refused_start_ends_the_phase(rt: HostRuntime) -> Result<(), Fail> {
    for start in 0..4u64 {
        let mut crew = FailCrew::new(Vec::from_elem(rt.alloc(), start, 1)?);
        let masks = masks_of(&rt, rt.alloc(), &mut crew, &OpenGate, &mut StillPace::new())?;
        assert_eq!(rt; masks, None);
        assert_eq!(rt; crew.faults(), 1);
    }
    Ok(())
}

#[test]
fn a_seat_that_is_cut_while_it_is_held_is_in_no_mask(rt: HostRuntime) -> Result<(), Fail> {
    let gate = Holds::new(2, 1, 2);
    let mut pace = ScriptPace::new(Vec::from_elem(rt.alloc(), (1u32, 2u32), 1)?);
    let masks = masks_of(&rt, rt.alloc(), &mut ThreadCrew::new(), &gate, &mut pace)?;
    assert_eq!(rt; masks, Some([Some(13); 5]));
    assert_eq!(rt; pace.cuts(1), 2);
    assert_eq!(rt; pace.answered(), 1);
    assert!(rt; !gate.failed.load(SeqCst));
    Ok(())
}

#[test]
fn a_member_whose_thread_is_held_is_cut_when_it_alone_is_missing(
    rt: HostRuntime,
) -> Result<(), Fail> {
    let flag = Arc::new(rt.alloc(), AtomicBool::new(false))?;
    let mut crew = HoldCrew::new(2, Arc::try_clone(&flag)?);
    let mut pace = HoldPace::new(3, flag);
    let masks = masks_of(&rt, rt.alloc(), &mut crew, &OpenGate, &mut pace)?;
    assert_eq!(rt; masks, Some([Some(11); 5]));
    assert_eq!(rt; pace.cuts(1), 4);
    Ok(())
}

#[test]
fn a_phase_without_turns_ends(rt: HostRuntime) -> Result<(), Fail> {
    let mut pace = TurnPace::new(0);
    let masks = masks_of(
        &rt,
        rt.alloc(),
        &mut ThreadCrew::new(),
        &OpenGate,
        &mut pace,
    )?;
    assert!(rt; masks.is_some());
    Ok(())
}
