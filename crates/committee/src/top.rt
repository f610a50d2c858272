//! The call that the program makes.
ghost use Rattle.std.specs.Prelude.{◌≡◌, ◌≢◌, ◌≤◌, ◌⊎◌, ◌↔◌, List, [], ℕ, take, Ok, None, IfSome, IsSome, IfOk, IfErr, Option};
ghost use Rattle.algebra61.specs.Field.{Fp};
ghost use Rattle.algebra61.specs.Polynomial.{Polynomial};
ghost use Rattle.sharefile.specs.declared.link.Link.{Link};
ghost use Rattle.sharefile.specs.Files.{Now};
ghost use Rattle.shelf.specs.Causes.{OnlyReads};
ghost use Rattle.keyroom.specs.declared.document.Direction.{Direction};
ghost use Rattle.keyroom.specs.declared.status.Status.TheVariants.{NoWord};
ghost use Rattle.keyroom.specs.Causes.{cause_of};
ghost use Rattle.keyroom.specs.Causes as cause;
ghost use Rattle.keyroom.specs.Words.{Create, Refresh, Move, Recover, Rehearse, ReadsAs, texts, IsUsage, IsInRange};
ghost use Rattle.keyroom.specs.Commands.{command_of};
ghost use Rattle.keyroom.specs.Outcome.{Outcome, done};
ghost use Rattle.keyroom.specs.Steps.{now_of, files_of};
ghost use Rattle.keyroom.specs.Decoding.{HonestFiles};
ghost use Rattle.keyroom.specs.Recover.{recovered_by};
ghost use Rattle.keyroom.specs.Texts.{recover_text};
ghost use Rattle.keyroom.specs.Work.{KeyIsOf};
ghost use Rattle.keyroom.specs.Document.{DocumentCommandBy};
ghost use Rattle.commands.specs.Late.{cuts_in};
ghost use Rattle.commands.specs.Links.{first_now};
ghost use Rattle.committee.specs.Meaning.{Given, MeansSome, MeansUnder, Means, TakesSeeds, AskForSeeds, AreEnoughFor, AreEnough, ComeToPhase, ReadsNow};
ghost use Rattle.commands.specs.Uncut.{IsUncut};
ghost use Rattle.committee.specs.Uncut.{UncutHaveOneStatus};
ghost use Rattle.commands.specs.Agreement.{HeldOnOneLine, NewOnOneLine};
ghost use Rattle.committee.specs.Answer.{MadeAll, Does, Completes, Writes};
ghost use Rattle.committee.specs.Plain.{HeldPlain};
ghost use Rattle.commands.specs.Kept.{IsRefreshed, IsKept};
ghost use Rattle.commands.specs.Moved.{IsMoved, IsCarriedOn, LacksWord};
ghost use Rattle.committee.specs.Recovery.{Honestly, document_command};
ghost use Rattle.committee.specs.Rehearse.{EndsInSome, PlansRehearsal};
ghost use Rattle.playbill.specs.Printed.{IsTextOf};
ghost use Rattle.commands.specs.Planning.{PlansWith};
ghost use Rattle.commands.specs.Causes.{before_text, IsCounted, IsFromCommand};
ghost use Rattle.commands.specs.Crews.{Lent};
ghost use Rattle.committee.specs.Crews.{AllAttended, AllAttendedFor};

use crate::rehearse::plan_rehearsal;
use commands::{plan_create, plan_move, plan_refresh};
use keyroom::{
    Command, Direction, Plan, Status, carry_out, plan_check, plan_document, plan_recover,
    read_words,
};
use party_crew::{Crew, Pace};
use shelf::{Entropy, Shelf, Sink};
use std::alloc::Global;
use std::sync::Wait;
use std::thread::Threads;

/// What a command will do. The shelf is only asked.
fn plan<H: Shelf, E: Entropy, C: Crew, Q: Pace + Send, R: Threads + Wait + Sync>(
    rt: &R,
    alloc: Global,
    command: &Command<'_>,
    shelf: &mut H,
    entropy: &mut E,
    crew: &mut C,
    pace: &mut Q,
) -> Result<Plan, Status>
    requires { IsInRange (command_of command.now) }
    ensures reads { OnlyReads H.held H.fault_count H.calm shelf.old shelf.new }
    ensures meaning { IfSome (H.held shelf.old) (λ m.
        PlansWith (MeansSome (command_of command.now) (record { held = m; coming = E.coming entropy.old; cuts = cuts_in Q.answered_count Q.cuts_of pace.old pace.new }))
        (TakesSeeds (command_of command.now) m) (E.coming entropy.old) (E.coming entropy.new) result) }
    ensures later { E.fault_count entropy.old ≤ E.fault_count entropy.new }
    ensures cause { IfErr result (IsFromCommand (before_text (H.fault_count shelf.old) (E.fault_count entropy.old) (C.fault_count crew.old)) (before_text (H.fault_count shelf.new) (E.fault_count entropy.new) (C.fault_count crew.new))) }
    ensures calm { E.calm entropy.old → AreEnoughFor (command_of command.now) (H.held shelf.old) (E.coming entropy.old) → E.calm entropy.new }
    ensures now { IfOk result (λ _. IfSome (H.held shelf.old) (ReadsNow (command_of command.now))) }
    ensures lent { Lent C.fault_count C.attended_count C.calm crew.old crew.new }
    ensures rehearsed { PlansRehearsal (command_of command.now) shelf.old shelf.new entropy.old entropy.new result }
    ensures attended { IfOk result (λ _. AllAttended (command_of command.now) (H.held shelf.old) (C.attended_count crew.old) (C.attended_count crew.new)) }
{
    match command {
        Command::Create {
            name,
            committee,
            drill,
        } => plan_create(
            rt, alloc, name, *committee, *drill, shelf, entropy, crew, pace,
        ),
        Command::Refresh { name, drill } => plan_refresh(
            rt, alloc, name, *drill, shelf, entropy, crew, pace,
        ),
        Command::Move {
            name,
            committee,
            drill,
        } => plan_move(
            rt, alloc, name, *committee, *drill, shelf, entropy, crew, pace,
        ),
        Command::Recover { name } => plan_recover(alloc, name, shelf),
        Command::Check { name } => plan_check(alloc, name, shelf),
        Command::Seal { name, doc, target } => {
            plan_document(alloc, Direction::Sealing, name, doc, target, shelf)
        }
        Command::Open {
            name,
            source,
            target,
        } => plan_document(alloc, Direction::Opening, name, source, target, shelf),
        Command::Rehearse {
            committee,
            periods,
            number,
        } => plan_rehearsal(rt, alloc, *committee, *periods, *number, crew),
    }
}

/// Does what the words say, and answers the status.
///
/// All that a command will change and print is made before the first change. Then the changes are made in their order,
/// and the text is put out by one call.
///
/// What stands after an answer is said by its cause. `Done`: all of it was done. `SinkFault`: all changes were made, and
/// a part of the text from its front may have gone out. `ShelfFault` and `OutOfMemory`: a part of the changes from their
/// front was made, and nothing went out. Each other answer leaves the shelf and the sink as they were. `EntropyFault`
/// comes only where a command has come to its seeds, `NoThread` only where it has taken them, and each further answer is
/// exactly what the words and the files mean. Of these `NoWord`, and `TooFewSound` behind a phase, come when seeds were taken.
///
/// `TooFewSound` comes at two steps. Before the phase it comes in a refresh or a move exactly where fewer than N - T members
/// have a valid share file and aren't drilled. Behind the phase it comes in a create, a refresh or a move exactly where
/// fewer than N - T members of a committee are neither drilled, without a share file nor late; in a move the old committee
/// is looked at first, and the new one has its own bound. A member is late where it isn't in some mask of the phase.
pub fn run<H: Shelf, E: Entropy, C: Crew, Q: Pace + Send, K: Sink, R: Threads + Wait + Sync>(
    rt: &R,
    alloc: Global,
    words: &[String],
    shelf: &mut H,
    entropy: &mut E,
    crew: &mut C,
    pace: &mut Q,
    out: &mut K,
) -> Status
    // What the words mean is done, or a part of it where the outside or memory fails.
    ensures meaning { IfSome (H.held shelf.old) (λ m.
        Does (Means (texts words.now) (record { held = m; coming = E.coming entropy.old; cuts = cuts_in Q.answered_count Q.cuts_of pace.old pace.new })) (AskForSeeds (texts words.now) m)
        (record { held = H.held shelf.old; coming = E.coming entropy.old; told = K.told out.old })
        (record { held = H.held shelf.new; coming = E.coming entropy.new; told = K.told out.new }) result) }
    // Over what is calm, with enough seeds to come, it is done whole, unless memory ran out.
    ensures complete { IfSome (H.held shelf.old) (λ m. H.calm shelf.old → E.calm entropy.old → C.calm crew.old → K.calm out.old → AreEnough (texts words.now) (H.held shelf.old) (E.coming entropy.old) →
        Completes (Means (texts words.now) (record { held = m; coming = E.coming entropy.old; cuts = cuts_in Q.answered_count Q.cuts_of pace.old pace.new }))
        (record { held = H.held shelf.old; coming = E.coming entropy.old; told = K.told out.old })
        (record { held = H.held shelf.new; coming = E.coming entropy.new; told = K.told out.new }) result) }
    // After a create the share files of the key lie, in each lane, on one polynomial of degree at most T, whatever the
    // drilled members said.
    ensures agreement { MadeAll (cause_of result) → IfSome (H.held shelf.old) (λ old. IfSome (H.held shelf.new) (λ m.
        (name : List ℕ) (n t : ℕ) (drill : Option (List ℕ)) → ReadsAs (texts words.now) (Create name n t drill) → (link : Option Link) → HeldOnOneLine (first_now name n t link) m)) }
    // So do, whatever the answer, those that it has put, where it was stopped.
    ensures stopped { IfSome (H.held shelf.old) (λ old. IfSome (H.held shelf.new) (λ m.
        (name : List ℕ) (n t : ℕ) (drill : Option (List ℕ)) → ReadsAs (texts words.now) (Create name n t drill) → (link : Option Link) → NewOnOneLine (first_now name n t link) old m)) }
    // Without a drill, and where nobody was cut, each share is the sum over all members of what the grids that they draw from
    // their seeds say.
    ensures plain { MadeAll (cause_of result) → IsUncut (cuts_in Q.answered_count Q.cuts_of pace.old pace.new) → IfSome (H.held shelf.old) (λ old. IfSome (H.held shelf.new) (λ m. IfSome (E.coming entropy.old) (λ seeds.
        (name : List ℕ) (n t : ℕ) → ReadsAs (texts words.now) (Create name n t None) → (link : Option Link) → HeldPlain (first_now name n t link) (take n seeds) m))) }
    // After a refresh each new share is the old one plus, in each lane, the value of one polynomial times the member's
    // index, whatever the drilled members said.
    ensures refreshed { MadeAll (cause_of result) → IfSome (H.held shelf.old) (λ old. IfSome (H.held shelf.new) (λ m.
        (name : List ℕ) (drill : Option (List ℕ)) (before : Now) → ReadsAs (texts words.now) (Refresh name drill) → now_of name old ≡ Ok before → IsRefreshed name before old m)) }
    // A refresh leaves what stood, or makes a part of the changes that it means under the masks of its phase. The key stays,
    // whatever the answer, where N - T members that are neither drilled nor late under these masks had shares on polynomials
    // of degree at most T.
    ensures kept { IfSome (H.held shelf.old) (λ old. IfSome (H.held shelf.new) (λ m.
        (name : List ℕ) (drill : Option (List ℕ)) (before : Now) → ReadsAs (texts words.now) (Refresh name drill) →
        (masks : List ℕ) × IsKept name drill before (E.coming entropy.old) (cuts_in Q.answered_count Q.cuts_of pace.old pace.new) masks old m)) }
    // After a move the new share files lie, in each lane, on one polynomial. Its value at 0 is that of each polynomial that is
    // near to what the old members shared, and one is, whatever the drilled and the late members of both committees said.
    ensures moved { MadeAll (cause_of result) → IfSome (H.held shelf.old) (λ old. IfSome (H.held shelf.new) (λ m.
        (name : List ℕ) (size bound : ℕ) (drill : Option (List ℕ)) (before : Now) → ReadsAs (texts words.now) (Move name size bound drill) → now_of name old ≡ Ok before →
        (masks : List ℕ) × IsMoved name size bound drill before (E.coming entropy.old) (cuts_in Q.answered_count Q.cuts_of pace.old pace.new) masks old m)) }
    // NoWord names the least lane in which no polynomial is near to what the old members shared. It is never answered where N - T
    // members that are neither drilled nor late under the masks of the phase have shares on polynomials of degree at most T.
    ensures no_word { IfSome (H.held shelf.old) (λ m. (name : List ℕ) (size bound : ℕ) (drill : Option (List ℕ)) (lane : ℕ) (syndrome : List Fp) →
        ReadsAs (texts words.now) (Move name size bound drill) → result ≡ NoWord lane syndrome →
        (masks : List ℕ) × LacksWord name size bound drill (E.coming entropy.old) (cuts_in Q.answered_count Q.cuts_of pace.old pace.new) masks m lane syndrome) }
    // A move leaves what stood, or makes a part of its changes, and the key stays as in a refresh.
    ensures carried { IfSome (H.held shelf.old) (λ old. IfSome (H.held shelf.new) (λ m.
        (name : List ℕ) (size bound : ℕ) (drill : Option (List ℕ)) (before : Now) → ReadsAs (texts words.now) (Move name size bound drill) →
        (masks : List ℕ) × IsCarriedOn name size bound drill before (E.coming entropy.old) (cuts_in Q.answered_count Q.cuts_of pace.old pace.new) masks old m)) }
    // A rehearsal asks nothing of the shelf and the entropy, whatever these tell, and puts out its text, which hangs on its
    // words alone.
    ensures rehearsed { (members bound periods number : ℕ) → ReadsAs (texts words.now) (Rehearse members bound periods number) →
        (shelf.new ≡ shelf.old) × (entropy.new ≡ entropy.old) × EndsInSome (IsTextOf members bound periods number) (K.told out.old) (K.told out.new) (cause_of result) }
    // Any N - T honest share files are enough, whatever the other files are: the key that is recovered, under which a
    // document is sealed or opened, is what they say, and so are the members' states.
    ensures honest { IfSome (H.held shelf.old) (λ m. (name : List ℕ) (now : Now) (polys : List Polynomial) → HonestFiles name now m polys →
        Honestly (texts words.now) name now polys m
        (record { held = H.held shelf.old; coming = E.coming entropy.old; told = K.told out.old })
        (record { held = H.held shelf.new; coming = E.coming entropy.new; told = K.told out.new }) result) }
    // Whatever the shelf tells, a refusal writes nothing, and what is written is appended.
    ensures writes { Writes (K.told out.old) (K.told out.new) (cause_of result) }
    // Usage is answered exactly where the words are no command.
    ensures usage { (result ≡ Status.Usage) ↔ IsUsage (texts words.now) }
    // No count of faults falls, and a fault comes only where its count rose in this call.
    ensures counted { IsCounted (record { shelf = H.fault_count shelf.old; entropy = E.fault_count entropy.old; crew = C.fault_count crew.old; sink = K.fault_count out.old })
        (record { shelf = H.fault_count shelf.new; entropy = E.fault_count entropy.new; crew = C.fault_count crew.new; sink = K.fault_count out.new }) (cause_of result) }
    // After a command with a phase that made all its changes, a member attended on each of its seats.
    ensures attended { MadeAll (cause_of result) → AllAttendedFor (texts words.now) (H.held shelf.old) (C.attended_count crew.old) (C.attended_count crew.new) }
    ensures attended_later { C.attended_count crew.old ≤ C.attended_count crew.new }
    // What is calm stays so, the entropy where it tells enough seeds for what the command comes to.
    ensures shelf_calm { H.calm shelf.old → H.calm shelf.new }
    ensures entropy_calm { E.calm entropy.old → AreEnough (texts words.now) (H.held shelf.old) (E.coming entropy.old) → E.calm entropy.new }
    ensures crew_calm { C.calm crew.old → C.calm crew.new }
    ensures sink_calm { K.calm out.old → K.calm out.new }
    // Over what is calm no fault is answered.
    ensures no_shelf_fault { H.calm shelf.old → cause_of result ≢ cause.Shelf }
    ensures no_entropy_fault { E.calm entropy.old → AreEnough (texts words.now) (H.held shelf.old) (E.coming entropy.old) → cause_of result ≢ cause.Entropy }
    ensures no_crew_fault { C.calm crew.old → cause_of result ≢ cause.Crew }
    ensures no_sink_fault { K.calm out.old → cause_of result ≢ cause.Sink }
{
    let Some(command) = read_words(words) else {
        return Status::Usage;
    };
    match plan(rt, alloc, &command, shelf, entropy, crew, pace) {
        Ok(plan) => carry_out(alloc, &plan, shelf, out),
        Err(status) => status,
    }
}

/// What the words and the outside mean has one status, whether or not the seeds to come are told, but for a command that comes
/// to its phase: who is cut and late may decide between `Done` and `TooFewSound`, and in a move between these and `NoWord`.
pub fn one_status()
    ensures { (words : List (List ℕ)) (given : Given) (a b : Outcome) → Means words given a → Means words given b → (a.status ≡ b.status) ⊎ ComeToPhase words given.held }
{}

/// Where nobody is cut it has one status, but for a move that comes to its phase: whether a drilled seat that posts late is in
/// a mask may decide between `Done` and `NoWord`.
pub fn one_status_where_nobody_is_cut()
    ensures { UncutHaveOneStatus }
{}

/// What the words and the outside mean under the masks of the rounds of all phases is one outcome, where the seeds to come
/// are told.
pub fn one_meaning()
    ensures { (words : List (List ℕ)) (given : Given) (masks : List (List ℕ)) (a b : Outcome) → IsSome given.coming → MeansUnder masks words given a → MeansUnder masks words given b → a ≡ b }
{}

/// Any N - T honest share files are enough: where N - T valid share files lie on polynomials of degree at most T,
/// `recover NAME` means that their values at 0 are the key, whatever the other files are.
pub fn honest_files_are_recovered()
    ensures { (words : List (List ℕ)) (name : List ℕ) (given : Given) (now : Now) (polys : List Polynomial) (outcome : Outcome) → ReadsAs words (Recover name) → HonestFiles name now given.held polys → Means words given outcome →
        outcome ≡ done [] (recover_text (recovered_by now (files_of now given.held) polys)) }
{}

/// Any N - T honest share files are enough to seal a document and to open a box: it is sealed or opened under the values
/// at 0 of the polynomials that these files lie on, whatever the other files are.
pub fn honest_files_work()
    ensures { (direction : Direction) (words : List (List ℕ)) (name source target : List ℕ) (given : Given) (now : Now) (polys : List Polynomial) (outcome : Outcome) →
        ReadsAs words (document_command direction name source target) → HonestFiles name now given.held polys → Means words given outcome →
        DocumentCommandBy direction (KeyIsOf polys) name source target given.held outcome }
{}
