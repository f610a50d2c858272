//! Laws of recovery, and of sealing and opening. The functions do nothing: their contracts are the theorems.
ghost use Rattle.std.specs.Prelude.{◌≡◌, ◌≢◌, ◌≤◌, ◌+◌, ◌^◌, ◌↔◌, ◌∷◌, [], ℕ, List, length, Result, Ok, Err, Some, None};
ghost use Rattle.algebra61.specs.Polynomial.{Polynomial};
ghost use Rattle.std.specs.FinMap.{get};
ghost use Rattle.shelf.specs.Held.{Held, Put, after};
ghost use Rattle.sharefile.specs.Files.{Now};
ghost use Rattle.keyroom.specs.declared.status.Status.{Status};
ghost use Rattle.keyroom.specs.declared.recover.Recovered.{Recovered};
ghost use Rattle.keyroom.specs.declared.check.Checked.{Checked};
ghost use Rattle.keyroom.specs.declared.document.Direction.{Direction};
ghost use Rattle.keyroom.specs.declared.document.Direction.TheVariants.{Sealing, Opening};
ghost use Rattle.keyroom.specs.declared.status.Status.TheVariants.{Done, NoKey};
ghost use Rattle.docvault.specs.Box.{IsBox};
ghost use Rattle.keyroom.specs.Names.{now_name};
ghost use Rattle.keyroom.specs.Outcome.{Outcome, done};
ghost use Rattle.keyroom.specs.Texts.{document_text};
ghost use Rattle.keyroom.specs.Work.{Work, KeyIsOf};
ghost use Rattle.keyroom.specs.Seal.{AreBytes};
ghost use Rattle.keyroom.specs.Document.{verb, WorksBy, MeansWork, MeansDocument};
ghost use Rattle.keyroom.specs.Steps.{now_of, files_of};
ghost use Rattle.keyroom.specs.Decoding.{HonestFiles, key_of};
ghost use Rattle.keyroom.specs.Recover.{recovered_by, MeansKey};
ghost use Rattle.keyroom.specs.Check.{checked_by, MeansStates};

/// Recovery of a key has one end: what the shelf holds fixes the key and the states, or the refusal.
#[tactic(auto, using(crate::proofs::Honest::one_key))]
pub fn one_recovery()
    ensures { (name : List ℕ) (held : Held) (a b : Result Recovered Status) → MeansKey name held a → MeansKey name held b → a ≡ b }
{}

/// The check of a key's files has one end.
#[tactic(auto, using(crate::proofs::Checking::one_check))]
pub fn one_check()
    ensures { (name : List ℕ) (held : Held) (a b : Result Checked Status) → MeansStates name held a → MeansStates name held b → a ≡ b }
{}

/// Any N - T honest share files give the key: where N - T valid share files lie on polynomials of degree at most T,
/// recovery ends with the values of these polynomials at 0, whatever the other files are.
#[tactic(auto, using(crate::proofs::Honest::honest_end))]
pub fn honest_files_give_the_key()
    ensures { (name : List ℕ) (held : Held) (now : Now) (polys : List Polynomial) (end : Result Recovered Status) → HonestFiles name now held polys → MeansKey name held end → end ≡ Ok (recovered_by now (files_of now held) polys) }
{}

/// Any N - T honest share files give the states: where N - T valid share files lie on polynomials of degree at most T, the
/// check ends with the states by these polynomials, whatever the other files are.
#[tactic(auto, using(crate::proofs::Checking::honest_states))]
pub fn honest_files_give_the_states()
    ensures { (name : List ℕ) (held : Held) (now : Now) (polys : List Polynomial) (end : Result Checked Status) → HonestFiles name now held polys → MeansStates name held end → end ≡ Ok (checked_by now (files_of now held) polys) }
{}

/// Sealing a document and opening a box have one end: what the shelf holds fixes the number, what is put and the changes,
/// or the refusal.
#[tactic(auto, using(crate::proofs::Working::one_work))]
pub fn one_work()
    ensures { (direction : Direction) (name source target : List ℕ) (held : Held) (a b : Result Work Status) → MeansWork direction name source target held a → MeansWork direction name source target held b → a ≡ b }
{}

/// Any N - T honest share files have a key: sealing and opening under the values at 0 of the polynomials that they lie on
/// are never refused for want of one.
#[tactic(auto, using(crate::proofs::Working::work_has_key))]
pub fn honest_files_have_a_key()
    ensures { (direction : Direction) (polys : List Polynomial) (name source target : List ℕ) (held : Held) (lane : ℕ) → WorksBy direction (KeyIsOf polys) name source target held (Err (NoKey lane)) → ⊥ }
{}

/// No document number is used twice by seals of one key one after another: where the now file is still the one that the
/// first of two seals left, whatever else happened between them, the second one's number is the next. The bytes of the
/// now file that the first one found are bytes.
pub fn document_numbers_rise()
    ensures { (name doc target paper copy : List ℕ) (before later : Held) (first second : Work) (bytes : List ℕ) →
        get before (now_name name) ≡ Some bytes → AreBytes bytes → MeansWork Sealing name doc target before (Ok first) →
        get later (now_name name) ≡ get (after first.changes before) (now_name name) → MeansWork Sealing name paper copy later (Ok second) → second.number ≡ first.number + 1 }
{}

/// A box is opened: where a shelf holds the box of a document under the lanes that recovery gives there, and the target
/// is free, opening means exactly that this document is put, with its number and length in the text.
pub fn a_box_is_opened()
    ensures { (name source copy : List ℕ) (later : Held) (l : Recovered) (number : ℕ) (document bytes : List ℕ) (opened : Outcome) →
        MeansKey name later (Ok l) → get later source ≡ Some bytes → get later copy ≡ None → length document ≤ 2 ^ 26 → IsBox l.lanes name number document bytes →
        MeansDocument Opening name source copy later opened ↔ (opened ≡ done (Put copy document ∷ []) (document_text (verb Opening) name number (length document))) }
{}

/// What was sealed opens to the same bytes: after a seal that was done, on any later shelf that holds the bytes which the
/// seal put, under any name, where another name is free and recovery gives the same lanes, opening means exactly that the
/// document that was sealed is put under that name, with its number and length in the text.
pub fn what_was_sealed_is_opened()
    ensures { (name doc target source copy : List ℕ) (before later : Held) (sealed opened : Outcome) (now : Now) (document : List ℕ) (k l : Recovered) →
        MeansDocument Sealing name doc target before sealed → sealed.status ≡ Done → now_of name before ≡ Ok now → get before doc ≡ Some document → MeansKey name before (Ok k) →
        get later source ≡ get (after sealed.changes before) target → get later copy ≡ None → MeansKey name later (Ok l) → l.lanes ≡ k.lanes →
        MeansDocument Opening name source copy later opened ↔ (opened ≡ done (Put copy document ∷ []) (document_text (verb Opening) name now.next_number (length document))) }
{}

/// The same where, on the later shelf, N - T valid share files lie on polynomials whose values at 0 are the key under
/// which it was sealed, whatever the other files are.
pub fn honest_files_open_what_was_sealed()
    ensures { (name doc target source copy : List ℕ) (before later : Held) (sealed opened : Outcome) (now on : Now) (document : List ℕ) (k : Recovered) (polys : List Polynomial) →
        MeansDocument Sealing name doc target before sealed → sealed.status ≡ Done → now_of name before ≡ Ok now → get before doc ≡ Some document → MeansKey name before (Ok k) →
        get later source ≡ get (after sealed.changes before) target → get later copy ≡ None → HonestFiles name on later polys → key_of polys ≡ k.lanes →
        MeansDocument Opening name source copy later opened ↔ (opened ≡ done (Put copy document ∷ []) (document_text (verb Opening) name now.next_number (length document))) }
{}
