//! Laws of what is answered.

mod due;

ghost use Rattle.std.specs.Prelude.{◌≡◌, ◌⊎◌, ◌++◌, Bool, false, ℕ, List, Option, Some};
ghost use Rattle.replies.specs.declared.status.Answer.{Answer};
ghost use Rattle.replies.specs.declared.status.Answer.TheVariants as answers;
ghost use Rattle.file_problem.specs.Inputs.{HasNoFault, Input, IsFileFault};
ghost use Rattle.recon_run.specs.Endings.{Answers, AreAlike, LeavesOpen, OfInput, owed_to};
ghost use Rattle.recon_run.specs.Owed.{AnswersOwed, BeginsOwed, drawing_profile, input_of, judgement_of, owed_for, search_for_all, searched, session_judgement};
ghost use Rattle.solid_model.specs.declared.fault.Fault.{Fault};
ghost use Rattle.solid_model.specs.Search.{SearchLimits};
ghost use Rattle.dxf_entities.specs.declared.layer_set.LayerSet.TheVariants.{Main};
ghost use Rattle.words.specs.declared.job.Job.TheVariants as job;

pub use due::{due_asked, due_checked, due_numbers, solve_by_cases};

/// What `make` owes has no fault: whatever is made from a number can be searched.
pub fn made_files_have_no_fault()
    ensures { (n : ℕ) (left rest : Option (List ℕ)) (answer : Answer) (text : List ℕ)
        → AnswersOwed (owed_for (job.Make n)) left rest answer text
        → HasNoFault (input_of (drawing_profile Main 0 false) text) }
{}

/// An input has at most one first fault.
pub fn one_first_fault()
    ensures { (input : Input) (a b : Fault) → IsFileFault input a → IsFileFault input b → a ≡ b }
{}

/// Of arguments and an input two right answers are one, and their texts count as one: so they do
/// where both are whole searches, behind what readers tell, and behind pages, which may tell the
/// same solids in another order, so many in a page or so many. Only of an input without a fault two
/// are left open: cuts, since where both limits of a search are passed either is right, with
/// whichever solids were found; and, where some reader asks to stop, two of which one is that the
/// search was stopped.
pub fn one_answer()
    ensures { (words : List (List ℕ)) (input : List ℕ) (rest left : Option (List ℕ))
        (a b : Answer) (text other : List ℕ) → Answers words (Some input) rest a text
        → Answers words (Some input) left b other
        → ((a ≡ b) × AreAlike (owed_to words) input text other)
        ⊎ LeavesOpen (owed_to words) input a b }
{}

/// No more is left open: nothing of an input that has a fault, and no two whole searches, whether
/// or not some reader asks to stop.
pub fn little_is_left_open()
    ensures faulty { (words : List (List ℕ)) (input : List ℕ) (a b : Answer)
        → OfInput (owed_to words) (Some input) (λ t. (fault : Fault) → IsFileFault t fault
        → LeavesOpen (owed_to words) input a b → ⊥) }
    ensures searched { (paged : Bool) (limits : SearchLimits) (t : Input)
        → (judgement_of (searched (search_for_all paged limits))).leaves_open t
        answers.Done answers.Done → ⊥ }
    ensures asked { (limits : SearchLimits) (t : Input)
        → (session_judgement limits).leaves_open t answers.Done answers.Done → ⊥ }
{}

/// Arguments and an input never lack a right answer: it can't be that no answer goes with a text.
/// So the clauses of `run` ask for nothing that can't be given.
pub fn some_answer()
    ensures { (words : List (List ℕ)) (input : List ℕ)
        → ((rest : Option (List ℕ)) (answer : Answer) (text : List ℕ)
        → Answers words (Some input) rest answer text → ⊥)
        → ⊥ }
{}

/// A text that begins a right answer goes on to one: it can't be that nothing that follows makes it
/// the text of a right answer. So what is written where writing stops is a prefix of such a text.
pub fn begun_texts_go_on()
    ensures { (words : List (List ℕ)) (left rest : Option (List ℕ)) (answer : Answer)
        (text : List ℕ)
        → BeginsOwed (owed_to words) left rest answer text
        → ((other : Answer) (more : List ℕ) → AnswersOwed (owed_to words) left rest other
        (text ++ more)
        → ⊥) → ⊥ }
{}
