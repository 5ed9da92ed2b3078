//! Laws of which answer is due. Each follows from how a run ends.

ghost use Rattle.std.specs.Prelude.{◌≡◌, ◌⊎◌, ◌≤◌, Bool, true, ℕ, List, length, Option, Some, Ok, Err};
ghost use Rattle.dxf_groups.specs.Pairs.{rest_of_text};
ghost use Rattle.dxf_groups.specs.TextLines.{text_lines};
ghost use Rattle.file_problem.specs.Inputs.{HasNoFault, HasProblem, IsFileFault};
ghost use Rattle.query_session.specs.Sessions.{read_session};
ghost use Rattle.query_session.specs.declared.ask.Ask.{Ask};
ghost use Rattle.query_session.specs.declared.ask.AskFault.{AskFault};
ghost use Rattle.recon_run.specs.Answers.{CanEnd, IsSomeLog, node_count};
ghost use Rattle.recon_run.specs.Endings.{AnswersOrFails, Ends, EndsOrFails, OfAlone, OfInput, OfSearch, owed_to};
ghost use Rattle.recon_run.specs.Owed.{AnswersOwed, ReadsAllOrPast, drawing_profile, input_of, layers_or, log_profile, owed_for};
ghost use Rattle.recon_run.specs.Solve.{Drawn, SolveAnswers};
ghost use Rattle.dxf_entities.specs.declared.layer_set.LayerSet.TheVariants.{Main, Six};
ghost use Rattle.replies.specs.declared.status.Answer.{Answer};
ghost use Rattle.replies.specs.declared.status.Answer.TheVariants as answers;
ghost use Rattle.replies.specs.declared.status.Failure.TheVariants.{WriteFault};
ghost use Rattle.replies.specs.Status.{Status, failure_code, status_code};
ghost use Rattle.session_run.specs.Session.{asks_stop};
ghost use Rattle.solid_model.specs.Blocks.{ProblemParts};
ghost use Rattle.solid_model.specs.declared.ended.EndKind.TheVariants.{Whole};
ghost use Rattle.solid_model.specs.declared.fault.Fault.{Fault};
ghost use Rattle.solid_model.specs.Limits.{most_file_bytes};
ghost use Rattle.solid_model.specs.Search.{SearchLimits};
ghost use Rattle.tv_base.specs.Faults.{Rose};
ghost use Rattle.words.specs.declared.job.Job.TheVariants as job;

/// How a run ends settles its number, unless it fails: where the input keeps both limits, the number
/// is that of a whole search; where it has no fault, that of an end which its limits allow; where it
/// has a fault, that of a fault; and what reads nothing has the number of its one answer. It is that
/// of a fault of the sink only where the sink's count rose.
pub fn due_numbers()
    ensures whole { (words : List (List ℕ)) (left rest held now : Option (List ℕ)) (a b x y : ℕ)
        (status : Status) → Ends (owed_to words) left rest held now (Rose a b) (Rose x y) status
        → OfSearch (owed_to words) left (λ s input. (c : CanEnd s.limits input Whole)
        → AnswersOrFails (s.whole input (length c.solids)) (status_code status)) }
    ensures ended { (words : List (List ℕ)) (left rest held now : Option (List ℕ)) (a b x y : ℕ)
        (status : Status) → Ends (owed_to words) left rest held now (Rose a b) (Rose x y) status
        → OfSearch (owed_to words) left (λ s input. HasNoFault input
        → EndsOrFails s input (status_code status)) }
    ensures fault { (words : List (List ℕ)) (left rest held now : Option (List ℕ)) (a b x y : ℕ)
        (status : Status) → Ends (owed_to words) left rest held now (Rose a b) (Rose x y) status
        → OfInput (owed_to words) left (λ input. (fault : Fault) → IsFileFault input fault
        → AnswersOrFails answers.Faulty (status_code status)) }
    ensures alone { (words : List (List ℕ)) (left rest held now : Option (List ℕ)) (a b x y : ℕ)
        (status : Status) → Ends (owed_to words) left rest held now (Rose a b) (Rose x y) status
        → OfAlone (owed_to words) (λ answer. AnswersOrFails answer (status_code status)) }
    ensures write_fault { (words : List (List ℕ)) (left rest held now : Option (List ℕ))
        (a b x y : ℕ) (status : Status)
        → Ends (owed_to words) left rest held now (Rose a b) (Rose x y) status
        → status_code status ≡ failure_code WriteFault → Rose x y }
{}

/// What is owed to `solve` is just what `SolveAnswers` says: each right answer is one of its cases,
/// and each of its cases is a right answer.
pub fn solve_by_cases()
    ensures there { (workers decimals : ℕ) (limits : SearchLimits) (pages two sections : Bool)
        (bytes : List ℕ) (rest : Option (List ℕ)) (answer : Answer) (text : List ℕ)
        → AnswersOwed (owed_for (job.Solve workers limits pages decimals two sections))
        (Some bytes) rest answer text → ReadsAllOrPast most_file_bytes bytes rest
        × SolveAnswers pages limits
        (input_of (drawing_profile (layers_or sections Six) decimals two) bytes) answer text }
    ensures back { (workers decimals : ℕ) (limits : SearchLimits) (pages two sections : Bool)
        (bytes : List ℕ) (rest : Option (List ℕ)) (answer : Answer) (text : List ℕ)
        → ReadsAllOrPast most_file_bytes bytes rest → SolveAnswers pages limits
        (input_of (drawing_profile (layers_or sections Six) decimals two) bytes) answer text
        → AnswersOwed (owed_for (job.Solve workers limits pages decimals two sections))
        (Some bytes) rest answer text }
{}

/// To an input without a fault `check` answers that a log is right where what stands behind the
/// drawing is one, and that it is refused where it is none.
pub fn due_checked()
    ensures right { (two sections : Bool) (bytes : List ℕ) (rest : Option (List ℕ))
        (answer : Answer) (text : List ℕ) (p : ProblemParts)
        → HasProblem (input_of (log_profile (layers_or sections Main) two) bytes) p
        → (log : List ℕ) → rest_of_text bytes ≡ Some log → IsSomeLog p log
        → AnswersOwed (owed_for (job.Check two sections)) (Some bytes) rest answer text
        → answer ≡ answers.Done }
    ensures refused { (two sections : Bool) (bytes : List ℕ) (rest : Option (List ℕ))
        (answer : Answer) (text : List ℕ) (p : ProblemParts)
        → HasProblem (input_of (log_profile (layers_or sections Main) two) bytes) p
        → (log : List ℕ) → rest_of_text bytes ≡ Some log → (IsSomeLog p log → ⊥)
        → AnswersOwed (owed_for (job.Check two sections)) (Some bytes) rest answer text
        → answer ≡ answers.Refused }
{}

/// To an input without a fault `ask` answers that its lines aren't taken exactly where one is
/// refused. Where none is and both limits are kept, it answers that the search was whole, or that a
/// reader stopped it.
pub fn due_asked()
    ensures refused { (workers : ℕ) (limits : SearchLimits) (two : Bool) (bytes : List ℕ)
        (rest : Option (List ℕ)) (answer : Answer) (text : List ℕ) (p : ProblemParts)
        → HasProblem (input_of (drawing_profile Main 0 two) bytes) p
        → (asked : List ℕ) → rest_of_text bytes ≡ Some asked
        → (fault : AskFault) → read_session (text_lines asked) ≡ Err fault
        → AnswersOwed (owed_for (job.Ask workers limits two)) (Some bytes) rest answer text
        → answer ≡ answers.NotAsked }
    ensures asked { (workers : ℕ) (limits : SearchLimits) (two : Bool) (bytes : List ℕ)
        (rest : Option (List ℕ)) (answer : Answer) (text : List ℕ) (p : ProblemParts)
        → HasProblem (input_of (drawing_profile Main 0 two) bytes) p
        → (asked : List ℕ) → rest_of_text bytes ≡ Some asked
        → (scripts : List (List Ask)) → read_session (text_lines asked) ≡ Ok scripts
        → AnswersOwed (owed_for (job.Ask workers limits two)) (Some bytes) rest answer text
        → answer ≡ answers.NotAsked → ⊥ }
    ensures whole { (workers : ℕ) (limits : SearchLimits) (two : Bool) (bytes : List ℕ)
        (rest : Option (List ℕ)) (answer : Answer) (text : List ℕ)
        (d : Drawn (input_of (drawing_profile Main 0 two) bytes))
        → node_count d.problem ≤ limits.nodes → length d.matching ≤ limits.solids
        → (asked : List ℕ) → rest_of_text bytes ≡ Some asked
        → (scripts : List (List Ask)) → read_session (text_lines asked) ≡ Ok scripts
        → AnswersOwed (owed_for (job.Ask workers limits two)) (Some bytes) rest answer text
        → (answer ≡ answers.Done)
        ⊎ ((answer ≡ answers.Stopped) × (asks_stop scripts ≡ true)) }
{}
