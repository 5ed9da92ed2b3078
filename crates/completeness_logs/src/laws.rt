//! Laws of logs.

ghost use Rattle.std.specs.Prelude.{◌≡◌, ◌≢◌, ◌∷◌, ◌++◌, [], ℕ, List, Bool, true, false, length, IsPermutation};
ghost use Rattle.lemmas.specs.Lists.{Each, Ascends, Member};
ghost use Rattle.solid_model.specs.declared.segment.Segment.{Segment};
ghost use Rattle.solid_model.specs.declared.segment.Style.{Style};
ghost use Rattle.solid_model.specs.Blocks.{ProblemParts, IsBlocksOf};
ghost use Rattle.solid_model.specs.Choices.{AreChoicesThat, ChoicePrecedes, IsMatchingChoice};
ghost use Rattle.solid_model.specs.Panels.{coordinates_of, IsGridOf};
ghost use Rattle.solid_model.specs.Runs.{IsDrawing};
ghost use Rattle.completeness_logs.specs.declared.entry.LogEntry.{LogEntry};
ghost use Rattle.completeness_logs.specs.Logs.{KnownBlocks, LogTree, IsTreeUnder, AreTreesUnder, tree_entries, listed_choices, listed_along};
ghost use Rattle.completeness_logs.specs.LogTexts.{IsLog};
ghost use Rattle.completeness_logs.specs.SmallLogs.{notched_bar, bar_log};

/// A log is complete, whoever wrote it: the choices that it lists are those of the problem's blocks
/// that match the drawing, each once; so in the stated order they are what a search lists.
pub fn logs_list_all_matching_choices()
    ensures each { (drawing : Segment → Style) → IsDrawing drawing
        → (p : ProblemParts) → IsGridOf drawing p.grid → IsBlocksOf p.grid p.blocks
        → (text : List ℕ) (choices : List (List Bool)) → IsLog p text choices
        → Each (λ choice. (length choice ≡ p.blocks.count)
        × IsMatchingChoice drawing (coordinates_of p.grid) p.blocks.numbers choice) choices }
    ensures once { (p : ProblemParts) (text : List ℕ) (choices : List (List Bool))
        → IsLog p text choices → Ascends ◌≢◌ choices }
    ensures complete { (drawing : Segment → Style) → IsDrawing drawing
        → (p : ProblemParts) → IsGridOf drawing p.grid → IsBlocksOf p.grid p.blocks
        → (text : List ℕ) (choices : List (List Bool)) → IsLog p text choices
        → (choice : List Bool) → length choice ≡ p.blocks.count
        → IsMatchingChoice drawing (coordinates_of p.grid) p.blocks.numbers choice
        → Member choices choice }
    ensures in_order { (drawing : Segment → Style) → IsDrawing drawing
        → (p : ProblemParts) → IsGridOf drawing p.grid → IsBlocksOf p.grid p.blocks
        → (text : List ℕ) (choices : List (List Bool)) → IsLog p text choices
        → (ordered : List (List Bool)) → IsPermutation choices ordered
        → Ascends ChoicePrecedes ordered
        → AreChoicesThat (IsMatchingChoice drawing (coordinates_of p.grid) p.blocks.numbers)
        p.blocks.count ordered }
{}

/// Entries that may stand one after another are those of a tree.
pub fn lines_are_trees()
    ensures to { (p : ProblemParts) (known : KnownBlocks) (entries : List LogEntry)
        → AreTreesUnder p (known ∷ []) entries
        → (t : LogTree) × IsTreeUnder p known t × (entries ≡ tree_entries t) }
    ensures from { (p : ProblemParts) (known : KnownBlocks) (t : LogTree) → IsTreeUnder p known t
        → AreTreesUnder p (known ∷ []) (tree_entries t) }
    ensures listed { (p : ProblemParts) (known : KnownBlocks) (t : LogTree)
        → listed_along p (known ∷ []) (tree_entries t) ≡ listed_choices p known t }
{}

/// A log of a bar with a notch, written out by hand, with each kind of entry. It lists one solid:
/// the bar without the notch. Its last line may end with a line feed.
pub fn log_of_notched_bar()
    ensures log { IsLog notched_bar bar_log ((true ∷ false ∷ []) ∷ []) }
    ensures feed { IsLog notched_bar (bar_log ++ 10 ∷ []) ((true ∷ false ∷ []) ∷ []) }
{}
