//! Laws of the core.

ghost use Rattle.std.specs.Prelude.{◌≡◌, ◌≤◌, ℕ, Bool, List, [], ◌∷◌, length, Option, Some, IsPermutation};
ghost use Rattle.solid_model.specs.declared.ended.EndKind.TheVariants.{Whole};
ghost use Rattle.solid_model.specs.declared.segment.Segment.{Segment};
ghost use Rattle.solid_model.specs.declared.segment.Style.{Style};
ghost use Rattle.solid_model.specs.Choices.{AreChoicesThat, IsMatchingChoice};
ghost use Rattle.solid_model.specs.Panels.{GridParts, coordinates_of, IsGridOf};
ghost use Rattle.solid_model.specs.Search.{SearchLimits};
ghost use Rattle.solid_model.specs.Tree.{PrefixTest, IsClosed, KeepsMatching, live_count};
ghost use Rattle.solid_model.specs.SmallTree.{not_both_empty};
ghost use Rattle.search_core.specs.Conserves.{IsConserved};
ghost use Rattle.search_core.specs.Core.{Event, IsCoreRun, core_start, after_events};
ghost use Rattle.search_core.specs.SmallCore.{roomy, few_nodes, few_solids, few_of_both, first_event, second_event, short_event, third_event, at_start, after_first, after_second, after_short, after_third, cut_at_nodes, cut_at_solids, nothing_live, whole_at_start};

/// Whatever is reported, in whatever order, the core loses no live prefix and no choice and counts
/// none twice, up to its end; while it goes on something live is left to be expanded, and at a
/// whole search nothing is (`states`). No run has more events than there are live prefixes
/// (`short`). A whole search has found all matching choices, each once (`whole`), which are the
/// matching solids (`the_tree_is_complete`).
pub fn the_core_conserves()
    ensures states { (live : PrefixTest) (n : ℕ) → IsClosed live → (limits : SearchLimits)
        (events : List Event) → IsCoreRun live n limits (core_start live) events
        → IsConserved live n limits (after_events limits (core_start live) events) }
    ensures short { (live : PrefixTest) (n : ℕ) → IsClosed live → (limits : SearchLimits)
        (events : List Event) → IsCoreRun live n limits (core_start live) events
        → length events ≤ live_count live n [] }
    ensures whole { (drawing : Segment → Style) (g : GridParts) → IsGridOf drawing g
        → (blocks : List (Option ℕ)) (count : ℕ) (live : PrefixTest)
        → KeepsMatching live count (IsMatchingChoice drawing (coordinates_of g) blocks)
        → (limits : SearchLimits) (events : List Event)
        → IsCoreRun live count limits (core_start live) events
        → (after_events limits (core_start live) events).end ≡ Some Whole
        → (choices : List (List Bool))
        × AreChoicesThat (IsMatchingChoice drawing (coordinates_of g) blocks) count choices
        × IsPermutation choices (after_events limits (core_start live) events).found }
{}

/// A search that can be checked by hand, of two blocks that may not both be empty: its start, and
/// how it stands after each of three events, which are a run (`run`), up to the end at which it is
/// whole; and with an event that leaves a rest. Then what the second event makes of it where fewer
/// nodes, fewer solids or fewer of both are allowed, and the start where no prefix is live.
pub fn small_core()
    ensures run { IsCoreRun not_both_empty 2 roomy (core_start not_both_empty)
        (first_event ∷ second_event ∷ third_event ∷ []) }
    ensures start { core_start not_both_empty ≡ at_start }
    ensures first { after_events roomy (core_start not_both_empty) (first_event ∷ [])
        ≡ after_first }
    ensures second { after_events roomy (core_start not_both_empty)
        (first_event ∷ second_event ∷ []) ≡ after_second }
    ensures rest { after_events roomy (core_start not_both_empty) (first_event ∷ short_event ∷ [])
        ≡ after_short }
    ensures third { after_events roomy (core_start not_both_empty)
        (first_event ∷ second_event ∷ third_event ∷ []) ≡ after_third }
    ensures cut_nodes { after_events few_nodes (core_start not_both_empty)
        (first_event ∷ second_event ∷ []) ≡ cut_at_nodes }
    ensures cut_solids { after_events few_solids (core_start not_both_empty)
        (first_event ∷ second_event ∷ []) ≡ cut_at_solids }
    ensures cut_both { after_events few_of_both (core_start not_both_empty)
        (first_event ∷ second_event ∷ []) ≡ cut_at_solids }
    ensures nothing { core_start nothing_live ≡ whole_at_start }
{}
