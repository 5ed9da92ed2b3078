//! Laws of the check.

ghost use Rattle.std.specs.Prelude.{◌≡◌, ◌≤◌, ◌++◌, Bool, ℕ, List, Some, true, codes};
ghost use Rattle.solid_model.specs.Blocks.{ProblemParts};
ghost use Rattle.completeness_logs.specs.declared.entry.LogEntry.{LogEntry};
ghost use Rattle.completeness_logs.specs.LogTexts.{IsLog, closing_line, entry_line, is_short_entry, most_listed};
ghost use Rattle.completeness_logs.specs.SmallLogs.{notched_bar};
ghost use Rattle.proof_check.specs.declared.fault.LogKind.{LogKind};
ghost use Rattle.proof_check.specs.declared.fault.LogKind.TheVariants.{BadLine, BadBlock, Unproved, Unsolid, BadCount, Short, Long};
ghost use Rattle.proof_check.specs.LogLines.{entry_of_line, closing_count};
ghost use Rattle.proof_check.specs.Refusals.{IsLogRefused};

/// A log isn't refused, and what is refused is so in one way: so a text has one verdict.
pub fn no_log_is_refused()
    ensures once { (p : ProblemParts) (text : List ℕ) (a b : LogKind) (i j : ℕ)
        → IsLogRefused p text a i → IsLogRefused p text b j → (a ≡ b) × (i ≡ j) }
    ensures never { (p : ProblemParts) (text : List ℕ) (kind : LogKind) (line : ℕ)
        → IsLogRefused p text kind line
        → (choices : List (List Bool)) → IsLog p text choices → ⊥ }
{}

/// Lines are read as they are spelled, and no other line is read.
pub fn lines_are_read_as_spelled()
    ensures entry { (e : LogEntry) → is_short_entry e ≡ true
        → entry_of_line (entry_line e) ≡ Some e }
    ensures only { (line : List ℕ) (e : LogEntry) → entry_of_line line ≡ Some e
        → (is_short_entry e ≡ true) × (line ≡ entry_line e) }
    ensures end { (n : ℕ) → n ≤ most_listed → closing_count (closing_line n) ≡ Some n }
    ensures only_end { (line : List ℕ) (n : ℕ) → closing_count line ≡ Some n
        → line ≡ closing_line n }
{}

/// Texts that differ from the log of the bar with a notch in one thing each, and so are none: which
/// of their lines is refused, and why.
pub fn refusals_of_notched_bar()
    ensures exchanged { IsLogRefused notched_bar
        (codes "log 1 blocks 2\nsplit 0\nforce 1 0 front u 2 1\n"
        ++ codes "fail front u 3 1\nsolid\nend 1") Unproved 4 }
    ensures twice { IsLogRefused notched_bar
        (codes "log 1 blocks 2\nsplit 0\nforce 0 0 front u 2 1\n"
        ++ codes "solid\nfail front u 3 1\nend 1") BadBlock 3 }
    ensures leaf_missing { IsLogRefused notched_bar
        (codes "log 1 blocks 2\nsplit 0\nforce 1 0 front u 2 1\n"
        ++ codes "solid\nend 1") BadLine 5 }
    ensures empty_line { IsLogRefused notched_bar
        (codes "log 1 blocks 2\nsplit 0\n\nforce 1 0 front u 2 1\n"
        ++ codes "solid\nfail front u 3 1\nend 1") BadLine 3 }
    ensures unforced { IsLogRefused notched_bar
        (codes "log 1 blocks 2\nsplit 0\n"
        ++ codes "solid\nfail front u 3 1\nend 1") Unsolid 3 }
    ensures no_end { IsLogRefused notched_bar
        (codes "log 1 blocks 2\nsplit 0\nforce 1 0 front u 2 1\n"
        ++ codes "solid\nfail front u 3 1\n") Short 6 }
    ensures miscounted { IsLogRefused notched_bar
        (codes "log 1 blocks 2\nsplit 0\nforce 1 0 front u 2 1\n"
        ++ codes "solid\nfail front u 3 1\nend 2") BadCount 6 }
    ensures line_behind { IsLogRefused notched_bar
        (codes "log 1 blocks 2\nsplit 0\nforce 1 0 front u 2 1\n"
        ++ codes "solid\nfail front u 3 1\nend 1\n\n") Long 7 }
    ensures other_blocks { IsLogRefused notched_bar
        (codes "log 1 blocks 3\nsplit 0\nforce 1 0 front u 2 1\n"
        ++ codes "solid\nfail front u 3 1\nend 1") BadLine 1 }
{}
