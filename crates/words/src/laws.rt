//! The laws over the definitions. Each is the contract of a function that does nothing.

ghost use Rattle.std.specs.Prelude.{◌≡◌, ◌∷◌, [], Some, None, true, false, codes};
ghost use Rattle.words.specs.declared.job.Job.TheVariants as job;
ghost use Rattle.words.specs.Jobs.{job_said};
ghost use Rattle.words.specs.SmallWords.{any_given, any_said, given_in, job_in, redrawn, search_by, search_within};

/// Words that are taken, with what they ask for, worked out by hand: both forms of an option, in
/// either order and on either side of a number, and leading zeros.
pub fn small_jobs()
    ensures bare { job_in (codes "solve") ≡ search_within 1000000 4096 }
    ensures value { job_in (codes "solve --nodes 2") ≡ search_within 2 4096 }
    ensures equals { job_in (codes "solve --solids=2") ≡ search_within 1000000 2 }
    ensures zeros { job_in (codes "solve --nodes 0003 --solids=0000000000000000000000000000004")
        ≡ search_within 3 4 }
    ensures order { job_in (codes "solve --solids 65536 --nodes=4000000")
        ≡ search_within 4000000 65536 }
    ensures least { job_in (codes "solve --nodes=1 --solids 1") ≡ search_within 1 1 }
    ensures workers { job_in (codes "solve --workers=064") ≡ search_by 64 1000000 4096 false 0 }
    ensures pages { job_in (codes "solve --pages --workers 2") ≡ search_by 2 1000000 4096 true 0 }
    ensures last { job_in (codes "solve --nodes=3 --pages") ≡ search_by 1 3 4096 true 0 }
    ensures redraw { job_in (codes "redraw 02") ≡ redrawn 2 1 1000000 4096 0 }
    ensures between { job_in (codes "redraw --nodes 5 1 --solids=6 --workers=3")
        ≡ redrawn 1 3 5 6 0 }
    ensures decimals { job_in (codes "solve --decimals 6 --pages")
        ≡ search_by 1 1000000 4096 true 6 }
    ensures fractions { job_in (codes "redraw --decimals=03 2") ≡ redrawn 2 1 1000000 4096 3 }
    ensures stl { job_in (codes "stl --solids=7 3 --workers 2")
        ≡ Some (job.Stl 3 2 (record { nodes = 1000000; solids = 7 }) false false) }
    ensures ask { job_in (codes "ask --workers 2 --nodes=5")
        ≡ Some (job.Ask 2 (record { nodes = 5; solids = 4096 }) false) }
    ensures prove { job_in (codes "prove --solids 3")
        ≡ Some (job.Prove 1 (record { nodes = 1000000; solids = 3 }) false) }
    ensures check { job_in (codes "check") ≡ Some (job.Check false false) }
    ensures two_views { job_in (codes "solve --two-views --decimals 2")
        ≡ Some (job.Solve 1 (record { nodes = 1000000; solids = 4096 }) false 2 true false) }
    ensures redraw_two { job_in (codes "redraw 2 --two-views")
        ≡ Some (job.Redraw 2 1 (record { nodes = 1000000; solids = 4096 }) 0 true false) }
    ensures stl_two { job_in (codes "stl --two-views 3")
        ≡ Some (job.Stl 3 1 (record { nodes = 1000000; solids = 4096 }) true false) }
    ensures prove_two { job_in (codes "prove --nodes=9 --two-views --workers 4")
        ≡ Some (job.Prove 4 (record { nodes = 9; solids = 4096 }) true) }
    ensures check_two { job_in (codes "check --two-views") ≡ Some (job.Check true false) }
    ensures sections { job_in (codes "solve --sections --decimals 2")
        ≡ Some (job.Solve 1 (record { nodes = 1000000; solids = 4096 }) false 2 false true) }
    ensures redraw_sections { job_in (codes "redraw 2 --two-views --sections")
        ≡ Some (job.Redraw 2 1 (record { nodes = 1000000; solids = 4096 }) 0 true true) }
    ensures stl_sections { job_in (codes "stl --sections 3")
        ≡ Some (job.Stl 3 1 (record { nodes = 1000000; solids = 4096 }) false true) }
    ensures check_sections { job_in (codes "check --sections") ≡ Some (job.Check false true) }
    ensures ask_two { job_in (codes "ask --two-views --nodes 5")
        ≡ Some (job.Ask 1 (record { nodes = 5; solids = 4096 }) true) }
    ensures blocks { job_in (codes "blocks") ≡ Some (job.Blocks 0 false) }
    ensures blocks_two { job_in (codes "blocks --two-views --decimals=2")
        ≡ Some (job.Blocks 2 true) }
    ensures make { job_in (codes "make 18446744073709551615")
        ≡ Some (job.Make 18446744073709551615) }
    ensures trial { job_in (codes "trial 0") ≡ Some (job.Trial 0 1) }
    ensures tried { job_in (codes "trial --workers 8 7") ≡ Some (job.Trial 7 8) }
{}

/// Words that no job is said by, worked out by hand.
pub fn refused_words()
    ensures none { job_said [] ≡ None }
    ensures commands { any_said (codes "" ∷ codes "sovle" ∷ codes "Solve" ∷ codes " solve"
        ∷ codes "--nodes 3 solve" ∷ codes "--nodes=3" ∷ codes "solve=" ∷ []) ≡ false }
    ensures numbers { any_said (codes "redraw" ∷ codes "redraw 0" ∷ codes "redraw 65537"
        ∷ codes "redraw 1 2" ∷ codes "redraw --number 1" ∷ codes "stl" ∷ codes "stl 0"
        ∷ codes "stl 1 1" ∷ codes "ask 1" ∷ codes "ask --pages" ∷ codes "make" ∷ codes "make -1"
        ∷ codes "make 7 --nodes 3" ∷ codes "make --workers 2 7"
        ∷ codes "make 18446744073709551616" ∷ codes "trial"
        ∷ codes "trial 7 7" ∷ codes "trial --solids=3 7" ∷ codes "trial 7 --pages"
        ∷ codes "blocks 1" ∷ codes "blocks --nodes 3" ∷ codes "blocks --workers=2"
        ∷ codes "stl 1 --decimals 3" ∷ codes "make 7 --decimals 3" ∷ codes "trial 7 --decimals=3"
        ∷ []) ≡ false }
    ensures more { any_said (codes "solve 4" ∷ codes "solve solve" ∷ codes "solve "
        ∷ codes "solve --nodes 3 4" ∷ codes "solve --nodes=3 4" ∷ codes "solve -" ∷ []) ≡ false }
    ensures values { any_said (codes "solve --nodes" ∷ codes "solve --nodes="
        ∷ codes "solve --nodes " ∷ codes "solve --nodes --solids" ∷ codes "solve --nodes --solids 3"
        ∷ codes "solve --nodes -3" ∷ codes "solve --nodes 3e2" ∷ codes "solve --nodes==3"
        ∷ codes "solve --nodes 0x3" ∷ codes "solve --nodes  3" ∷ []) ≡ false }
    ensures ranges { any_said (codes "solve --nodes 0" ∷ codes "solve --nodes=4000001"
        ∷ codes "solve --solids=0" ∷ codes "solve --solids 65537"
        ∷ codes "solve --nodes 18446744073709551617" ∷ codes "solve --workers 0"
        ∷ codes "solve --workers=65" ∷ codes "trial 7 --workers 65"
        ∷ codes "solve --decimals 7" ∷ codes "redraw 1 --decimals=-1"
        ∷ codes "blocks --decimals 7" ∷ []) ≡ false }
    ensures repeats { any_said (codes "solve --nodes 2 --nodes 2"
        ∷ codes "solve --solids=3 --nodes 2 --solids 3" ∷ codes "solve --workers 2 --workers 2"
        ∷ codes "solve --pages --pages" ∷ codes "solve --decimals 2 --decimals 2"
        ∷ codes "solve --two-views --two-views" ∷ codes "check --two-views --two-views"
        ∷ codes "stl 1 --sections --sections" ∷ []) ≡ false }
    ensures flags { any_said (codes "solve --pages=" ∷ codes "solve --pages=1"
        ∷ codes "solve --pages=true" ∷ codes "solve --pages 1" ∷ codes "redraw 1 --pages"
        ∷ codes "solve --two-views=1" ∷ codes "solve --two-views=" ∷ codes "check --two-views true"
        ∷ codes "check --pages" ∷ codes "make --two-views 3" ∷ codes "trial 7 --two-views"
        ∷ codes "solve --sections=1" ∷ codes "check --sections=" ∷ codes "prove --sections"
        ∷ codes "ask --sections" ∷ codes "blocks --sections" ∷ codes "trial 7 --sections"
        ∷ []) ≡ false }
    ensures names { any_said (codes "solve --node 3" ∷ codes "solve --nodess 3"
        ∷ codes "solve --Nodes 3" ∷ codes "solve -nodes 3" ∷ codes "solve -n 3"
        ∷ codes "solve --=3" ∷ codes "solve --number 3" ∷ codes "solve -h" ∷ codes "solve --help"
        ∷ codes "solve --two" ∷ codes "solve --two_views" ∷ codes "solve --two-view"
        ∷ codes "solve -two-views" ∷ codes "check two-views" ∷ codes "check --section"
        ∷ codes "solve help" ∷ codes "solve --version" ∷ codes "solve -V" ∷ []) ≡ false }
    ensures barred { any_said (codes "solve --nodes +3" ∷ codes "solve --nodes=+3"
        ∷ codes "solve +3" ∷ codes "solve --" ∷ codes "solve -- --nodes 3"
        ∷ codes "solve --nodes 3 --" ∷ codes "solve --nodes --" ∷ []) ≡ false }
{}

/// Words of a small table, with an option, a flag and a number, worked out by hand.
pub fn small_words()
    ensures number { given_in (codes "007") ≡ Some ((codes "number", codes "007") ∷ []) }
    ensures flag { given_in (codes "--pages 7")
        ≡ Some ((codes "pages", codes "true") ∷ (codes "number", codes "7") ∷ []) }
    ensures option { given_in (codes "7 --size=3 --pages") ≡ Some ((codes "number", codes "7")
        ∷ (codes "size", codes "3") ∷ (codes "pages", codes "true") ∷ []) }
    ensures between { given_in (codes "--size 9 65536")
        ≡ Some ((codes "size", codes "9") ∷ (codes "number", codes "65536") ∷ []) }
    ensures required { any_given (codes "--pages" ∷ codes "--size 3"
        ∷ codes "--pages --size=3" ∷ codes "" ∷ []) ≡ false }
    ensures repeated { any_given (codes "7 7" ∷ codes "7 --size 3 7" ∷ codes "--pages 7 --pages"
        ∷ codes "--size 3 7 --size=3" ∷ []) ≡ false }
    ensures flags { any_given (codes "--pages=true 7" ∷ codes "--pages= 7"
        ∷ codes "7 --pages true" ∷ []) ≡ false }
    ensures ranges { any_given (codes "0" ∷ codes "65537" ∷ codes "7 --size 1"
        ∷ codes "7 --size 10" ∷ codes "-7" ∷ codes "+7" ∷ codes "7.0" ∷ []) ≡ false }
{}
