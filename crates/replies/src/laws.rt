//! The numbers of the statuses.

ghost use Rattle.std.specs.Prelude.{◌≡◌, Ok, Err};
ghost use Rattle.replies.specs.declared.status.Answer.TheVariants as answers;
ghost use Rattle.replies.specs.declared.status.Failure.TheVariants as failures;
ghost use Rattle.replies.specs.Status.{status_code};

/// The number of each status, written out.
pub fn status_numbers()
    ensures done { status_code (Ok answers.Done) ≡ 0 }
    ensures faulty { status_code (Ok answers.Faulty) ≡ 1 }
    ensures usage { status_code (Ok answers.Usage) ≡ 2 }
    ensures cut_nodes { status_code (Ok answers.CutNodes) ≡ 3 }
    ensures cut_solids { status_code (Ok answers.CutSolids) ≡ 4 }
    ensures read_fault { status_code (Err failures.ReadFault) ≡ 5 }
    ensures write_fault { status_code (Err failures.WriteFault) ≡ 6 }
    ensures memory { status_code (Err failures.Memory) ≡ 7 }
    ensures no_solid { status_code (Ok answers.NoSolid) ≡ 8 }
    ensures refused { status_code (Ok answers.Refused) ≡ 9 }
    ensures stopped { status_code (Ok answers.Stopped) ≡ 10 }
    ensures not_asked { status_code (Ok answers.NotAsked) ≡ 11 }
{}
