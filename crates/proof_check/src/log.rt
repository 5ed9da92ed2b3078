//! The check of a log for a problem.

ghost use Rattle.std.specs.Prelude.{◌≤◌, Bool, List, length, IfOk, IfErr, IsPermutation};
ghost use Rattle.lemmas.specs.Lists.{Ascends};
ghost use Rattle.solid_model.specs.Choices.{ChoicePrecedes};
ghost use Rattle.completeness_logs.specs.LogTexts.{IsLog};
ghost use Rattle.proof_check.specs.Refusals.{TellsRefusal, IsLogRefused};

use crate::fault::LogRefused;
use crate::walk::check_text;
use line_demands::Partial;
use solid_model::{Choice, Problem, sort_choices};
use std::alloc::Global;

/// Checks a log of at most 4,000,000,000 bytes for a problem. `Ok` has the choices that it lists,
/// in the stated order, and comes exactly where the bytes are a log for the problem, unless memory
/// runs out; else the first line that is refused comes, and why: at one line the kinds come in
/// their order.
pub fn check_log(alloc: Global, problem: &Problem, log: &[u8]) -> Result<Vec<Choice>, LogRefused>
    requires { length log.now ≤ 4000000000 }
    ensures ok { IfOk result (λ cs. (listed : List (List Bool))
        × IsLog problem.now log.now listed
        × IsPermutation listed cs.items × Ascends ChoicePrecedes cs.items) }
    ensures refused { IfErr result (TellsRefusal (IsLogRefused problem.now log.now)) }
{
    let mut partial = match Partial::new(alloc, problem) {
        Ok(partial) => partial,
        Err(_) => return Err(LogRefused::Memory),
    };
    match check_text(alloc, &mut partial, log) {
        Ok(found) => {
            let mut found = found;
            sort_choices(found.as_mut_slice());
            Ok(found)
        }
        Err(refused) => Err(refused),
    }
}
