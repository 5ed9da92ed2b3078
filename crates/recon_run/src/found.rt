//! What is found in a source.

ghost use Rattle.std.specs.Prelude.{ℕ, List, ◌≤◌, ◌+◌, length, IfOk, IsErrOf};
ghost use Rattle.replies.specs.declared.status.Failure.TheVariants as failure;
ghost use Rattle.recon_run.specs.Owed.{HasRead, input_of};
ghost use Rattle.recon_run.specs.Searched.{IsFoundIn};
ghost use Rattle.tv_base.specs.Faults.{Rose};
ghost use Rattle.tv_base.specs.Pieces.{ReadsWithin};

use crate::profile::Profile;
use crate::sought::{FoundProblem, Sought};
use file_problem::problem_with_rest;
use replies::Failure;
use solid_model::{Fault, Memory, Refused};
use std::alloc::Global;
use tv_base::{ReadEnd, Source, read_all};

/// What is found in an input.
#[derive(Drop)]
pub enum Found {
    /// What is sought by it, and what stands behind its drawing.
    Problem(FoundProblem),
    /// Its first fault.
    Fault(Fault),
}

/// What is found in a file that is read so.
fn find_in(alloc: Global, profile: &Profile, file: Vec<u8>) -> Result<Found, Memory>
    requires { length file.items ≤ profile.now.most }
    ensures { IfOk result (IsFoundIn (input_of profile.now file.items)) }
{
    profile.known();
    match problem_with_rest(alloc, file, profile.form(), profile.two_views()) {
        Ok((problem, further, rest)) => Ok(Found::Problem(FoundProblem {
            sought: Sought { problem, further },
            rest,
        })),
        Err(Refused::Fault(fault)) => Ok(Found::Fault(fault)),
        Err(Refused::Memory) => Err(Memory),
    }
}

/// What is found in what a source has left, which is read so.
pub fn find<S: Source>(alloc: Global, profile: &Profile, source: &mut S) -> Result<Found, Failure>
    ensures later { S.faults source.old ≤ S.faults source.new }
    ensures within { ReadsWithin (S.left source.old) (S.left source.new) (profile.now.most + 1) }
    ensures found { IfOk result (λ found. (t : List ℕ)
        × HasRead profile.now.most (S.left source.old) (S.left source.new) t
        × IsFoundIn (input_of profile.now t) found) }
    ensures read_fault { IsErrOf result failure.ReadFault
        → Rose (S.faults source.old) (S.faults source.new) }
    ensures no_write_fault { IsErrOf result failure.WriteFault → ⊥ }
{
    match read_all(alloc, source, profile.most()) {
        Ok(file) => Ok(find_in(alloc, profile, file)?),
        Err(ReadEnd::TooLong) => Ok(Found::Fault(Fault::TooLong)),
        Err(ReadEnd::Failed) => Err(Failure::ReadFault),
        Err(ReadEnd::Memory) => Err(Failure::Memory),
    }
}
