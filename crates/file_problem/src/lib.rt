//! The way from a file's bytes to its problem.
//!
//! A crate of its own below `recon_run`, in steps with one or two refusals each, since a body with
//! all of them takes long to check. Tests of searches stand on it, and not on the run.
#![tactic(auto)]

mod cuts;
mod laws;
mod problem;

pub use laws::small_boxes;
pub use problem::{problem_and_rest, problem_of, problem_of_six, problem_with_rest};
