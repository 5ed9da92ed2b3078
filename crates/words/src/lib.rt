//! The words of a command line: what they ask for, where they are taken.
#![tactic(auto)]

mod barred;
mod job;
mod laws;
mod parse;
mod said;
mod table;

pub use job::{Job, WordFault, job_of};
pub use laws::{refused_words, small_jobs, small_words};
