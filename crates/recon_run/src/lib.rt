//! The top call: one command, from the bytes in to the bytes out.
#![tactic(auto)]

mod all_solids;
mod answering;
mod asked;
mod blocks_told;
mod check;
mod command;
mod crew;
mod export;
mod found;
mod laws;
mod log;
mod one_solid;
mod profile;
mod question;
mod searched;
mod sought;
mod telling;
mod trial;

pub use command::run;
pub use file_problem::{problem_and_rest, problem_of, problem_of_six};
pub use laws::{
    begun_texts_go_on, due_asked, due_checked, due_numbers, little_is_left_open,
    made_files_have_no_fault, one_answer, one_first_fault, solve_by_cases, some_answer,
};
pub use replies::{Answer, Failure, Status, status_numbers};
pub use words::{Job, WordFault, job_of};
