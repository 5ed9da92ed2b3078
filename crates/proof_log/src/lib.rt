//! The writing of completeness logs.
//!
//! What the lines of the grid force is told by `propagate::step_doubted`, decision by decision, and
//! where nothing is forced the least undecided block is split. Nothing is held but the decisions,
//! the places of the splits whose empty side is to come, which lines are doubted, and a piece of
//! the text.
#![tactic(auto)]

mod laws;
mod line;
mod prove;
mod walk;

pub use laws::{every_problem_has_a_log, logs_are_complete};
pub use prove::prove_log;
