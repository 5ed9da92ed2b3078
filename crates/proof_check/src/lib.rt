//! The check of a completeness log, which tells that an answer is complete without a search.
//!
//! It goes through the log once, line by line. It keeps the decisions that stand (`Partial` knows
//! what the lines of the grid demand under them), the places of the splits whose other side is to
//! come, and the choices that are listed; nothing grows with the log but these choices. It trusts
//! nothing that the log says, and knows nothing of a search.
#![tactic(auto)]

mod asking;
mod fault;
mod going;
mod judging;
mod laws;
mod log;
mod reading;
mod walk;

pub use fault::{LogFault, LogKind, LogRefused};
pub use laws::{lines_are_read_as_spelled, no_log_is_refused, refusals_of_notched_bar};
pub use log::check_log;
