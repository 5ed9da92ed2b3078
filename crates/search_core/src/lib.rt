//! The core of a search that several may work at: a plain value, and a law over every list of what
//! may happen to it.
#![tactic(auto)]

mod copies;
mod desk;
mod frontier;
mod laws;
mod ledger;
mod note;
mod ready;

pub use desk::{Desk, Reported};
pub use laws::{small_core, the_core_conserves};
pub use ready::ReadyReport;
