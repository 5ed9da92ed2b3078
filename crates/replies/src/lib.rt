//! How a run ends: with an answer or a failure, and what was written of the answer's text.
//!
//! A crate of its own below `recon_run`: an edit that always tells a fault of the sink is tried
//! here, and not over the whole of `recon_run`.
#![tactic(auto)]

mod laws;
mod status;
mod writing;

pub use laws::status_numbers;
pub use status::{Answer, Failure, Status, code};
pub use writing::{write_reply, write_text};
