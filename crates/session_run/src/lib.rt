//! A session: readers are asked while workers search, and then tell what they saw; the end lists
//! what they were told.
//!
//! A crate of its own above the workers, whose proofs cost enough.
#![tactic(auto)]

mod laws;
mod players;
mod session;
mod tales;
mod together;

pub use laws::{sessions_list_pages, sessions_list_solutions};
pub use session::{Session, run_session};
