//! The end of a search, at which several may have worked: the calling thread makes the events that
//! are missing, and hands out in pages what was found.
//!
//! A crate of its own below the workers: half of the proofs need nothing of threads.
#![tactic(auto)]

mod beginning;
mod desk_search;
mod ending;
mod handed;
mod joined;
mod laws;
mod left;
mod turns;

pub use beginning::{begin, set_up};
pub use desk_search::{QUANTUM, keep_all};
pub use ending::{SearchEnd, end_search, finish};
pub use handed::{Handed, PAGE};
pub use joined::join_choices;
pub use laws::stopped_searches_are_open;
pub use turns::Mark;
