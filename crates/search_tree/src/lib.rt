//! The search of the tree of prefixes, on one thread.
#![tactic(auto)]

mod alone;
mod block_path;
mod descent;
mod expansion;
mod going;
mod meeting;
mod opened;
mod path;
mod rest;
mod walk;

pub use alone::{search_path, solve_alone};
pub use block_path::BlockPath;
pub use expansion::{Expanded, expand, expand_from, expand_path};
pub use path::Path;
pub use walk::go_on;
