//! Completeness logs: what they say, how they are spelled, and that they are complete.
//!
//! Whoever is shown an answer can go through a log and see that no solid is missing: it is a tree
//! of decisions on the blocks of a grid, and each of its branches ends at a line of the grid that
//! can't be met, or at a solid. Nothing here says who wrote it, or how: who writes a log and who
//! checks one go the same way through its tree, and neither stands on the other.
#![tactic(auto)]

mod entry;
mod laws;
mod trail;

pub use entry::{LinePlace, LogEntry};
pub use laws::{lines_are_trees, log_of_notched_bar, logs_list_all_matching_choices};
pub use trail::{close_tree, go_force, go_split};
