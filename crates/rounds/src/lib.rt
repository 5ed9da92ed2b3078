//! The rounds of a succession: lists of nodes, each followed by the next one, and the last by the
//! first.
#![tactic(auto)]

mod laws;
mod succession;
mod trace;

pub use laws::{each_inside_node_has_a_round, one_list_of_rounds, small_succession};
pub use succession::Succession;
pub use trace::all_rounds;
