//! The prefixes of a search, each of which is named by its place: those that lead to the nodes of a
//! binary tree.
//!
//! A crate of its own below `search_core`: the desk sees a list of prefixes, and edits of the desk
//! are tried without the proofs of the tree.
#![tactic(auto)]

mod beginnings;
mod nodes;
mod prefixes;
mod way;

pub use beginnings::alike;
pub use prefixes::Prefixes;
