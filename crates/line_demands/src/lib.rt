//! What the lines of a grid demand of its blocks, while some of them are decided.
#![tactic(auto)]

mod beside;
mod doubts;
mod excluding;
mod free;
mod gather;
mod known;
mod lines;
mod partial;
mod places;
mod plan;
mod seen;
mod sight;
mod spans;
mod steps;
mod whole;

pub use doubts::{doubted, without_lowest};
pub use excluding::{can_draw_with, column_of, excludes};
pub use known::{KnownColumn, can_draw, meets};
pub use partial::{Partial, undo_to};
pub use places::has_place;
pub use seen::{SeenLine, block_beside};
pub use steps::Steps;
