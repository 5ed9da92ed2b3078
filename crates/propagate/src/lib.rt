//! What the lines of a grid force, while some of its blocks are decided: one decision, or all that
//! follow from one another.
#![tactic(auto)]

mod cells;
mod closing;
mod doubted;
mod line;
mod stepping;

pub use closing::{Closed, close, decide_closed};
pub use doubted::DoubtedLines;
pub use stepping::{Forcing, doubt_last, step, step_doubted};
