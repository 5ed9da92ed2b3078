//! The laws of made drawings: that their files read back, and that they stay within the limits.
#![tactic(auto)]

mod laws;

pub use laws::{made_drawings_stay_within_the_limits, made_files_read_back};
