//! The drawing of a file's lines: each view's lines are cut into maximal runs, and shifted so that
//! they begin at 0.
#![tactic(auto)]

mod corner;
mod joined;
mod strokes;
mod sweep;
mod views;

pub use views::{drawing, drawing_of_views, view_of};
