//! A fast test whether solids fit further views and sections: what a view shows is computed by
//! words, of the cells that a cut keeps, at those points of the grid alone beside which there are
//! blocks, and compared with what is wanted there.
//!
//! A view's grid points stand in rows from below upwards, each from the left to the right; so many
//! to a row as there are grid cells side by side, and one more. What belongs to the level, or the
//! upright, segment that begins at a point stands at the point's place. Columns stand in the same
//! way with a row more before them: each beside the point that is its lower left corner, and empty
//! ones where there is none. So the column before a line stands one place before that after it
//! where the line is upright, and one row before it where it is level.
#![tactic(auto)]

mod busy_points;
mod cuts;
mod drawn_view;
mod further_sieve;
mod layer_test;
mod points;
mod sights;
mod view_test;
mod wanted;
mod wanted_view;

pub use further_sieve::FurtherSieve;
