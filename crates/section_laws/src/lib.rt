//! What a solid draws when it is cut by a plane across the sight axis, with hidden edges left out:
//! just what the whole view of other grid cells draws. So what tells views tells sections, wherever
//! in a gap of the grid the plane lies.
//!
//! A crate of its own over the plain types alone: these laws say how one column of cells is cut and
//! filled, and needn't wait for what draws and moves views.
#![tactic(auto)]

mod cut_cells;
mod gaps;
mod laws;
mod left_cells;

pub use laws::{areas_are_views_of_their_slab, sections_are_views_of_shaded_cells, small_sections};
pub use left_cells::{cells_left, cut_gap};
