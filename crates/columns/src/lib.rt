//! Drawing of grid cells: the columns of a set of grid cells in the three views, and the styles
//! that they draw on the segments of a grid.
#![tactic(auto)]

mod draw;
mod grid_columns;
mod segment_styles;

pub use draw::{ColumnSet, columns_in, columns_of, counts_of, draw_cells, draw_in};
pub use grid_columns::view_columns;
pub use segment_styles::styles_along;
