//! The drawing of a solid as a DXF file: its three views, redrawn line by line.
#![tactic(auto)]

mod dxf;
mod laws;
mod runs;
mod sheet;
mod text;

pub use dxf::dxf_of;
pub use laws::{
    matching_solids_have_one_file, no_solid_lacks_a_file, one_written_file, sheet_lines_are_few,
    sheet_lines_draw_the_solid, small_file,
};
pub use runs::runs_on;
