//! What columns of grid cells draw on the lines of a grid, and what the lines demand of the blocks
//! of a problem while some of them are decided: laws, up to the one that live prefixes end in
//! matching solids. No code: the program's stages cite them.
#![tactic(auto)]

mod laws;

pub use laws::{
    demands_are_computed, lines_are_met_by_drawings, lines_in_order,
    live_prefixes_end_in_matching_solids, live_prefixes_leave_all_lines_met,
    quartered_cube_half_hidden,
};
