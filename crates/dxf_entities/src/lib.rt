//! The entities of a DXF file: the lines of the three views that are kept, or the file's first
//! fault.
#![tactic(auto)]

mod codes;
mod coordinates;
mod counting;
mod drawn_lines;
mod facts;
mod form;
mod kind;
mod laws;
mod layer;
mod layer_facts;
mod layer_line;
mod layer_set;
mod layers;
mod linetype;
mod named;
mod names;
mod open;
mod outline;
mod pen;
mod place;
mod reader;
mod reading;
mod section;
mod shape;
mod values;
mod vertex;

pub use form::ReadingForm;
pub use laws::{
    read_lines_are_kept, six_views_have_no_cut, small_files, small_files_of_sections,
    small_files_of_six_views, small_names_of_sections, small_polylines,
    three_views_have_no_further_line,
};
pub use layer::{Cut, Layer, LayerKey};
pub use layer_line::LayerLine;
pub use layer_set::LayerSet;
pub use reading::{entities, entities_in, entities_six};
pub use solid_model::SheetLine;
