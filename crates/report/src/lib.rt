//! The texts that are written: the end of a search, its solids with their faces, pages of solids,
//! trials, and faults.
#![tactic(auto)]

mod faults;
mod laws;
mod plane_text;
mod plane_texts;
mod solid;
mod solid_texts;
mod text;
mod volumes;

pub use faults::fault_text;
pub use laws::{small_face_texts, small_fault_texts, small_search_texts};
pub use plane_text::PlaneText;
pub use plane_texts::PlaneTexts;
pub use solid_texts::{SolidBuffers, SolidTexts, solid_text};
pub use text::{
    fitting_text, head_text, no_solid_text, page_text, reader_text, refusal_text, stopped_text,
    trial_text, yes_text,
};
