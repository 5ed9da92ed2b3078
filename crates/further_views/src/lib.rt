//! What a file asks for beside its three main views: those from the left, from the rear and from
//! below, and sections.
//!
//! A crate of its own below `six_views`, which tells what fits them: so what reads files needn't
//! stand on what draws solids.
#![tactic(auto)]

mod further;
mod lines;

pub use dxf_entities::{Cut, Layer, LayerLine};
pub use further::{AskedView, Further};
pub use lines::further_of;
