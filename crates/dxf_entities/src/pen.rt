//! How an entity is drawn.

use crate::layer::Layer;
use solid_model::Style;

/// The layer and the style in which an entity is drawn.
#[derive(Clone, Copy)]
pub struct Pen {
    pub layer: Layer,
    pub style: Style,
}
