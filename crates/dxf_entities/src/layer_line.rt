//! Lines, and on which layers they stand.

use crate::layer::Layer;
use solid_model::SheetLine;

/// A line that is kept, and what the layer shows on which it stands. Its view is the layer's; its
/// own `line` is the file's, at which its entity begins.
#[derive(Clone, Copy, Debug)]
pub struct LayerLine {
    pub layer: Layer,
    pub line: SheetLine,
}
