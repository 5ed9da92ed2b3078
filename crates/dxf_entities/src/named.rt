//! What the names of layers tell.

use crate::layer::Layer;

/// What the name of a layer tells.
#[derive(Clone, Copy)]
pub enum Named {
    /// It is none of a layer that is read.
    Unread,
    /// It is that of a layer which shows this.
    Shows(Layer),
    /// It begins as that of a section or an area does, and names no view and plane.
    Misnamed,
}
