//! Where the reading of a file stands.

use crate::section::Section;

/// Where the reading of a file stands.
#[derive(Clone, Copy)]
pub enum Place {
    /// Between sections.
    Outside,
    /// In a section whose name isn't read yet.
    Unnamed,
    Inside(Section),
}
