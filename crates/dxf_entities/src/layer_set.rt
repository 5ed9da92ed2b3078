//! Which layers are read.

/// Which layers are read: those of the three main views; of all six views; or these and those of
/// sections and areas.
#[derive(Clone, Copy, Debug, PartialEq, Eq)]
pub enum LayerSet {
    Main,
    Six,
    Sections,
}
