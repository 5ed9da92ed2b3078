//! Decisions on blocks.

/// That a block is full, or empty.
#[derive(Clone, Copy, Debug)]
pub struct Decision {
    pub block: u16,
    pub full: bool,
}
