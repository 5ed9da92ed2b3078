//! Spans of cells.

/// The cells of a row, as its bits, that belong to one block, or some of them; or to none.
#[derive(Clone, Copy, Debug)]
pub struct Span {
    pub block: Option<u16>,
    pub cells: u64,
}
