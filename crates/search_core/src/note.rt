//! Notes of reports.

/// A note of a report: the place of its piece, how many prefixes were opened, and its share of the
/// choices found and of the places put.
#[derive(Clone, Copy)]
pub struct Note {
    pub piece: u32,
    pub opened: u32,
    pub found: usize,
    pub rest: usize,
}
