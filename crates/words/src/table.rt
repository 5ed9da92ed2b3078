//! What commands take, as tables.
//!
//! `clap` is built from a command's table, so that what it takes is proved once, over any table.

/// The numbers that a value may be.
#[derive(Clone, Copy)]
pub struct Range {
    pub least: u64,
    pub most: u64,
}

/// An option: its name, and the numbers that its value may be. A flag has no value.
#[derive(Clone, Copy)]
pub struct Row<'a> {
    pub name: &'a str,
    pub range: Option<Range>,
}

/// What a command takes: its options, and its number, if it has one.
#[derive(Clone, Copy)]
pub struct Rows<'a> {
    pub options: &'a [Row<'a>],
    pub number: Option<Range>,
}
