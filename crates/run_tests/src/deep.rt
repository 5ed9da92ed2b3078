//! Whether a drawing is ambiguous is told at once.

use crate::runs::{Runtime, run_words};
use std::alloc::AllocError;
use std::test::Fail;
use test_files::drawing_file;

/// A cube with 512 voids: 513 blocks.
const VOIDS: [&str; 3] = ["lattice 8 8"; 3];

/// Level by level, no solid is among the 1,000,000 nodes that may be opened.
const WORDS: [&str; 2] = [
    "solve|--solids=1|--workers=1|",
    "solve|--solids=1|--workers=4|",
];

/// Whether a run with these words finds more solids than one.
fn finds_two<R: Runtime>(rt: &R, words: &str) -> Result<bool, AllocError> {
    let wrote = run_words(rt, words, drawing_file(rt.alloc(), VOIDS)?)?;
    Ok(wrote.starts_with("4 cut solids 1\n"))
}

#[test]
fn many_voids_are_ambiguous(rt: HostRuntime) -> Result<(), Fail> {
    for words in WORDS {
        assert!(rt; finds_two(&rt, words)?, "{words}");
    }
    Ok(())
}
