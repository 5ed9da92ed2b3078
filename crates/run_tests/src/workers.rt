//! Runs by several workers.

use crate::runs::{Runtime, run_words};
use std::alloc::AllocError;
use std::test::Fail;
use test_files::drawing_file;

/// The eight voids, in each view.
const EIGHT_VOIDS: [&str; 3] = ["lattice 2 2"; 3];

/// What a run with these words writes for the eight voids.
fn told<R: Runtime>(rt: &R, words: &str) -> Result<String, AllocError> {
    run_words(rt, words, drawing_file(rt.alloc(), EIGHT_VOIDS)?)
}

/// Whether these words write all 35 solids as `solve` alone does.
fn writes_the_same<R: Runtime>(rt: &R, words: &str) -> Result<bool, AllocError> {
    let alone = told(rt, "solve|")?;
    let wrote = told(rt, words)?;
    Ok(wrote.as_str() == alone.as_str() && wrote.starts_with("0 whole 35 nodes 109 blocks 9\n"))
}

/// Words that say how many workers there are.
const WORKERS: [&str; 4] = [
    "solve|--workers|1|",
    "solve|--workers=2|",
    "solve|--workers|8|--solids=35|",
    "solve|--nodes=109|--workers=064|",
];

#[test]
fn workers_write_the_same(rt: HostRuntime) -> Result<(), Fail> {
    for words in WORKERS {
        assert!(rt; writes_the_same(&rt, words)?, "{words}");
    }
    Ok(())
}
