//! A file that is cut anywhere.

use crate::runs::{Runtime, cube_file, solve};
use std::alloc::AllocError;
use std::test::Fail;

/// Whether a cut falls behind a letter of the first such word, and before its last one's end.
fn is_inside(file: &str, word: &str, cut: usize) -> bool {
    match file.split_once(word) {
        Some((before, _)) => before.len() < cut && cut - before.len() < word.len(),
        None => false,
    }
}

/// The fault of a file after a cut, and its line, by the lines that are left and the word that was
/// cut.
fn cut_fault(file: &str, cut: usize) -> (&'static str, usize) {
    let lines = file.get(..cut).unwrap_or("").lines().count();
    if lines % 2 == 1 {
        ("F3 NoValue", lines)
    } else if is_inside(file, "SECTION", cut) || is_inside(file, "EOF", cut) {
        ("F5 BadSection", lines.saturating_sub(1))
    } else {
        ("F4 NoEof", lines.saturating_add(1))
    }
}

/// What `solve` writes for so many first bytes of a file.
fn wrote_for<R: Runtime>(rt: &R, file: &str, cut: usize) -> Result<String, AllocError> {
    let file = String::from_str(rt.alloc(), file.get(..cut).unwrap_or(""))?;
    solve(rt, file)
}

/// Whether that is the fault of the cut.
fn has_its_fault<R: Runtime>(rt: &R, file: &str, cut: usize) -> Result<bool, AllocError> {
    let (fault, line) = cut_fault(file, cut);
    let wanted = format!(in rt.alloc(); "1 fault {fault} line {line}\n")?;
    let wrote = wrote_for(rt, file, cut)?;
    Ok(wrote.as_str() == wanted.as_str())
}

/// The file ends with a line end behind `EOF`.
#[test]
fn each_cut_has_its_fault(rt: HostRuntime) -> Result<(), Fail> {
    let file = cube_file(rt.alloc())?;
    for cut in 0..file.len().saturating_sub(1) {
        assert!(rt; has_its_fault(&rt, file.as_str(), cut)?, "{cut} bytes");
    }
    Ok(())
}
