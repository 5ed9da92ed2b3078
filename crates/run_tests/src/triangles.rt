//! A run that writes a solid's triangles.

use crate::runs::{Runtime, run_words};
use std::alloc::{AllocError, Global};
use std::test::Fail;
use test_files::{drawing_file, row_of};

/// The sides of the unit cube: the normal of each, and its corners, counterclockwise as seen from
/// outside, from the least one on.
const SIDES: &str = "\
-1 0 0; 0 0 0; 0 0 1; 0 1 1; 0 1 0
1 0 0; 1 0 0; 1 1 0; 1 1 1; 1 0 1
0 -1 0; 0 0 0; 1 0 0; 1 0 1; 0 0 1
0 1 0; 0 1 0; 0 1 1; 1 1 1; 1 1 0
0 0 -1; 0 0 0; 0 1 0; 1 1 0; 1 0 0
0 0 1; 0 0 1; 1 0 1; 1 1 1; 0 1 1";

/// Adds a triangle.
fn push_facet(text: &mut String, normal: &str, [a, b, c]: [&str; 3]) -> Result<(), AllocError> {
    write!(
        text,
        "facet normal {normal}\nouter loop\nvertex {a}\nvertex {b}\nvertex {c}\nendloop\nendfacet\n"
    )
}

/// Adds the two triangles of a side.
fn push_side(text: &mut String, line: &str) -> Result<(), AllocError> {
    let [normal, p, q, r, s] = row_of(line).parts;
    push_facet(text, normal, [p, q, r])?;
    push_facet(text, normal, [p, r, s])
}

/// What is written of the cube: a status, and the text.
fn wanted(alloc: Global) -> Result<String, AllocError> {
    let mut text = String::from_str(alloc, "0 solid recon\n")?;
    for line in SIDES.lines() {
        push_side(&mut text, line)?;
    }
    text.push_str("endsolid recon\n")?;
    Ok(text)
}

/// What `stl 1` writes for the drawing of the unit cube.
fn told_run<R: Runtime>(rt: &R) -> Result<String, AllocError> {
    run_words(
        rt,
        "stl|1|",
        drawing_file(rt.alloc(), ["rect S 0 0 1 1"; 3])?,
    )
}

/// Whether that is what is wanted.
fn writes_the_cube<R: Runtime>(rt: &R) -> Result<bool, AllocError> {
    let wrote = told_run(rt)?;
    let wanted = wanted(rt.alloc())?;
    Ok(wrote.as_str() == wanted.as_str())
}

#[test]
fn a_run_writes_the_triangles_of_the_cube(rt: HostRuntime) -> Result<(), Fail> {
    assert!(rt; writes_the_cube(&rt)?);
    Ok(())
}
