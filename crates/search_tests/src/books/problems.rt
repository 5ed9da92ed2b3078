//! What a book says of problems: whether it is of them.

use crate::searches::problem;
use solution_book::{Book, BookReader, BookWriter};
use std::alloc::Global;
use std::sync::Wait;
use std::test::Fail;
use test_files::{Row, rows_tell};

/// A row two drawings of a cube's views, by the strokes of each: the book's, and one whose problem
/// is asked for; and whether the book is of that, as its writer says and as its reader says. Of the
/// cubes of one block the second is twice as large; the others differ in how a square is drawn.
const ASKED: &str = "\
rect S 0 0 1 1; rect S 0 0 1 1 -> true true
rect S 0 0 1 1; rect S 0 0 2 2 -> false false
rect S 0 0 3 3, rect D 1 1 2 2; rect S 0 0 3 3, rect D 1 1 2 2 -> true true
rect S 0 0 3 3, rect D 1 1 2 2; rect S 0 0 3 3, rect S 1 1 2 2 -> false false
lattice 2 2; lattice 2 2 -> true true
lattice 2 2; rect S 0 0 5 5, rect D 1 1 2 2, rect D 3 3 4 4 -> false false";

/// A book of a drawing with these views, and a reader of it.
fn book_of<'a, R: Wait>(
    rt: &'a R,
    alloc: Global,
    view: &str,
) -> Result<(BookWriter<&'a R>, BookReader<&'a R>), Fail> {
    let (writer, mut readers) = Book::begin(rt, alloc, problem(alloc, [view; 3])?, 1)?;
    let reader = readers.pop().ok_or("a reader")?;
    Ok((writer, reader))
}

/// What the book of a row says of the other drawing.
fn told<R: Wait>(rt: &R, alloc: Global, row: Row<'_>) -> Result<String, Fail> {
    let [own, other, ..] = row.parts;
    let (writer, mut reader) = book_of(rt, alloc, own)?;
    let other = problem(alloc, [other; 3])?;
    let (first, second) = (writer.is_of(&other), reader.is_of(&other));
    Ok(format!(in alloc; "{first} {second}")?)
}

#[test]
fn a_book_knows_its_problem(rt: HostRuntime) -> Result<(), Fail> {
    rows_tell(ASKED, |row| told(&rt, rt.alloc(), row))
}
