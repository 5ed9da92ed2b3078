//! Pages of a book with one reader, while it grows.

use super::author::{Author, begin};
use super::{SIXTEEN_VOIDS, are_at};
use solid_model::{Choice, Memory};
use solution_book::{BookReader, Page};
use std::alloc::{AllocError, Global};
use std::sync::Wait;
use std::test::Fail;
use test_files::{Row, row_of};

/// The eight voids, which 35 solids have.
const EIGHT_VOIDS: [&str; 3] = ["lattice 2 2"; 3];

/// A row a page: so many are published by then, which the reader learns; the place that is asked
/// for; how many at most; and how many solids the page has, and whether it ends there.
const GROWING: &str = "\
0; 0; 10 -> 0 end
3; 0; 10 -> 3 end
5; 0; 10 -> 5 end
5; 0; 5 -> 5 end
5; 0; 4 -> 4
5; 3; 1 -> 1
5; 4; 1 -> 1 end
5; 4; 0 -> 0
5; 5; 0 -> 0 end
5; 7; 2 -> 0 end
99; 33; 18446744073709551615 -> 2 end
99; 18446744073709551615; 1 -> 0 end";

/// Rows of this kind at the ends of batches of 256.
const AT_ENDS_OF_BATCHES: &str = "\
255; 250; 10 -> 5 end
256; 250; 10 -> 6 end
257; 250; 10 -> 7 end
600; 0; 256 -> 256
600; 254; 4 -> 4
600; 255; 257 -> 257
600; 0; 512 -> 512
600; 511; 2 -> 2
600; 512; 87 -> 87
600; 512; 88 -> 88 end
600; 0; 600 -> 600 end
600; 599; 9 -> 1 end
600; 600; 9 -> 0 end";

/// Publishes the next solids, until so many are published or all are, and has the reader learn it.
fn grow<R: Wait + Drop>(
    alloc: Global,
    author: &mut Author<R>,
    reader: &mut BookReader<R>,
    count: usize,
) -> Result<(), Memory> {
    let receipt = author.publish_up_to(alloc, count)?;
    reader.learn(receipt);
    Ok(())
}

/// A page from a place on, as a row tells it.
fn told_page(
    alloc: Global,
    page: &Page,
    from: usize,
    solids: &[Choice],
) -> Result<String, AllocError> {
    let right = page.from == from && are_at(solids, from, &page.solids);
    let start = if right { "" } else { "wrong " };
    let end = if page.ends_here { " end" } else { "" };
    format!(in alloc; "{start}{}{end}", page.solids.len())
}

/// Whether the page of a row is as the row has it.
fn is_so<R: Wait + Drop>(
    alloc: Global,
    author: &mut Author<R>,
    reader: &mut BookReader<R>,
    row: Row<'_>,
) -> Result<bool, Fail> {
    let [count, from, most, ..] = row.parts;
    grow(alloc, author, reader, count.parse().unwrap_or(0))?;
    let from = from.parse().unwrap_or(0);
    let page = reader.page(alloc, from, most.parse().unwrap_or(0))?;
    Ok(told_page(alloc, &page, from, author.solids())?.as_str() == row.wanted)
}

/// The first row of a table whose page isn't as the row has it; nothing where all are.
fn wrong_row<'a, R: Wait + Drop>(
    alloc: Global,
    author: &mut Author<R>,
    reader: &mut BookReader<R>,
    table: &'a str,
) -> Result<&'a str, Fail> {
    for line in table.lines() {
        if !is_so(alloc, author, reader, row_of(line))? {
            return Ok(line);
        }
    }
    Ok("")
}

/// The same of the pages of a drawing's book.
fn wrong_page<'a, R: Wait>(
    rt: &R,
    alloc: Global,
    views: [&str; 3],
    table: &'a str,
) -> Result<&'a str, Fail> {
    let (mut author, mut readers) = begin(rt, alloc, views, 1)?;
    let mut reader = readers.pop().ok_or("a reader")?;
    wrong_row(alloc, &mut author, &mut reader, table)
}

#[test]
fn book_of_the_eight_voids(rt: HostRuntime) -> Result<(), Fail> {
    let row = wrong_page(&rt, rt.alloc(), EIGHT_VOIDS, GROWING)?;
    assert!(rt; row.is_empty(), "{row}");
    Ok(())
}

#[test]
fn pages_of_three_batches(rt: HostRuntime) -> Result<(), Fail> {
    let row = wrong_page(&rt, rt.alloc(), SIXTEEN_VOIDS, AT_ENDS_OF_BATCHES)?;
    assert!(rt; row.is_empty(), "{row}");
    Ok(())
}
