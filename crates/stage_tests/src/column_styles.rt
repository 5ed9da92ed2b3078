//! The styles of many pairs of columns, told together.

use column_lanes::{Column, style_byte, style_of, styles};
use std::alloc::Global;
use std::test::Fail;
use test_files::{Row, rows_tell};

/// A row some pairs: the columns after the segments, those before them, and the bytes of the
/// styles, 0 for Blank, 1 for Dashed and 2 for Solid. The great number of the second row is the
/// column of the farthest cell alone, and of the last row two pairs are left over by eights.
const STYLES: &str = "\
1 1 0 3; 1 3 4 2 -> 0122
9223372036854775808 0 9223372036854775809; 0 9223372036854775808 1 -> 221
1 1 0 3 5 8 0 6 12 7; 1 3 4 2 13 8 0 6 4 8 -> 0122100012";

/// Numbers, a blank or `; ` between two of them.
pub fn numbers(alloc: Global, told: &str) -> Result<Vec<u64>, Fail> {
    let mut numbers = Vec::new(alloc);
    for word in told.split(' ') {
        numbers.push(word.trim_end_matches(';').parse().unwrap_or(0))?;
    }
    Ok(numbers)
}

/// Bytes below 10, as a row has them.
pub fn told_digits(alloc: Global, bytes: &[u8]) -> Result<String, Fail> {
    let mut told = String::new(alloc);
    for byte in bytes {
        write!(told, "{byte}")?;
    }
    Ok(told)
}

/// The bytes of the styles of pairs, told by the columns after the segments, and behind them as
/// many before these; each 9 where none is told.
fn bytes(alloc: Global, columns: &[u64]) -> Result<Vec<u8>, Fail> {
    let (after, before) = columns.split_at(columns.len() / 2);
    let mut bytes = vec![in alloc; 9; after.len()]?;
    if after.len() == before.len() {
        styles(after, before, bytes.as_mut_slice());
    }
    Ok(bytes)
}

/// The styles of a row's pairs, as the row has them.
fn told_styles(alloc: Global, row: Row<'_>) -> Result<String, Fail> {
    let columns = numbers(alloc, row.told)?;
    let bytes = bytes(alloc, columns.as_slice())?;
    told_digits(alloc, bytes.as_slice())
}

#[test]
fn pairs_of_columns_have_their_styles(rt: HostRuntime) -> Result<(), Fail> {
    rows_tell(STYLES, |row| told_styles(rt.alloc(), row))
}

/// A pair of columns, of which each kind comes: equal ones, one with a farther cell more, and such
/// as begin at different depths, or one of them nowhere.
pub fn pair(number: usize) -> (u64, u64) {
    let near = 1_u64 << (number % 64);
    match number % 5 {
        0 => (near, near),
        1 => (near | 1 << 63, near),
        2 => (near, near << 1),
        3 => (0, near),
        _ => (u64::MAX, near),
    }
}

/// Adds one column of each of so many pairs: the one after the segment, or the one before it.
fn push_columns(columns: &mut Vec<u64>, count: usize, is_after: bool) -> Result<(), Fail> {
    for number in 0..count {
        let (after, before) = pair(number);
        columns.push(if is_after { after } else { before })?;
    }
    Ok(())
}

/// The bytes of the styles of so many pairs, told together.
fn bytes_of_pairs(alloc: Global, count: usize) -> Result<Vec<u8>, Fail> {
    let mut columns = Vec::new(alloc);
    push_columns(&mut columns, count, true)?;
    push_columns(&mut columns, count, false)?;
    bytes(alloc, columns.as_slice())
}

/// Whether so many bytes are those of the styles that the pairs have one by one.
fn are_their_styles(bytes: &[u8], count: usize) -> bool {
    for (number, byte) in bytes.iter().enumerate() {
        let (after, before) = pair(number);
        if *byte != style_byte(style_of(Column(after), Column(before))) {
            return false;
        }
    }
    bytes.len() == count
}

/// Whether so many pairs have, together, the styles that they have one by one.
fn have_their_styles(alloc: Global, count: usize) -> Result<bool, Fail> {
    let bytes = bytes_of_pairs(alloc, count)?;
    Ok(are_their_styles(bytes.as_slice(), count))
}

#[test]
fn pairs_have_the_same_styles_one_by_one(rt: HostRuntime) -> Result<(), Fail> {
    for count in 0..68_usize {
        assert!(rt; have_their_styles(rt.alloc(), count)?, "{count} pairs");
    }
    Ok(())
}
