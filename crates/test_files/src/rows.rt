//! Rows of tables.

use std::str::Split;
use std::test::Fail;

/// A row of a table: what is told, and after ` -> ` what is wanted of it. What is told has up to
/// five parts, `; ` between two of them; a part that isn't told is empty, and so is what isn't
/// wanted.
#[derive(Clone, Copy)]
pub struct Row<'a> {
    pub told: &'a str,
    pub parts: [&'a str; 5],
    pub wanted: &'a str,
}

impl<'a> Row<'a> {
    /// The strokes in front, from the top and from the side, of a row whose first three parts they
    /// are.
    pub fn views(self) -> [&'a str; 3] {
        let [front, top, side, ..] = self.parts;
        [front, top, side]
    }
}

/// The next part.
fn next_part<'a>(parts: &mut Split<'a, &str>) -> &'a str {
    parts.next().unwrap_or("")
}

/// The row that a line of a table is.
pub fn row_of(line: &str) -> Row<'_> {
    let (told, wanted) = line.split_once(" -> ").unwrap_or((line, ""));
    let mut parts = told.split("; ");
    Row {
        told,
        parts: [
            next_part(&mut parts),
            next_part(&mut parts),
            next_part(&mut parts),
            next_part(&mut parts),
            next_part(&mut parts),
        ],
        wanted,
    }
}

/// Fails at the first line of a table for which a test doesn't hold.
pub fn lines_hold<'a, F: FnMut(&'a str) -> Result<bool, Fail>>(
    table: &'a str,
    mut holds: F,
) -> Result<(), Fail>
    requires { F.IsAlwaysCallable holds }
{
    for line in table.lines() {
        if !holds(line)? {
            return Err(Fail::new(line));
        }
    }
    Ok(())
}

/// Fails at the first row of a table of which something else is told than the row wants. Blanks
/// before what is told don't count.
pub fn rows_tell<'a, F: FnMut(Row<'a>) -> Result<String, Fail>>(
    table: &'a str,
    mut told: F,
) -> Result<(), Fail>
    requires { F.IsAlwaysCallable told }
{
    for line in table.lines() {
        let row = row_of(line);
        let text = told(row)?;
        if text.as_str().trim_start() != row.wanted {
            return Err(Fail::new(format_args!("{line}: {text}")));
        }
    }
    Ok(())
}
