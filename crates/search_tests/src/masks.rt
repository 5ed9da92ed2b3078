//! What is known of the columns of small drawings.

ghost use Rattle.std.specs.Prelude.{◌≡◌};
ghost use Rattle.line_demands.specs.Touching.{view_width, view_height};
ghost use Rattle.solid_model.specs.PerAxis.{numbers_of};

use crate::forced::begun;
use crate::searches::problem;
use line_demands::Partial;
use solid_model::{PerAxis, View};
use std::alloc::Global;
use std::test::Fail;
use test_files::{Row, rows_tell};

/// The hollow cube. Its second block is the void.
const HOLLOW_CUBE: [&str; 3] = ["rect S 0 0 3 3, rect D 1 1 2 2"; 3];

/// A slab with a block on its corner, in front on the left. That is the second one.
const SLAB: [&str; 3] = [
    "line S 0 0 5 0, line D 0 3 2 3, line S 2 3 5 3, line S 0 4 2 4, line S 0 0 0 4, line S 2 3 2 4, line S 5 0 5 3",
    "rect S 0 0 5 5, line S 0 1 2 1, line S 2 0 2 1",
    "rect S 0 0 5 3, line S 0 4 1 4, line S 0 3 0 4, line S 1 3 1 4",
];

/// Three cubes round a corner, of which none stands behind on the left. They are one block.
const CORNER: [&str; 3] = [
    "rect S 0 0 2 1, line D 1 0 1 1",
    "line S 0 0 2 0, line S 2 0 2 2, line S 1 2 2 2, \
        line S 1 1 1 2, line S 0 1 1 1, line S 0 0 0 1",
    "rect S 0 0 2 1, line D 1 0 1 1",
];

/// A row a drawing of these; which of its first blocks are decided; and a column, by its view and
/// its places to the right and upwards. Wanted are its cells that are full for certain, and those
/// that may be, where the nearest counts 1, the next one 2 and so on.
const MASKS: &str = "\
hollow; ; TOP 1 1 -> 0 7
hollow; 1; TOP 1 1 -> 5 7
hollow; 10; SIDE 1 1 -> 5 5
hollow; 10; SIDE 2 1 -> 7 7
slab; 1; TOP 0 0 -> 2 3
slab; 1; TOP 1 0 -> 2 2
slab; 1; SIDE 0 1 -> 0 2
slab; 1; SIDE 1 0 -> 3 3
slab; ; FRONT 0 1 -> 0 1
corner; 1; TOP 1 0 -> 1 1
corner; 1; TOP 0 1 -> 0 0";

/// How many columns a view of a grid shows in a row, and how many rows.
fn width_and_height(sizes: PerAxis, view: View) -> (usize, usize)
    ensures width { result.0 ≡ view_width (numbers_of sizes) view }
    ensures height { result.1 ≡ view_height (numbers_of sizes) view }
{
    let PerAxis { x, y, z } = sizes;
    match view {
        View::Front => (x, z),
        View::Top => (x, y),
        View::Side => (y, z),
    }
}

/// The views of the drawing of a name.
fn views_of(name: &str) -> [&'static str; 3] {
    match name {
        "slab" => SLAB,
        "corner" => CORNER,
        _ => HOLLOW_CUBE,
    }
}

/// The view of a name.
fn view_of(name: &str) -> View {
    match name {
        "FRONT" => View::Front,
        "TOP" => View::Top,
        _ => View::Side,
    }
}

/// What is known of a column, if it is there.
fn mask_at(partial: &Partial<'_>, view: View, right: u8, up: u8) -> Option<(u64, u64)> {
    let (width, height) = width_and_height(partial.problem().grid().sizes(), view);
    if usize::from(right) < width && usize::from(up) < height {
        Some(partial.mask(view, right, up))
    } else {
        None
    }
}

/// The same of the column that is told so, as a row has it.
fn told_column(alloc: Global, partial: &Partial<'_>, told: &str) -> Result<String, Fail> {
    let mut words = told.split(' ');
    let view = view_of(words.next().unwrap_or(""));
    let right = words.next().unwrap_or("").parse().unwrap_or(u8::MAX);
    let up = words.next().unwrap_or("").parse().unwrap_or(u8::MAX);
    let (full, may) = mask_at(partial, view, right, up).ok_or("a column")?;
    Ok(format!(in alloc; "{full} {may}")?)
}

/// What is known of a row's column, as the row has it.
fn told_mask(alloc: Global, row: Row<'_>) -> Result<String, Fail> {
    let [name, values, column, ..] = row.parts;
    let problem = problem(alloc, views_of(name))?;
    let partial = begun(alloc, &problem, values)?;
    told_column(alloc, &partial, column)
}

#[test]
fn columns_are_known_so(rt: HostRuntime) -> Result<(), Fail> {
    rows_tell(MASKS, |row| told_mask(rt.alloc(), row))
}
