//! Files, told in steps.
//!
//! A step is one of these, and `, ` stands between two of them:
//!
//!     0 LINE              a pair: a line for its code, and one for its value
//!     10                  a line alone
//!     FRONT               the layer of the strokes after it: of a view, or of a section
//!     line S 0 0 1 0      the solid line (dashed: D) from a point to another one
//!     rect S 0 0 1 1      the rectangle between two points: its lower, upper, left and right side
//!     diagonal 3          so many unit squares on the diagonal from (0,0), each 1 off the next
//!     lattice 2 3         the rectangle from (0,0) to (5,7), and in it so many dashed unit squares
//!                         to the right and upwards, each 1 off the next and the border
//!     cube                the strokes of the unit cube
//!     blanks              16 blanks
//!     9 * line S 0 0 1 0  a step so many times

ghost use Rattle.std.specs.Prelude.{◌≤◌, length, IfOk};
ghost use Rattle.solid_model.specs.Limits.{most_file_bytes};

use solid_model::View;
use std::alloc::{AllocError, Global};
use std::test::Fail;

/// As many bytes as a file may have.
const MOST_BYTES: usize = 16_777_216;

/// The strokes of the unit cube.
const CUBE: &str = "FRONT, rect S 0 0 1 1, TOP, rect S 0 0 1 1, SIDE, rect S 0 0 1 1";

/// A stroke, as it is told: its style, S or D, and its two points.
#[derive(Clone, Copy)]
struct Stroke<'a> {
    style: &'a str,
    x0: &'a str,
    y0: &'a str,
    x1: &'a str,
    y1: &'a str,
}

/// The stroke that is told so.
fn stroke_of(told: &str) -> Stroke<'_> {
    let mut words = told.split(' ');
    Stroke {
        style: words.next().unwrap_or(""),
        x0: words.next().unwrap_or(""),
        y0: words.next().unwrap_or(""),
        x1: words.next().unwrap_or(""),
        y1: words.next().unwrap_or(""),
    }
}

/// The layer of a view.
pub fn layer_of(view: View) -> &'static str {
    match view {
        View::Front => "FRONT",
        View::Top => "TOP",
        View::Side => "SIDE",
    }
}

/// Adds a line on a layer.
fn push_line(file: &mut String, layer: &str, line: Stroke<'_>) -> Result<(), AllocError> {
    let linetype = if line.style == "S" {
        "CONTINUOUS"
    } else {
        "HIDDEN"
    };
    let Stroke { x0, y0, x1, y1, .. } = line;
    write!(
        file,
        "0\nLINE\n8\n{layer}\n6\n{linetype}\n10\n{x0}\n20\n{y0}\n30\n0\n11\n{x1}\n21\n{y1}\n31\n0\n"
    )
}

/// Adds the four lines of a rectangle.
fn push_rect(file: &mut String, layer: &str, rect: Stroke<'_>) -> Result<(), AllocError> {
    let Stroke { x0, y0, x1, y1, .. } = rect;
    push_line(file, layer, Stroke { y1: y0, ..rect })?;
    push_line(file, layer, Stroke { y0: y1, ..rect })?;
    push_line(file, layer, Stroke { x1: x0, ..rect })?;
    push_line(file, layer, Stroke { x0: x1, ..rect })
}

/// Adds unit squares on the diagonal.
fn push_diagonal(file: &mut String, layer: &str, count: u8) -> Result<(), AllocError> {
    for square in 0..count {
        let low = 2 * u16::from(square);
        let told = format!(in *file.allocator(); "S {low} {low} {} {}", low + 1, low + 1)?;
        push_rect(file, layer, stroke_of(told.as_str()))?;
    }
    Ok(())
}

/// Adds a rectangle, and in it so many dashed unit squares to the right and upwards.
fn push_lattice(file: &mut String, layer: &str, wide: u8, high: u8) -> Result<(), AllocError> {
    let (width, height) = (2 * u16::from(wide) + 1, 2 * u16::from(high) + 1);
    let outline = format!(in *file.allocator(); "S 0 0 {width} {height}")?;
    push_rect(file, layer, stroke_of(outline.as_str()))?;
    for square in 0..u16::from(wide) * u16::from(high) {
        let (right, up) = (
            2 * (square % u16::from(wide)) + 1,
            2 * (square / u16::from(wide)) + 1,
        );
        let told = format!(in *file.allocator(); "D {right} {up} {} {}", right + 1, up + 1)?;
        push_rect(file, layer, stroke_of(told.as_str()))?;
    }
    Ok(())
}

/// The numbers of a lattice.
fn lattice_of(told: &str) -> (u8, u8) {
    let (wide, high) = told.split_once(' ').unwrap_or((told, ""));
    (wide.parse().unwrap_or(0), high.parse().unwrap_or(0))
}

/// Does a step.
fn take_step(file: &mut String, layer: &str, step: &str) -> Result<(), AllocError> {
    match step.split_once(' ') {
        None if step == "blanks" => file.push_str("                "),
        None => write!(file, "{step}\n"),
        Some(("line", rest)) => push_line(file, layer, stroke_of(rest)),
        Some(("rect", rest)) => push_rect(file, layer, stroke_of(rest)),
        Some(("diagonal", count)) => push_diagonal(file, layer, count.parse().unwrap_or(0)),
        Some(("lattice", told)) => {
            let (wide, high) = lattice_of(told);
            push_lattice(file, layer, wide, high)
        }
        Some((code, value)) => write!(file, "{code}\n{value}\n"),
    }
}

/// The step names the layer of the strokes behind it: one of a view, or of a section.
fn is_layer(step: &str) -> bool {
    match step {
        "FRONT" | "TOP" | "SIDE" | "LEFT" | "REAR" | "BOTTOM" => true,
        _ => step.starts_with("SECTION_") || step.starts_with("AREA_"),
    }
}

/// How often a step is done, and the step.
fn counted(step: &str) -> (usize, &str) {
    match step.split_once(" * ") {
        Some((count, step)) => (count.parse::<usize>().unwrap_or(0), step),
        None => (1, step),
    }
}

/// The file of these steps.
pub fn file_of(alloc: Global, steps: &str) -> Result<String, AllocError> {
    let steps = steps.replace(alloc, "cube", CUBE)?;
    let mut file = String::new(alloc);
    let mut layer = "FRONT";
    for step in steps.as_str().split(", ") {
        let (count, step) = counted(step);
        if is_layer(step) {
            layer = step;
            continue;
        }
        for _ in 0..count {
            take_step(&mut file, layer, step)?;
        }
    }
    Ok(file)
}

/// The file of a drawing with these strokes in front, from the top and from the side.
pub fn drawing_file(alloc: Global, [front, top, side]: [&str; 3]) -> Result<String, AllocError> {
    let steps = format!(in alloc;
        "0 SECTION, 2 ENTITIES, FRONT, {front}, TOP, {top}, SIDE, {side}, 0 ENDSEC, 0 EOF"
    )?;
    file_of(alloc, steps.as_str())
}

/// The bytes of a file that isn't too long.
pub fn file_bytes(file: String) -> Result<Vec<u8>, Fail>
    ensures { IfOk result (λ bytes. length bytes.items ≤ most_file_bytes) }
{
    if file.len() > MOST_BYTES {
        return Err(Fail::new("a file is too long"));
    }
    Ok(file.into_bytes())
}

/// The file of these steps, with its codes right in three places, and with these ends of lines.
pub fn padded_file(alloc: Global, steps: &str, end: &str) -> Result<String, AllocError> {
    let file = file_of(alloc, steps)?;
    let mut padded = String::new(alloc);
    for (place, line) in file.as_str().lines().enumerate() {
        let width = if place % 2 == 0 { 3 } else { 0 };
        write!(padded, "{line:>width$}{end}")?;
    }
    Ok(padded)
}
