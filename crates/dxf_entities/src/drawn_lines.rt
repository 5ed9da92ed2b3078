//! The lines through vertices.

ghost use Rattle.std.specs.Prelude.{◌≡◌, ◌≢◌, ◌++◌, true, OnOk};
ghost use Rattle.solid_model.specs.declared.segment.Style.TheVariants.{Blank};
ghost use Rattle.dxf_entities.specs.Steps.{ComesTo};
ghost use Rattle.dxf_entities.specs.DrawnLines.{added_along, are_straight_from, line_between, lines_from};

use crate::layer_line::LayerLine;
use crate::pen::Pen;
use crate::vertex::Vertex;
use solid_model::{Fault, Memory, Refused, SheetLine};

/// The most lines that are kept.
const MOST_LINES: usize = 100_000;

/// Whether each vertex differs in one coordinate at most from the one before it.
fn are_straight(first: Vertex, rest: &[Vertex]) -> bool
    ensures { result ≡ are_straight_from first rest.now }
{
    let mut from = first;
    for to in rest {
        if from.x != to.x && from.y != to.y {
            return false;
        }
        from = *to;
    }
    true
}

/// Adds the lines from each vertex to the next, of the entity that begins at this line.
fn push_lines(
    line: u32,
    pen: Pen,
    first: Vertex,
    rest: &[Vertex],
    lines: &mut Vec<LayerLine>,
) -> Result<(), Memory>
    requires drawn { pen.style ≢ Blank }
    requires straight { are_straight_from first rest.now ≡ true }
    ensures { OnOk result (lines.new.items ≡ lines.old.items
        ++ lines_from line pen first rest.now) }
{
    let mut from = first;
    for to in rest {
        lines.push(LayerLine {
            layer: pen.layer,
            line: SheetLine {
                view: pen.layer.view,
                style: pen.style,
                x0: from.x,
                y0: from.y,
                x1: to.x,
                y1: to.y,
                line,
            },
        })?;
        from = *to;
    }
    Ok(())
}

/// Adds the lines from each vertex to the next, of the entity that begins at this line. `Oblique`
/// comes where one of them differs in both coordinates, and else `TooManyLines` where more than
/// 100,000 would be kept; then none is added.
pub fn add_along(
    line: u32,
    pen: Pen,
    vertices: &[Vertex],
    lines: &mut Vec<LayerLine>,
) -> Result<(), Refused>
    requires drawn { pen.style ≢ Blank }
    ensures { ComesTo (added_along line pen lines.old.items vertices.now) lines.new.items result }
{
    let [first, rest @ ..] = vertices else {
        return Ok(());
    };
    if !are_straight(*first, rest) {
        return Err(Refused::Fault(Fault::Oblique { line }));
    }
    if rest.len() > MOST_LINES.saturating_sub(lines.len()) {
        return Err(Refused::Fault(Fault::TooManyLines { line }));
    }
    push_lines(line, pen, *first, rest, lines)?;
    Ok(())
}
