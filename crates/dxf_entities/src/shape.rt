//! What an entity draws.

ghost use Rattle.std.specs.Prelude.{◌≡◌, ◌≤◌, OnOk};
ghost use Rattle.solid_model.specs.Limits.{most_decimals};
ghost use Rattle.dxf_entities.specs.Shapes.{more_shape};
ghost use Rattle.dxf_groups.specs.Pairs.{text_pair};

use crate::coordinates::Coordinates;
use crate::drawn_lines::add_along;
use crate::kind::Kind;
use crate::layer_line::LayerLine;
use crate::outline::Outline;
use crate::pen::Pen;
use dxf_groups::Pair;
use solid_model::{Fault, Memory, Refused};
use std::alloc::Global;

/// What an entity draws, as far as its pairs tell it.
#[derive(Drop)]
pub enum Shape {
    Line(Coordinates),
    Polyline(Outline),
    /// Nothing that is kept.
    Nothing,
}

impl Shape {
    ghost use Rattle.std.specs.Prelude.{◌≡◌, ◌≢◌, ◌≤◌};
    ghost use Rattle.solid_model.specs.declared.segment.Style.TheVariants.{Blank};
    ghost use Rattle.solid_model.specs.Limits.{most_decimals};
    ghost use Rattle.dxf_entities.specs.Shapes.{begun_shape, points_of, with_shape};
    ghost use Rattle.dxf_entities.specs.Steps.{ComesTo};
    ghost use Rattle.dxf_entities.specs.DrawnLines.{added_through};
    ghost use Rattle.dxf_groups.specs.Pairs.{text_pair};

    /// That of an entity of this kind of which no pair is read.
    pub fn begun(alloc: Global, kind: Kind) -> Shape
        ensures { result ≡ begun_shape kind }
    {
        match kind {
            Kind::Line => Shape::Line(Coordinates::NONE),
            Kind::Polyline => Shape::Polyline(Outline::new(alloc)),
            Kind::Geometry | Kind::Other => Shape::Nothing,
        }
    }

    /// Takes one more pair, which has this value, of the entity that begins at this line.
    fn take(&mut self, line: u32, pair: &Pair, value: &[u8], decimals: u8) -> Result<(), Refused>
        requires { decimals ≤ most_decimals }
        ensures { ComesTo (with_shape decimals line (text_pair pair.now value.now) self.old)
            self.new
            result }
    {
        match self {
            Shape::Line(known) => match known.with(pair, value, decimals) {
                Ok(more) => {
                    *known = more;
                    Ok(())
                }
                Err(fault) => Err(Refused::Fault(fault)),
            },
            Shape::Polyline(outline) => outline.take(line, pair, value, decimals),
            Shape::Nothing => Ok(()),
        }
    }

    /// Adds the lines that are drawn so of the entity that begins at this line, after its last
    /// pair.
    pub fn add_lines(
        &mut self,
        line: u32,
        pen: Pen,
        lines: &mut Vec<LayerLine>,
    ) -> Result<(), Refused>
        requires { pen.style ≢ Blank }
        ensures { ComesTo (added_through line pen lines.old.items (points_of line self.old))
            lines.new.items result }
    {
        match self {
            Shape::Line(known) => match known.ends(line) {
                Ok(ends) => add_along(line, pen, &[ends.from, ends.to], lines),
                Err(fault) => Err(Refused::Fault(fault)),
            },
            Shape::Polyline(outline) => outline.add_lines(line, pen, lines),
            Shape::Nothing => add_along(line, pen, &[], lines),
        }
    }
}

/// Takes one more pair, which has this value, of the entity that begins at this line; a fault
/// stays.
pub fn take_more(
    shape: &mut Result<Shape, Fault>,
    line: u32,
    pair: &Pair,
    value: &[u8],
    decimals: u8,
) -> Result<(), Memory>
    requires { decimals ≤ most_decimals }
    ensures { OnOk result (shape.new
        ≡ more_shape decimals line (text_pair pair.now value.now) shape.old) }
{
    let Ok(known) = shape else {
        return Ok(());
    };
    match known.take(line, pair, value, decimals) {
        Ok(()) => Ok(()),
        Err(Refused::Fault(fault)) => {
            *shape = Err(fault);
            Ok(())
        }
        Err(Refused::Memory) => Err(Memory),
    }
}
