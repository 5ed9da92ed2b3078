//! What counts of an entity, and how it is judged.

ghost use Rattle.std.specs.Prelude.{◌≡◌};
ghost use Rattle.dxf_groups.specs.Pairs.{text_pair};
ghost use Rattle.dxf_entities.specs.Judging.{is_one};
ghost use Rattle.dxf_entities.specs.Resuming.{or_first};

use crate::codes::has_code;
use crate::form::ReadingForm;
use crate::kind::{Kind, kind_of};
use crate::layer::Layer;
use crate::layer_line::LayerLine;
use crate::layers::Layers;
use crate::linetype::{Linetype, first_linetype};
use crate::named::Named;
use crate::names::take_layer;
use crate::pen::Pen;
use crate::shape::{Shape, take_more};
use dxf_groups::Pair;
use solid_model::{Fault, Memory, Refused, Style};
use std::alloc::Global;

/// What counts of an entity.
#[derive(Drop)]
pub struct Facts {
    /// The number of the line at which it begins.
    pub line: u32,
    pub kind: Kind,
    /// What the name of its layer tells, where there is one.
    pub layer: Option<Named>,
    /// Whether it stands in paper space, where that is told.
    pub paper: Option<bool>,
    pub linetype: Option<Linetype>,
    /// What it draws, or the first fault in that.
    pub shape: Result<Shape, Fault>,
}

/// Whether an entity stands in paper space, where that is known, or one more pair with this value
/// tells it.
fn first_paper(known: Option<bool>, pair: &Pair, value: &[u8]) -> Option<bool>
    ensures { result ≡ or_first 67 is_one (text_pair pair.now value.now) known }
{
    if known.is_none() && has_code(pair, 67) {
        Some(value == b"1".as_slice())
    } else {
        known
    }
}

impl Facts {
    ghost use Rattle.std.specs.Prelude.{◌≡◌, ◌≢◌, Some, IfOk, IfSome, OnOk};
    ghost use Rattle.solid_model.specs.declared.segment.Style.TheVariants.{Blank};
    ghost use Rattle.dxf_entities.specs.Judging.{drawn_by, lines_by, pen_in};
    ghost use Rattle.dxf_entities.specs.Resuming.{begun_facts, layer_linetype, with_fact};
    ghost use Rattle.dxf_entities.specs.Steps.{ComesTo};
    ghost use Rattle.dxf_groups.specs.Pairs.{text_pair};

    /// Those of an entity that begins with this pair, which has this value.
    pub fn begun(alloc: Global, pair: &Pair, value: &[u8]) -> Facts
        ensures { result ≡ begun_facts (text_pair pair.now value.now) }
    {
        let kind = kind_of(value);
        Facts {
            line: pair.line,
            kind,
            layer: None,
            paper: None,
            linetype: None,
            shape: Ok(Shape::begun(alloc, kind)),
        }
    }

    /// Takes one more pair, which has this value and belongs to no application. It is a call of its
    /// own, so that its values aren't made for the pairs that are passed over.
    #[inline(never)]
    pub fn take(&mut self, pair: &Pair, value: &[u8], form: ReadingForm) -> Result<(), Memory>
        ensures { OnOk result (self.new ≡ with_fact form (text_pair pair.now value.now) self.old) }
    {
        take_layer(&mut self.layer, 8, form, pair, value);
        self.paper = first_paper(self.paper, pair, value);
        self.linetype = first_linetype(self.linetype, pair, value);
        take_more(&mut self.shape, self.line, pair, value, form.decimals())
    }

    /// How the lines of an entity on this layer are drawn, where that has this linetype; None for
    /// centre lines, and for hidden ones of a section or an area.
    fn pen_in(&self, layer: Layer, own: Option<Linetype>) -> Result<Option<Pen>, Fault>
        ensures pen { result ≡ pen_in own layer self.now }
        ensures drawn { IfOk result (λ pen. IfSome pen (λ p. p.style ≢ Blank)) }
    {
        let linetype = self.linetype.unwrap_or(Linetype::ByLayer).or_of_layer(own);
        let style = match linetype {
            // A layer's own BYLAYER counts as CONTINUOUS.
            Linetype::Continuous | Linetype::ByLayer => Style::Solid,
            // A section or an area shows no hidden edge.
            Linetype::Hidden if layer.cut.is_none() => Style::Dashed,
            Linetype::Hidden | Linetype::Center => return Ok(None),
            Linetype::Unlisted => return Err(Fault::Linetype { line: self.line }),
        };
        Ok(Some(Pen { layer, style }))
    }

    /// How the entity is drawn, where the layers have these linetypes; None where it is passed
    /// over.
    #[tactic(auto, unfolding(crate::specs::Judging::drawn_by))]
    pub fn pen(&self, layers: &Layers) -> Result<Option<Pen>, Fault>
        ensures pen { result ≡ drawn_by (layer_linetype layers.now) self.now }
        ensures drawn { IfOk result (λ pen. IfSome pen (λ p. p.style ≢ Blank)) }
    {
        let name = self.layer.unwrap_or(Named::Unread);
        if self.paper == Some(true) || self.kind == Kind::Other {
            return Ok(None);
        }
        match name {
            Named::Unread => Ok(None),
            Named::Shows(layer) if self.kind == Kind::Geometry => Err(Fault::Geometry {
                line: self.line,
            }),
            Named::Shows(layer) => self.pen_in(layer, layers.of(layer)),
            Named::Misnamed => Err(Fault::SectionName { line: self.line }),
        }
    }

    /// Adds the lines that the entity gives which is drawn so. The first fault in its values comes
    /// first, then `Missing`, `Oblique` and `TooManyLines`.
    pub fn add_lines(&mut self, pen: Pen, lines: &mut Vec<LayerLine>) -> Result<(), Refused>
        requires { pen.style ≢ Blank }
        ensures { ComesTo (lines_by self.old lines.old.items (Some pen)) lines.new.items result }
    {
        let line = self.line;
        match &mut self.shape {
            Ok(shape) => shape.add_lines(line, pen, lines),
            Err(fault) => Err(Refused::Fault(*fault)),
        }
    }
}
