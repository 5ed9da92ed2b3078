//! The vertices of a polyline's entity.

ghost use Rattle.std.specs.Prelude.{◌≡◌, ◌≤◌, IfOk, IfSome};
ghost use Rattle.solid_model.specs.Limits.{most_decimals};
ghost use Rattle.solid_model.specs.Line.{IsNear};
ghost use Rattle.dxf_entities.specs.Outlines.{ended_vertex, first_flags, first_x, flat};
ghost use Rattle.dxf_groups.specs.Numerals.{whole_of};
ghost use Rattle.dxf_groups.specs.Pairs.{text_pair};

use crate::drawn_lines::add_along;
use crate::layer_line::LayerLine;
use crate::pen::Pen;
use crate::values::value_at;
use crate::vertex::Vertex;
use dxf_groups::{NumeralFault, Pair, whole};
use solid_model::{Fault, Memory, Refused};
use std::alloc::Global;
use std::marker::Model;

/// What is known of a polyline: its vertices so far, the x coordinate of one more that lacks the
/// other, and whether it is closed, where that is told.
#[derive(Drop)]
pub struct Outline {
    vertices: Vec<Vertex>,
    begun: Option<i64>,
    closed: Option<bool>,
}

impl Model for Outline {
    ghost use Rattle.std.specs.Prelude.{IfSome};
    ghost use Rattle.solid_model.specs.Line.{IsNear};
    ghost use Rattle.dxf_entities.specs.Known.{KnownOutline};

    ghost Value = { KnownOutline };

    ghost view = { λ o. record {
      vertices = o.vertices.items;
      begun = o.begun;
      closed = o.closed;
    } };

    ghost invariant = { λ o. IfSome o.begun IsNear };
}

/// The x coordinate of a vertex that a pair with this value begins, in the entity that begins at
/// this line, where the vertex before it doesn't lack its y coordinate.
fn first_x(
    line: u32,
    pair: &Pair,
    value: &[u8],
    decimals: u8,
    begun: Option<i64>,
) -> Result<i64, Fault>
    requires { decimals ≤ most_decimals }
    ensures read { result ≡ first_x decimals line (text_pair pair.now value.now) begun }
    ensures near { IfOk result IsNear }
{
    if begun.is_some() {
        return Err(Fault::Missing { line, code: 20 });
    }
    value_at(pair, value, decimals)
}

/// The vertex that a pair with this value ends: the one that lacks its y coordinate. There is none
/// where no vertex has begun, or where the last one of these has its y coordinate already.
fn ended_vertex(
    line: u32,
    pair: &Pair,
    value: &[u8],
    decimals: u8,
    begun: Option<i64>,
    vertices: &[Vertex],
) -> Result<Vertex, Fault>
    requires decimals { decimals ≤ most_decimals }
    requires near { IfSome begun IsNear }
    ensures { result
        ≡ ended_vertex decimals line (text_pair pair.now value.now) begun vertices.now }
{
    match begun {
        Some(x) => {
            let y = value_at(pair, value, decimals)?;
            Ok(Vertex { x, y })
        }
        None if vertices.is_empty() => Err(Fault::Missing { line, code: 10 }),
        None => Err(Fault::Repeated {
            line: pair.line,
            code: pair.code,
        }),
    }
}

/// Refuses a bulge, the value of this pair, that isn't 0: it bends a side of the entity that begins
/// at this line.
fn flat(line: u32, pair: &Pair, value: &[u8]) -> Result<(), Fault>
    ensures { result ≡ flat line (text_pair pair.now value.now) (whole_of value.now) }
{
    match whole(value) {
        Ok(bulge) if bulge == 0 => Ok(()),
        Err(NumeralFault::BadNumber) => Err(Fault::BadNumber {
            line: pair.line + 1,
            code: pair.code,
        }),
        _ => Err(Fault::Curved { line }),
    }
}

/// Whether a polyline is closed, where that is known, or the flags of one more pair with this value
/// tell it: they are odd.
fn first_flags(pair: &Pair, value: &[u8], closed: Option<bool>) -> Result<bool, Fault>
    ensures { result ≡ first_flags (text_pair pair.now value.now) closed }
{
    if let Some(closed) = closed {
        return Ok(closed);
    }
    let flags = value_at(pair, value, 0)?;
    Ok(flags.unsigned_abs() % 2 == 1)
}

impl Outline {
    ghost use Rattle.std.specs.Prelude.{◌≡◌, ◌≢◌, ◌≤◌, OnOk};
    ghost use Rattle.solid_model.specs.declared.segment.Style.TheVariants.{Blank};
    ghost use Rattle.solid_model.specs.Limits.{most_decimals};
    ghost use Rattle.dxf_entities.specs.Known.{no_vertex};
    ghost use Rattle.dxf_entities.specs.Outlines.{route_of, whole_route, with_vertex, with_x, with_y};
    ghost use Rattle.dxf_entities.specs.Steps.{ComesTo};
    ghost use Rattle.dxf_entities.specs.DrawnLines.{added_through};
    ghost use Rattle.dxf_groups.specs.Pairs.{text_pair};

    /// Nothing is known.
    pub fn new(alloc: Global) -> Outline
        ensures { result ≡ no_vertex }
    {
        Outline {
            vertices: Vec::new(alloc),
            begun: None,
            closed: None,
        }
    }

    /// Takes a pair with code 10, which begins a vertex.
    fn begin(&mut self, line: u32, pair: &Pair, value: &[u8], decimals: u8) -> Result<(), Refused>
        requires { decimals ≤ most_decimals }
        ensures { ComesTo (with_x decimals line (text_pair pair.now value.now) self.old) self.new
            result }
    {
        match first_x(line, pair, value, decimals, self.begun) {
            Ok(x) => {
                self.begun = Some(x);
                Ok(())
            }
            Err(fault) => Err(Refused::Fault(fault)),
        }
    }

    /// Takes a pair with code 20, which ends a vertex.
    fn end(&mut self, line: u32, pair: &Pair, value: &[u8], decimals: u8) -> Result<(), Refused>
        requires { decimals ≤ most_decimals }
        ensures { ComesTo (with_y decimals line (text_pair pair.now value.now) self.old) self.new
            result }
    {
        let vertices = self.vertices.as_slice();
        match ended_vertex(line, pair, value, decimals, self.begun, vertices) {
            Ok(vertex) => {
                self.begun = None;
                self.vertices.push(vertex)?;
                Ok(())
            }
            Err(fault) => Err(Refused::Fault(fault)),
        }
    }

    /// Takes one more pair with this value: those with the codes 10 and 20 give vertices, those
    /// with 42 the bulges of the sides, and the first with 70 the flags.
    pub fn take(
        &mut self,
        line: u32,
        pair: &Pair,
        value: &[u8],
        decimals: u8,
    ) -> Result<(), Refused>
        requires { decimals ≤ most_decimals }
        ensures { ComesTo (with_vertex decimals line (text_pair pair.now value.now) self.old)
            self.new
            result }
    {
        match pair.code {
            10 => self.begin(line, pair, value, decimals),
            20 => self.end(line, pair, value, decimals),
            42 => match flat(line, pair, value) {
                Ok(()) => Ok(()),
                Err(fault) => Err(Refused::Fault(fault)),
            },
            70 => match first_flags(pair, value, self.closed) {
                Ok(closed) => {
                    self.closed = Some(closed);
                    Ok(())
                }
                Err(fault) => Err(Refused::Fault(fault)),
            },
            _ => Ok(()),
        }
    }

    /// Closes the polyline, where it is told to be closed and has two vertices or more: its first
    /// one comes again at the end.
    fn come_back(&mut self) -> Result<(), Memory>
        ensures { OnOk result (self.new ≡ record self.old { vertices = route_of self.old }) }
    {
        if self.closed == Some(true) && self.vertices.len() >= 2 {
            let first = self.vertices[0];
            self.vertices.push(first)?;
        }
        Ok(())
    }

    /// Adds the lines of the polyline, whose entity begins at this line, after its last pair.
    /// `Missing` comes where the last vertex lacks its y coordinate; else it ends as `add_along`
    /// does.
    pub fn add_lines(
        &mut self,
        line: u32,
        pen: Pen,
        lines: &mut Vec<LayerLine>,
    ) -> Result<(), Refused>
        requires { pen.style ≢ Blank }
        ensures { ComesTo (added_through line pen lines.old.items
            (whole_route line self.old.begun (route_of self.old))) lines.new.items result }
    {
        if self.begun.is_some() {
            return Err(Refused::Fault(Fault::Missing { line, code: 20 }));
        }
        self.come_back()?;
        add_along(line, pen, self.vertices.as_slice(), lines)
    }
}
