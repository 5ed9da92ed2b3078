//! The parts of corners' lines, which are made once for all corners that have them.

ghost use Rattle.std.specs.Prelude.{◌≡◌, map, IfOk};
ghost use Rattle.stl_out.specs.CornerParts.{corner_head, corner_end, heads_in_row, all_heads, all_ends};

use crate::text::push_number;
use solid_model::{Axis, Grid};
use std::alloc::{AllocError, Global};
use std::marker::Model;

/// A part of a corner's line, of at most 90 bytes.
#[derive(Drop)]
pub struct LinePart {
    bytes: Vec<u8>,
}

impl Model for LinePart {
    ghost use Rattle.std.specs.Prelude.{ℕ, List, ◌≤◌, length};

    ghost Value = { List ℕ };

    ghost view = { λ s. s.bytes.items };

    ghost invariant = { λ s. length s.bytes.items ≤ 90 };
}

impl LinePart {
    ghost use Rattle.std.specs.Prelude.{◌≡◌, ◌≤◌, length};

    /// Its bytes.
    fn bytes(&self) -> &[u8]
        ensures bytes { result.now ≡ self.now }
        ensures few { length result.now ≤ 90 }
    {
        &self.bytes
    }
}

/// The beginning and the end of the line of each point of a grid: the coordinates along x and y,
/// and that along z. Contracts see the grid.
#[derive(Drop)]
pub struct CornerParts<'a> {
    grid: &'a Grid,
    heads: Vec<Vec<LinePart>>,
    ends: Vec<LinePart>,
}

impl<'a> Model for CornerParts<'a> {
    ghost use Rattle.std.specs.Prelude.{map};
    ghost use Rattle.solid_model.specs.Panels.{GridParts, coordinates_of};
    ghost use Rattle.stl_out.specs.CornerParts.{ArePartsOf};

    ghost Value = { GridParts };

    ghost view = { λ s. s.grid.now };

    ghost invariant = { λ s. ArePartsOf (coordinates_of s.grid.now)
        (map (λ row. row.items) s.heads.items) s.ends.items };
}

/// The beginning of the line of a corner with these coordinates along x and y.
fn head(alloc: Global, x: i64, y: i64) -> Result<LinePart, AllocError>
    ensures { IfOk result (λ head. head ≡ corner_head x y) }
{
    let mut bytes = Vec::new(alloc);
    bytes.extend_from_slice(b"vertex")?;
    push_number(&mut bytes, x)?;
    push_number(&mut bytes, y)?;
    Ok(LinePart { bytes })
}

/// The end of the line of a corner with this coordinate along z.
fn end(alloc: Global, z: i64) -> Result<LinePart, AllocError>
    ensures { IfOk result (λ end. end ≡ corner_end z) }
{
    let mut bytes = Vec::new(alloc);
    push_number(&mut bytes, z)?;
    bytes.extend_from_slice(b"\n")?;
    Ok(LinePart { bytes })
}

/// The beginnings for all coordinates along x, and one along y.
fn row_of_heads(alloc: Global, xs: &[i64], y: i64) -> Result<Vec<LinePart>, AllocError>
    ensures { IfOk result (λ row. row.items ≡ heads_in_row xs.now y) }
{
    let mut row = Vec::with_capacity(alloc, xs.len())?;
    for x in xs {
        row.push(head(alloc, *x, y)?)?;
    }
    Ok(row)
}

/// Those for all coordinates along x and y, in a row for each along y.
fn heads(alloc: Global, xs: &[i64], ys: &[i64]) -> Result<Vec<Vec<LinePart>>, AllocError>
    ensures { IfOk result (λ rows. map (λ row. row.items) rows.items ≡ all_heads xs.now ys.now) }
{
    let mut rows = Vec::with_capacity(alloc, ys.len())?;
    for y in ys {
        rows.push(row_of_heads(alloc, xs, *y)?)?;
    }
    Ok(rows)
}

/// The ends for all coordinates along z.
fn ends(alloc: Global, zs: &[i64]) -> Result<Vec<LinePart>, AllocError>
    ensures { IfOk result (λ ends. ends.items ≡ all_ends zs.now) }
{
    let mut ends = Vec::with_capacity(alloc, zs.len())?;
    for z in zs {
        ends.push(end(alloc, *z)?)?;
    }
    Ok(ends)
}

impl<'a> CornerParts<'a> {
    ghost use Rattle.std.specs.Prelude.{◌≡◌, IfOk};
    ghost use Rattle.solid_model.specs.Panels.{coordinates_of};
    ghost use Rattle.stl_out.specs.Numbered.{AreShort};

    /// The parts for all points of a grid.
    pub fn of(alloc: Global, grid: &'a Grid) -> Result<CornerParts<'a>, AllocError>
        ensures grid { IfOk result (λ parts. parts ≡ grid.now) }
        ensures few { IfOk result (λ parts. AreShort (coordinates_of parts)) }
    {
        let heads = heads(alloc, grid.coordinates(Axis::X), grid.coordinates(Axis::Y))?;
        let ends = ends(alloc, grid.coordinates(Axis::Z))?;
        Ok(CornerParts { grid, heads, ends })
    }
}

impl CornerParts<'_> {
    ghost use Rattle.std.specs.Prelude.{◌≡◌, ◌≤◌, length};
    ghost use Rattle.face_laws.specs.GridFaces.{planes_at};
    ghost use Rattle.solid_model.specs.declared.cell.Axis.TheVariants.{X, Y, Z};
    ghost use Rattle.solid_model.specs.Panels.{coordinates_of};
    ghost use Rattle.stl_out.specs.CornerParts.{corner_head, corner_end};
    ghost use Rattle.stl_out.specs.Numbered.{IsGridNumber};

    /// The beginning of the line of a corner, by the numbers of its coordinates along x and y.
    pub fn head(&self, x: i64, y: i64) -> &[u8]
        requires x { IsGridNumber (coordinates_of self.now X) x }
        requires y { IsGridNumber (coordinates_of self.now Y) y }
        ensures text { result.now ≡ corner_head (planes_at (coordinates_of self.now X) x)
            (planes_at (coordinates_of self.now Y) y) }
        ensures few { length result.now ≤ 90 }
    {
        self.heads[y as usize][x as usize].bytes()
    }

    /// The end of it, by the number of its coordinate along z.
    pub fn end(&self, z: i64) -> &[u8]
        requires { IsGridNumber (coordinates_of self.now Z) z }
        ensures text { result.now ≡ corner_end (planes_at (coordinates_of self.now Z) z) }
        ensures few { length result.now ≤ 90 }
    {
        self.ends[z as usize].bytes()
    }
}
