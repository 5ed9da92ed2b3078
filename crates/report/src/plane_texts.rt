//! The lines of a solid's faces, which are kept by their planes for the next solid.
//!
//! One pass over the rows of both solids' cells tells in which planes boundary squares have come or
//! gone. Only these are made anew: the other planes keep their lines, and aren't looked at again.
//!
//! They keep the coordinates of their grid and the decimals with which they were printed, and are
//! forgotten where either is another: so no condition is laid on whose lines they are, and no
//! caller has to see to it.

ghost use Rattle.std.specs.Prelude.{◌≡◌, ◌≤◌, ◌<◌, ◌+◌, ◌++◌, ◌∷◌, [], ℕ, Bool, length, take, IsTrue, IfOk, OnOk};
ghost use Rattle.report.specs.PlaneTexts.{PlaneLines, AreLinesIn, AreLinesUnlessChanged, AreLinesBefore, AreFirstLines, line_count, all_lines};
ghost use Rattle.solid_model.specs.declared.cell.Cell.{Cell};
ghost use Rattle.solid_model.specs.Faces.{out_number};
ghost use Rattle.solid_model.specs.Grid.{Coordinates};
ghost use Rattle.solid_model.specs.GridBox.{grid_sizes};
ghost use Rattle.solid_model.specs.Limits.{most_decimals};
ghost use Rattle.lemmas.specs.Lists.{Each};
ghost use Rattle.solid_model.specs.Marks.{is_marked};
ghost use Rattle.solid_model.specs.Panels.{coordinates_of};
ghost use Rattle.solid_model.specs.PerAxis.{numbers_of};

use crate::plane_text::PlaneText;
use cell_rows::{CellRows, ChangedPlanes};
use solid_model::{Grid, Memory, Out, same_coordinates};
use std::alloc::Global;
use std::marker::Model;
use std::mem;

/// Puts lines in their place of a list, or at its end.
fn set_plane(planes: &mut Vec<PlaneText>, place: usize, plane: PlaneText) -> Result<(), Memory>
    requires { place ≤ length planes.old.items }
    ensures each { (decimals : ℕ) (coordinates : Coordinates) (full : Cell → Bool)
        (changed : ChangedPlanes)
        → Each (AreLinesUnlessChanged decimals coordinates full changed) planes.old.items
        → AreLinesUnlessChanged decimals coordinates full changed plane
        → Each (AreLinesUnlessChanged decimals coordinates full changed) planes.new.items }
    ensures put { IfOk result (λ done. (place < length planes.new.items)
        × (take (place + 1) planes.new.items ≡ take place planes.old.items ++ plane ∷ [])) }
{
    if place < planes.len() {
        planes[place] = plane;
    } else {
        planes.push(plane)?;
    }
    Ok(())
}

/// Puts the lines of the faces of marked cells in a plane in their place of a list, where those
/// stand that another solid had there: they stay if the plane hasn't changed. Their coordinates
/// have so many decimals.
fn put_plane(
    alloc: Global,
    grid: &Grid,
    decimals: u8,
    cells: &CellRows,
    changed: ChangedPlanes,
    out: Out,
    at: usize,
    planes: &mut Vec<PlaneText>,
    place: usize,
) -> Result<(), Memory>
    requires at { at < 64 }
    requires sizes { numbers_of cells.now.sizes ≡ grid_sizes grid.now }
    requires decimals { decimals ≤ most_decimals }
    requires place { place ≤ length planes.old.items }
    requires each { Each (AreLinesUnlessChanged decimals (coordinates_of grid.now)
        (is_marked cells.now) changed) planes.old.items }
    ensures each { Each (AreLinesUnlessChanged decimals (coordinates_of grid.now)
        (is_marked cells.now) changed) planes.new.items }
    ensures put { IfOk result (λ done. (place < length planes.new.items) × ((p : PlaneLines)
        × (take (place + 1) planes.new.items ≡ take place planes.old.items ++ p ∷ [])
        × AreLinesIn decimals (coordinates_of grid.now) (is_marked cells.now) out at p)) }
{
    if place < planes.len() && planes[place].is_in(out, at) && !changed.has(out, at) {
        return Ok(());
    }
    let plane = PlaneText::of(alloc, grid, decimals, cells, out, at)?;
    set_plane(planes, place, plane)
}

/// The same of all planes of an outward side, from a place on; tells the place behind them.
fn put_side(
    alloc: Global,
    grid: &Grid,
    decimals: u8,
    cells: &CellRows,
    changed: ChangedPlanes,
    out: Out,
    planes: &mut Vec<PlaneText>,
    first: usize,
) -> Result<usize, Memory>
    requires sizes { numbers_of cells.now.sizes ≡ grid_sizes grid.now }
    requires decimals { decimals ≤ most_decimals }
    requires each { Each (AreLinesUnlessChanged decimals (coordinates_of grid.now)
        (is_marked cells.now) changed) planes.old.items }
    requires before { AreFirstLines decimals (coordinates_of grid.now) (is_marked cells.now)
        (out_number out) 0 planes.old.items first }
    ensures each { Each (AreLinesUnlessChanged decimals (coordinates_of grid.now)
        (is_marked cells.now) changed) planes.new.items }
    ensures put { IfOk result (AreFirstLines decimals (coordinates_of grid.now)
        (is_marked cells.now) (out_number out + 1) 0 planes.new.items) }
{
    let count = cells.sizes().along(out.direction().axis) + 1;
    for at in 0..count {
        put_plane(
            alloc,
            grid,
            decimals,
            cells,
            changed,
            out,
            at,
            planes,
            first + at,
        )?;
    }
    Ok(first + count)
}

/// Makes a list that of the lines of all faces of the marked cells of a grid, by their planes.
fn put_all(
    alloc: Global,
    grid: &Grid,
    decimals: u8,
    cells: &CellRows,
    changed: ChangedPlanes,
    planes: &mut Vec<PlaneText>,
) -> Result<(), Memory>
    requires sizes { numbers_of cells.now.sizes ≡ grid_sizes grid.now }
    requires decimals { decimals ≤ most_decimals }
    requires each { Each (AreLinesUnlessChanged decimals (coordinates_of grid.now)
        (is_marked cells.now) changed) planes.old.items }
    ensures { IfOk result (λ done. AreLinesBefore decimals (coordinates_of grid.now)
        (is_marked cells.now) 6 0 planes.new.items) }
{
    let mut place = 0;
    for out in Out::ALL {
        place = put_side(alloc, grid, decimals, cells, changed, out, planes, place)?;
    }
    planes.truncate(place);
    Ok(())
}

/// How many lines there are.
fn line_count(planes: &[PlaneText]) -> u128
    ensures { result ≡ line_count planes.now }
{
    let mut count: u128 = 0;
    for plane in planes {
        count += plane.count() as u128;
    }
    count
}

/// Puts all lines at the end of a text.
fn push_lines(text: &mut Vec<u8>, planes: &[PlaneText]) -> Result<(), Memory>
    ensures { OnOk result (text.new.items ≡ text.old.items ++ all_lines planes.now) }
{
    for plane in planes {
        text.extend_from_slice(plane.text())?;
    }
    Ok(())
}

/// The lines of the faces of a solid of a grid, kept by their planes, with the rows of its cells:
/// planes beside which nothing changes keep their lines for the next solid.
#[derive(Debug, Drop)]
pub struct PlaneTexts {
    decimals: u8,
    xs: Vec<i64>,
    ys: Vec<i64>,
    zs: Vec<i64>,
    rows: CellRows,
    planes: Vec<PlaneText>,
}

impl Model for PlaneTexts {
    ghost use Rattle.report.specs.PlaneTexts.{GridLines, AreLinesOfRows};

    ghost Value = { GridLines };

    ghost view = { λ s. record {
      decimals = s.decimals;
      xs = s.xs.items;
      ys = s.ys.items;
      zs = s.zs.items;
      rows = s.rows;
      planes = s.planes.items;
    } };

    ghost invariant = { λ s. AreLinesOfRows record {
      decimals = s.decimals;
      xs = s.xs.items;
      ys = s.ys.items;
      zs = s.zs.items;
      rows = s.rows;
      planes = s.planes.items;
    } };
}

impl PlaneTexts {
    ghost use Rattle.std.specs.Prelude.{◌≡◌, ◌≤◌, ◌++◌, IsTrue, IfOk, OnOk};
    ghost use Rattle.report.specs.PlaneTexts.{AreAllLines, line_count, all_lines, listed};
    ghost use Rattle.solid_model.specs.GridBox.{grid_sizes};
    ghost use Rattle.solid_model.specs.Limits.{most_decimals};
    ghost use Rattle.solid_model.specs.Panels.{coordinates_of};
    ghost use Rattle.solid_model.specs.PerAxis.{numbers_of};

    /// No lines yet, of a solid of a grid, whose coordinates have so many decimals. An `Err` is out
    /// of memory.
    pub fn of(alloc: Global, grid: &Grid, decimals: u8) -> Result<PlaneTexts, Memory>
        ensures { IfOk result (λ texts. (listed texts ≡ coordinates_of grid.now)
            × (texts.decimals ≡ decimals)) }
    {
        let xs = Vec::from_slice(alloc, grid.xs())?;
        let ys = Vec::from_slice(alloc, grid.ys())?;
        let zs = Vec::from_slice(alloc, grid.zs())?;
        let rows = CellRows::unmarked(alloc, grid.sizes())?;
        Ok(PlaneTexts {
            decimals,
            xs,
            ys,
            zs,
            rows,
            planes: Vec::new(alloc),
        })
    }

    /// The grid has these coordinates.
    fn is_on(&self, grid: &Grid) -> bool
        ensures { IsTrue result → listed self.now ≡ coordinates_of grid.now }
    {
        same_coordinates(&self.xs, grid.xs())
            && same_coordinates(&self.ys, grid.ys())
            && same_coordinates(&self.zs, grid.zs())
    }

    /// Forgets the lines if they are those of another grid, or their coordinates have more or fewer
    /// decimals.
    fn put_on(&mut self, alloc: Global, grid: &Grid, decimals: u8) -> Result<(), Memory>
        ensures { IfOk result (λ done. (listed self.new ≡ coordinates_of grid.now)
            × (self.new.decimals ≡ decimals)) }
    {
        if self.decimals != decimals || !self.is_on(grid) {
            *self = PlaneTexts::of(alloc, grid, decimals)?;
        }
        Ok(())
    }

    /// Makes the lines of the faces of the union of marked cells of a grid, in the place of others.
    /// Their coordinates have so many decimals, at most 6. An `Err` is out of memory.
    pub fn update(
        &mut self,
        alloc: Global,
        grid: &Grid,
        decimals: u8,
        cells: &CellRows,
    ) -> Result<(), Memory>
        requires sizes { numbers_of cells.now.sizes ≡ grid_sizes grid.now }
        requires decimals { decimals ≤ most_decimals }
        ensures { IfOk result (λ done. AreAllLines decimals (coordinates_of grid.now)
            cells.now.values self.new.planes) }
    {
        grid.known();
        self.put_on(alloc, grid, decimals)?;
        // Where memory ends in the middle, no lines are kept.
        let mut planes = mem::replace(&mut self.planes, Vec::new(alloc));
        let changed = self.rows.follow(cells);
        put_all(alloc, grid, decimals, cells, changed, &mut planes)?;
        self.planes = planes;
        Ok(())
    }

    /// How many lines there are.
    pub fn count(&self) -> u128
        ensures { result ≡ line_count self.now.planes }
    {
        line_count(self.planes.as_slice())
    }

    /// Puts all lines at the end of a text.
    pub fn push(&self, text: &mut Vec<u8>) -> Result<(), Memory>
        ensures { OnOk result (text.new.items ≡ text.old.items ++ all_lines self.now.planes) }
    {
        push_lines(text, self.planes.as_slice())
    }
}
