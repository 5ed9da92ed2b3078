//! The lines of the faces in one plane.

use crate::solid::push_faces;
use cell_rows::CellRows;
use faces::{faces_of_squares, plane_squares};
use solid_model::{Grid, Memory, Out};
use std::alloc::Global;
use std::marker::Model;

/// The lines of the faces in a plane, and how many they are.
#[derive(Debug, Drop)]
pub struct PlaneText {
    out: Out,
    at: usize,
    count: usize,
    text: Vec<u8>,
}

impl Model for PlaneText {
    ghost use Rattle.report.specs.PlaneTexts.{PlaneLines};

    ghost Value = { PlaneLines };

    ghost view = { λ s. record {
      out = s.out;
      at = s.at;
      count = s.count;
      text = s.text.items;
    } };
}

impl PlaneText {
    ghost use Rattle.std.specs.Prelude.{◌≡◌, ◌≤◌, ◌^◌, ◌<◌, IsTrue, IfOk};
    ghost use Rattle.report.specs.PlaneTexts.{AreLinesIn};
    ghost use Rattle.solid_model.specs.GridBox.{grid_sizes};
    ghost use Rattle.solid_model.specs.Limits.{most_decimals};
    ghost use Rattle.solid_model.specs.Marks.{is_marked};
    ghost use Rattle.solid_model.specs.PerAxis.{numbers_of};
    ghost use Rattle.solid_model.specs.Panels.{coordinates_of};

    /// The lines of the faces of the marked cells of a grid in a plane. Their coordinates have so
    /// many decimals. An `Err` is out of memory.
    pub fn of(
        alloc: Global,
        grid: &Grid,
        decimals: u8,
        cells: &CellRows,
        out: Out,
        at: usize,
    ) -> Result<PlaneText, Memory>
        requires at { at ≤ 1024 }
        requires sizes { numbers_of cells.now.sizes ≡ grid_sizes grid.now }
        requires decimals { decimals ≤ most_decimals }
        ensures { IfOk result (AreLinesIn decimals (coordinates_of grid.now)
            (is_marked cells.now) out at) }
    {
        let squares = plane_squares(alloc, cells, out, at)?;
        let faces = faces_of_squares(alloc, grid, &squares, out, at)?;
        let mut text = Vec::new(alloc);
        push_faces(&mut text, faces.as_slice(), decimals)?;
        Ok(PlaneText {
            out,
            at,
            count: faces.len(),
            text,
        })
    }

    /// They are those of this plane.
    pub fn is_in(&self, out: Out, at: usize) -> bool
        ensures { IsTrue result → (self.now.out ≡ out) × (self.now.at ≡ at) }
    {
        self.out == out && self.at == at
    }

    /// How many lines there are.
    pub fn count(&self) -> usize
        ensures same { result ≡ self.now.count }
        ensures few { result < 2 ^ 64 }
    {
        self.count
    }

    /// The lines.
    pub fn text(&self) -> &[u8]
        ensures { result.now ≡ self.now.text }
    {
        self.text.as_slice()
    }
}
