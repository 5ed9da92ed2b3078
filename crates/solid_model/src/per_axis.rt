//! Numbers along the three axes.

ghost use Rattle.std.specs.Prelude.{◌≡◌, ◌<◌, ◌≤◌, ◌+◌, None, IsTrue, IfSome};
ghost use Rattle.solid_model.specs.Cells.{cell_before, cell_after};
ghost use Rattle.solid_model.specs.PerAxis.{numbers_of, cell_of, numbered, gaps_of, AreFew};
ghost use Rattle.solid_model.specs.WalledBoxes.{face_sizes, is_within, box_count, box_place};
ghost use Rattle.solid_model.specs.Kept.{edge_sizes};

use crate::cell::Axis;

/// A number for each axis: how many there are of something, or which cell of a grid or box it is.
#[derive(Clone, Copy, Debug, PartialEq, Eq)]
pub struct PerAxis {
    pub x: usize,
    pub y: usize,
    pub z: usize,
}

impl PerAxis {
    /// The first cell.
    pub const FIRST: PerAxis = PerAxis { x: 0, y: 0, z: 0 };

    /// The number along an axis.
    pub fn along(self, axis: Axis) -> usize
        ensures { result ≡ numbers_of self axis }
    {
        match axis {
            Axis::X => self.x,
            Axis::Y => self.y,
            Axis::Z => self.z,
        }
    }

    /// The same with another number along an axis.
    pub fn numbered(self, axis: Axis, number: usize) -> PerAxis
        ensures { numbers_of result ≡ numbered axis number (numbers_of self) }
    {
        match axis {
            Axis::X => PerAxis { x: number, ..self },
            Axis::Y => PerAxis { y: number, ..self },
            Axis::Z => PerAxis { z: number, ..self },
        }
    }

    /// The next cell along an axis.
    pub fn after(self, axis: Axis) -> PerAxis
        requires { numbers_of self axis ≤ 1024 }
        ensures { cell_of result ≡ cell_after axis (cell_of self) }
    {
        self.numbered(axis, self.along(axis) + 1)
    }

    /// The cell before it along an axis, where its number is 0 or more.
    pub fn before(self, axis: Axis) -> Option<PerAxis>
        ensures some { IfSome result (λ n. cell_of n ≡ cell_before axis (cell_of self)) }
        ensures none { result ≡ None → numbers_of self axis ≡ 0 }
    {
        let number = self.along(axis).checked_sub(1)?;
        Some(self.numbered(axis, number))
    }

    /// How many gaps there are along each axis between so many coordinates.
    pub fn gaps(self) -> PerAxis
        ensures { numbers_of result ≡ gaps_of (numbers_of self) }
    {
        PerAxis {
            x: self.x.saturating_sub(1),
            y: self.y.saturating_sub(1),
            z: self.z.saturating_sub(1),
        }
    }

    /// How many edges along an axis the cells of a box of these sizes have: as many as cells in its
    /// rows, and one more across them.
    pub fn edges(self, axis: Axis) -> PerAxis
        requires { AreFew (numbers_of self) }
        ensures { numbers_of result ≡ edge_sizes (numbers_of self) axis }
    {
        let points = PerAxis {
            x: self.x + 1,
            y: self.y + 1,
            z: self.z + 1,
        };
        points.numbered(axis, self.along(axis))
    }

    /// How many faces across an axis they have: one more than cells in its rows.
    pub fn faces(self, axis: Axis) -> PerAxis
        requires { AreFew (numbers_of self) }
        ensures { numbers_of result ≡ face_sizes (numbers_of self) axis }
    {
        self.numbered(axis, self.along(axis) + 1)
    }

    /// A box of these sizes has the cell.
    pub fn has(self, cell: PerAxis) -> bool
        ensures { result ≡ is_within (numbers_of self) (cell_of cell) }
    {
        cell.x < self.x && cell.y < self.y && cell.z < self.z
    }

    /// How many cells a box of these sizes has.
    pub fn count(self) -> usize
        requires { AreFew (numbers_of self) }
        ensures { result ≡ box_count (numbers_of self) }
    {
        self.z * self.y * self.x
    }

    /// The place of a cell in a list of all cells of a box of these sizes, z slowest and x fastest.
    pub fn place(self, cell: PerAxis) -> usize
        requires few { AreFew (numbers_of self) }
        requires within { IsTrue (is_within (numbers_of self) (cell_of cell)) }
        ensures place { result ≡ box_place (numbers_of self) (cell_of cell) }
        ensures there { result < box_count (numbers_of self) }
    {
        (cell.z * self.y + cell.y) * self.x + cell.x
    }

    /// The cell at a place of that list.
    pub fn cell(self, place: usize) -> PerAxis
        requires { place < box_count (numbers_of self) }
        ensures place { place ≡ box_place (numbers_of self) (cell_of result) }
        ensures within { IsTrue (is_within (numbers_of self) (cell_of result)) }
    {
        PerAxis {
            x: place % self.x,
            y: place / self.x % self.y,
            z: place / self.x / self.y,
        }
    }

    /// The same, found from the cell at the place before, if there is one: mostly without a
    /// division.
    pub fn next_cell(self, before: PerAxis, place: usize) -> PerAxis
        requires place { place < box_count (numbers_of self) }
        requires before { 0 < place → IsTrue (is_within (numbers_of self) (cell_of before))
            × (place ≡ box_place (numbers_of self) (cell_of before) + 1) }
        ensures place { place ≡ box_place (numbers_of self) (cell_of result) }
        ensures within { IsTrue (is_within (numbers_of self) (cell_of result)) }
    {
        if place > 0 && before.x + 1 < self.x {
            PerAxis {
                x: before.x + 1,
                ..before
            }
        } else {
            self.cell(place)
        }
    }
}
