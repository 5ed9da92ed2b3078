//! Marks on the cells of a box.
//!
//! They keep the sizes of their box, so that those for each axis, which are a grid's pseudo wire
//! frame or its virtual faces, need no grid. `has` takes the axis and a cell's three numbers as one
//! value and asks for nothing: beyond the box there is no mark.

use crate::cell::Axis;
use crate::memory::Memory;
use crate::per_axis::PerAxis;
use std::alloc::Global;
use std::marker::Model;

/// A truth value for each cell of a box, z slowest and x fastest.
#[derive(Debug, Drop)]
pub struct Marks {
    sizes: PerAxis,
    values: Vec<bool>,
}

impl Model for Marks {
    ghost use Rattle.solid_model.specs.Marks.{BoxMarks, IsFull};

    ghost Value = { BoxMarks };

    ghost view = { λ s. record { sizes = s.sizes; values = s.values.items } };

    ghost invariant = { λ s. IsFull record { sizes = s.sizes; values = s.values.items } };
}

/// A question about each cell of a box.
pub trait CellTest {
    ghost use Rattle.std.specs.Prelude.{◌≡◌, Bool, IsTrue};
    ghost use Rattle.solid_model.specs.declared.cell.Cell.{Cell};
    ghost use Rattle.solid_model.specs.PerAxis.{numbers_of, cell_of, AreFew};
    ghost use Rattle.solid_model.specs.WalledBoxes.{Sizes, is_within};

    /// The sizes of the box.
    ghost sizes: { Self → Sizes };
    /// What is true of a cell.
    ghost holds: { Self → Cell → Bool };

    /// The sizes of the box.
    fn sizes(&self) -> PerAxis
        ensures sizes { numbers_of result ≡ sizes self.now }
        ensures few { AreFew (numbers_of result) };

    /// Whether it is true of a cell.
    fn test(&self, cell: PerAxis) -> bool
        requires few { AreFew (sizes self.now) }
        requires within { IsTrue (is_within (sizes self.now) (cell_of cell)) }
        ensures { result ≡ holds self.now (cell_of cell) };
}

impl Marks {
    ghost use Rattle.std.specs.Prelude.{◌≡◌, length, IsTrue, IfOk};
    ghost use Rattle.solid_model.specs.Marks.{BoxMarks, IsFull, is_marked, AreMarksOf};
    ghost use Rattle.solid_model.specs.PerAxis.{numbers_of, cell_of, AreFew};
    ghost use Rattle.solid_model.specs.WalledBoxes.{is_within, box_count};

    /// The marks with these values, one for each cell of a box of these sizes.
    pub fn new(sizes: PerAxis, values: Vec<bool>) -> Marks
        requires { IsFull record { sizes = sizes; values = values.items } }
        ensures { result ≡ record { sizes = sizes; values = values.items } }
    {
        Marks { sizes, values }
    }

    /// There is a value for each cell of the box.
    pub fn known(&self)
        ensures { IsFull self.now }
    {
        let _ = &self.sizes;
    }

    /// Marks on the cells of which the answer is yes.
    pub fn of<T: CellTest>(alloc: Global, test: &T) -> Result<Marks, Memory>
        ensures { IfOk result (λ marks. AreMarksOf (T.sizes test.now)
            (λ n. IsTrue (T.holds test.now n)) marks) }
    {
        let sizes = test.sizes();
        let mut values = Vec::with_capacity(alloc, sizes.count())?;
        let mut cell = PerAxis::FIRST;
        for place in 0..sizes.count() {
            cell = sizes.next_cell(cell, place);
            values.push(test.test(cell))?;
        }
        Ok(Marks { sizes, values })
    }

    /// The sizes of the box.
    pub fn sizes(&self) -> PerAxis
        ensures sizes { result ≡ self.now.sizes }
        ensures few { AreFew (numbers_of result) }
    {
        self.sizes
    }

    /// The values, cell by cell.
    pub fn values(&self) -> &[bool]
        ensures values { result.now ≡ self.now.values }
        ensures all { length result.now ≡ box_count (numbers_of self.now.sizes) }
    {
        self.values.as_slice()
    }

    /// A cell of the box has a mark; one that isn't of the box has none.
    pub fn has(&self, cell: PerAxis) -> bool
        ensures { result ≡ is_marked self.now (cell_of cell) }
    {
        self.sizes.has(cell) && self.values[self.sizes.place(cell)]
    }
}

/// Marks for each axis, each on the cells of a box of its own: along it on the edges of a grid, or
/// across it on the faces. Along its own axis an edge has the number of the grid cell that it is a
/// side of, across it the numbers of the coordinates at which it stands; with a face it is the other
/// way round.
#[derive(Debug, Drop)]
pub struct MarksByAxis {
    pub x: Marks,
    pub y: Marks,
    pub z: Marks,
}

/// The pseudo wire frame of a grid (Wesley and Markowsky 1981): its edges that are pseudo edges.
pub type Wire = MarksByAxis;

/// Which faces of a grid are virtual: those that the pseudo wire frame closes off and that may be
/// faces of a solid.
pub type FaceMap = MarksByAxis;

impl Model for MarksByAxis {
    ghost use Rattle.solid_model.specs.Marks.{AxisMarks};

    ghost Value = { AxisMarks };

    ghost view = { λ s. record { x = s.x; y = s.y; z = s.z } };
}

impl MarksByAxis {
    ghost use Rattle.std.specs.Prelude.{◌≡◌};
    ghost use Rattle.solid_model.specs.Marks.{is_marked, marks_along};
    ghost use Rattle.solid_model.specs.PerAxis.{cell_of};

    /// Those for an axis.
    pub fn along(&self, axis: Axis) -> &Marks
        ensures { result.now ≡ marks_along axis self.now }
    {
        match axis {
            Axis::X => &self.x,
            Axis::Y => &self.y,
            Axis::Z => &self.z,
        }
    }

    /// A cell of the box for an axis has a mark; one that isn't of the box has none.
    pub fn has(&self, axis: Axis, cell: PerAxis) -> bool
        ensures { result ≡ is_marked (marks_along axis self.now) (cell_of cell) }
    {
        self.along(axis).has(cell)
    }
}
