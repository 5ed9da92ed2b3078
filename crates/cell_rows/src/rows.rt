//! The rows of a box of marked cells.

ghost use Rattle.std.specs.Prelude.{◌≡◌, ◌≤◌, ◌<◌, ℕ, IfOk};
ghost use Rattle.cell_rows.specs.Rows.{is_marked_at, stride_along, AreRows};
ghost use Rattle.lemmas.specs.Bits.{is_set};
ghost use Rattle.solid_model.specs.PerAxis.{numbers_of, AreFew};

use crate::block_rows::BlockRows;
use crate::changed_planes::{ChangedPlanes, planes_between};
use crate::layer_rows::LayerRows;
use solid_model::{Axis, Choice, Marks, Memory, Out, PerAxis, Problem};
use std::alloc::Global;
use std::marker::Model;

/// The rows along each axis of a box of marked cells, at most 63 along each axis, as words: bit k
/// is the cell of number k. Contracts see the marks.
#[derive(Debug, Drop)]
pub struct CellRows {
    sizes: PerAxis,
    x: Vec<u64>,
    y: Vec<u64>,
    z: Vec<u64>,
}

impl Model for CellRows {
    ghost use Rattle.cell_rows.specs.Rows.{AreAllRows, marks_by_rows};
    ghost use Rattle.solid_model.specs.Marks.{BoxMarks};

    ghost Value = { BoxMarks };

    ghost view = { λ s. marks_by_rows s.sizes s.x.items };

    ghost invariant = { λ s. AreAllRows (marks_by_rows s.sizes s.x.items) s.x.items s.y.items
        s.z.items };
}

/// How far apart neighbours along an axis stand in a list of all cells of a box of these sizes.
fn stride(sizes: PerAxis, axis: Axis) -> usize
    requires { AreFew (numbers_of sizes) }
    ensures { result ≡ stride_along (numbers_of sizes) axis }
{
    match axis {
        Axis::X => 1,
        Axis::Y => sizes.x,
        Axis::Z => sizes.y * sizes.x,
    }
}

/// The row of a cell along an axis.
fn row_of(marks: &Marks, axis: Axis, cell: PerAxis) -> u64
    requires { numbers_of marks.now.sizes axis ≤ 63 }
    ensures { (k : ℕ) → k < 64 → is_set result k ≡ is_marked_at marks.now axis cell k }
{
    let sizes = marks.sizes();
    let first = cell.numbered(axis, 0);
    if !sizes.has(first) {
        return 0;
    }
    let start = sizes.place(first);
    let stride = stride(sizes, axis);
    let values = marks.values();
    let mut row: u64 = 0;
    for number in 0..sizes.along(axis) {
        if values[start + number * stride] {
            row |= 1 << number;
        }
    }
    row
}

/// All rows along an axis, by the places that their cells have in a box of one cell along it.
fn rows_along(alloc: Global, marks: &Marks, axis: Axis) -> Result<Vec<u64>, Memory>
    requires { numbers_of marks.now.sizes axis ≤ 63 }
    ensures { IfOk result (λ rows. AreRows marks.now axis rows.items) }
{
    let ends = marks.sizes().numbered(axis, 1);
    let mut rows = Vec::with_capacity(alloc, ends.count())?;
    for place in 0..ends.count() {
        rows.push(row_of(marks, axis, ends.cell(place)))?;
    }
    Ok(rows)
}

impl CellRows {
    ghost use Rattle.std.specs.Prelude.{◌≡◌, ◌≤◌, ◌<◌, ℕ, pos, ◌-ℤ◌, IfOk};
    ghost use Rattle.cell_rows.specs.Layers.{AreLayer};
    ghost use Rattle.cell_rows.specs.Planes.{AreSameBeside};
    ghost use Rattle.cell_rows.specs.Rows.{is_marked_at, AreRows};
    ghost use Rattle.cell_rows.specs.Spans.{chosen_marks};
    ghost use Rattle.solid_model.specs.declared.cell.Axis.{Axis};
    ghost use Rattle.lemmas.specs.Bits.{is_set};
    ghost use Rattle.solid_model.specs.PerAxis.{numbers_of};

    /// The rows of these marks. An `Err` is out of memory.
    pub fn of(alloc: Global, marks: &Marks) -> Result<CellRows, Memory>
        requires { (a : Axis) → numbers_of marks.now.sizes a ≤ 63 }
        ensures { IfOk result (λ rows. rows ≡ marks.now) }
    {
        let sizes = marks.sizes();
        marks.known();
        let x = rows_along(alloc, marks, Axis::X)?;
        let y = rows_along(alloc, marks, Axis::Y)?;
        let z = rows_along(alloc, marks, Axis::Z)?;
        Ok(CellRows { sizes, x, y, z })
    }

    /// Rows for the cells of a box of these sizes, none of which has a mark. An `Err` is out of
    /// memory.
    pub fn unmarked(alloc: Global, sizes: PerAxis) -> Result<CellRows, Memory>
        requires { (a : Axis) → numbers_of sizes a ≤ 63 }
        ensures { IfOk result (λ rows. rows.sizes ≡ sizes) }
    {
        let none = vec![in alloc; false; sizes.count()]?;
        let marks = Marks::new(sizes, none);
        CellRows::of(alloc, &marks)
    }

    /// The same for the cells of a problem's grid.
    pub fn blank(alloc: Global, problem: &Problem) -> Result<CellRows, Memory>
        ensures { IfOk result (λ rows. rows.sizes ≡ problem.now.blocks.sizes) }
    {
        CellRows::unmarked(alloc, problem.grid().sizes())
    }

    /// Marks the cells that a choice of blocks fills, and no others, in the rows that it has.
    pub fn fill(&mut self, blocks: &BlockRows<'_>, choice: &Choice)
        requires { self.old.sizes ≡ blocks.now.sizes }
        ensures { self.new ≡ chosen_marks blocks.now choice.now }
    {
        blocks.along(Axis::X).fill(choice, self.x.as_mut_slice());
        blocks.along(Axis::Y).fill(choice, self.y.as_mut_slice());
        blocks.along(Axis::Z).fill(choice, self.z.as_mut_slice());
    }

    /// Marks the cells that others mark, and no others, and tells in which planes boundary squares
    /// have come or gone: in every other plane they are the same as before.
    pub fn follow(&mut self, cells: &CellRows) -> ChangedPlanes
        requires { numbers_of self.old.sizes ≡ numbers_of cells.now.sizes }
        ensures same { self.new ≡ cells.now }
        ensures beside { AreSameBeside result self.old cells.now }
    {
        let changed = ChangedPlanes {
            x: planes_between(self.x.as_slice(), cells.x.as_slice()),
            y: planes_between(self.y.as_slice(), cells.y.as_slice()),
            z: planes_between(self.z.as_slice(), cells.z.as_slice()),
        };
        self.sizes = cells.sizes;
        self.x.as_mut_slice().copy_from_slice(cells.x.as_slice());
        self.y.as_mut_slice().copy_from_slice(cells.y.as_slice());
        self.z.as_mut_slice().copy_from_slice(cells.z.as_slice());
        changed
    }

    /// How many cells there are along each axis.
    pub fn sizes(&self) -> PerAxis
        ensures sizes { result ≡ self.now.sizes }
        ensures few { (a : Axis) → numbers_of result a ≤ 63 }
    {
        self.sizes
    }

    /// The layer of the cells that begin in the plane at a number, seen from outside: a row for each
    /// v.
    pub fn layer(&self, out: Out, at: usize) -> LayerRows<'_>
        ensures { AreLayer self.now out (pos at) result }
    {
        let right = out.right();
        let rows = self.rows(right);
        let ends = self.sizes.numbered(right, 1);
        let first = PerAxis::FIRST.numbered(out.direction().axis, at);
        if !ends.has(first) {
            return LayerRows::of(rows, 0, 0, 0);
        }
        let up = out.up();
        LayerRows::of(rows, ends.place(first), stride(ends, up), ends.along(up))
    }

    /// The layer on the other side of that plane.
    pub fn layer_before(&self, out: Out, at: usize) -> LayerRows<'_>
        ensures { AreLayer self.now out (pos at -ℤ pos 1) result }
    {
        match at.checked_sub(1) {
            Some(before) => self.layer(out, before),
            None => LayerRows::of(self.rows(out.right()), 0, 0, 0),
        }
    }

    /// All rows along an axis.
    fn rows(&self, axis: Axis) -> &[u64]
        ensures { AreRows self.now axis result.now }
    {
        match axis {
            Axis::X => self.x.as_slice(),
            Axis::Y => self.y.as_slice(),
            Axis::Z => self.z.as_slice(),
        }
    }
}
