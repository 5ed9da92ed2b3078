//! The virtual faces of a grid, across each axis.

ghost use Rattle.std.specs.Prelude.{◌≡◌, ◌||◌, not, map, IsTrue, IfOk};
ghost use Rattle.solid_model.specs.Marks.{marks_along, is_marked, AreMarksOf};
ghost use Rattle.solid_model.specs.PerAxis.{numbers_of};
ghost use Rattle.solid_model.specs.WalledBoxes.{same_axis, face_sizes};
ghost use Rattle.solid_model.specs.VirtualFaces.{axis_across_both, IsVirtual};
ghost use Rattle.solid_model.specs.Kept.{IsFaceMapOf, IsWireOf};
ghost use Rattle.solid_model.specs.GridBox.{grid_sizes};

use flood::{Walls, leading_out};
use solid_model::{Axis, FaceMap, Grid, Marks, MarksByAxis, Memory, PerAxis, Wire};
use std::alloc::Global;

/// The axis across two different ones.
fn axis_across_both(axis: Axis, other: Axis) -> Axis
    ensures { result ≡ axis_across_both axis other }
{
    match (axis, other) {
        (Axis::X, Axis::Y) => Axis::Z,
        (Axis::X, _) => Axis::Y,
        (Axis::Y, Axis::Z) => Axis::X,
        (Axis::Y, _) => Axis::Z,
        (Axis::Z, Axis::X) => Axis::Y,
        (Axis::Z, _) => Axis::X,
    }
}

/// The grid faces across an axis, as the cells of a box. Between two of them in one plane stands a
/// wall where the edge between them is a pseudo edge; between two planes there is always one.
#[derive(Clone, Copy)]
struct FacesAcross<'a> {
    grid: &'a Grid,
    wire: &'a Wire,
    axis: Axis,
}

impl Walls for FacesAcross<'_> {
    ghost sizes = { λ s. face_sizes (grid_sizes s.grid.now) s.axis };

    ghost stands = { λ s b n. same_axis s.axis b
        || is_marked (marks_along (axis_across_both s.axis b) s.wire.now) n };

    fn sizes(&self) -> PerAxis {
        self.grid.sizes().faces(self.axis)
    }

    fn stands(&self, axis: Axis, cell: PerAxis) -> bool {
        axis == self.axis || self.wire.has(axis_across_both(self.axis, axis), cell)
    }
}

/// The contrary of each value.
fn contraries(alloc: Global, values: &[bool]) -> Result<Vec<bool>, Memory>
    ensures { IfOk result (λ contraries. contraries.items ≡ map not values.now) }
{
    let mut contraries = Vec::with_capacity(alloc, values.len())?;
    for value in values {
        contraries.push_reserved(!*value);
    }
    Ok(contraries)
}

/// Marks on the other cells of the box.
fn others(alloc: Global, marks: &Marks) -> Result<Marks, Memory>
    ensures { IfOk result (λ others. AreMarksOf (numbers_of marks.now.sizes)
        (λ n. IsTrue (not (is_marked marks.now n))) others) }
{
    let values = contraries(alloc, marks.values())?;
    Ok(Marks::new(marks.sizes(), values))
}

/// The virtual faces across an axis.
fn faces_across(alloc: Global, grid: &Grid, wire: &Wire, axis: Axis) -> Result<Marks, Memory>
    requires { IsWireOf grid.now wire.now }
    ensures { IfOk result (λ marks. AreMarksOf (face_sizes (grid_sizes grid.now) axis)
        (IsVirtual grid.now axis) marks) }
{
    grid.known();
    let leading = leading_out(alloc, &FacesAcross { grid, wire, axis })?;
    let marks = others(alloc, &leading)?;
    Ok(marks)
}

/// The virtual faces of a grid (Wesley and Markowsky 1981), of which this is the pseudo wire frame:
/// its faces from which no chain of neighbours in their plane, each step crossing an edge that is
/// no pseudo edge, leads out of the box. An `Err` is out of memory.
pub fn faces_of(alloc: Global, grid: &Grid, wire: &Wire) -> Result<FaceMap, Memory>
    requires { IsWireOf grid.now wire.now }
    ensures { IfOk result (λ faces. IsFaceMapOf grid.now faces) }
{
    Ok(MarksByAxis {
        x: faces_across(alloc, grid, wire, Axis::X)?,
        y: faces_across(alloc, grid, wire, Axis::Y)?,
        z: faces_across(alloc, grid, wire, Axis::Z)?,
    })
}
