//! The pseudo edges of a grid, along each axis.

ghost use Rattle.std.specs.Prelude.{IfOk, IsTrue};
ghost use Rattle.solid_model.specs.Marks.{AreMarksOf};
ghost use Rattle.solid_model.specs.Kept.{edge_sizes, IsWireOf};
ghost use Rattle.solid_model.specs.Wire.{is_pseudo_edge};
ghost use Rattle.solid_model.specs.GridBox.{grid_sizes};
ghost use Rattle.pseudo_wire.specs.DrawnPoints.{AreDrawnPoints};

use crate::drawn_points::drawn_points;
use crate::edges::is_marked_edge;
use solid_model::{Axis, CellTest, Grid, Marks, MarksByAxis, Memory, PerAxis, PerView, Wire};
use std::alloc::Global;

/// The edges of a grid along an axis, asked whether they are drawn and their ends have marks.
#[derive(Clone, Copy)]
struct EdgesAlong<'a> {
    grid: &'a Grid,
    points: &'a PerView<Marks>,
    axis: Axis,
}

impl CellTest for EdgesAlong<'_> {
    ghost use Rattle.solid_model.specs.Kept.{edge_sizes};
    ghost use Rattle.solid_model.specs.GridBox.{grid_sizes};
    ghost use Rattle.pseudo_wire.specs.DrawnPoints.{is_marked_edge};

    ghost sizes = { λ s. edge_sizes (grid_sizes s.grid.now) s.axis };

    ghost holds = { λ s n. is_marked_edge s.grid.now s.points.now s.axis n };

    fn sizes(&self) -> PerAxis {
        self.grid.sizes().edges(self.axis)
    }

    fn test(&self, cell: PerAxis) -> bool {
        is_marked_edge(self.grid, self.points, self.axis, cell)
    }
}

/// The pseudo edges along an axis of a grid in whose views something is shown at these points. An
/// `Err` is out of memory.
fn edges_along(
    alloc: Global,
    grid: &Grid,
    points: &PerView<Marks>,
    axis: Axis,
) -> Result<Marks, Memory>
    requires { AreDrawnPoints grid.now points.now }
    ensures { IfOk result (λ marks. AreMarksOf (edge_sizes (grid_sizes grid.now) axis)
        (λ n. IsTrue (is_pseudo_edge grid.now axis n)) marks) }
{
    let marks = Marks::of(alloc, &EdgesAlong { grid, points, axis })?;
    Ok(marks)
}

/// The pseudo edges of a grid (Wesley and Markowsky 1981): its edges that are drawn in each of the
/// two views that show them as segments, and whose ends lie on something in all three views. A
/// missing view is asked for nothing. An `Err` is out of memory.
pub fn wire_of(alloc: Global, grid: &Grid) -> Result<Wire, Memory>
    ensures { IfOk result (λ wire. IsWireOf grid.now wire) }
{
    let points = drawn_points(alloc, grid)?;
    Ok(MarksByAxis {
        x: edges_along(alloc, grid, &points, Axis::X)?,
        y: edges_along(alloc, grid, &points, Axis::Y)?,
        z: edges_along(alloc, grid, &points, Axis::Z)?,
    })
}
