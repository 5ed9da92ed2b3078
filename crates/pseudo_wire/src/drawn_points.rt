//! The points at which a view shows something.
//!
//! They are marked first, so that each point of a view is asked once, and not once for each end of
//! an edge that projects there. A mark for each pseudo vertex of the grid would be asked for all of
//! its points, where an edge that isn't drawn asks for none.

ghost use Rattle.std.specs.Prelude.{◌≡◌, IfOk};
ghost use Rattle.solid_model.specs.PerAxis.{cell_of};
ghost use Rattle.pseudo_wire.specs.DrawnPoints.{is_marked_in, is_marked_point, AreDrawnIn, AreDrawnPoints};

use crate::edges::is_on_drawn;
use solid_model::{CellTest, Grid, Marks, Memory, PerAxis, PerView, View};
use std::alloc::Global;

/// The points of a view of a grid, asked whether the view shows something there, or is missing.
#[derive(Clone, Copy)]
struct ViewPoints<'a> {
    grid: &'a Grid,
    view: View,
}

impl CellTest for ViewPoints<'_> {
    ghost use Rattle.solid_model.specs.GridBox.{grid_sizes};
    ghost use Rattle.solid_model.specs.Wire.{is_on_drawn};
    ghost use Rattle.pseudo_wire.specs.DrawnPoints.{view_sizes};

    ghost sizes = { λ s. view_sizes (grid_sizes s.grid.now) s.view };

    ghost holds = { λ s n. is_on_drawn s.grid.now n s.view };

    fn sizes(&self) -> PerAxis {
        let cells = self.grid.sizes();
        let points = PerAxis {
            x: cells.x + 1,
            y: cells.y + 1,
            z: cells.z + 1,
        };
        points.numbered(self.view.frame().away.axis, 1)
    }

    fn test(&self, cell: PerAxis) -> bool {
        is_on_drawn(self.grid, cell, self.view)
    }
}

/// Marks on the points of a view at which it shows something, and on all if it is missing. An `Err`
/// is out of memory.
fn drawn_in(alloc: Global, grid: &Grid, view: View) -> Result<Marks, Memory>
    ensures { IfOk result (AreDrawnIn grid.now view) }
{
    Marks::of(alloc, &ViewPoints { grid, view })
}

/// For each view marks on its points at which it shows something, and on all if it is missing. The
/// points of a view are a box that is one point deep, along the axis away from the viewer. An `Err`
/// is out of memory.
pub fn drawn_points(alloc: Global, grid: &Grid) -> Result<PerView<Marks>, Memory>
    ensures { IfOk result (AreDrawnPoints grid.now) }
{
    Ok(PerView {
        front: drawn_in(alloc, grid, View::Front)?,
        top: drawn_in(alloc, grid, View::Top)?,
        side: drawn_in(alloc, grid, View::Side)?,
    })
}

/// The point of a view on which a point projects has a mark.
fn is_marked_in(points: &PerView<Marks>, view: View, point: PerAxis) -> bool
    ensures { result ≡ is_marked_in points.now view (cell_of point) }
{
    points
        .view(view)
        .has(point.numbered(view.frame().away.axis, 0))
}

/// Each of the points on which a point projects has a mark.
pub fn is_marked_point(points: &PerView<Marks>, point: PerAxis) -> bool
    ensures { result ≡ is_marked_point points.now (cell_of point) }
{
    is_marked_in(points, View::Front, point)
        && is_marked_in(points, View::Top, point)
        && is_marked_in(points, View::Side, point)
}
