//! What a set of grid cells draws.

ghost use Rattle.std.specs.Prelude.{◌≡◌, ◌≤◌, ◌*◌, Bool, List, length, IfOk};
ghost use Rattle.solid_model.specs.declared.cell.Axis.{Axis};
ghost use Rattle.solid_model.specs.declared.cell.Cell.{Cell};
ghost use Rattle.solid_model.specs.declared.frame.View.{View};
ghost use Rattle.solid_model.specs.Cells.{is_full};
ghost use Rattle.solid_model.specs.DrawnStyle.{solid_drawing};
ghost use Rattle.solid_model.specs.Frames.{frame_of};
ghost use Rattle.solid_model.specs.Grid.{gaps_along, IsUnionOf};
ghost use Rattle.solid_model.specs.Limits.{most_grid_coordinates};
ghost use Rattle.solid_model.specs.Panels.{coordinates_of, AreGridStyles, styles_along};
ghost use Rattle.solid_model.specs.PerView.{of_view};
ghost use Rattle.solid_model.specs.PerAxis.{numbers_of, gaps_of};
ghost use Rattle.columns.specs.ColumnLists.{AreColumns};
ghost use Rattle.column_laws.specs.GridPanels.{HasCounts, ArePanels, AreStylesAlong};

use crate::grid_columns::view_columns;
use crate::segment_styles::styles_along;
use column_lanes::Column;
use solid_model::{Axis, Grid, Memory, Panel, Panels, PerAxis, PerView, View};
use std::alloc::Global;
use std::marker::Model;

/// The columns of a grid's cells in the three views. Those of a view stand by place upwards, then
/// to the right.
#[derive(Debug, Drop)]
pub struct ColumnSet {
    pub front: Vec<Column>,
    pub top: Vec<Column>,
    pub side: Vec<Column>,
}

impl Model for ColumnSet {
    ghost use Rattle.columns.specs.ColumnLists.{ColumnLists};

    ghost Value = { ColumnLists };

    ghost view = { λ s. record { front = s.front.items; top = s.top.items; side = s.side.items } };
}

impl ColumnSet {
    ghost use Rattle.std.specs.Prelude.{◌≡◌};
    ghost use Rattle.solid_model.specs.PerView.{of_view};

    /// The columns of a view.
    pub fn view(&self, view: View) -> &[Column]
        ensures { result.now ≡ of_view view self.now }
    {
        match view {
            View::Front => self.front.as_slice(),
            View::Top => self.top.as_slice(),
            View::Side => self.side.as_slice(),
        }
    }
}

/// How many coordinates the grid has along each axis.
pub fn counts_of(grid: &Grid) -> PerAxis
    ensures counts { HasCounts (numbers_of result) (coordinates_of grid.now) }
    ensures few { (a : Axis) → numbers_of result a ≤ most_grid_coordinates }
{
    PerAxis {
        x: grid.coordinates(Axis::X).len(),
        y: grid.coordinates(Axis::Y).len(),
        z: grid.coordinates(Axis::Z).len(),
    }
}

/// The columns of the chosen cells of a grid that has so many coordinates along each axis.
pub fn columns_in(alloc: Global, counts: PerAxis, cells: &[bool]) -> Result<ColumnSet, Memory>
    requires { (a : Axis) → numbers_of counts a ≤ most_grid_coordinates }
    ensures { IfOk result (λ columns. (v : View)
        → AreColumns (frame_of v) (gaps_of (numbers_of counts)) cells.now (of_view v columns)) }
{
    let sizes = counts.gaps();
    Ok(ColumnSet {
        front: view_columns(alloc, View::Front.frame(), sizes, cells)?,
        top: view_columns(alloc, View::Top.frame(), sizes, cells)?,
        side: view_columns(alloc, View::Side.frame(), sizes, cells)?,
    })
}

/// The styles of a view's segments.
fn panel(alloc: Global, view: View, counts: PerAxis, columns: &[Column]) -> Result<Panel, Memory>
    requires counts { (a : Axis) → numbers_of counts a ≤ most_grid_coordinates }
    requires count { length columns.now
        ≡ gaps_of (numbers_of counts) (frame_of view).up.axis
        * gaps_of (numbers_of counts) (frame_of view).right.axis }
    ensures { IfOk result (λ panel. (chosen : List Bool)
        → AreColumns (frame_of view) (gaps_of (numbers_of counts)) chosen columns.now
        → (upright : Bool)
        → AreStylesAlong (numbers_of counts) chosen view upright (styles_along upright panel)) }
{
    Ok(Panel {
        level: styles_along(alloc, view, counts, columns, false)?,
        upright: styles_along(alloc, view, counts, columns, true)?,
    })
}

/// What the chosen cells draw on a grid that has so many coordinates along each axis.
pub fn draw_in(alloc: Global, counts: PerAxis, cells: &[bool]) -> Result<Panels, Memory>
    requires { (a : Axis) → numbers_of counts a ≤ most_grid_coordinates }
    ensures { IfOk result (λ panels. ArePanels (numbers_of counts) cells.now panels) }
{
    let columns = columns_in(alloc, counts, cells)?;
    Ok(PerView {
        front: panel(alloc, View::Front, counts, columns.view(View::Front))?,
        top: panel(alloc, View::Top, counts, columns.view(View::Top))?,
        side: panel(alloc, View::Side, counts, columns.view(View::Side))?,
    })
}

/// The columns of the cells of a grid that are chosen, z slowest and x fastest, in the three views:
/// bit k of a column is the grid cell at depth k. A cell that isn't in the list counts as not
/// chosen.
pub fn columns_of(alloc: Global, grid: &Grid, cells: &[bool]) -> Result<ColumnSet, Memory>
    ensures { IfOk result (λ columns. (v : View)
        → AreColumns (frame_of v) (gaps_along (coordinates_of grid.now)) cells.now
        (of_view v columns)) }
{
    columns_in(alloc, counts_of(grid), cells)
}

/// What the union of the chosen cells of a grid draws on the grid's segments. Cells are listed with
/// z slowest and x fastest; one that isn't in the list counts as not chosen.
pub fn draw_cells(alloc: Global, grid: &Grid, cells: &[bool]) -> Result<Panels, Memory>
    ensures { IfOk result (λ panels. (s : List Cell)
        → IsUnionOf (coordinates_of grid.now) cells.now (is_full s)
        → AreGridStyles (solid_drawing s) (coordinates_of grid.now) panels) }
{
    draw_in(alloc, counts_of(grid), cells)
}
