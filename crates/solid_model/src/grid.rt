//! Grids: the positions at which a drawing shows something.
//!
//! A grid keeps that it is that of a drawing, and there is one drawing alone that it can be of
//! (`one_drawing_of_a_grid`): so what is searched by the grid is said of the drawing.

ghost use Rattle.std.specs.Prelude.{◌≡◌, ◌↔◌, slice_index_or, IsTrue};
ghost use Rattle.solid_model.specs.declared.segment.Style.TheVariants.{Blank};

use crate::cell::Axis;
use crate::frame::View;
use crate::line_id::LineId;
use crate::panels::Panels;
use crate::per_axis::PerAxis;
use crate::per_view::PerView;
use crate::segment::Style;
use std::marker::Model;

/// The grid of a drawing: its coordinates along the three axes, 1 to 64 each, in order, and the
/// styles of its segments. Which views show something is found once, since each line is asked for
/// it.
#[derive(Debug, Drop)]
pub struct Grid {
    xs: Vec<i64>,
    ys: Vec<i64>,
    zs: Vec<i64>,
    panels: Panels,
    shows: PerView<bool>,
}

impl Model for Grid {
    ghost use Rattle.std.specs.Prelude.{◌≡◌};
    ghost use Rattle.solid_model.specs.declared.frame.View.{View};
    ghost use Rattle.solid_model.specs.Panels.{GridParts, IsGrid};
    ghost use Rattle.solid_model.specs.PerView.{of_view};
    ghost use Rattle.solid_model.specs.Wire.{shows_something};

    ghost Value = { GridParts };

    ghost view = { λ s. record {
      xs = s.xs.items;
      ys = s.ys.items;
      zs = s.zs.items;
      panels = s.panels;
    } };

    ghost invariant = { λ s. IsGrid record {
      xs = s.xs.items;
      ys = s.ys.items;
      zs = s.zs.items;
      panels = s.panels;
    } × ((v : View) → of_view v s.shows ≡ shows_something (of_view v s.panels)) };
}

/// The coordinates are the same.
pub fn same_coordinates(coordinates: &[i64], others: &[i64]) -> bool
    ensures { IsTrue result ↔ (coordinates.now ≡ others.now) }
{
    coordinates == others
}

/// The style at a place of a list, Blank beyond its end.
fn style_in(styles: &[Style], place: usize) -> Style
    ensures { result ≡ slice_index_or styles.now place Blank }
{
    if place < styles.len() {
        styles[place]
    } else {
        Style::Blank
    }
}

impl Grid {
    ghost use Rattle.std.specs.Prelude.{◌≡◌, ◌↔◌, ◌<◌, ◌≤◌, pos, IsTrue};
    ghost use Rattle.solid_model.specs.declared.cell.Axis.{Axis};
    ghost use Rattle.solid_model.specs.Demands.{has_line, line_style};
    ghost use Rattle.solid_model.specs.Wire.{is_drawn_view};
    ghost use Rattle.solid_model.specs.Grid.{gaps_along, grid_cell_count};
    ghost use Rattle.solid_model.specs.Panels.{coordinates_of, IsGrid};
    ghost use Rattle.solid_model.specs.PerAxis.{numbers_of};
    ghost use Rattle.solid_model.specs.Volumes.{gap_width};
    ghost use Rattle.solid_model.specs.GridBox.{grid_sizes, axis_along, axis_across, grid_style};

    /// The grid with these coordinates, whose segments have these styles: those of a drawing.
    pub fn new(xs: Vec<i64>, ys: Vec<i64>, zs: Vec<i64>, panels: Panels) -> Grid
        requires { IsGrid record { xs = xs.items; ys = ys.items; zs = zs.items; panels = panels } }
        ensures { result ≡ record { xs = xs.items; ys = ys.items; zs = zs.items; panels = panels } }
    {
        let shows = PerView {
            front: panels.front.shows_something(),
            top: panels.top.shows_something(),
            side: panels.side.shows_something(),
        };
        Grid {
            xs,
            ys,
            zs,
            panels,
            shows,
        }
    }

    /// It is the grid of a drawing, and no row of its cells is longer than a word.
    pub fn known(&self)
        ensures kept { IsGrid self.now }
        ensures few { (a : Axis) → grid_sizes self.now a ≤ 63 }
    {
        let _ = &self.xs;
        let _ = self.sizes();
    }

    /// The coordinates along the x axis.
    pub fn xs(&self) -> &[i64]
        ensures { result.now ≡ self.now.xs }
    {
        self.xs.as_slice()
    }

    /// The coordinates along the y axis.
    pub fn ys(&self) -> &[i64]
        ensures { result.now ≡ self.now.ys }
    {
        self.ys.as_slice()
    }

    /// The coordinates along the z axis.
    pub fn zs(&self) -> &[i64]
        ensures { result.now ≡ self.now.zs }
    {
        self.zs.as_slice()
    }

    /// The coordinates along an axis.
    pub fn coordinates(&self, axis: Axis) -> &[i64]
        ensures same { result.now ≡ coordinates_of self.now axis }
        ensures kept { IsGrid self.now }
    {
        match axis {
            Axis::X => self.xs.as_slice(),
            Axis::Y => self.ys.as_slice(),
            Axis::Z => self.zs.as_slice(),
        }
    }

    /// Both have the same coordinates and the same styles.
    pub fn same(&self, other: &Grid) -> bool
        ensures { IsTrue result ↔ (self.now ≡ other.now) }
    {
        same_coordinates(&self.xs, &other.xs)
            && same_coordinates(&self.ys, &other.ys)
            && same_coordinates(&self.zs, &other.zs)
            && self.panels.same(&other.panels)
    }

    /// The styles of its segments.
    pub fn panels(&self) -> &Panels
        ensures { result.now ≡ self.now.panels }
    {
        &self.panels
    }

    /// How many grid cells there are along each axis.
    pub fn sizes(&self) -> PerAxis
        ensures sizes { numbers_of result ≡ grid_sizes self.now }
        ensures few { (a : Axis) → numbers_of result a ≤ 63 }
    {
        PerAxis {
            x: self.gaps(Axis::X),
            y: self.gaps(Axis::Y),
            z: self.gaps(Axis::Z),
        }
    }

    /// The style of a view's level, or upright, segment on the line at the `line`-th coordinate
    /// across it, along which it is the `cell`-th: Blank where there is none.
    pub fn style_at(&self, view: View, upright: bool, line: usize, cell: usize) -> Style
        ensures { result ≡ grid_style self.now view upright (pos line) (pos cell) }
    {
        let width = self.cells_along(view, upright);
        if line > self.cells_across(view, upright) || cell >= width {
            return Style::Blank;
        }
        style_in(self.panels.view(view).along(upright), line * width + cell)
    }

    /// How many grid cells there are along a view's level, or upright, segments.
    pub fn cells_along(&self, view: View, upright: bool) -> usize
        ensures same { result ≡ grid_sizes self.now (axis_along view upright) }
        ensures few { result ≤ 63 }
    {
        self.sizes().along(view.frame().along(upright).axis)
    }

    /// How many there are across them.
    pub fn cells_across(&self, view: View, upright: bool) -> usize
        ensures same { result ≡ grid_sizes self.now (axis_across view upright) }
        ensures few { result ≤ 63 }
    {
        self.sizes().along(view.frame().across(upright).axis)
    }

    /// Whether a view shows something: it isn't missing.
    pub fn shows(&self, view: View) -> bool
        ensures { result ≡ is_drawn_view self.now view }
    {
        *self.shows.view(view)
    }

    /// Whether it has the line.
    pub fn has(&self, line: LineId) -> bool
        ensures { result ≡ has_line self.now line }
    {
        self.shows(line.view)
            && usize::from(line.at) < self.cells_across(line.view, line.upright) + 1
            && usize::from(line.cell) < self.cells_along(line.view, line.upright)
    }

    /// The style of a line that it has.
    pub fn style(&self, line: LineId) -> Style
        requires { IsTrue (has_line self.now line) }
        ensures { result ≡ line_style self.now line }
    {
        self.style_at(
            line.view,
            line.upright,
            usize::from(line.at),
            usize::from(line.cell),
        )
    }

    /// How far it is from the coordinate of this number along an axis, counted from 0, to the next.
    pub fn gap_width(&self, axis: Axis, number: usize) -> u64
        requires { number < gaps_along (coordinates_of self.now) axis }
        ensures width { result ≡ gap_width (coordinates_of self.now axis) number }
        ensures small { result ≤ 2000000000 }
    {
        let coordinates = self.coordinates(axis);
        coordinates[number + 1].abs_diff(coordinates[number])
    }

    /// How many grid cells there are along an axis.
    fn gaps(&self, axis: Axis) -> usize
        ensures same { result ≡ gaps_along (coordinates_of self.now) axis }
        ensures few { result ≤ 63 }
    {
        self.coordinates(axis).len().saturating_sub(1)
    }

    /// How many grid cells there are.
    pub fn cell_count(&self) -> usize
        ensures { result ≡ grid_cell_count (coordinates_of self.now) }
    {
        self.gaps(Axis::Z)
            .saturating_mul(self.gaps(Axis::Y))
            .saturating_mul(self.gaps(Axis::X))
    }
}
