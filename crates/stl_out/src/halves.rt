//! The two triangles of a rectangle, in space.

ghost use Rattle.std.specs.Prelude.{◌≡◌, pos, ◌+ℤ◌};
ghost use Rattle.face_laws.specs.GridFaces.{planes_at, grid_planes};
ghost use Rattle.solid_model.specs.Faces.{place};
ghost use Rattle.solid_model.specs.Panels.{coordinates_of};
ghost use Rattle.stl_out.specs.Numbered.{IsGridNumber, IsOfGrid};
ghost use Rattle.stl_out.specs.Rectangles.{triangles_of};

use crate::rectangle::Rectangle;
use crate::triangle::Triangle;
use solid_model::{Cell, Grid, Out};

/// The coordinate of a number, counted from 0.
fn coordinate(coordinates: &[i64], number: i64) -> i64
    requires { IsGridNumber coordinates.now number }
    ensures { result ≡ planes_at coordinates.now number }
{
    coordinates[number as usize]
}

/// The coordinates of a number and of the next one.
fn ends(coordinates: &[i64], number: i64) -> (i64, i64)
    requires first { IsGridNumber coordinates.now number }
    requires second { IsGridNumber coordinates.now (number +ℤ pos 1) }
    ensures first { result.0 ≡ planes_at coordinates.now number }
    ensures second { result.1 ≡ planes_at coordinates.now (number +ℤ pos 1) }
{
    (
        coordinate(coordinates, number),
        coordinate(coordinates, number + 1),
    )
}

/// The point of space at a point of a plane, so far to the right and upwards.
pub fn place(out: Out, at: i64, right: i64, up: i64) -> Cell
    ensures { result ≡ place out at (record { u = right; v = up }) }
{
    match out {
        Out::MinusX => Cell {
            x: at,
            y: up,
            z: right,
        },
        Out::PlusX => Cell {
            x: at,
            y: right,
            z: up,
        },
        Out::MinusY => Cell {
            x: right,
            y: at,
            z: up,
        },
        Out::PlusY => Cell {
            x: up,
            y: at,
            z: right,
        },
        Out::MinusZ => Cell {
            x: up,
            y: right,
            z: at,
        },
        Out::PlusZ => Cell {
            x: right,
            y: up,
            z: at,
        },
    }
}

/// The two triangles of a rectangle, each from its least corner on.
pub fn halves(grid: &Grid, rectangle: &Rectangle) -> [Triangle; 2]
    requires { IsOfGrid (coordinates_of grid.now) rectangle.now }
    ensures { result ≡ triangles_of (grid_planes (coordinates_of grid.now)) rectangle.now }
{
    let out = rectangle.out;
    let at = coordinate(grid.coordinates(out.direction().axis), rectangle.at);
    let (left, right) = ends(grid.coordinates(out.right()), rectangle.right);
    let (below, above) = ends(grid.coordinates(out.up()), rectangle.up);
    let p = place(out, at, left, below);
    let q = place(out, at, right, below);
    let r = place(out, at, right, above);
    let s = place(out, at, left, above);
    [
        Triangle {
            out,
            a: p,
            b: q,
            c: r,
        },
        Triangle {
            out,
            a: p,
            b: r,
            c: s,
        },
    ]
}
