//! Faces of a plane, in space.

ghost use Rattle.std.specs.Prelude.{◌≡◌, ◌++◌, ◌≤◌, pos, map, IfOk};
ghost use Rattle.faces.specs.PlaneFaces.{IsNearSpot, IsNearLoop, loop_in_space, face_of};
ghost use Rattle.faces.specs.Points.{spot_of};
ghost use Rattle.solid_model.specs.Faces.{place};
ghost use Rattle.lemmas.specs.Lists.{Each};

use crate::plane_loop::PlaneLoop;
use crate::point::Point;
use solid_model::{Cell, Face, Loop, Memory, Out};
use std::alloc::Global;

/// The point of space at a point of a plane.
fn corner(out: Out, at: usize, point: Point) -> Cell
    requires at { at ≤ 1024 }
    requires near { IsNearSpot (spot_of point) }
    ensures { result ≡ place out (pos at) (spot_of point) }
{
    let at = at as i64;
    let u = point.u as i64;
    let v = point.v as i64;
    match out {
        Out::MinusX => Cell { x: at, y: v, z: u },
        Out::PlusX => Cell { x: at, y: u, z: v },
        Out::MinusY => Cell { x: u, y: at, z: v },
        Out::PlusY => Cell { x: v, y: at, z: u },
        Out::MinusZ => Cell { x: v, y: u, z: at },
        Out::PlusZ => Cell { x: u, y: v, z: at },
    }
}

/// The corners of a loop, in space.
fn corners_in_space(
    alloc: Global,
    out: Out,
    at: usize,
    points: &[Point],
) -> Result<Vec<Cell>, Memory>
    requires at { at ≤ 1024 }
    requires near { Each IsNearSpot (map spot_of points.now) }
    ensures { IfOk result (λ corners. corners.items
        ≡ map (place out (pos at)) (map spot_of points.now)) }
{
    let mut corners = Vec::with_capacity(alloc, points.len())?;
    for point in points {
        corners.push(corner(out, at, *point))?;
    }
    Ok(corners)
}

/// A loop, in space.
fn loop_in_space(alloc: Global, out: Out, at: usize, plane_loop: &PlaneLoop) -> Result<Loop, Memory>
    requires at { at ≤ 1024 }
    requires near { IsNearLoop plane_loop.now }
    ensures { IfOk result (λ l. l ≡ loop_in_space out (pos at) plane_loop.now) }
{
    let corners = corners_in_space(alloc, out, at, plane_loop.corners.as_slice())?;
    Ok(Loop { corners })
}

/// The face that has these loops.
fn face_of(alloc: Global, out: Out, at: usize, loops: &[PlaneLoop]) -> Result<Face, Memory>
    requires at { at ≤ 1024 }
    requires near { Each IsNearLoop loops.now }
    ensures { IfOk result (λ face. face ≡ face_of out (pos at) loops.now) }
{
    let mut found = Vec::with_capacity(alloc, loops.len())?;
    for plane_loop in loops {
        found.push(loop_in_space(alloc, out, at, plane_loop)?)?;
    }
    Ok(Face {
        out,
        at: at as i64,
        loops: found,
    })
}

/// Puts the faces that have these loops at the end of the list.
pub fn add_faces(
    alloc: Global,
    out: Out,
    at: usize,
    groups: &[Vec<PlaneLoop>],
    faces: &mut Vec<Face>,
) -> Result<(), Memory>
    requires at { at ≤ 1024 }
    requires near { Each (Each IsNearLoop) (map (λ g. g.items) groups.now) }
    ensures { IfOk result (λ done. faces.new.items ≡ faces.old.items
        ++ map (face_of out (pos at)) (map (λ g. g.items) groups.now)) }
{
    for loops in groups {
        faces.push(face_of(alloc, out, at, loops.as_slice())?)?;
    }
    Ok(())
}
