//! Faces that are told by the numbers of a grid's coordinates, put in space.

ghost use Rattle.std.specs.Prelude.{◌≡◌, length, map, pos, ◌≤ℤ◌, ◌<ℤ◌};
ghost use Rattle.faces.specs.GridPoints.{HasPoint, HasFace};
ghost use Rattle.face_laws.specs.GridFaces.{point_of_numbers, face_in_space, planes_at, grid_planes};
ghost use Rattle.lemmas.specs.Lists.{Each};
ghost use Rattle.solid_model.specs.Panels.{coordinates_of};

use solid_model::{Axis, Cell, Face, Grid, Loop};

/// The coordinate of a number, counted from 0.
fn coordinate(coordinates: &[i64], number: i64) -> i64
    requires low { pos 0 ≤ℤ number }
    requires high { number <ℤ pos (length coordinates.now) }
    ensures { result ≡ planes_at coordinates.now number }
{
    coordinates[number as usize]
}

/// The grid point of these numbers.
fn grid_point(grid: &Grid, numbers: Cell) -> Cell
    requires { HasPoint (coordinates_of grid.now) numbers }
    ensures { result ≡ point_of_numbers (grid_planes (coordinates_of grid.now)) numbers }
{
    Cell {
        x: coordinate(grid.coordinates(Axis::X), numbers.x),
        y: coordinate(grid.coordinates(Axis::Y), numbers.y),
        z: coordinate(grid.coordinates(Axis::Z), numbers.z),
    }
}

/// Puts grid points in place of their numbers.
fn put_corners(grid: &Grid, corners: &mut [Cell])
    requires { Each (HasPoint (coordinates_of grid.now)) corners.old }
    ensures { corners.new
        ≡ map (point_of_numbers (grid_planes (coordinates_of grid.now))) corners.old }
{
    for corner in corners.iter_mut() {
        *corner = grid_point(grid, *corner);
    }
}

/// The same of all corners of loops.
fn put_loops(grid: &Grid, loops: &mut [Loop])
    requires { Each (Each (HasPoint (coordinates_of grid.now))) loops.old }
    ensures { loops.new
        ≡ map (map (point_of_numbers (grid_planes (coordinates_of grid.now)))) loops.old }
{
    for around in loops.iter_mut() {
        put_corners(grid, around.corners.as_mut_slice());
    }
}

/// Puts a face at its place in space.
fn put_face(grid: &Grid, face: &mut Face)
    requires { HasFace (coordinates_of grid.now) face.old }
    ensures { face.new ≡ face_in_space (grid_planes (coordinates_of grid.now)) face.old }
{
    let across = grid.coordinates(face.out.direction().axis);
    face.at = coordinate(across, face.at);
    put_loops(grid, face.loops.as_mut_slice());
}

/// Puts all faces of a list at their places in space.
pub fn put_faces(grid: &Grid, faces: &mut [Face])
    requires { Each (HasFace (coordinates_of grid.now)) faces.old }
    ensures { faces.new
        ≡ map (face_in_space (grid_planes (coordinates_of grid.now))) faces.old }
{
    for face in faces.iter_mut() {
        put_face(grid, face);
    }
}
