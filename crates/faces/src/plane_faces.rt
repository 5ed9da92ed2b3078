//! The faces of a plane.

ghost use Rattle.std.specs.Prelude.{◌≡◌, ◌≤◌, ◌++◌, List, ℤ, pos, map, IfOk};
ghost use Rattle.face_laws.specs.GridFaces.{face_in_space, grid_planes};
ghost use Rattle.faces.specs.PlaneFaces.{is_up_first, face_of, AreFacesInPlane, AreFacesOfSquares, LieOnGrid, IsNearLoop};
ghost use Rattle.solid_model.specs.Faces.{FaceParts};
ghost use Rattle.lemmas.specs.Lists.{Each};
ghost use Rattle.solid_model.specs.Marks.{is_marked};
ghost use Rattle.solid_model.specs.Panels.{coordinates_of};

use crate::grid_points::put_faces;
use crate::groups::grouped;
use crate::joined::square_components;
use crate::loops::plane_loops;
use crate::plane::plane_squares;
use crate::plane_loop::PlaneLoop;
use crate::space::add_faces;
use crate::squares::Squares;
use cell_rows::CellRows;
use solid_model::{Face, Grid, Memory, Out};
use std::alloc::Global;

/// The points of a plane come by their height first, and not by how far to the right they are.
fn is_up_first(out: Out) -> bool
    ensures { result ≡ is_up_first out }
{
    matches!(out, Out::PlusX | Out::MinusY | Out::PlusZ)
}

/// The loops of each face of squares in a plane, in order. An `Err` is out of memory.
fn loops_of_faces(alloc: Global, squares: &Squares, out: Out) -> Result<Vec<Vec<PlaneLoop>>, Memory>
    ensures { IfOk result (λ groups. ((at : ℤ) → AreFacesOfSquares squares.now out at
        (map (face_of out at) (map (λ g. g.items) groups.items)))
        × Each (Each IsNearLoop) (map (λ g. g.items) groups.items)) }
{
    if squares.is_empty() {
        return Ok(Vec::new(alloc));
    }
    let components = square_components(alloc, squares)?;
    let loops = plane_loops(alloc, squares, is_up_first(out))?;
    grouped(alloc, squares, &components, loops)
}

/// Puts the faces of the marked cells in a plane at the end of the list, in order. An `Err` is out
/// of memory.
pub fn add_plane_faces(
    alloc: Global,
    cells: &CellRows,
    out: Out,
    at: usize,
    faces: &mut Vec<Face>,
) -> Result<(), Memory>
    requires { at ≤ 1024 }
    ensures { IfOk result (λ done. (new : List FaceParts)
        × (faces.new.items ≡ faces.old.items ++ new)
        × AreFacesInPlane (is_marked cells.now) out (pos at) new) }
{
    let squares = plane_squares(alloc, cells, out, at)?;
    let groups = loops_of_faces(alloc, &squares, out)?;
    add_faces(alloc, out, at, groups.as_slice(), faces)
}

/// The faces of squares in a plane, in order. Plane and squares are told by the numbers of a grid's
/// coordinates, and the faces stand in its space. An `Err` is out of memory.
pub fn faces_of_squares(
    alloc: Global,
    grid: &Grid,
    squares: &Squares,
    out: Out,
    at: usize,
) -> Result<Vec<Face>, Memory>
    requires at { at ≤ 1024 }
    requires grid { LieOnGrid (coordinates_of grid.now) squares.now out (pos at) }
    ensures { IfOk result (λ faces. (numbered : List FaceParts)
        × AreFacesOfSquares squares.now out (pos at) numbered
        × (faces.items ≡ map (face_in_space (grid_planes (coordinates_of grid.now))) numbered)) }
{
    let groups = loops_of_faces(alloc, squares, out)?;
    let mut faces = Vec::new(alloc);
    add_faces(alloc, out, at, groups.as_slice(), &mut faces)?;
    put_faces(grid, faces.as_mut_slice());
    Ok(faces)
}
