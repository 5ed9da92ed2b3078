//! Rectangles as the text of their two triangles.

ghost use Rattle.std.specs.Prelude.{◌≡◌, ◌++◌, ◌+◌, ◌≤◌, length, codes, OnOk};
ghost use Rattle.std.specs.Fmt.{signed_decimal};
ghost use Rattle.face_laws.specs.GridFaces.{grid_planes, point_of_numbers};
ghost use Rattle.solid_model.specs.Panels.{coordinates_of};
ghost use Rattle.stl_out.specs.Numbered.{AreShort, IsGridPoint, IsOfGrid};
ghost use Rattle.stl_out.specs.Pieces.{rectangle_text};
ghost use Rattle.stl_out.specs.StlText.{outward_step, numbers_text, facet_text};

use crate::corner_parts::CornerParts;
use crate::rectangle::Rectangle;
use crate::rectangle_corners::{Corners, corner_numbers};
use itoa::Buffer;
use solid_model::{Cell, Out};
use std::alloc::AllocError;

/// The first lines of a triangle: its normal, the step of 1 outwards, and that its corners come.
fn first_lines(out: Out) -> &'static str
    ensures text { result.now
        ≡ numbers_text (codes "facet normal") (outward_step out) ++ codes "outer loop\n" }
    ensures few { length result.now ≤ 31 }
{
    match out {
        Out::MinusX => "facet normal -1 0 0\nouter loop\n",
        Out::PlusX => "facet normal 1 0 0\nouter loop\n",
        Out::MinusY => "facet normal 0 -1 0\nouter loop\n",
        Out::PlusY => "facet normal 0 1 0\nouter loop\n",
        Out::MinusZ => "facet normal 0 0 -1\nouter loop\n",
        Out::PlusZ => "facet normal 0 0 1\nouter loop\n",
    }
}

/// Adds a number behind a blank.
pub fn push_number(text: &mut Vec<u8>, number: i64) -> Result<(), AllocError>
    ensures text { OnOk result (text.new.items
        ≡ text.old.items ++ (codes " " ++ signed_decimal number)) }
    ensures few { OnOk result (length text.new.items ≤ length text.old.items + 41) }
{
    let mut buffer = Buffer::new();
    text.extend_from_slice(b" ")?;
    text.extend_from_slice(buffer.format(number).as_bytes())?;
    Ok(())
}

/// Adds the line of a corner, by the numbers of its coordinates.
fn push_corner(text: &mut Vec<u8>, parts: &CornerParts<'_>, corner: Cell) -> Result<(), AllocError>
    requires { IsGridPoint (coordinates_of parts.now) corner }
    ensures text { OnOk result (text.new.items ≡ text.old.items ++ numbers_text (codes "vertex")
        (point_of_numbers (grid_planes (coordinates_of parts.now)) corner)) }
    ensures few { OnOk result (length text.new.items ≤ length text.old.items + 180) }
{
    text.extend_from_slice(parts.head(corner.x, corner.y))?;
    text.extend_from_slice(parts.end(corner.z))?;
    Ok(())
}

/// Adds the triangle with these corners.
fn push_facet(
    text: &mut Vec<u8>,
    parts: &CornerParts<'_>,
    out: Out,
    a: Cell,
    b: Cell,
    c: Cell,
) -> Result<(), AllocError>
    requires a { IsGridPoint (coordinates_of parts.now) a }
    requires b { IsGridPoint (coordinates_of parts.now) b }
    requires c { IsGridPoint (coordinates_of parts.now) c }
    ensures text { OnOk result (text.new.items ≡ text.old.items ++ facet_text (record {
      out = out;
      a = point_of_numbers (grid_planes (coordinates_of parts.now)) a;
      b = point_of_numbers (grid_planes (coordinates_of parts.now)) b;
      c = point_of_numbers (grid_planes (coordinates_of parts.now)) c;
    })) }
    ensures few { OnOk result (length text.new.items ≤ length text.old.items + 600) }
{
    text.extend_from_slice(first_lines(out).as_bytes())?;
    push_corner(text, parts, a)?;
    push_corner(text, parts, b)?;
    push_corner(text, parts, c)?;
    text.extend_from_slice(b"endloop\nendfacet\n")?;
    Ok(())
}

/// Adds the two triangles of a rectangle, each from its least corner on.
pub fn push_rectangle(
    text: &mut Vec<u8>,
    parts: &CornerParts<'_>,
    rectangle: &Rectangle,
) -> Result<(), AllocError>
    requires few { AreShort (coordinates_of parts.now) }
    requires numbered { IsOfGrid (coordinates_of parts.now) rectangle.now }
    ensures text { OnOk result (text.new.items ≡ text.old.items
        ++ rectangle_text (grid_planes (coordinates_of parts.now)) rectangle.now) }
    ensures few { OnOk result (length text.new.items ≤ length text.old.items + 1200) }
{
    let Corners { p, q, r, s } = corner_numbers(rectangle);
    push_facet(text, parts, rectangle.out, p, q, r)?;
    push_facet(text, parts, rectangle.out, p, r, s)?;
    Ok(())
}
