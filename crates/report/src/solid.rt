//! The lines of a solid: how it is chosen, and its faces.

ghost use Rattle.std.specs.Prelude.{◌≡◌, ◌≤◌, ◌∷◌, ◌++◌, OnOk};
ghost use Rattle.std.specs.List.{flat_map};
ghost use Rattle.solid_model.specs.Limits.{most_decimals};
ghost use Rattle.decimal_texts.specs.Decimals.{decimal_text};
ghost use Rattle.report.specs.Texts.{side_name, corner_text, loop_text, face_text};
ghost use Rattle.report.specs.Texts.{solid_line};

use crate::text::{push_choice, push_number};
use decimal_texts::push_decimal;
use solid_model::{Cell, Choice, Face, Loop, Memory, Out};

/// An outward side, by the sign and the letter of its direction.
fn side_name(out: Out) -> &'static str
    ensures { result.now ≡ side_name out }
{
    match out {
        Out::MinusX => "-x",
        Out::PlusX => "+x",
        Out::MinusY => "-y",
        Out::PlusY => "+y",
        Out::MinusZ => "-z",
        Out::PlusZ => "+z",
    }
}

/// Adds a coordinate with so many decimals, behind what sets it off.
fn push_coordinate(
    text: &mut Vec<u8>,
    before: u8,
    coordinate: i64,
    decimals: u8,
) -> Result<(), Memory>
    requires { decimals ≤ most_decimals }
    ensures { OnOk result (text.new.items
        ≡ text.old.items ++ before ∷ decimal_text decimals coordinate) }
{
    text.push(before)?;
    push_decimal(text, coordinate, decimals)?;
    Ok(())
}

/// Adds a corner of a loop, behind a blank.
fn push_corner(text: &mut Vec<u8>, corner: Cell, decimals: u8) -> Result<(), Memory>
    requires { decimals ≤ most_decimals }
    ensures { OnOk result (text.new.items ≡ text.old.items ++ corner_text decimals corner) }
{
    push_coordinate(text, b' ', corner.x, decimals)?;
    push_coordinate(text, b',', corner.y, decimals)?;
    push_coordinate(text, b',', corner.z, decimals)?;
    Ok(())
}

/// Adds corners, in their order.
fn push_corners(text: &mut Vec<u8>, corners: &[Cell], decimals: u8) -> Result<(), Memory>
    requires { decimals ≤ most_decimals }
    ensures { OnOk result (text.new.items
        ≡ text.old.items ++ flat_map (corner_text decimals) corners.now) }
{
    for corner in corners {
        push_corner(text, *corner, decimals)?;
    }
    Ok(())
}

/// Adds loops, in their order, each behind a blank.
fn push_loops(text: &mut Vec<u8>, loops: &[Loop], decimals: u8) -> Result<(), Memory>
    requires { decimals ≤ most_decimals }
    ensures { OnOk result (text.new.items
        ≡ text.old.items ++ flat_map (loop_text decimals) loops.now) }
{
    for border in loops {
        text.extend_from_slice(b" loop")?;
        push_corners(text, border.corners.as_slice(), decimals)?;
    }
    Ok(())
}

/// Adds the line of a face.
fn push_face(text: &mut Vec<u8>, face: &Face, decimals: u8) -> Result<(), Memory>
    requires { decimals ≤ most_decimals }
    ensures { OnOk result (text.new.items ≡ text.old.items ++ face_text decimals face.now) }
{
    text.extend_from_slice(b"face ")?;
    text.extend_from_slice(side_name(face.out).as_bytes())?;
    text.extend_from_slice(b" at ")?;
    push_decimal(text, face.at, decimals)?;
    push_loops(text, face.loops.as_slice(), decimals)?;
    text.extend_from_slice(b"\n")?;
    Ok(())
}

/// Adds the lines of faces, in their order. Their coordinates have so many decimals.
pub fn push_faces(text: &mut Vec<u8>, faces: &[Face], decimals: u8) -> Result<(), Memory>
    requires { decimals ≤ most_decimals }
    ensures { OnOk result (text.new.items
        ≡ text.old.items ++ flat_map (face_text decimals) faces.now) }
{
    for face in faces {
        push_face(text, face, decimals)?;
    }
    Ok(())
}

/// Adds the first line of a solid.
pub fn push_solid_line(
    text: &mut Vec<u8>,
    number: u32,
    choice: &Choice,
    volume: u128,
    faces: u128,
) -> Result<(), Memory>
    ensures { OnOk result (text.new.items
        ≡ text.old.items ++ solid_line number choice.now volume faces) }
{
    text.extend_from_slice(b"solid ")?;
    push_number(text, number)?;
    text.extend_from_slice(b" choice ")?;
    push_choice(text, choice)?;
    text.extend_from_slice(b" volume ")?;
    push_number(text, volume)?;
    text.extend_from_slice(b" faces ")?;
    push_number(text, faces)?;
    text.extend_from_slice(b"\n")?;
    Ok(())
}
