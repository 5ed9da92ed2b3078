//! The corners of a rectangle, by number.

ghost use Rattle.std.specs.Prelude.{◌≡◌, pos, ◌<ℤ◌};
ghost use Rattle.stl_out.specs.Numbered.{corners_of};

use crate::halves::place;
use crate::rectangle::Rectangle;
use solid_model::Cell;

/// The corners of a rectangle, by the numbers of their coordinates: from the least one on,
/// counterclockwise as seen from outside.
#[derive(Clone, Copy)]
pub struct Corners {
    pub p: Cell,
    pub q: Cell,
    pub r: Cell,
    pub s: Cell,
}

/// The corners of a rectangle.
pub fn corner_numbers(rectangle: &Rectangle) -> Corners
    requires right { rectangle.now.right <ℤ pos 1024 }
    requires up { rectangle.now.up <ℤ pos 1024 }
    ensures { result ≡ corners_of rectangle.now }
{
    let Rectangle { out, at, right, up } = *rectangle;
    let (far, above) = (right + 1, up + 1);
    Corners {
        p: place(out, at, right, up),
        q: place(out, at, far, up),
        r: place(out, at, far, above),
        s: place(out, at, right, above),
    }
}
