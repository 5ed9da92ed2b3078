//! The cubes of made solids.

ghost use Rattle.std.specs.Prelude.{◌≡◌, ◌≤◌};
ghost use Rattle.drawing_maker.specs.Cubes.{cube_side, is_odd_place, is_void};

/// The kind of a cube: a full cube of side 1, one of side 3 with a void in its middle, or one of
/// side 5 with eight voids.
#[derive(Clone, Copy, Debug, PartialEq, Eq)]
pub enum Kind {
    UnitCube,
    HollowCube,
    EightVoids,
}

impl Kind {
    /// The side at scale 1.
    pub fn side(self) -> u32
        ensures side { result ≡ cube_side self }
        ensures few { result ≤ 5 }
    {
        match self {
            Kind::UnitCube => 1,
            Kind::HollowCube => 3,
            Kind::EightVoids => 5,
        }
    }

    /// The cell at these places of the cube at scale 1 is empty.
    pub fn is_void(self, x: u32, y: u32, z: u32) -> bool
        ensures { result ≡ is_void self record { x = x; y = y; z = z } }
    {
        match self {
            Kind::UnitCube => false,
            Kind::HollowCube => x == 1 && (y == 1 && z == 1),
            Kind::EightVoids => is_odd_place(x) && (is_odd_place(y) && is_odd_place(z)),
        }
    }
}

/// A cube on the diagonal: its kind, by how much it is enlarged, and the coordinate along each axis
/// at which it begins.
#[derive(Clone, Copy)]
pub struct Cube {
    pub kind: Kind,
    pub scale: u32,
    pub origin: u32,
}

/// The place is 1 or 3.
fn is_odd_place(place: u32) -> bool
    ensures { result ≡ is_odd_place place }
{
    place == 1 || place == 3
}
