//! The planes of a box in which boundary squares of its marked cells have changed.

ghost use Rattle.std.specs.Prelude.{◌≡◌, ◌<◌, ℕ, Bool, false, length};
ghost use Rattle.cell_rows.specs.Planes.{is_across, ends_at, EndAlikeBeside};
ghost use Rattle.lemmas.specs.Bits.{is_set};

use crate::bit_places::has_bit;
use solid_model::{Axis, Out};

/// Planes across an axis, as words whose bit k is the plane at number k: of those whose outward
/// side is along the axis, and of those whose outward side is against it.
#[derive(Clone, Copy, Debug)]
pub struct PlanesAcross {
    pub forward: u64,
    pub backward: u64,
}

/// Planes across each axis, of both outward sides.
#[derive(Clone, Copy, Debug)]
pub struct ChangedPlanes {
    pub x: PlanesAcross,
    pub y: PlanesAcross,
    pub z: PlanesAcross,
}

/// The planes in which the cells of a row have a boundary square.
fn planes_of_row(row: u64) -> PlanesAcross
    ensures { (forward : Bool) (k : ℕ) → k < 64
        → is_across result forward k ≡ ends_at (is_set row) forward k }
{
    let before = row << 1;
    PlanesAcross {
        forward: before & !row,
        backward: row & !before,
    }
}

/// Planes, and those in which only one of two rows has a boundary square.
fn with_row(planes: PlanesAcross, row: u64, other: u64) -> PlanesAcross
    ensures { (forward : Bool) (k : ℕ) → k < 64 → is_across result forward k ≡ false
        → (is_across planes forward k ≡ false)
        × (ends_at (is_set row) forward k ≡ ends_at (is_set other) forward k) }
{
    if row == other {
        return planes;
    }
    let (own, others) = (planes_of_row(row), planes_of_row(other));
    PlanesAcross {
        forward: planes.forward | (own.forward ^ others.forward),
        backward: planes.backward | (own.backward ^ others.backward),
    }
}

/// The planes in which only one of two rows at the same place has a boundary square.
pub(crate) fn planes_between(rows: &[u64], others: &[u64]) -> PlanesAcross
    requires { length rows.now ≡ length others.now }
    ensures { EndAlikeBeside result rows.now others.now (length rows.now) }
{
    let mut planes = PlanesAcross {
        forward: 0,
        backward: 0,
    };
    for place in 0..rows.len() {
        planes = with_row(planes, rows[place], others[place]);
    }
    planes
}

impl ChangedPlanes {
    ghost use Rattle.std.specs.Prelude.{◌≡◌, ◌<◌};
    ghost use Rattle.cell_rows.specs.Planes.{is_plane_of};

    /// The plane at a number is one of them, with this outward side.
    pub fn has(self, out: Out, at: usize) -> bool
        requires { at < 64 }
        ensures { result ≡ is_plane_of self out at }
    {
        let direction = out.direction();
        let across = match direction.axis {
            Axis::X => self.x,
            Axis::Y => self.y,
            Axis::Z => self.z,
        };
        if direction.forward {
            has_bit(across.forward, at)
        } else {
            has_bit(across.backward, at)
        }
    }
}
