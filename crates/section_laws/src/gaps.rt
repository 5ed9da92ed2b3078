//! In which gap of a grid a plane across the sight cuts.

ghost use Rattle.std.specs.Prelude.{◌≡◌, ◌↔◌, ◌<◌, None, ℕ, suc, length, IsTrue, IfSome};
ghost use Rattle.section_laws.specs.CutGaps.{EndsBehind, IsFirstGap, ReachesPlane, gap_at};

/// A gap's far end stands behind a plane.
fn ends_behind(coordinates: &[i64], forward: bool, gap: usize, plane: i64) -> bool
    requires { suc gap < length coordinates.now }
    ensures { IsTrue result ↔ EndsBehind forward coordinates.now plane gap }
{
    if forward {
        plane < coordinates[gap + 1]
    } else {
        coordinates[gap] < plane
    }
}

/// The gap at a place along the sight, of so many.
fn gap_at(forward: bool, gaps: usize, place: usize) -> usize
    requires { place < gaps }
    ensures { result ≡ gap_at forward gaps place }
{
    if forward { place } else { gaps - 1 - place }
}

/// The first gap along the sight whose far end stands behind a plane.
pub fn first_gap(coordinates: &[i64], forward: bool, plane: i64) -> Option<usize>
    ensures some { IfSome result (IsFirstGap forward coordinates.now plane) }
    ensures none { result ≡ None → (m : ℕ) → suc m < length coordinates.now
        → EndsBehind forward coordinates.now plane m → ⊥ }
{
    let gaps = coordinates.len().saturating_sub(1);
    for place in 0..gaps {
        let gap = gap_at(forward, gaps, place);
        if ends_behind(coordinates, forward, gap, plane) {
            return Some(gap);
        }
    }
    None
}

/// A gap's near end doesn't stand behind a plane.
fn reaches_plane(coordinates: &[i64], forward: bool, gap: usize, plane: i64) -> bool
    requires { suc gap < length coordinates.now }
    ensures { IsTrue result ↔ ReachesPlane forward coordinates.now plane gap }
{
    if forward {
        coordinates[gap] <= plane
    } else {
        plane <= coordinates[gap + 1]
    }
}

/// The same, where the area is asked for that the plane cuts in the gap.
pub fn holds_left(coordinates: &[i64], forward: bool, gap: usize, plane: i64, area: bool) -> bool
    requires { suc gap < length coordinates.now }
    ensures { IsTrue result ↔ (IsTrue area → ReachesPlane forward coordinates.now plane gap) }
{
    !area || reaches_plane(coordinates, forward, gap, plane)
}
