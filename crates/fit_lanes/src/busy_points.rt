//! The points of a view's grid at which something may be drawn. On a fine grid they are few: beside
//! most points no block stands, so that no choice draws anything there.

ghost use Rattle.std.specs.Prelude.{◌≡◌, ◌≤◌, ◌<◌, ◌+◌, ◌-◌, [], length, slice_index_or, IsTrue, IfOk};
ghost use Rattle.fit_lanes.specs.Busy.{IsBare, AreBusy, IsNoLater};

use crate::points::across_of;
use cell_rows::RowSpans;
use solid_model::Memory;
use std::alloc::Global;

/// The column at a place is of no block.
fn is_empty(sights: &RowSpans, place: usize) -> bool
    requires { place < length sights.now }
    ensures { IsTrue result → slice_index_or sights.now place [] ≡ [] }
{
    sights.row(place).is_empty()
}

/// The columns beside a point are of no block: that after the lines that begin there, which stands
/// at this place, and those before them.
fn is_bare(sights: &RowSpans, stride: usize, after: usize) -> bool
    requires stride { 1 ≤ stride }
    requires apart { stride ≤ after }
    requires there { after < length sights.now }
    ensures { IsTrue result → IsBare sights.now stride (after - stride) }
{
    if !is_empty(sights, after) {
        return false;
    }
    if !is_empty(sights, after - 1) {
        return false;
    }
    is_empty(sights, after - stride)
}

/// The first upright, or level, line on which one of some points stands, in rows of so many.
pub fn first_busy(points: &[usize], stride: usize, upright: bool) -> usize
    requires { 1 ≤ stride }
    ensures { IsNoLater stride upright points.now result }
{
    let mut first = usize::MAX;
    for point in points {
        first = first.min(across_of(upright, *point % stride, *point / stride));
    }
    first
}

/// The points of which that isn't so, in rows of so many.
pub fn busy_points(alloc: Global, sights: &RowSpans, stride: usize) -> Result<Vec<usize>, Memory>
    requires stride { 1 ≤ stride }
    requires enough { stride ≤ length sights.now }
    ensures { IfOk result (λ points. AreBusy sights.now stride (length sights.now - stride)
        points.items) }
{
    let mut points = Vec::new(alloc);
    for after in stride..sights.count() {
        if !is_bare(sights, stride, after) {
            points.push(after - stride)?;
        }
    }
    Ok(points)
}
