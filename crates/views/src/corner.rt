//! Where a view begins on the sheet.

ghost use Rattle.std.specs.Prelude.{◌≡◌, ◌&&◌};
ghost use Rattle.solid_model.specs.Drawings.{same_view, has_length};
ghost use Rattle.solid_model.specs.Line.{IsNear, IsKept};

use solid_model::{SheetLine, View};

/// The least right and the least up coordinate of a view's lines that have length.
#[derive(Clone, Copy, Debug)]
pub struct Corner {
    pub right: i64,
    pub up: i64,
    ghost near_right: { IsNear right },
    ghost near_up: { IsNear up },
}

/// The line covers segments of the view: it is the view's and has length.
fn covers_in(line: &SheetLine, view: View) -> bool
    ensures value { result ≡ (same_view view line.now.of && has_length line.now) }
    ensures kept { IsKept line.now }
{
    view == line.view && (line.x0 != line.x1 || line.y0 != line.y1)
}

impl Corner {
    ghost use Rattle.std.specs.Prelude.{◌≡◌, [], IfNone, IfSome};
    ghost use Rattle.solid_model.specs.Drawings.{covering_lines};
    ghost use Rattle.solid_model.specs.Segments.{along_of, across_of};
    ghost use Rattle.solid_model.specs.Line.{IsNear, IsKept};
    ghost use Rattle.lemmas.specs.Lists.{Each};
    ghost use Rattle.views.specs.Corners.{IsCornerOf, IsCornerOfLine, IsLeastOf};

    /// The corner of a point.
    fn at(right: i64, up: i64) -> Corner
        requires { IsNear right × IsNear up }
        ensures right { result.right ≡ right }
        ensures up { result.up ≡ up }
    {
        Corner { right, up }
    }

    /// The corner of a line, which is the least of its two ends.
    fn of_line(line: &SheetLine) -> Corner
        ensures { IsCornerOfLine line.now result }
    {
        Corner::at(line.x0, line.y0).least(Corner::at(line.x1, line.y1))
    }

    /// The least of each coordinate.
    fn least(self, other: Corner) -> Corner
        ensures { IsLeastOf self other result }
    {
        Corner {
            right: self.right.min(other.right),
            up: self.up.min(other.up),
        }
    }

    /// Its coordinate along level or upright lines.
    pub fn along(self, upright: bool) -> i64
        ensures value { result ≡ along_of upright self.right self.up }
        ensures near { IsNear result }
    {
        if upright { self.up } else { self.right }
    }

    /// And across them.
    pub fn across(self, upright: bool) -> i64
        ensures value { result ≡ across_of upright self.right self.up }
        ensures near { IsNear result }
    {
        if upright { self.right } else { self.up }
    }

    /// Where the view begins; `None` where its lines cover nothing. Each line that is looked at is
    /// kept.
    pub fn of_view(view: View, lines: &[SheetLine]) -> Option<Corner>
        ensures none { IfNone result (covering_lines view lines.now ≡ []) }
        ensures some { IfSome result (IsCornerOf view lines.now) }
        ensures kept { Each IsKept lines.now }
    {
        let mut corner: Option<Corner> = None;
        for line in lines {
            if covers_in(line, view) {
                let own = Corner::of_line(line);
                corner = Some(match corner {
                    None => own,
                    Some(corner) => corner.least(own),
                });
            }
        }
        corner
    }
}
