//! Lines of a drawing sheet.

use crate::frame::View;
use crate::segment::Style;
use std::marker::Model;

/// A line of a view, from (x0, y0) to (x1, y1) on the sheet; `line` is the number of the file's
/// line at which its entity begins. It is level or upright, its style is Dashed or Solid, and no
/// coordinate's size is above 1,000,000,000.
#[derive(Clone, Copy, Debug)]
pub struct SheetLine {
    pub view: View,
    pub style: Style,
    pub x0: i64,
    pub y0: i64,
    pub x1: i64,
    pub y1: i64,
    pub line: u32,
}

impl Model for SheetLine {
    ghost use Rattle.solid_model.specs.Line.{Line, IsKept};

    ghost Value = { Line };

    ghost view = { λ s. record {
      of = s.view;
      style = s.style;
      x0 = s.x0;
      y0 = s.y0;
      x1 = s.x1;
      y1 = s.y1;
      number = s.line;
    } };

    ghost invariant = { λ s. IsKept record {
      of = s.view;
      style = s.style;
      x0 = s.x0;
      y0 = s.y0;
      x1 = s.x1;
      y1 = s.y1;
      number = s.line;
    } };

    ghost inverse = { λ l. record {
      view = l.of;
      style = l.style;
      x0 = l.x0;
      y0 = l.y0;
      x1 = l.x1;
      y1 = l.y1;
      line = l.number;
    } };
}
