//! The styles of a grid's segments.

ghost use Rattle.std.specs.Prelude.{◌≡◌, ◌↔◌, IsTrue};
ghost use Rattle.solid_model.specs.Wire.{is_some_drawn};

use crate::per_view::PerView;
use crate::segment::Style;
use std::marker::Model;

/// The styles of a view's grid segments. Level ones stand by position upwards, then by cell to the
/// right; upright ones by position to the right, then by cell upwards.
#[derive(Debug, Drop)]
pub struct Panel {
    pub level: Vec<Style>,
    pub upright: Vec<Style>,
}

impl Model for Panel {
    ghost use Rattle.solid_model.specs.Panels.{PanelStyles};

    ghost Value = { PanelStyles };

    ghost view = { λ s. record { level = s.level.items; upright = s.upright.items } };
}

/// The styles are the same. Two lists of one length are looked at to their end, so that no look
/// waits for the one before.
fn same_styles(styles: &[Style], others: &[Style]) -> bool
    ensures { IsTrue result ↔ (styles.now ≡ others.now) }
{
    if styles.len() != others.len() {
        return false;
    }
    let mut same = true;
    for at in 0..styles.len() {
        same = same & (styles[at] == others[at]);
    }
    same
}

/// Whether some style isn't Blank.
fn is_some_drawn(styles: &[Style]) -> bool
    ensures { result ≡ is_some_drawn styles.now }
{
    styles.iter().any(|style| *style != Style::Blank)
}

impl Panel {
    ghost use Rattle.std.specs.Prelude.{◌≡◌, ◌↔◌, IsTrue};
    ghost use Rattle.solid_model.specs.Panels.{styles_along};
    ghost use Rattle.solid_model.specs.Wire.{shows_something};

    /// The styles of the level, or of the upright, segments.
    pub fn along(&self, upright: bool) -> &[Style]
        ensures { result.now ≡ styles_along upright self.now }
    {
        if upright {
            self.upright.as_slice()
        } else {
            self.level.as_slice()
        }
    }

    /// Whether some segment isn't Blank.
    pub fn shows_something(&self) -> bool
        ensures { result ≡ shows_something self.now }
    {
        is_some_drawn(&self.level) || is_some_drawn(&self.upright)
    }

    /// Both have the same styles.
    pub fn same(&self, other: &Panel) -> bool
        ensures { IsTrue result ↔ (self.now ≡ other.now) }
    {
        same_styles(&self.level, &other.level) && same_styles(&self.upright, &other.upright)
    }
}

/// The styles of the grid segments of three views.
pub type Panels = PerView<Panel>;

impl PerView<Panel> {
    ghost use Rattle.std.specs.Prelude.{◌≡◌, ◌↔◌, IsTrue};

    /// Both have the same styles in each view.
    pub fn same(&self, other: &Panels) -> bool
        ensures { IsTrue result ↔ (self.now ≡ other.now) }
    {
        self.front.same(&other.front) && self.top.same(&other.top) && self.side.same(&other.side)
    }
}
