//! What a layer has to show, from where on the grid it begins.

ghost use Rattle.std.specs.Prelude.{◌≡◌, ◌↔◌, ◌&&◌, IsTrue, IfOk, MatchOption};

use crate::wanted::wanted_bytes;
use further_views::AskedView;
use solid_model::{Memory, Problem};
use std::alloc::Global;
use std::marker::Model;

/// What a layer that is asked for has to show on a problem's grid, where what is drawn begins at
/// an upright and a level line of these numbers. Contracts see the layer with its runs, and where.
#[derive(Debug, Drop)]
pub struct WantedView<'a> {
    problem: &'a Problem,
    asked: &'a AskedView,
    right: usize,
    up: usize,
    level: Option<Vec<u8>>,
    upright: Option<Vec<u8>>,
}

impl<'a> Model for WantedView<'a> {
    ghost use Rattle.std.specs.Prelude.{true, false, MatchOption};
    ghost use Rattle.fit_lanes.specs.Wanted.{AreWantedBytes, AreNeverDrawn, WantedParts};
    ghost use Rattle.solid_model.specs.Panels.{coordinates_of};

    ghost Value = { WantedParts };

    ghost view = { λ s. record {
      asked = record { problem = s.problem.now; asked = s.asked.now };
      right = s.right;
      up = s.up;
    } };

    ghost invariant = { λ s. MatchOption s.level
        (AreNeverDrawn (coordinates_of s.problem.now.grid) s.asked.now.layer s.asked.now.runs
        s.right s.up false)
        (λ v. AreWantedBytes (coordinates_of s.problem.now.grid) s.asked.now.layer
        s.asked.now.runs s.right s.up false v.items)
        × MatchOption s.upright
        (AreNeverDrawn (coordinates_of s.problem.now.grid) s.asked.now.layer s.asked.now.runs
        s.right s.up true)
        (λ v. AreWantedBytes (coordinates_of s.problem.now.grid) s.asked.now.layer
        s.asked.now.runs s.right s.up true v.items) };
}

/// The bytes are the wanted ones.
fn are_wanted(wanted: &Option<Vec<u8>>, drawn: &[u8]) -> bool
    ensures { IsTrue result ↔ MatchOption wanted.now ⊥ (λ bytes. drawn.now ≡ bytes.items) }
{
    match wanted {
        Some(bytes) => drawn == bytes.as_slice(),
        None => false,
    }
}

/// Both are true.
fn both(level: bool, upright: bool) -> bool
    ensures { result ≡ (level && upright) }
{
    level && upright
}

impl<'a> WantedView<'a> {
    ghost use Rattle.std.specs.Prelude.{◌≡◌, ◌↔◌, IsTrue, IfOk};
    ghost use Rattle.fit_lanes.specs.Wanted.{TellsPlaced};

    /// What is wanted where it begins at these lines. An `Err` is out of memory.
    pub fn at(
        alloc: Global,
        problem: &'a Problem,
        asked: &'a AskedView,
        right: usize,
        up: usize,
    ) -> Result<WantedView<'a>, Memory>
        ensures { IfOk result (λ wanted. wanted ≡ record {
          asked = record { problem = problem.now; asked = asked.now };
          right = right;
          up = up;
        }) }
    {
        let grid = problem.grid();
        let (layer, shown) = (asked.layer, &asked.lines);
        let level = wanted_bytes(alloc, grid, layer, shown, right, up, false)?;
        let upright = wanted_bytes(alloc, grid, layer, shown, right, up, true)?;
        Ok(WantedView {
            problem,
            asked,
            right,
            up,
            level,
            upright,
        })
    }

    /// It is wanted at these lines.
    fn is_at(&self, right: usize, up: usize) -> bool
        ensures { IsTrue result ↔ ((self.now.right ≡ right) × (self.now.up ≡ up)) }
    {
        self.right == right && self.up == up
    }

    /// Whether these bytes of level and of upright segments tell what is wanted.
    fn is_told(&self, level: &[u8], upright: &[u8]) -> bool
        ensures { TellsPlaced self.now level.now upright.now result }
    {
        let level_told = are_wanted(&self.level, level);
        let upright_told = are_wanted(&self.upright, upright);
        both(level_told, upright_told)
    }

    /// The same where what is drawn begins at these lines, which is kept in mind. An `Err` is out of
    /// memory; none comes where it last began there too.
    pub fn is_told_at(
        &mut self,
        alloc: Global,
        right: usize,
        up: usize,
        level: &[u8],
        upright: &[u8],
    ) -> Result<bool, Memory>
        ensures same { self.new.asked ≡ self.old.asked }
        ensures told { IfOk result (λ yes. TellsPlaced
            (record { asked = self.old.asked; right = right; up = up }) level.now upright.now
            yes) }
    {
        if self.is_at(right, up) {
            return Ok(self.is_told(level, upright));
        }
        let placed = WantedView::at(alloc, self.problem, self.asked, right, up)?;
        let told = placed.is_told(level, upright);
        *self = placed;
        Ok(told)
    }
}
