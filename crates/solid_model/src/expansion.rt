//! What is reported of a piece of a problem.

use crate::choice::Choice;
use crate::prefix::Prefix;
use crate::problem::Problem;
use std::marker::Model;
use std::sync::Arc;

/// A report of a piece of a problem, which is a prefix: how many live prefixes that begin with the
/// piece were opened, which of them are choices, and the rest: prefixes that are still to be
/// expanded. Together they are all live prefixes that begin with the piece.
#[derive(Debug, Drop)]
pub struct Expansion {
    problem: Arc<Problem>,
    piece: Prefix,
    opened: u32,
    found: Vec<Choice>,
    rest: Vec<Prefix>,
}

impl Model for Expansion {
    ghost use Rattle.std.specs.Arc.{arc_value};
    ghost use Rattle.solid_model.specs.Reports.{Report, IsReport};

    ghost Value = { Report };

    ghost view = { λ s. record {
      problem = arc_value s.problem;
      piece = s.piece;
      opened = s.opened;
      found = s.found.items;
      rest = s.rest.items;
    } };

    ghost invariant = { λ s. IsReport record {
      problem = arc_value s.problem;
      piece = s.piece;
      opened = s.opened;
      found = s.found.items;
      rest = s.rest.items;
    } };
}

impl Expansion {
    ghost use Rattle.std.specs.Prelude.{◌≡◌};
    ghost use Rattle.std.specs.Arc.{arc_value};
    ghost use Rattle.solid_model.specs.Reports.{IsReport};

    /// The report of a piece, which is an allowed one.
    pub fn new(
        problem: Arc<Problem>,
        piece: Prefix,
        opened: u32,
        found: Vec<Choice>,
        rest: Vec<Prefix>,
    ) -> Expansion
        requires { IsReport record {
          problem = arc_value problem;
          piece = piece;
          opened = opened;
          found = found.items;
          rest = rest.items;
        } }
        ensures { result ≡ record {
          problem = arc_value problem;
          piece = piece;
          opened = opened;
          found = found.items;
          rest = rest.items;
        } }
    {
        Expansion {
            problem,
            piece,
            opened,
            found,
            rest,
        }
    }

    /// The problem.
    pub fn problem(&self) -> &Arc<Problem>
        ensures problem { arc_value result.now ≡ self.now.problem }
        ensures kept { IsReport self.now }
    {
        &self.problem
    }

    /// The piece that was expanded.
    pub fn piece(&self) -> &Prefix
        ensures { result.now ≡ self.now.piece }
    {
        &self.piece
    }

    /// How many live prefixes were opened.
    pub fn opened(&self) -> u32
        ensures { result ≡ self.now.opened }
    {
        self.opened
    }

    /// The opened ones that say of every block whether it is full.
    pub fn found(&self) -> &[Choice]
        ensures { result.now ≡ self.now.found }
    {
        self.found.as_slice()
    }

    /// The prefixes that are still to be expanded.
    pub fn rest(&self) -> &[Prefix]
        ensures { result.now ≡ self.now.rest }
    {
        self.rest.as_slice()
    }

    /// The same, handed over.
    pub fn take_rest(self) -> Vec<Prefix>
        ensures { result.items ≡ self.rest }
    {
        self.rest
    }
}
