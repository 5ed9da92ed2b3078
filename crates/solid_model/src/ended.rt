//! The end of a search.

use crate::choice::Choice;
use std::marker::Model;

/// How a search ended.
#[derive(Clone, Copy, Debug, PartialEq, Eq)]
pub enum EndKind {
    /// Both limits were kept.
    Whole,
    /// There are more live prefixes than the limit of nodes.
    CutNodes,
    /// There are more solids than their limit.
    CutSolids,
}

/// The end of a search: how it ended, how many live prefixes it opened, and the choices that it
/// found, in the stated order.
#[derive(Debug, Drop)]
pub struct Ended {
    pub kind: EndKind,
    pub opened: u64,
    pub solids: Vec<Choice>,
}

impl Model for Ended {
    ghost use Rattle.solid_model.specs.SearchEnds.{SearchEnd};

    ghost Value = { SearchEnd };

    ghost view = { λ s. record { kind = s.kind; opened = s.opened; solids = s.solids.items } };
}
