//! The limits of a search.

use std::marker::Model;

/// How many live prefixes (`nodes`) and how many solids a search may come to: 1 to 4,000,000, and
/// 1 to 65,536.
#[derive(Clone, Copy, Debug)]
pub struct Limits {
    pub nodes: u64,
    pub solids: u32,
}

impl Model for Limits {
    ghost use Rattle.solid_model.specs.Search.{SearchLimits};
    ghost use Rattle.solid_model.specs.SearchEnds.{AreLimits};

    ghost Value = { SearchLimits };

    ghost view = { λ s. record { nodes = s.nodes; solids = s.solids } };

    ghost invariant = { λ s. AreLimits record { nodes = s.nodes; solids = s.solids } };

    ghost inverse = { λ l. record { nodes = l.nodes; solids = l.solids } };
}

impl Limits {
    /// The limits where none are asked for: 1,000,000 nodes and 4,096 solids.
    pub const DEFAULT: Limits = Limits {
        nodes: 1_000_000,
        solids: 4096,
    };
}
