//! Finite graphs.

ghost use Rattle.std.specs.Prelude.{◌≡◌, ◌↔◌, ℕ, ◌<◌, Option, IfSome};
ghost use Rattle.flood.specs.Graph.{Leads};

/// A finite graph, whose nodes are numbered from 0. From each node there are as many ways; some of
/// them lead to a node.
pub trait Graph {
    /// How many nodes there are.
    ghost nodes: { Self → ℕ };

    /// A step leads from a node to another.
    ghost steps: { Self → ℕ → ℕ → Type 0 };

    /// How many ways there are from each node.
    ghost ways: { Self → ℕ };

    /// The node to which a way leads from a node.
    ghost next: { Self → ℕ → ℕ → Option ℕ };

    /// How many nodes there are.
    fn node_count(&self) -> usize
        ensures { result ≡ nodes self.now };

    /// How many ways there are from each node: steps are what ways lead to.
    fn way_count(&self) -> usize
        ensures count { result ≡ ways self.now }
        ensures steps { (a b : ℕ) → a < nodes self.now
            → steps self.now a b ↔ Leads (ways self.now) (next self.now) a b };

    /// The node to which a way leads from a node.
    fn neighbour(&self, node: usize, way: usize) -> Option<usize>
        requires node { node < nodes self.now }
        requires way { way < ways self.now }
        ensures next { result ≡ next self.now node way }
        ensures inside { IfSome result (λ b. b < nodes self.now) };
}
