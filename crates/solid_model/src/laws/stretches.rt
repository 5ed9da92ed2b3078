//! The law of maximal stretches of whole numbers.

ghost use Rattle.std.specs.Prelude.{◌≡◌, Bool, ℤ, ◌<ℤ◌, ◌≤ℤ◌, IsTrue};
ghost use Rattle.solid_model.specs.Stretches.{IsStretch};

/// Where all places that pass a test lie between two bounds, each of them is on a maximal stretch
/// of such places, and on one alone.
pub fn maximal_stretches()
    ensures some { (p : ℤ → Bool) (low high : ℤ)
        → ((z : ℤ) → IsTrue (p z) → (low ≤ℤ z) × (z <ℤ high))
        → (z : ℤ) → IsTrue (p z)
        → (from : ℤ) × (to : ℤ) × IsStretch p from to × (from ≤ℤ z) × (z <ℤ to) }
    ensures one { (p : ℤ → Bool) (from to other end : ℤ) → IsStretch p from to
        → IsStretch p other end
        → (z : ℤ) → from ≤ℤ z → z <ℤ to → other ≤ℤ z → z <ℤ end → (from ≡ other) × (to ≡ end) }
{}
