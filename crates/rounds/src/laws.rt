//! The laws over the definitions. Each is the contract of a function that does nothing.

ghost use Rattle.std.specs.Prelude.{◌≡◌, Bool, ℕ, List};
ghost use Rattle.rounds.specs.SmallRounds.{small_inside, small_next, small_rounds};
ghost use Rattle.rounds.specs.Succession.{IsInside, IsSuccession, IsRoundFrom, AreRounds};
ghost use Rattle.lemmas.specs.Lists.{Each};

/// In a succession each inside node has a round, of inside nodes alone, which comes back to it.
pub fn each_inside_node_has_a_round()
    ensures { (nodes : ℕ) (inside : ℕ → Bool) (next : ℕ → ℕ) → IsSuccession nodes inside next
        → (a : ℕ) → IsInside nodes inside a
        → (round : List ℕ) × IsRoundFrom next a round × Each (IsInside nodes inside) round }
{}

/// There is at most one list of rounds.
pub fn one_list_of_rounds()
    ensures { (nodes : ℕ) (inside : ℕ → Bool) (next : ℕ → ℕ) (rounds others : List (List ℕ))
        → AreRounds nodes inside next rounds → AreRounds nodes inside next others
        → rounds ≡ others }
{}

/// A small succession, written out by hand. Of six nodes all but 3 are inside; 0 is followed by 4,
/// 4 by 2 and 2 by 0, and 1 and 5 are each followed by themselves. It is a succession, and its
/// rounds are these three.
pub fn small_succession()
    ensures succession { IsSuccession 6 small_inside small_next }
    ensures rounds { AreRounds 6 small_inside small_next small_rounds }
{}
