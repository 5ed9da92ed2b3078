//! What it says that a piece was the first, or that there was none, where this can be read off.

ghost use Rattle.std.specs.Prelude.{◌≡◌, [], ◌∷◌, List, drop, length};
ghost use Rattle.steal_pool.specs.Accounts.{Piece, account, Held, WasFirst};
ghost use Rattle.lemmas.specs.Counts.{times_among};

/// Where nobody steals, the owner takes its pieces in the order in which it has put them, and finds
/// none only where it has taken all of them.
pub fn a_lone_owner_takes_in_order()
    ensures first { (put : List Piece) (taken : List Piece) (piece : Piece)
        → WasFirst (piece ∷ []) (account 64 put taken)
        → (rest : List Piece) × (drop (length taken) put ≡ piece ∷ rest) }
    ensures none { (put : List Piece) (taken : List Piece) → Held [] (account 64 put taken)
        → (piece : Piece) → times_among piece put ≡ times_among piece taken }
{}
