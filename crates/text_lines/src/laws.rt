//! Laws of words and numbers.

ghost use Rattle.std.specs.Prelude.{◌≡◌, ℕ, List, ◌++◌, ◌∷◌, Some, None, true};
ghost use Rattle.std.specs.Fmt.{decimal};
ghost use Rattle.text_lines.specs.Numbers.{has_ten_digits, number_of_word};
ghost use Rattle.text_lines.specs.Words.{cut};

/// Numbers of at most ten digits are read as they are spelled, and no other word is one.
pub fn numbers_are_read_as_spelled()
    ensures number { (n : ℕ) → has_ten_digits n ≡ true → number_of_word (decimal n) ≡ Some n }
    ensures only { (word : List ℕ) (n : ℕ) → number_of_word word ≡ Some n
        → (word ≡ decimal n) × (has_ten_digits n ≡ true) }
{}

/// A line is what it is cut into, with the space between them.
pub fn lines_are_cut_as_joined()
    ensures first { (line rest : List ℕ) → (cut line).rest ≡ Some rest
        → line ≡ (cut line).word ++ 32 ∷ rest }
    ensures whole { (line : List ℕ) → (cut line).rest ≡ None → line ≡ (cut line).word }
{}
