//! Laws of the definitions of pairs and numerals.

ghost use Rattle.std.specs.Prelude.{◌≡◌, ◌++◌, List, [], ◌∷◌, ℕ, pos, negsuc, neg_ℤ, drop, Some, None, Ok, Err, codes};
ghost use Rattle.solid_model.specs.declared.fault.Fault.TheVariants.{BadCode, Binary, NoEof, NoValue};
ghost use Rattle.lemmas.specs.Lists.{Each};
ghost use Rattle.dxf_groups.specs.declared.numerals.NumeralFault.TheVariants as numeral;
ghost use Rattle.dxf_groups.specs.Numerals.{IsNumeral, Numeral, numeral_of, scaled_of, whole_of};
ghost use Rattle.dxf_groups.specs.Pairs.{ended, pairs_of, rest_of_text, utf8_mark, with_pair};
ghost use Rattle.dxf_groups.specs.SmallTexts.{pair_on, pairs_of_marked};
ghost use Rattle.dxf_groups.specs.TextLines.{behind_lines, text_lines};

/// The pairs of small texts, written out by hand: what is no code; what of a line doesn't count,
/// and what does; comments; how a text begins, and how it ends.
#[tactic(auto, unfolding(crate::specs::Pairs::pairs_of))]
pub fn small_texts()
    ensures no_code { Each (λ text. pairs_of text ≡ ended (Err (BadCode 1)))
        (codes "x\nA\n" ∷ codes "\nA\n" ∷ codes "+10\nA\n" ∷ codes "00000\nA\n" ∷ codes "12345\nA\n"
        ∷ codes "1 0\nA\n" ∷ codes "-\nA\n" ∷ codes "--1\nA\n" ∷ codes "10\r\r\nA\n"
        ∷ codes "10\r \nA\n" ∷ []) }
    ensures judged_first { pairs_of (codes "x") ≡ ended (Err (BadCode 1)) }
    ensures no_value { pairs_of (codes "0\nA\n10")
        ≡ with_pair (pair_on 1 (pos 0) (codes "A")) (ended (Err (NoValue 3))) }
    ensures codes_of_four_digits { pairs_of (codes "0010\nA\n-9999\nB\n-0\nC\n")
        ≡ with_pair (pair_on 1 (pos 10) (codes "A"))
        (with_pair (pair_on 3 (negsuc 9998) (codes "B"))
        (with_pair (pair_on 5 (pos 0) (codes "C")) (ended (Err (NoEof 7))))) }
    ensures padded { pairs_of (codes " 0\nLINE \r\n-5\n\t1 2\n  8\n\n-0\neof\r")
        ≡ with_pair (pair_on 1 (pos 0) (codes "LINE"))
        (with_pair (pair_on 3 (negsuc 4) (codes "1 2"))
        (with_pair (pair_on 5 (pos 8) []) (ended (Ok 7)))) }
    ensures two_returns { pairs_of (codes "1\nA\r \n0\nEOF\r\r\n")
        ≡ with_pair (pair_on 1 (pos 1) (codes "A\r"))
        (with_pair (pair_on 3 (pos 0) (codes "EOF\r")) (ended (Err (NoEof 5)))) }
    ensures any_bytes { pairs_of (codes "1\n" ++ 195 ∷ 0 ∷ 246 ∷ 10 ∷ [])
        ≡ with_pair (pair_on 1 (pos 1) (195 ∷ 0 ∷ 246 ∷ [])) (ended (Err (NoEof 3))) }
    ensures comments { pairs_of (codes "999\na\n0999\n\n-999\nB\n0\nEOF\n")
        ≡ with_pair (pair_on 5 (negsuc 998) (codes "B")) (ended (Ok 7)) }
    ensures comment_without_value { pairs_of (codes "999\n") ≡ ended (Err (NoValue 1)) }
    ensures empty { pairs_of [] ≡ ended (Err (NoEof 1)) }
    ensures mark_alone { pairs_of_marked [] ≡ ended (Err (NoEof 1)) }
    ensures mark { pairs_of_marked (codes "0\nEOF\n") ≡ ended (Ok 1) }
    ensures two_marks { pairs_of_marked (utf8_mark ++ codes "0\nEOF\n")
        ≡ ended (Err (BadCode 1)) }
    ensures binary { pairs_of (codes "AutoCAD Binary DXF\r\n") ≡ ended (Err (Binary 1)) }
    ensures binary_after_mark { pairs_of_marked (codes "AutoCAD Binary DXF")
        ≡ ended (Err (Binary 1)) }
    ensures no_binary { Each (λ text. pairs_of text ≡ ended (Err (BadCode 1)))
        (codes " AutoCAD Binary DXF\n" ∷ codes "autocad binary dxf\n" ∷ []) }
    ensures ends { Each (λ text. pairs_of text ≡ ended (Ok 1))
        (codes "0\nEOF" ∷ codes "0\nEOF\r" ∷ codes "000\n eOf \nx\n12345" ∷ []) }
    ensures no_end { pairs_of (codes "1\nEOF\n0\nEOF1\n")
        ≡ with_pair (pair_on 1 (pos 1) (codes "EOF"))
        (with_pair (pair_on 3 (pos 0) (codes "EOF1")) (ended (Err (NoEof 5)))) }
{}

/// What stands behind the end pair of small texts, written out by hand: its two lines and what
/// stands before them are passed, and nothing else.
#[tactic(auto, unfolding(crate::specs::Pairs::pairs_of, crate::specs::Pairs::rest_of_text))]
pub fn small_rests()
    ensures nothing { Each (λ text. rest_of_text text ≡ Some [])
        (codes "0\nEOF" ∷ codes "0\nEOF\r" ∷ codes "0\nEOF\n"
        ∷ codes "999\n\n 0\neof \r\n" ∷ []) }
    ensures returns { rest_of_text (codes "0\r\nEOF\r\nlog 1\r\n") ≡ Some (codes "log 1\r\n") }
    ensures no_feed_behind { rest_of_text (codes "1\nA\n0\nEOF\nlog 1") ≡ Some (codes "log 1") }
    ensures empty_lines { rest_of_text (codes "0\nEOF\n\n \n") ≡ Some (codes "\n \n") }
    ensures second_end { rest_of_text (codes "0\nEOF\n0\nEOF\nx") ≡ Some (codes "0\nEOF\nx") }
    ensures mark { rest_of_text (utf8_mark ++ codes "0\nEOF\nx") ≡ Some (codes "x") }
    ensures mark_behind { rest_of_text (codes "0\nEOF\n" ++ utf8_mark) ≡ Some utf8_mark }
    ensures none { Each (λ text. rest_of_text text ≡ None)
        (codes "" ∷ codes "0\n" ∷ codes "0\nEOF1\n" ∷ codes "EOF\n0\nEOF\nx" ∷ []) }
{}

/// The lines of what stands behind the first lines of a text are its other lines.
pub fn lines_behind_lines()
    ensures { (n : ℕ) (text : List ℕ)
        → text_lines (behind_lines n text) ≡ drop n (text_lines text) }
{}

/// What some texts stand for as numerals.
#[tactic(auto, unfolding(crate::specs::Numerals::numeral_of, crate::specs::Numerals::scaled_of))]
pub fn small_numerals()
    ensures ten { Each (λ text. whole_of text ≡ Ok (pos 10))
        (codes "10" ∷ codes "+10" ∷ codes "10." ∷ codes "1.0E+01" ∷ codes "1000e-2"
        ∷ codes ".1E2" ∷ []) }
    ensures five { whole_of (codes ".5e1") ≡ Ok (pos 5) }
    ensures one { Each (λ text. whole_of text ≡ Ok (pos 1))
        (codes "10E-1" ∷ codes "100000000000000000000E-20" ∷ codes "0.00000000000000000001E20"
        ∷ []) }
    ensures zero { Each (λ text. whole_of text ≡ Ok (pos 0)) (codes "-0.0" ∷ codes "0E400" ∷ []) }
    ensures negative { whole_of (codes "-12.5000E1") ≡ Ok (neg_ℤ (pos 125)) }
    ensures greatest { whole_of (codes "1000000000") ≡ Ok (pos 1000000000) }
    ensures least { whole_of (codes "-1000000000.0") ≡ Ok (neg_ℤ (pos 1000000000)) }
    ensures not_whole { Each (λ text. whole_of text ≡ Err numeral.NotWhole)
        (codes "2.5" ∷ codes "1E-5" ∷ codes "1E-400" ∷ codes "1000000001.5" ∷ []) }
    ensures too_far { Each (λ text. whole_of text ≡ Err numeral.TooFar)
        (codes "1000000001" ∷ codes "-1000000001" ∷ codes "-.1E11" ∷ codes "1E400" ∷ []) }
    ensures bad_number { Each (λ text. whole_of text ≡ Err numeral.BadNumber)
        (codes "" ∷ codes "." ∷ codes "+" ∷ codes "1E" ∷ codes "1e+" ∷ codes "E5" ∷ codes "1.2.3"
        ∷ codes "1,0" ∷ codes " 1" ∷ codes "+-1" ∷ []) }
{}

/// What some texts stand for that are read with decimals. A point that the exponent and the
/// decimals move past all digits leaves a whole number; one that stops before a digit other than 0
/// doesn't.
#[tactic(auto, unfolding(crate::specs::Numerals::numeral_of, crate::specs::Numerals::scaled_of))]
pub fn small_decimals()
    ensures three { Each (λ text. scaled_of 3 text ≡ Ok (pos 12500))
        (codes "12.5" ∷ codes "12.500000" ∷ codes "1.25E+01" ∷ codes "12500e-3"
        ∷ codes "12500000E-6"
        ∷ codes ".125e2" ∷ []) }
    ensures one { scaled_of 1 (codes "0.5") ≡ Ok (pos 5) }
    ensures six { scaled_of 6 (codes "-1e-6") ≡ Ok (neg_ℤ (pos 1)) }
    ensures more_than_digits { scaled_of 6 (codes "7.25E-2") ≡ Ok (pos 72500) }
    ensures zero { Each (λ text. scaled_of 3 text ≡ Ok (pos 0))
        (codes "-0.0" ∷ codes "0e-400" ∷ codes "0.000E400" ∷ []) }
    ensures farthest { scaled_of 3 (codes "-1000000.000") ≡ Ok (neg_ℤ (pos 1000000000)) }
    ensures not_whole { Each (λ text. scaled_of 3 text ≡ Err numeral.NotWhole)
        (codes "12.0005" ∷ codes "5e-4" ∷ codes "1E-400" ∷ codes "1000000.0005" ∷ []) }
    ensures too_far { Each (λ text. scaled_of 3 text ≡ Err numeral.TooFar)
        (codes "1000000.001" ∷ codes "-1000001" ∷ codes "1E400" ∷ []) }
    ensures bad_number { Each (λ text. scaled_of 3 text ≡ Err numeral.BadNumber)
        (codes "" ∷ codes "1,5" ∷ codes "1.5mm" ∷ []) }
{}

/// A text is read as a numeral just where the grammar of numerals spells it so. So each text has
/// one reading at most.
pub fn numerals_are_spelled_so()
    ensures read { (text : List ℕ) (n : Numeral) → numeral_of text ≡ Some n → IsNumeral text n }
    ensures spelled { (text : List ℕ) (n : Numeral) → IsNumeral text n → numeral_of text ≡ Some n }
{}
