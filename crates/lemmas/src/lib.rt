//! Lemmas on lists, numbers, bits and truth values, which know nothing of solids.
#![tactic(auto)]
