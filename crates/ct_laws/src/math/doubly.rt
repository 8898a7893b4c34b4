//! Facts about doubly constant weight codes and the bound on them, each a clause of a function that does nothing.

ghost use Rattle.std.specs.Prelude.{◌≡◌, ℕ, ◌+◌, List, [], ◌∷◌, Some};
ghost use Rattle.ct_words.specs.Code.{IsCode};
ghost use Rattle.ct_words.specs.Doubly.{IsDoubly};
ghost use Rattle.ct_doubly.specs.Doubly.{doubly};

/// A doubly constant weight code is a code of constant weight, w1 + w2; and every code of constant weight is a doubly constant one
/// whose last half is empty.
pub fn doubly_codes_are_codes()
    ensures weight { (n1 w1 n2 w2 d : ℕ) (words : List ℕ) → IsDoubly n1 w1 n2 w2 d words →
        IsCode (n1 + n2) d (Some (w1 + w2)) words }
    ensures no_last_half { (n w d : ℕ) (words : List ℕ) → IsCode n d (Some w) words → IsDoubly n w 0 0 d words }
{}

/// Worked lists. The words 101100 and 010011, whose first halves are 10 and 01, are a doubly constant weight code at distance 6; not at
/// distance 7, and not with the shorter half last. Neither is a list with a word twice, nor one with a word of more digits.
pub fn known_doubly_codes()
    ensures code { IsDoubly 2 1 4 2 6 (44 ∷ 19 ∷ []) }
    ensures close { ¬ IsDoubly 2 1 4 2 7 (44 ∷ 19 ∷ []) }
    ensures other_order { ¬ IsDoubly 4 2 2 1 6 (44 ∷ 19 ∷ []) }
    ensures heavier { ¬ IsDoubly 2 1 4 3 6 (44 ∷ 19 ∷ []) }
    ensures repeated { ¬ IsDoubly 2 1 4 2 0 (44 ∷ 44 ∷ []) }
    ensures longer { ¬ IsDoubly 2 1 4 2 6 (108 ∷ []) }
{}

/// Worked bounds: T(2,4,2,4,4) ≤ 12, from 6 for the words that are left at a place of the first half; T(3,4,3,4,4) ≤ 4, since 5 words are
/// too many; a word of ones alone; two words that differ at all d places; bounds that come of a one, or of a zero, at a place of one half
/// alone; A(10,4,5) ≤ 36 after three rounds, where two give 72; and A(10,4,3) ≤ 13, 40/3 rounded down.
pub fn known_doubly_bounds()
    ensures halves { doubly 4 2 4 2 4 ≡ 12 }
    ensures counted { doubly 4 3 4 3 4 ≡ 4 }
    ensures alone { doubly 4 4 4 4 4 ≡ 1 }
    ensures as_far { doubly 2 1 2 1 4 ≡ 2 }
    ensures first_one { doubly 3 1 5 2 4 ≡ 6 }
    ensures first_zero { doubly 3 2 5 2 4 ≡ 6 }
    ensures last_one { doubly 5 2 3 1 4 ≡ 6 }
    ensures last_zero { doubly 5 2 3 2 4 ≡ 6 }
    ensures rounds { doubly 10 5 0 0 4 ≡ 36 }
    ensures rounded_down { doubly 0 0 10 3 4 ≡ 13 }
{}
