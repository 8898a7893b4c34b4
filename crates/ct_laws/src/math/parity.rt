//! Facts about the sums over an odd number of words, each a clause of a function that does nothing.

ghost use Rattle.std.specs.Prelude.{◌≡◌, ℕ, ◌%◌, pos, ◌≤ℤ◌, List, [], ◌∷◌, length};
ghost use Rattle.ct_words.specs.Word.{distance};
ghost use Rattle.ct_words.specs.Counting.PairTotals.{pair_total};
ghost use Rattle.ct_words.specs.Counting.Binomials.{choose};
ghost use Rattle.ct_words.specs.Numbers.{krawtchouk};
ghost use Rattle.ct_parity.specs.OddSum.{odd_sum};

/// Over the ordered pairs of an odd number of words the numbers K_k at their distances add up to at least C(n,k), the number of
/// words of weight k: they are that many squares of odd numbers. Over an even number of words they may add up to 0.
pub fn odd_lists_have_odd_sums()
    ensures odd { (n k : ℕ) (words : List ℕ) → length words % 2 ≡ 1 →
        pos (choose n k) ≤ℤ pair_total (λ x y. krawtchouk n k (distance n x y)) words }
    ensures even { pair_total (λ x y. krawtchouk 1 1 (distance 1 x y)) (0 ∷ 1 ∷ []) ≡ pos 0 }
{}

/// Worked sums, of f = 3 + K_1 + K_2 at length 9 over 21 and 19 words, and of f = 1 at length 5 over 5 words.
pub fn known_odd_sums()
    ensures nine { odd_sum 9 21 (pos 3 ∷ pos 1 ∷ pos 1 ∷ []) ≡ pos 1368 }
    ensures fewer { odd_sum 9 19 (pos 3 ∷ pos 1 ∷ pos 1 ∷ []) ≡ pos 1128 }
    ensures lead_alone { odd_sum 5 5 (pos 1 ∷ []) ≡ pos 25 }
{}
