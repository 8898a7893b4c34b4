//! Delsarte's inequalities of the Johnson scheme as an identity, the clause of a function that does nothing.

ghost use Rattle.std.specs.Prelude.{◌≡◌, ℕ, ◌*◌, ◌/◌, ◌^◌, pos, ◌*ℤ◌, List, All};
ghost use Rattle.ct_words.specs.Counting.Sums.{total};
ghost use Rattle.ct_words.specs.Counting.Binomials.{factorial};
ghost use Rattle.ct_words.specs.Counting.PairTotals.{pair_total, square};
ghost use Rattle.ct_words.specs.Counting.PairLists.{pair_lists};
ghost use Rattle.ct_words.specs.Word.{distance, weight};
ghost use Rattle.ct_words.specs.PairProducts.{all_places, difference_product};
ghost use Rattle.ct_words.specs.Numbers.{johnson};

/// For every list of words of length n and weight w, repeats included, take all lists of k ordered pairs (a,b) of places
/// whose 2k places are different, and for each the sum, over the words x, of the product of x_a - x_b over its pairs. The
/// squares of these sums add up to 2^k k! times the sum of the Johnson numbers at half the distances of all ordered
/// pairs of words.
pub fn johnson_sums_are_sums_of_squares()
    ensures { (n w k : ℕ) (words : List ℕ) → All (λ x. weight n x ≡ w) words →
        total (λ pairs. square (total (λ x. difference_product n x pairs) words))
        (pair_lists k (all_places n)) ≡
        pos (2 ^ k * factorial k) *ℤ pair_total (λ x y. johnson n w k (distance n x y / 2)) words }
{}
