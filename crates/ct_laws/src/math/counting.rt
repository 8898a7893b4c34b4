//! Promises about counts, each a clause of a function that does nothing.

ghost use Rattle.std.specs.Prelude.{◌≡◌, ◌≢◌, ℕ, suc, ◌+◌, ◌*◌, ◌^◌, ◌<◌, ◌==◌, nat_le, Bool, List, length, count_by};
ghost use Rattle.std.specs.List.{All, AllPairs, Contains};
ghost use Rattle.ct_words.specs.Counting.Binomials.{choose, factorial, volume};
ghost use Rattle.ct_words.specs.Counting.PairLists.{pair_lists, IsPairing};
ghost use Rattle.ct_words.specs.Counting.Sums.{sum_below};
ghost use Rattle.ct_words.specs.Counting.Words.{all_words, apart, ones};

/// The laws of binomial coefficients: a row of Pascal's triangle adds up to a power of two and is
/// symmetric, the coefficients are quotients of factorials, and the ball of radius n is all words.
pub fn binomial_laws()
    ensures row { (n : ℕ) → sum_below (choose n) (suc n) ≡ 2 ^ n }
    ensures symmetric { (n k : ℕ) → choose (n + k) k ≡ choose (n + k) n }
    ensures past { (n k : ℕ) → n < k → choose n k ≡ 0 }
    ensures factorials { (n k : ℕ) → choose (n + k) k * (factorial k * factorial n) ≡ factorial (n + k) }
    ensures whole { (n k : ℕ) → volume n (n + k) ≡ 2 ^ n }
{}

/// The words of a length, and how many of them have a weight, lie at a distance or lie in a ball.
pub fn word_laws()
    ensures count { (n : ℕ) → length (all_words n) ≡ 2 ^ n }
    ensures complete { (x : List Bool) → Contains (all_words (length x)) x }
    ensures lengths { (n : ℕ) → All (λ x. length x ≡ n) (all_words n) }
    ensures distinct { (n : ℕ) → AllPairs (λ x y. x ≢ y) (all_words n) }
    ensures of_weight { (n k : ℕ) → count_by (λ x. ones x == k) (all_words n) ≡ choose n k }
    ensures at_distance { (c : List Bool) (j : ℕ) →
        count_by (λ x. apart c x == j) (all_words (length c)) ≡ choose (length c) j }
    ensures in_ball { (c : List Bool) (e : ℕ) →
        count_by (λ x. nat_le (apart c x) e) (all_words (length c)) ≡ volume (length c) e }
{}

/// The lists of k ordered pairs of a list without repeats: each has k pairs of its elements, all 2k elements different;
/// each such list of pairs is among them; and no two of them are equal.
pub fn pair_list_laws()
    ensures each { (k : ℕ) (xs : List ℕ) → AllPairs (λ x y. x ≢ y) xs →
        All (IsPairing xs k) (pair_lists k xs) }
    ensures all { (k : ℕ) (xs : List ℕ) (pairs : List (ℕ × ℕ)) → IsPairing xs k pairs →
        Contains (pair_lists k xs) pairs }
    ensures once { (k : ℕ) (xs : List ℕ) → AllPairs (λ x y. x ≢ y) xs →
        AllPairs (λ x y. x ≢ y) (pair_lists k xs) }
{}
