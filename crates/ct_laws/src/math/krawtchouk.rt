//! Facts about Krawtchouk numbers and the characters of words, each a clause of a function that does nothing.

ghost use Rattle.std.specs.Prelude.{◌≡◌, ℕ, List};
ghost use Rattle.ct_words.specs.Counting.Sums.{total};
ghost use Rattle.ct_words.specs.Counting.PairTotals.{pair_total, square};
ghost use Rattle.ct_words.specs.Word.{distance, weight};
ghost use Rattle.ct_words.specs.Characters.{character, words_of_weight};
ghost use Rattle.ct_words.specs.Numbers.{krawtchouk};

/// The characters at a word x of length n, of all words of weight k, add up to the Krawtchouk number K_k(i), where i is
/// the weight of x (MacWilliams and Sloane, chapter 5, sections 2 and 4).
pub fn character_sums_are_krawtchouk_numbers()
    ensures { (n k x : ℕ) →
        total (λ u. character n u x) (words_of_weight n k) ≡ krawtchouk n k (weight n x) }
{}

/// For every list of words of length n, repeats included, the Krawtchouk numbers at the distances of all ordered pairs
/// add up to the sum, over the words u of weight k, of the square of the sum of the characters of u at the words of the
/// list (Delsarte 1973; MacWilliams and Sloane, chapter 5, section 5).
pub fn krawtchouk_sums_are_sums_of_squares()
    ensures { (n k : ℕ) (words : List ℕ) →
        pair_total (λ x y. krawtchouk n k (distance n x y)) words ≡
        total (λ u. square (total (character n u) words)) (words_of_weight n k) }
{}
