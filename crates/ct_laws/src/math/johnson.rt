//! Bounds of codes of constant weight that need no computing, for all codes, and what is left of words at a place.

ghost use Rattle.std.specs.Prelude.{◌≡◌, ℕ, ◌+◌, ◌-◌, ◌*◌, ◌/◌, ◌<◌, ◌≤◌, min, List, [], ◌∷◌, length, All, Some};
ghost use Rattle.std.specs.Int.{div_ceil};
ghost use Rattle.ct_words.specs.Counting.Binomials.{choose};
ghost use Rattle.ct_words.specs.Word.{weight};
ghost use Rattle.ct_words.specs.Entry.{constant_weight};
ghost use Rattle.ct_words.specs.Code.{IsCode, IsTrueUpper};
ghost use Rattle.ct_words.specs.Constructions.Shortened.{shortened};

/// Bounds by the weight alone: there are no more words than words of the weight (V0); two of them differ at no more
/// places than twice the ones, or twice the zeros, of a word (V1); words of weight w at distance 2w have no one in
/// common (V2). Sources: Johnson 1962; MacWilliams and Sloane, chapter 17, section 2; Brouwer, Shearer, Sloane and
/// Smith 1990.
pub fn bounds_by_weight()
    ensures all_words { (n d w : ℕ) → 1 ≤ d → IsTrueUpper (constant_weight n d w) (choose n w) }
    ensures far { (n d w : ℕ) → 2 * min w (n - w) < d → IsTrueUpper (constant_weight n d w) 1 }
    ensures disjoint { (n w : ℕ) → 1 ≤ w → IsTrueUpper (constant_weight n (2 * w) w) (n / w) }
{}

/// Bounds that another entry gives: the words with each digit turned are a code of weight n - w (V3), and a code of
/// distance d is one of distance d - 2 (V7). Source: Brouwer, Shearer, Sloane and Smith 1990.
pub fn bounds_from_other_entries()
    ensures complements { (n d w u : ℕ) → 1 ≤ d → w ≤ n →
        IsTrueUpper (constant_weight n d (n - w)) u → IsTrueUpper (constant_weight n d w) u }
    ensures nearer { (n d w u : ℕ) →
        IsTrueUpper (constant_weight n (d - 2) w) u → IsTrueUpper (constant_weight n d w) u }
{}

/// Ones counted by words and by places: of the v words of a list, whatever list of words of length n and weight w it is, at
/// least ⌈w·v/n⌉ have a one at some place p. Those of a code, without the place, are a code whose length and weight are less by
/// one. Source: Johnson 1962; Brouwer, Shearer, Sloane and Smith 1990.
pub fn some_place_holds_enough_ones()
    ensures place { (n w : ℕ) (words : List ℕ) → 1 ≤ n → All (λ x. weight n x ≡ w) words →
        (p : ℕ) × (p < n) × (div_ceil (w * length words) n ≤ length (shortened n (p ∷ []) (1 ∷ []) words)) }
    ensures code { (n d w p : ℕ) (words : List ℕ) → p ≤ n → IsCode (n + 1) d (Some (w + 1)) words →
        IsCode n d (Some w) (shortened (n + 1) (p ∷ []) (1 ∷ []) words) }
{}

/// Zeros counted by words and by places: of the v words of a list, whatever list of words of length n and weight w it is, at
/// least ⌈(n − w)·v/n⌉ have a zero at some place p. Those of a code, without the place, are a code of the same weight whose
/// length is less by one. Source: Johnson 1962; Brouwer, Shearer, Sloane and Smith 1990.
pub fn some_place_holds_enough_zeros()
    ensures place { (n w : ℕ) (words : List ℕ) → 1 ≤ n → All (λ x. weight n x ≡ w) words →
        (p : ℕ) × (p < n) × (div_ceil ((n - w) * length words) n ≤ length (shortened n (p ∷ []) (0 ∷ []) words)) }
    ensures code { (n d w p : ℕ) (words : List ℕ) → p ≤ n → IsCode (n + 1) d (Some w) words →
        IsCode n d (Some w) (shortened (n + 1) (p ∷ []) (0 ∷ []) words) }
{}
