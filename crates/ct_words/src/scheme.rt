//! Schemes of words: spaces whose pairs of words have an index, with numbers that Delsarte's inequalities speak of.

ghost use Rattle.std.specs.Prelude.{◌≡◌, ℕ, ℤ, pos, ◌≤◌};
ghost use Rattle.ct_words.specs.Scheme.{IsPositive, IsSmall};

/// A space of words in which each two words have an index, and numbers for which Delsarte's inequalities hold (Delsarte
/// 1973; MacWilliams and Sloane, chapter 21): over every list of words of the space, the numbers at the indices of all
/// ordered pairs add up to at least 0.
pub trait Scheme {
    // The words of the space.
    ghost belongs: { Self → ℕ → Type 0 };

    // The index of two words of the space.
    ghost index: { Self → ℕ → ℕ → ℕ };

    // The greatest index.
    ghost degree: { Self → ℕ };

    // The number at k and i, for k and i up to the degree.
    ghost number: { Self → ℕ → ℕ → ℤ };

    /// The greatest index of two words of the space.
    fn degree(&self) -> u32
        ensures { result ≡ degree self.now };

    /// The number at `k` and the index `i`, both up to the degree. It takes no memory.
    fn number(&self, k: u32, i: u32) -> i128
        requires row { k ≤ degree self.now }
        requires index { i ≤ degree self.now }
        ensures value { result ≡ number self.now k i }
        ensures small { IsSmall result };

    // Delsarte's inequalities: for each k up to the degree and each list of words of the space, repeats included, the
    // numbers at k and the indices of all ordered pairs of its words add up to at least 0.
    ghost positive: { (s : Self) (k : ℕ) → k ≤ degree s → IsPositive (belongs s) (index s) (number s k) };

    // At k = 0 each number is 1.
    ghost ones: { (s : Self) (i : ℕ) → i ≤ degree s → number s 0 i ≡ pos 1 };

    // The index of two words of the space is at most the degree.
    ghost within: { (s : Self) (x y : ℕ) → belongs s x → belongs s y → index s x y ≤ degree s };

    // The index of a word with itself is 0.
    ghost itself: { (s : Self) (x : ℕ) → belongs s x → index s x x ≡ 0 };

    // Every number lies strictly between -2^47 and 2^47.
    ghost small: { (s : Self) (k i : ℕ) → k ≤ degree s → i ≤ degree s → IsSmall (number s k i) };
}

/// What every scheme keeps: Delsarte's inequalities, its first row, its indices and the size of its numbers.
pub fn scheme_laws<S: Scheme>(scheme: &S)
    ensures positive { (k : ℕ) → k ≤ S.degree scheme.now →
        IsPositive (S.belongs scheme.now) (S.index scheme.now) (S.number scheme.now k) }
    ensures ones { (i : ℕ) → i ≤ S.degree scheme.now → S.number scheme.now 0 i ≡ pos 1 }
    ensures within { (x y : ℕ) → S.belongs scheme.now x → S.belongs scheme.now y →
        S.index scheme.now x y ≤ S.degree scheme.now }
    ensures itself { (x : ℕ) → S.belongs scheme.now x → S.index scheme.now x x ≡ 0 }
    ensures small { (k i : ℕ) → k ≤ S.degree scheme.now → i ≤ S.degree scheme.now →
        IsSmall (S.number scheme.now k i) }
{}
