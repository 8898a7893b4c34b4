//! The Hamming scheme.

ghost use Rattle.std.specs.Prelude.{◌≤◌};
ghost use Rattle.ct_words.specs.declared.limits.TheConstants.{MAX_N};

use crate::krawtchouk::krawtchouk_number;
use ct_words::Scheme;

/// The Hamming scheme of length n, from 1 to `MAX_N` (Delsarte 1973; MacWilliams and Sloane, chapters 5 and 21): its
/// space is the words of length n, the index of two words is their distance, and its numbers are the Krawtchouk numbers.
#[derive(Clone, Copy)]
pub struct Hamming {
    /// The length of the words, from 1 to `MAX_N`.
    pub n: u32,
    pub ghost in_range: { (1 ≤ n) × (n ≤ MAX_N) },
}

impl Scheme for Hamming {
    ghost use Rattle.std.specs.Prelude.{◌^◌, ◌<◌};
    ghost use Rattle.ct_words.specs.Word.{distance};
    ghost use Rattle.ct_words.proofs.WordLemmas.{distance-le, distance_same};
    ghost use Rattle.ct_words.specs.Numbers.{krawtchouk};
    ghost use Rattle.ct_krawtchouk.specs.Hamming.{krawtchouk-positive, krawtchouk-first, krawtchouk-small};

    ghost belongs = { λ s x. x < 2 ^ s.n };

    ghost index = { λ s x y. distance s.n x y };

    ghost degree = { λ s. s.n };

    ghost number = { λ s k i. krawtchouk s.n k i };

    ghost positive = { λ s k h. krawtchouk-positive s.n k (λ x. x < 2 ^ s.n) };

    ghost ones = { λ s i h. krawtchouk-first s.n i };

    ghost within = { λ s x y first second. distance-le s.n x y };

    ghost itself = { λ s x h. distance_same s.n x };

    ghost small = { λ s k i row index. krawtchouk-small s.n k i index s.in_range.1 };

    fn degree(&self) -> u32 {
        self.n
    }

    fn number(&self, k: u32, i: u32) -> i128 {
        krawtchouk_number(self.n, k, i)
    }
}
