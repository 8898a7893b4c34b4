//! The Johnson scheme.

ghost use Rattle.std.specs.Prelude.{◌≤◌};
ghost use Rattle.ct_words.specs.declared.limits.TheConstants.{MAX_N};

use crate::numbers::johnson_number;
use ct_words::Scheme;

/// The Johnson scheme of length n, from 1 to `MAX_N`, and weight w, at most n (Delsarte 1973; MacWilliams and Sloane,
/// chapter 21): its space is the words of length n and weight w, the index of two words is half their distance, its
/// degree is the least of w and n - w, and its numbers are the Johnson numbers.
#[derive(Clone, Copy)]
pub struct Johnson {
    /// The length of the words, from 1 to `MAX_N`.
    pub n: u32,
    /// The weight of the words, at most n.
    pub w: u32,
    pub ghost length_in_range: { (1 ≤ n) × (n ≤ MAX_N) },
    pub ghost weight_in_range: { w ≤ n },
}

impl Scheme for Johnson {
    ghost use Rattle.std.specs.Prelude.{◌≡◌, ◌-◌, ◌/◌, ◌^◌, ◌<◌, min};
    ghost use Rattle.ct_words.specs.Word.{distance, weight};
    ghost use Rattle.ct_words.proofs.PairProducts.{half_distance-le, half_distance-same};
    ghost use Rattle.ct_words.specs.Numbers.{johnson};
    ghost use Rattle.ct_scheme.specs.Johnson.{johnson-positive, johnson-first, johnson-small};

    ghost belongs = { λ s x. (x < 2 ^ s.n) × (weight s.n x ≡ s.w) };

    ghost index = { λ s x y. distance s.n x y / 2 };

    ghost degree = { λ s. min s.w (s.n - s.w) };

    ghost number = { λ s k i. johnson s.n s.w k i };

    ghost positive = { λ s k h. johnson-positive s.n s.w k };

    ghost ones = { λ s i h. johnson-first s.n s.w i };

    ghost within = { λ s x y first second. half_distance-le s.n s.w x y first.1 second.1 };

    ghost itself = { λ s x h. half_distance-same s.n x };

    ghost small = { λ s k i row index. johnson-small s.n s.w k i s.length_in_range.1 s.weight_in_range row index };

    fn degree(&self) -> u32 {
        self.w.min(self.n - self.w)
    }

    fn number(&self, k: u32, i: u32) -> i128 {
        johnson_number(self.n, self.w, k, i)
    }
}
