//! Bounds on A(n,d,w) from the words that have a one, or a zero, at a place.

ghost use Rattle.std.specs.Prelude.{◌≡◌, ℕ, ◌-◌, ◌<◌, ◌≤◌};
ghost use Rattle.ct_words.specs.Code.{IsTrueUpper};
ghost use Rattle.ct_words.specs.Entry.{constant_weight};
ghost use Rattle.ct_johnson.specs.Bounds.{drop_one_value, drop_zero_value, split_value};

use crate::cap::capped;
use ct_words::{MAX_BOUND, MAX_N};

/// The bound ⌊n·u/w⌋ on A(n,d,w), at most `MAX_BOUND`, for n from 2 to `MAX_N` and w from 1 to n. The number u, from 1
/// to `MAX_BOUND`, bounds A(n - 1,d,w - 1).
///
/// The words with a one at a given place, without it, are a code of (n - 1,d,w - 1), and each word has w ones (Johnson
/// 1962; MacWilliams and Sloane, chapter 17, section 2).
pub fn drop_one(n: u32, w: u32, u: u32) -> u32
    requires length { (2 ≤ n) × (n ≤ MAX_N) }
    requires weight { (1 ≤ w) × (w ≤ n) }
    requires premise { (1 ≤ u) × (u ≤ MAX_BOUND) }
    ensures value { result ≡ drop_one_value n w u }
    ensures range { (1 ≤ result) × (result ≤ MAX_BOUND) }
    ensures sound { (d : ℕ) → 1 ≤ d → IsTrueUpper (constant_weight (n - 1) d (w - 1)) u →
        IsTrueUpper (constant_weight n d w) result }
{
    capped(u64::from(n) * u64::from(u) / u64::from(w))
}

/// The bound ⌊n·u/(n - w)⌋ on A(n,d,w), at most `MAX_BOUND`, for n from 2 to `MAX_N` and w below n. The number u, from
/// 1 to `MAX_BOUND`, bounds A(n - 1,d,w).
///
/// The words with a zero at a given place, without it, are a code of (n - 1,d,w), and each word has n - w zeros
/// (Johnson 1962; MacWilliams and Sloane, chapter 17, section 2).
pub fn drop_zero(n: u32, w: u32, u: u32) -> u32
    requires length { (2 ≤ n) × (n ≤ MAX_N) }
    requires weight { w < n }
    requires premise { (1 ≤ u) × (u ≤ MAX_BOUND) }
    ensures value { result ≡ drop_zero_value n w u }
    ensures range { (1 ≤ result) × (result ≤ MAX_BOUND) }
    ensures sound { (d : ℕ) → 1 ≤ d → IsTrueUpper (constant_weight (n - 1) d w) u →
        IsTrueUpper (constant_weight n d w) result }
{
    capped(u64::from(n) * u64::from(u) / u64::from(n - w))
}

/// The bound u0 + u1 on A(n,d,w), at most `MAX_BOUND`, for 1 ≤ w < n ≤ `MAX_N`. The numbers u0 and u1, from 1 to
/// `MAX_BOUND`, bound A(n - 1,d,w) and A(n - 1,d,w - 1).
///
/// The words with a zero at a place, without it, are a code of (n - 1,d,w), and the others one of (n - 1,d,w - 1)
/// (Brouwer, Shearer, Sloane and Smith 1990).
pub fn split(u0: u32, u1: u32) -> u32
    requires zeros { (1 ≤ u0) × (u0 ≤ MAX_BOUND) }
    requires ones { (1 ≤ u1) × (u1 ≤ MAX_BOUND) }
    ensures value { result ≡ split_value u0 u1 }
    ensures range { (1 ≤ result) × (result ≤ MAX_BOUND) }
    ensures sound { (n d w : ℕ) → n ≤ MAX_N → 1 ≤ d → 1 ≤ w → w < n →
        IsTrueUpper (constant_weight (n - 1) d w) u0 → IsTrueUpper (constant_weight (n - 1) d (w - 1)) u1 →
        IsTrueUpper (constant_weight n d w) result }
{
    capped(u64::from(u0) + u64::from(u1))
}
