//! Bounds on A(n,d) from bounds on A(n,d,w).

ghost use Rattle.std.specs.Prelude.{◌≡◌, ℕ, ◌+◌, ◌*◌, ◌%◌, ◌≤◌, IfSome};
ghost use Rattle.ct_words.specs.Code.{IsTrueUpper};
ghost use Rattle.ct_words.specs.Entry.{IsEntry, constant_weight, unrestricted};
ghost use Rattle.ct_johnson.specs.Bounds.{average, elias_bassalygo_value, johnson_odd, johnson_value};

use crate::cap::capped;
use ct_words::{MAX_BOUND, MAX_N, ball, binomial};

/// ⌊2^(n - 1)·u / C(n,w)⌋ for n from 1 to `MAX_N`; 0 where w is above n. It bounds A(n,d) for an even d where u bounds
/// A(n,d,w).
///
/// A code can be replaced by one of the same size whose weights are all even. Each word x of that one has C(n,w) sums x
/// + v of weight w, all with words v whose weight has the parity of w; there are 2^(n - 1) such v, and the sums of
/// weight w with one v are a code (Elias; Bassalygo 1965; MacWilliams and Sloane, chapter 17).
pub fn average(n: u32, w: u32, u: u32) -> u64
    requires { (1 ≤ n) × (n ≤ MAX_N) }
    ensures { result ≡ average n w u }
{
    if n < w {
        return 0;
    }
    let words = 1u64 << (n - 1);
    words * u64::from(u) / binomial(n, w)
}

/// The bound `average` on A(n,d) for an even d, at most `MAX_BOUND`, for n from 1 to `MAX_N` and w up to n. The number u,
/// from 1 to `MAX_BOUND`, bounds A(n,d,w).
pub fn elias_bassalygo(n: u32, w: u32, u: u32) -> u32
    requires length { (1 ≤ n) × (n ≤ MAX_N) }
    requires weight { w ≤ n }
    requires premise { (1 ≤ u) × (u ≤ MAX_BOUND) }
    ensures value { result ≡ elias_bassalygo_value n w u }
    ensures range { (1 ≤ result) × (result ≤ MAX_BOUND) }
    ensures sound { (d : ℕ) → 2 ≤ d → d % 2 ≡ 0 → IsTrueUpper (constant_weight n d w) u →
        IsTrueUpper (unrestricted n d) result }
{
    capped(average(n, w, u))
}

/// Johnson's bound on A(n,d), ⌊2^n·F / (F·V + R)⌋, for an odd d = 2δ - 1 ≤ n, (n,d) an entry of the table. F is ⌊n/δ⌋,
/// V the number of words in a ball of radius δ - 1, R is C(n,δ) - C(2δ - 1,δ - 1)·u, and the number u, from 1 to
/// `MAX_BOUND`, bounds A(n,d + 1,d). `None` where d is even or above n, or R is not above 0.
///
/// The balls of radius δ - 1 about the words of a code have no word in common. Of the C(n,δ) words at distance δ from a
/// word of the code at least R lie in no ball, and a word in no ball is at distance δ from at most F words of the code
/// (Johnson 1962; MacWilliams and Sloane, chapter 17, section 3).
pub fn johnson(n: u32, d: u32, u: u32) -> Option<u32>
    requires entry { IsEntry (unrestricted n d) }
    requires premise { (1 ≤ u) × (u ≤ MAX_BOUND) }
    ensures value { result ≡ johnson_value n d u }
    ensures range { IfSome result (λ v. (1 ≤ v) × (v ≤ MAX_BOUND)) }
    ensures sound { IsTrueUpper (constant_weight n (d + 1) d) u → IfSome result (IsTrueUpper (unrestricted n d)) }
{
    if d % 2 == 1 && d <= n {
        let bound = johnson_odd(n, (d + 1) / 2, u)?;
        Some(bound as u32)
    } else {
        None
    }
}

/// ⌊2^n·F / (F·V + R)⌋ as in `johnson`, for any number u and the distance 2·half - 1, which is at most `MAX_N` as n is.
/// `None` where R is not above 0.
pub fn johnson_odd(n: u32, half: u32, u: u32) -> Option<u64>
    requires length { n ≤ MAX_N }
    requires distance { (1 ≤ half) × (2 * half ≤ MAX_N + 1) }
    ensures { result ≡ johnson_odd n half u }
{
    let next = binomial(n, half);
    let taken = binomial(2 * half - 1, half - 1) * u64::from(u);
    if taken < next {
        let most = u64::from(n / half);
        let balls = most * ball(n, half - 1);
        Some((1u64 << n) * most / (balls + (next - taken)))
    } else {
        None
    }
}
