//! The Johnson numbers, by the terms of their sum, each from the one before it.

ghost use Rattle.std.specs.Prelude.{◌≡◌, suc, ◌+◌, ◌-◌, ◌*◌, ◌<◌, ◌≤◌, ◌^◌, min};
ghost use Rattle.ct_words.specs.declared.limits.TheConstants.{MAX_N};
ghost use Rattle.ct_words.specs.Counting.Binomials.{choose, factorial as factorial_of};
ghost use Rattle.ct_words.specs.Numbers.{johnson};
ghost use Rattle.ct_scheme.specs.Numbers.{term_count};

use ct_words::{add_alternating, binomial, factorial};

/// The Johnson number J_k(i) at length n and weight w, for k and i up to the least of w and n - w. The terms of its sum
/// are 0 before j = k + i - w and j = k + i - (n - w), and after j = i.
pub(crate) fn johnson_number(n: u32, w: u32, k: u32, i: u32) -> i128
    requires length { n ≤ MAX_N }
    requires weight { w ≤ n }
    requires row { k ≤ min w (n - w) }
    requires index { i ≤ min w (n - w) }
    ensures { result ≡ johnson n w k i }
{
    let first = (k + i).saturating_sub(w.min(n - w));
    let mut count = first_count(n, w, k, i, first);
    let mut sum = add_alternating(0, first, count);
    for j in first..k.min(i) {
        count = next_count(n, w, k, i, j, count);
        sum = add_alternating(sum, j + 1, count);
    }
    sum
}

/// The term of j + 1 from `count`, the term of j, both without their signs: the quotient of (i - j)^2 (k - j) times it
/// by (j + 1) (w - i - k + j + 1) (n - w - i - k + j + 1), which is exact.
fn next_count(n: u32, w: u32, k: u32, i: u32, j: u32, count: u64) -> u64
    requires length { n ≤ MAX_N }
    requires weight { w ≤ n }
    requires row { k ≤ min w (n - w) }
    requires index { i ≤ min w (n - w) }
    requires first { k + i ≤ min w (n - w) + j }
    requires last { j < min k i }
    requires count { count ≡ term_count n w k i j }
    ensures { result ≡ term_count n w k i (suc j) }
{
    let factor = product(i - j, i - j, k - j);
    let divisor = product(j + 1, w + j + 1 - i - k, n - w + j + 1 - i - k);
    count * factor / divisor
}

/// The product of three numbers.
fn product(a: u32, b: u32, c: u32) -> u64
    requires first { a < 2 ^ 5 }
    requires second { b < 2 ^ 5 }
    requires third { c < 2 ^ 5 }
    ensures { result ≡ a * b * c }
{
    u64::from(a * b * c)
}

/// The term of j without its sign: in how many ways j of i things are matched with j of i others, and k - j of w - i
/// things with k - j of n - w - i others.
fn first_count(n: u32, w: u32, k: u32, i: u32, j: u32) -> u64
    requires length { n ≤ MAX_N }
    requires weight { w ≤ n }
    requires row { k ≤ min w (n - w) }
    requires index { i ≤ min w (n - w) }
    requires first { j ≤ k }
    ensures { result ≡ term_count n w k i j }
{
    matchings(i, i, j) * matchings(w - i, n - w - i, k - j)
}

/// In how many ways k of a things are matched with k of b others; a + b is at most `MAX_N`, and k at most half of it.
fn matchings(a: u32, b: u32, k: u32) -> u64
    requires things { a + b ≤ MAX_N }
    requires pairs { 2 * k ≤ MAX_N }
    ensures { result ≡ choose a k * choose b k * factorial_of k }
{
    binomial(a, k) * binomial(b, k) * factorial(k)
}
