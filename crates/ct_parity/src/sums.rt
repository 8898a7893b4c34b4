//! A sum that f reaches over the pairs of every list of an odd number of words.

ghost use Rattle.std.specs.Prelude.{◌≡◌, ℕ, ◌+◌, ◌%◌, ◌^◌, ◌<◌, ◌≤◌, suc, ℤ, pos, ◌+ℤ◌, ◌*ℤ◌, ◌≤ℤ◌, unsigned_abs, List, length, All};
ghost use Rattle.ct_words.specs.declared.limits.TheConstants.{MAX_N};
ghost use Rattle.ct_words.specs.Word.{distance};
ghost use Rattle.ct_words.specs.Counting.PairTotals.{pair_total};
ghost use Rattle.ct_words.specs.Numbers.{krawtchouk, combination};
ghost use Rattle.ct_parity.specs.OddSum.{least_sum, odd_sum};

use ct_words::binomial;

/// The greatest number of words that is asked about, 2^20 - 1.
pub const MAX_ODD: u32 = 1_048_575;

/// c_0 m² and the sum of c_k C(n,k) over k from 1, for the length `n` from 1 to `MAX_N`, an odd `m` up to `MAX_ODD`, and 1 to
/// n + 1 numbers c, each at least 0.
///
/// Over the ordered pairs of every list of m words of length n, repeats included and each word with itself, f adds up to at least
/// that, where f(i) is the sum of c_k K_k(i): a sum of characters over an odd number of words is odd, so its square is at least 1
/// (Best, Brouwer, MacWilliams, Odlyzko and Sloane 1978, section II). It takes no memory, and every sum fits: the numbers c are below
/// 2^63, m² and the binomial coefficients below 2^40.
pub fn odd_sum(n: u32, m: u32, c: &[i64]) -> i128
    requires length { (1 ≤ n) × (n ≤ MAX_N) }
    requires odd { m % 2 ≡ 1 }
    requires few { m ≤ MAX_ODD }
    requires some { 1 ≤ length c.now }
    requires rows { length c.now ≤ suc n }
    requires multipliers { All (λ z. pos 0 ≤ℤ z) c.now }
    ensures value { result ≡ odd_sum n m c.now }
    ensures least { (words : List ℕ) → length words ≡ m →
        result ≤ℤ pair_total (λ x y. combination (krawtchouk n) c.now (distance n x y)) words }
{
    let mut sum: i128 = 0;
    for k in 0..c.len() {
        sum = add_product(sum, c[k], least_sum(n, m, k as u32));
    }
    sum
}

/// The least sum of K_k over the pairs of m words, m odd: m² at k = 0, where all numbers are 1, and else C(n,k).
fn least_sum(n: u32, m: u32, k: u32) -> u64
    requires length { n ≤ MAX_N }
    requires few { m ≤ MAX_ODD }
    ensures value { result ≡ least_sum n m k }
    ensures small { result < 2 ^ 40 }
{
    if k == 0 {
        return u64::from(m) * u64::from(m);
    }
    binomial(n, k)
}

/// The sum with the product of a multiplier and a least sum added to it.
fn add_product(sum: i128, multiplier: i64, least: u64) -> i128
    requires sum { unsigned_abs sum < 2 ^ 116 }
    requires least { least < 2 ^ 40 }
    ensures value { result ≡ sum +ℤ (multiplier *ℤ pos least) }
    ensures small { unsigned_abs result ≤ unsigned_abs sum + 2 ^ 103 }
{
    sum + i128::from(multiplier) * i128::from(least)
}
