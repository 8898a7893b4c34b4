//! The numbers of words that are too many, by the squares of the numbers of ones at the places.

ghost use Rattle.std.specs.Prelude.{◌≡◌, ℕ, false, ◌+◌, ◌-◌, ◌*◌, ◌^◌, ◌<◌, ◌≤◌, IfSome};
ghost use Rattle.ct_words.specs.declared.limits.TheConstants.{MAX_N};
ghost use Rattle.ct_johnson.specs.declared.columns.TheConstants.{MAX_COUNTED};
ghost use Rattle.ct_johnson.specs.Bounds.{least_from};
ghost use Rattle.ct_doubly.specs.Doubly.{are_too_many_by_squares as too_many, least_squares as squares};

use ct_johnson::MAX_COUNTED;

/// The least number of words, from 2 to `MAX_COUNTED`, that is too many at distance 2·half; `None` where none is.
///
/// The squares of the numbers of ones at the places count the pairs of words, each with itself too, that both have a one at one
/// place. Two words have at most w1 + w2 - half ones in common (Johnson 1962; Brouwer, Shearer, Sloane and Smith 1990).
pub(crate) fn least_too_many(n1: u32, w1: u32, n2: u32, w2: u32, half: u32) -> Option<u32>
    requires length { n1 + n2 ≤ MAX_N }
    requires first { w1 ≤ n1 }
    requires last { w2 ≤ n2 }
    requires distance { (1 ≤ half) × (half ≤ MAX_N) }
    ensures value { result ≡ least_from (too_many n1 w1 n2 w2 half) 2 (MAX_COUNTED - 1) }
    ensures some { IfSome result (λ m. 2 ≤ m) }
{
    for words in 2..last_to_try(n1, w1, n2, w2, half) + 1 {
        if are_too_many(n1, w1, n2, w2, half, words) {
            return Some(words);
        }
    }
    None
}

/// A number above which no other, up to `MAX_COUNTED`, is too many.
///
/// The least squares of t ones at n places are at most t²/n + n/4. So where w1(n1 - w1)/n1 + w2(n2 - w2)/n2, the mean of half the
/// distances of words of these weights, is at least half, and 4·half·M ≥ n1 + n2, M words are not too many.
fn last_to_try(n1: u32, w1: u32, n2: u32, w2: u32, half: u32) -> u32
    requires length { n1 + n2 ≤ MAX_N }
    requires first { w1 ≤ n1 }
    requires last { w2 ≤ n2 }
    requires distance { (1 ≤ half) × (half ≤ MAX_N) }
    ensures counted { result ≤ MAX_COUNTED }
    ensures rest { (m : ℕ) → result < m → m ≤ MAX_COUNTED → too_many n1 w1 n2 w2 half m ≡ false }
{
    let (first, last) = (n1.max(1), n2.max(1));
    if half * first * last <= w1 * (n1 - w1) * last + w2 * (n2 - w2) * first {
        (n1 + n2) / (4 * half)
    } else {
        MAX_COUNTED
    }
}

/// Whether so many words are too many at distance 2·half.
fn are_too_many(n1: u32, w1: u32, n2: u32, w2: u32, half: u32, words: u32) -> bool
    requires length { n1 + n2 ≤ MAX_N }
    requires first { w1 ≤ n1 }
    requires last { w2 ≤ n2 }
    requires distance { half ≤ MAX_N }
    requires counted { (1 ≤ words) × (words ≤ MAX_COUNTED) }
    ensures { result ≡ too_many n1 w1 n2 w2 half words }
{
    let squares = least_squares(n1, w1, words) + least_squares(n2, w2, words);
    (w1 + w2) * (words * words) < half * (words * (words - 1)) + squares
}

/// The least sum of the squares of the numbers of ones at n places, which so many words of weight w have in all.
fn least_squares(n: u32, w: u32, words: u32) -> u32
    requires length { n ≤ MAX_N }
    requires weight { w ≤ n }
    requires counted { words ≤ MAX_COUNTED }
    ensures value { result ≡ squares n (w * words) }
    ensures small { result < 2 ^ 25 }
{
    if n == 0 {
        return 0;
    }
    let ones = w * words;
    let (each, over) = (ones / n, ones % n);
    n * (each * each) + 2 * (each * over) + over
}
