//! The bound on doubly constant weight codes that asks for no other.

ghost use Rattle.std.specs.Prelude.{◌≡◌, ◌+◌, ◌*◌, ◌%◌, ◌≤◌, min};
ghost use Rattle.ct_words.specs.Counting.Binomials.{choose};
ghost use Rattle.ct_words.specs.declared.limits.TheConstants.{MAX_N, MAX_BOUND};
ghost use Rattle.ct_doubly.specs.Doubly.{counted_bound as bound};

use crate::squares::least_too_many;
use ct_words::{MAX_BOUND, binomial};

/// 1 where no two words can differ at d places; else the least of the number of all words of these weights and of one less than
/// the least number of words that is too many.
pub(crate) fn counted_bound(n1: u32, w1: u32, n2: u32, w2: u32, d: u32) -> u32
    requires length { n1 + n2 ≤ MAX_N }
    requires first { w1 ≤ n1 }
    requires last { w2 ≤ n2 }
    requires distance { (2 ≤ d) × (d ≤ MAX_N) }
    ensures value { result ≡ bound n1 w1 n2 w2 d }
    ensures low { result ≤ MAX_BOUND }
{
    if 2 * (w1.min(n1 - w1) + w2.min(n2 - w2)) < d {
        return 1;
    }
    let all = word_count(n1, w1, n2, w2);
    match least_too_many(n1, w1, n2, w2, d / 2) {
        Some(words) => (words - 1).min(all),
        None => all,
    }
}

/// How many words there are of these weights, or `MAX_BOUND` where that is less.
fn word_count(n1: u32, w1: u32, n2: u32, w2: u32) -> u32
    requires first { n1 ≤ MAX_N }
    requires last { n2 ≤ MAX_N }
    ensures { result ≡ min (choose n1 w1 * choose n2 w2) MAX_BOUND }
{
    let words = binomial(n1, w1) * binomial(n2, w2);
    words.min(u64::from(MAX_BOUND)) as u32
}
