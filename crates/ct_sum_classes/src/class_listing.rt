//! The words of a sum class.

ghost use Rattle.std.specs.Prelude.{◌≡◌, ℕ, ◌+◌, ◌-◌, ◌*◌, ◌%◌, ◌^◌, ◌<◌, ◌≤◌, [], ◌∷◌, ◌++◌, length, map, Some, IfOk, OnOk};
ghost use Rattle.ct_words.specs.Counting.Binomials.{choose};
ghost use Rattle.ct_words.specs.declared.limits.TheConstants.{MAX_N};
ghost use Rattle.ct_words.specs.Code.{IsSoundCode};
ghost use Rattle.ct_sum_classes.specs.SumClass.{sum_class};
ghost use Rattle.ct_sum_classes.specs.Inside.Listing.{words_of_sum};

use crate::class_sizes::sum_class_count;
use ct_words::{Code, Word, binomial};
use std::alloc::{AllocError, Global};

/// The code of the words of length n, from 1 to `MAX_N`, and weight w up to n, whose ones' places add up to r modulo n, for
/// r below n, where there is such a word. Its distance is 4 (Graham and Sloane 1980). `Err` is want of memory.
pub fn sum_class_list(alloc: Global, n: u32, w: u32, r: u32) -> Result<Code, AllocError>
    requires length { (1 ≤ n) × (n ≤ MAX_N) }
    requires weight { w ≤ n }
    requires residue { r < n }
    requires some { 1 ≤ length (sum_class n w r) }
    ensures words { IfOk result (λ c. c.words ≡ sum_class n w r) }
    ensures n { IfOk result (λ c. c.n ≡ n) }
    ensures d { IfOk result (λ c. c.d ≡ 4) }
    ensures w { IfOk result (λ c. c.w ≡ Some w) }
    ensures sound { IfOk result IsSoundCode }
{
    let words = words_of_class(alloc, n, w, r)?;
    Ok(Code::from_sorted(n, 4, Some(w), words))
}

/// The words of the class, in ascending order.
fn words_of_class(alloc: Global, n: u32, w: u32, r: u32) -> Result<Vec<Word>, AllocError>
    requires length { (1 ≤ n) × (n ≤ MAX_N) }
    requires weight { w ≤ n }
    requires residue { r < n }
    ensures { IfOk result (λ v. v.items ≡ sum_class n w r) }
{
    let size = sum_class_count(n, w, r) as usize;
    let mut words = Vec::with_capacity(alloc, size)?;
    let least = (binomial(w, 2) % u64::from(n)) as u32;
    append_words(&mut words, 0, n, n, w, difference_modulo(n, r, least))?;
    Ok(words)
}

/// Appends, in ascending order, the sums of the beginning and of each word of length m and weight k whose ones' places add
/// up to 0 + 1 + .. + (k − 1), the least sum of k places, and the excess more, modulo n. The beginning has the digits before
/// these m.
///
/// The greatest sum of k of the m places is the least one and k (m − k). A one at the first place leaves the excess to the
/// k − 1 others at the m − 1 other places, and a zero leaves k less of it, one for each one. So a call without a word to
/// append ends at once.
fn append_words(
    words: &mut Vec<Word>,
    beginning: Word,
    n: u32,
    m: u32,
    k: u32,
    excess: u32,
) -> Result<(), AllocError>
    requires length { (m ≤ n) × (n ≤ MAX_N) }
    requires weight { k ≤ n }
    requires excess { excess < n }
    requires beginning { beginning + 2 ^ m ≤ 2 ^ MAX_N }
    ensures { OnOk result (words.new.items
        ≡ words.old.items ++ map (λ x. beginning + x) (words_of_sum n m k (choose k 2 + excess))) }
{
    if m < k || k * (m - k) < excess {
        return Ok(());
    }
    if k <= 1 {
        words.push(beginning + only_word(m, k, excess))?;
        return Ok(());
    }
    let others = m - 1;
    let less = difference_modulo(n, excess, k);
    append_words(words, beginning, n, others, k, less)?;
    append_words(words, beginning + (1 << others), n, others, k - 1, excess)
}

/// The word of length m and weight k, which is 0 or 1, whose one, if any, has the excess as its place.
fn only_word(m: u32, k: u32, excess: u32) -> Word
    requires length { m ≤ MAX_N }
    requires weight { (k ≤ 1) × (k ≤ m) }
    requires excess { excess ≤ k * (m - k) }
    ensures length { result < 2 ^ m }
    ensures only { (n : ℕ) → 1 ≤ n → m ≤ n → words_of_sum n m k (choose k 2 + excess) ≡ result ∷ [] }
{
    if k == 0 { 0 } else { 1 << (m - 1 - excess) }
}

/// The number below n that the difference of a, which is below n, and b, at most n, is modulo n.
fn difference_modulo(n: u32, a: u32, b: u32) -> u32
    requires minuend { a < n }
    requires subtrahend { b ≤ n }
    ensures below { result < n }
    ensures difference { (result + b) % n ≡ a }
{
    if a < b { a + (n - b) } else { a - b }
}
