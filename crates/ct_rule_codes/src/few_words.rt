//! Codes of few words, which rest on no other code.

ghost use Rattle.std.specs.Prelude.{◌≡◌, ◌<◌, ◌≤◌, ◌*◌, ◌/◌, true, length, IfOk, None, Some};
ghost use Rattle.ct_words.specs.declared.limits.TheConstants.{MAX_N};
ghost use Rattle.ct_words.specs.Code.{IsSoundCode};
ghost use Rattle.ct_words.specs.Entry.{IsEntry};
ghost use Rattle.ct_words.specs.Constructions.Translation.{all_ones};
ghost use Rattle.ct_rule_codes.specs.CodeEntry.{entry_of_code};
ghost use Rattle.ct_weight_rules.proofs.DisjointWords.{side_by_side};

use ct_words::{Code, Entry, Word};
use std::alloc::{AllocError, Global};

/// A code of one word of the entry, which is in the table: a word of its weight, the word 0 where it has none. `Err` is
/// want of memory, here and below.
pub fn one_word(alloc: Global, entry: Entry) -> Result<Code, AllocError>
    requires { IsEntry entry }
    ensures entry { IfOk result (λ c. entry_of_code c ≡ entry) }
    ensures size { IfOk result (λ c. length c.words ≡ 1) }
{
    let Entry { n, d, w } = entry;
    let mut words = Vec::with_capacity(alloc, 1)?;
    words.push(ones(w.unwrap_or(0)))?;
    Ok(Code::from_sorted(n, d, w, words))
}

/// The words 0..0 and 1..1 of length n, from 1 to `MAX_N`, as a code of distance d, which is from 1 to n.
pub fn opposite_words(alloc: Global, n: u32, d: u32) -> Result<Code, AllocError>
    requires length { (1 ≤ n) × (n ≤ MAX_N) }
    requires distance { (1 ≤ d) × (d ≤ n) }
    ensures n { IfOk result (λ c. c.n ≡ n) }
    ensures d { IfOk result (λ c. c.d ≡ d) }
    ensures w { IfOk result (λ c. c.w ≡ None) }
    ensures size { IfOk result (λ c. length c.words ≡ 2) }
{
    let mut words = Vec::with_capacity(alloc, 2)?;
    words.push(0)?;
    words.push(ones(n))?;
    Ok(Code::from_sorted(n, d, None, words))
}

/// Words of w ones side by side, ⌊n/w⌋ words of length n, which is from w to `MAX_N`: a code of distance 2w and weight w.
pub fn disjoint_words(alloc: Global, n: u32, w: u32) -> Result<Code, AllocError>
    requires weight { (1 ≤ w) × (w ≤ n) }
    requires length { n ≤ MAX_N }
    ensures n { IfOk result (λ c. c.n ≡ n) }
    ensures d { IfOk result (λ c. c.d ≡ 2 * w) }
    ensures w { IfOk result (λ c. c.w ≡ Some w) }
    ensures size { IfOk result (λ c. length c.words ≡ n / w) }
{
    let mut words = blocks(alloc, w, n / w)?;
    words.sort_unstable();
    Ok(Code::from_sorted(n, 2 * w, Some(w), words))
}

/// Words of w ones side by side, so many: behind the ones are w·(count − 1), .., w, 0 places.
fn blocks(alloc: Global, w: u32, count: u32) -> Result<Vec<Word>, AllocError>
    requires { w * count ≤ MAX_N }
    ensures { IfOk result (λ words. words.items ≡ side_by_side w count) }
{
    let mut words = Vec::new(alloc);
    let mut left = count;
    while left > 0 {
        left -= 1;
        words.push(ones(w) << (w * left))?;
    }
    Ok(words)
}

/// The word of length k with the digit 1 at each place.
fn ones(k: u32) -> Word
    requires { k ≤ MAX_N }
    ensures { result ≡ all_ones k }
{
    (1 << k) - 1
}
