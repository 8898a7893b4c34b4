//! Even numbers and words of even weight.

ghost use Rattle.std.specs.Prelude.{◌≡◌, ◌-◌, ◌^◌, ◌<◌, ◌≤◌, length, None, IfOk};
ghost use Rattle.ct_words.specs.declared.limits.TheConstants.{MAX_N};
ghost use Rattle.ct_words.specs.Code.{IsSoundCode};
ghost use Rattle.ct_words.specs.Constructions.Even.{even_from, even_words};

use ct_words::{Code, Word, weight};
use std::alloc::{AllocError, Global};

/// All words of even weight of length n, from 1 to `MAX_N`: half of all words, a code of distance 2. `Err` is want of
/// memory.
pub fn even_words(alloc: Global, n: u32) -> Result<Code, AllocError>
    requires some { 1 ≤ n }
    requires room { n ≤ MAX_N }
    ensures words { IfOk result (λ c. c.words ≡ even_words n) }
    ensures n { IfOk result (λ c. c.n ≡ n) }
    ensures d { IfOk result (λ c. c.d ≡ 2) }
    ensures w { IfOk result (λ c. c.w ≡ None) }
    ensures size { IfOk result (λ c. length c.words ≡ 2 ^ (n - 1)) }
    ensures sound { IfOk result IsSoundCode }
{
    let words = words_of_even_weight(alloc, n)?;
    Ok(Code::from_sorted(n, 2, None, words))
}

/// The words of even weight of length n, in ascending order.
fn words_of_even_weight(alloc: Global, n: u32) -> Result<Vec<Word>, AllocError>
    requires some { 1 ≤ n }
    requires room { n ≤ MAX_N }
    ensures { IfOk result (λ v. v.items ≡ even_words n) }
{
    let mut words = Vec::with_capacity(alloc, 1 << (n - 1))?;
    for word in 0..1 << n {
        if weight(word) % 2 == 0 {
            words.push(word)?;
        }
    }
    Ok(words)
}

/// The least even number from k on.
pub(crate) fn even_from(k: u32) -> u32
    requires { k < 2 ^ 31 }
    ensures { result ≡ even_from k }
{
    k + k % 2
}
