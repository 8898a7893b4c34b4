//! Words that are a code, put into order.

ghost use Rattle.std.specs.Prelude.{◌≡◌, ◌≤◌, length, IsPermutation};
ghost use Rattle.std.specs.List.Sorted.{IsSorted};
ghost use Rattle.std.proofs.Common.{nat_cmp};
ghost use Rattle.ct_words.specs.declared.limits.TheConstants.{MAX_N};
ghost use Rattle.ct_words.specs.declared.code.TheConstants.{MAX_CODE_DISTANCE};
ghost use Rattle.ct_words.specs.Code.{IsCode, IsSoundCode};

use ct_words::{Code, Word};

/// The words in ascending order. No sort is made where they ascend already, or where they descend. It takes no memory.
pub(crate) fn in_order(words: Vec<Word>) -> Vec<Word>
    ensures permutation { IsPermutation words.items result.items }
    ensures sorted { IsSorted nat_cmp result.items }
{
    if words.is_sorted() {
        return words;
    }
    let mut words = words;
    words.reverse();
    if !words.is_sorted() {
        words.sort_unstable();
    }
    words
}

/// The code of these words, which are one: words of length n, all different, each two at distance at least d, and of
/// weight w where it is given. It sorts them only where they neither ascend nor descend already, and takes no
/// memory.
pub(crate) fn code_of(n: u32, d: u32, w: Option<u32>, words: Vec<Word>) -> Code
    requires length { (1 ≤ n) × (n ≤ MAX_N) }
    requires distance { (1 ≤ d) × (d ≤ MAX_CODE_DISTANCE) }
    requires some { 1 ≤ length words.items }
    requires code { IsCode n d w words.items }
    ensures n { result.n ≡ n }
    ensures d { result.d ≡ d }
    ensures w { result.w ≡ w }
    ensures words { IsPermutation words.items result.words }
    ensures sound { IsSoundCode result }
{
    Code::from_sorted(n, d, w, in_order(words))
}
