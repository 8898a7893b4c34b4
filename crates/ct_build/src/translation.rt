//! Codes whose words are those of a code with one word added to each.

ghost use Rattle.std.specs.Prelude.{◌≡◌, ◌↔◌, ◌⊎◌, ◌-◌, ◌^◌, ◌<◌, ◌≤◌, [], ◌≢◌, Some, None, Err, IfOk, IfErr, OnErr, IsPermutation};
ghost use Rattle.std.specs.Option.{option_map, ForSome};
ghost use Rattle.std.specs.List.Sorted.{IsSorted};
ghost use Rattle.std.specs.Ordering.{nat_cmp};
ghost use Rattle.ct_words.specs.declared.limits.TheConstants.{MAX_N};
ghost use Rattle.ct_words.specs.Code.{IsSoundCode};
ghost use Rattle.ct_words.specs.Constructions.Even.{even_from};
ghost use Rattle.ct_words.specs.Constructions.Translation.{translated, all_ones, complemented, selected};
ghost use Rattle.ct_build.specs.declared.fault.BuildFault.TheVariants.{Empty, Memory};

use crate::even::even_from;
use crate::fault::BuildFault;
use crate::sorted::in_order;
use ct_words::{Code, Word, weight};
use std::alloc::{AllocError, Global};

/// The sums of each word of the part and the word `by`, which is below 2^n: a code of the same length and distance,
/// without a weight. `Err` is want of memory.
pub fn translate(alloc: Global, part: &Code, by: Word) -> Result<Code, AllocError>
    requires { by < 2 ^ part.now.n }
    ensures words { IfOk result (λ c. IsPermutation (translated by part.now.words) c.words) }
    ensures n { IfOk result (λ c. c.n ≡ part.now.n) }
    ensures d { IfOk result (λ c. c.d ≡ part.now.d) }
    ensures w { IfOk result (λ c. c.w ≡ None) }
    ensures sound { IfOk result IsSoundCode }
{
    let words = sorted_sums(alloc, part.words(), by)?;
    Ok(Code::from_sorted(part.n(), part.d(), None, words))
}

/// The words of the part with zeros and ones changed: a code of the same length and distance, and of weight n - w where
/// the part has the weight w. `Err` is want of memory.
pub fn complement(alloc: Global, part: &Code) -> Result<Code, AllocError>
    ensures words { IfOk result (λ c. IsPermutation (complemented part.now.n part.now.words) c.words) }
    ensures n { IfOk result (λ c. c.n ≡ part.now.n) }
    ensures d { IfOk result (λ c. c.d ≡ part.now.d) }
    ensures w { IfOk result (λ c. c.w ≡ option_map (λ k. part.now.n - k) part.now.w) }
    ensures sound { IfOk result IsSoundCode }
{
    let n = part.n();
    let words = sorted_sums(alloc, part.words(), all_ones(n))?;
    Ok(Code::from_sorted(n, part.d(), complement_weight(n, part.w()), words))
}

/// The words of weight w, which is at most n, among the sums of each word of the part and the word `by`, which is below
/// 2^n: a code of the same length, of distance d + 1 where d is odd and else d, and of weight w.
///
/// It is `Empty` where there is no such word, and else fails for want of memory alone.
pub fn select_weight(alloc: Global, part: &Code, by: Word, w: u32) -> Result<Code, BuildFault>
    requires by { by < 2 ^ part.now.n }
    requires w { w ≤ part.now.n }
    ensures words { IfOk result (λ c. IsPermutation (selected part.now.n by w part.now.words) c.words) }
    ensures n { IfOk result (λ c. c.n ≡ part.now.n) }
    ensures d { IfOk result (λ c. c.d ≡ even_from part.now.d) }
    ensures w { IfOk result (λ c. c.w ≡ Some w) }
    ensures sound { IfOk result IsSoundCode }
    ensures empty { (result ≡ Err Empty) ↔ (selected part.now.n by w part.now.words ≡ []) }
    ensures faults { IfErr result (λ fault. (fault ≡ Empty) ⊎ (fault ≡ Memory)) }
{
    let words = sums_of_weight(alloc, part, by, w)?;
    if words.is_empty() {
        return Err(BuildFault::Empty);
    }
    let words = in_order(words);
    Ok(Code::from_sorted(part.n(), even_from(part.d()), Some(w), words))
}

/// The sums of each word and the word `by`, in ascending order.
pub(crate) fn sorted_sums(alloc: Global, words: &[Word], by: Word) -> Result<Vec<Word>, AllocError>
    ensures permutation { IfOk result (λ v. IsPermutation (translated by words.now) v.items) }
    ensures sorted { IfOk result (λ v. IsSorted nat_cmp v.items) }
{
    let sums: Vec<Word> = words.iter().map(|word| *word ^ by).collect(alloc)?;
    Ok(in_order(sums))
}

/// The words of weight w among the sums of each word of the part and the word `by`. It fails only where there is one.
pub(crate) fn sums_of_weight(
    alloc: Global,
    part: &Code,
    by: Word,
    w: u32,
) -> Result<Vec<Word>, AllocError>
    requires { by < 2 ^ part.now.n }
    ensures words { IfOk result (λ v. v.items ≡ selected part.now.n by w part.now.words) }
    ensures some { OnErr result (selected part.now.n by w part.now.words ≢ []) }
{
    let words = part.words();
    let mut chosen = Vec::new(alloc);
    for word in words {
        let sum = *word ^ by;
        if weight(sum) == w {
            chosen.push(sum)?;
        }
    }
    Ok(chosen)
}

/// The word of length n with the digit 1 at each place.
pub(crate) fn all_ones(n: u32) -> Word
    requires { n ≤ MAX_N }
    ensures { result ≡ all_ones n }
{
    (1 << n) - 1
}

/// The weight of the complements of words of length n and the weight, where there is one.
fn complement_weight(n: u32, w: Option<u32>) -> Option<u32>
    requires { ForSome w (λ k. k ≤ n) }
    ensures { result ≡ option_map (λ k. n - k) w }
{
    w.map(|k| n - k)
}
