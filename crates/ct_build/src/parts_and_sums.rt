//! The (u | u + v) construction.

ghost use Rattle.std.specs.Prelude.{◌≡◌, ◌+◌, ◌*◌, ◌^◌, ◌<◌, ◌≤◌, map, min, bit_xor, All, IfOk, IsPermutation};
ghost use Rattle.std.specs.List.Sorted.{IsSorted};
ghost use Rattle.std.specs.Ordering.{nat_cmp};
ghost use Rattle.ct_words.specs.declared.limits.TheConstants.{MAX_N};
ghost use Rattle.ct_words.specs.Code.{IsSoundCode};
ghost use Rattle.ct_words.specs.Constructions.Joined.{followed_by};
ghost use Rattle.ct_words.specs.Constructions.Uuv.{uuv_words};

use crate::sorted::{code_of, in_order};
use ct_words::{Code, Word};
use std::alloc::{AllocError, Global};

/// The code of the words u followed by u + v, for each word u of the part and v of the other, two codes of one length n
/// with 2n at most `MAX_N`. Its distance is the least of twice that of the part and that of the other; it has no weight.
pub fn uuv(alloc: Global, part: &Code, other: &Code) -> Result<Code, AllocError>
    requires lengths { part.now.n ≡ other.now.n }
    requires room { 2 * part.now.n ≤ MAX_N }
    ensures n { IfOk result (λ c. c.n ≡ 2 * part.now.n) }
    ensures d { IfOk result (λ c. c.d ≡ min (2 * part.now.d) other.now.d) }
    ensures w { IfOk result (λ c. c.w ≡ None) }
    ensures words { IfOk result (λ c. IsPermutation (uuv_words part.now.n part.now.words other.now.words) c.words) }
    ensures sound { IfOk result IsSoundCode }
{
    let n = part.n();
    let words = words_and_sums(alloc, n, part.words(), other.words())?;
    let d = (2 * part.d()).min(other.d());
    Ok(code_of(2 * n, d, None, words))
}

/// The words u followed by u + v, of words u and v of length n. Those of each u ascend, so that all ascend where the words u
/// do.
pub(crate) fn words_and_sums(
    alloc: Global,
    n: u32,
    us: &[Word],
    vs: &[Word],
) -> Result<Vec<Word>, AllocError>
    requires length { 2 * n ≤ MAX_N }
    requires first { All (λ u. u < 2 ^ n) us.now }
    requires second { All (λ v. v < 2 ^ n) vs.now }
    ensures { IfOk result (λ w. IsPermutation (uuv_words n us.now vs.now) w.items) }
{
    let mut words = Vec::new(alloc);
    for u in us {
        let block = sums_after(alloc, n, *u, vs)?;
        words.extend_from_slice(&block)?;
    }
    Ok(words)
}

/// The word u followed by its sum with each of the words v, in ascending order. All have length n.
fn sums_after(alloc: Global, n: u32, u: Word, vs: &[Word]) -> Result<Vec<Word>, AllocError>
    requires length { 2 * n ≤ MAX_N }
    requires first { u < 2 ^ n }
    requires second { All (λ v. v < 2 ^ n) vs.now }
    ensures permutation { IfOk result (λ w. IsPermutation (map (λ v. followed_by n u (bit_xor u v)) vs.now) w.items) }
    ensures sorted { IfOk result (λ w. IsSorted nat_cmp w.items) }
{
    let mut words = Vec::with_capacity(alloc, vs.len())?;
    for v in vs {
        words.push((u << n) | (u ^ *v))?;
    }
    Ok(in_order(words))
}
