//! Two codes put together word by word.

ghost use Rattle.std.specs.Prelude.{◌≡◌, ◌+◌, ◌-◌, ◌^◌, ◌<◌, ◌≤◌, All, IfOk};
ghost use Rattle.std.specs.Option.{ForSome};
ghost use Rattle.ct_words.specs.declared.limits.TheConstants.{MAX_N};
ghost use Rattle.ct_words.specs.declared.code.TheConstants.{MAX_CODE_DISTANCE};
ghost use Rattle.ct_words.specs.Code.{IsSoundCode};
ghost use Rattle.ct_words.specs.Constructions.Juxtaposed.{juxtaposed, added_weights};

use ct_words::{Code, Word};
use std::alloc::{AllocError, Global};

/// The code whose i-th word is the i-th ascending word of the part followed by that of the other, for i below the smaller
/// number of words. Lengths, distances and weights add up; it has a weight where both have one. The sum of the lengths is
/// at most `MAX_N`, that of the distances at most `MAX_CODE_DISTANCE`.
pub fn juxtapose(alloc: Global, part: &Code, other: &Code) -> Result<Code, AllocError>
    requires lengths { part.now.n + other.now.n ≤ MAX_N }
    requires distances { part.now.d + other.now.d ≤ MAX_CODE_DISTANCE }
    ensures n { IfOk result (λ c. c.n ≡ part.now.n + other.now.n) }
    ensures d { IfOk result (λ c. c.d ≡ part.now.d + other.now.d) }
    ensures w { IfOk result (λ c. c.w ≡ added_weights part.now.w other.now.w) }
    ensures words { IfOk result (λ c. c.words ≡ juxtaposed other.now.n part.now.words other.now.words) }
    ensures sound { IfOk result IsSoundCode }
{
    let words = joined_words(alloc, part.words(), other.n(), other.words())?;
    let n = part.n() + other.n();
    let d = part.d() + other.d();
    let w = added_weight(part.w(), other.w());
    Ok(Code::from_sorted(n, d, w, words))
}

/// The words of the first list, each followed by the word of length m of the second at the same place.
pub(crate) fn joined_words(
    alloc: Global,
    first: &[Word],
    m: u32,
    second: &[Word],
) -> Result<Vec<Word>, AllocError>
    requires length { m < 32 }
    requires first { All (λ x. x < 2 ^ (32 - m)) first.now }
    requires second { All (λ y. y < 2 ^ m) second.now }
    ensures { IfOk result (λ v. v.items ≡ juxtaposed m first.now second.now) }
{
    let mut words = Vec::with_capacity(alloc, first.len().min(second.len()))?;
    for (x, y) in first.iter().zip(second) {
        words.push((*x << m) | *y)?;
    }
    Ok(words)
}

/// The sum of two weights, where both are given.
fn added_weight(v: Option<u32>, w: Option<u32>) -> Option<u32>
    requires v { ForSome v (λ k. k ≤ MAX_N) }
    requires w { ForSome w (λ k. k ≤ MAX_N) }
    ensures { result ≡ added_weights v w }
{
    match (v, w) {
        (Some(v), Some(w)) => Some(v + w),
        _ => None,
    }
}
