//! Shortened codes.

ghost use Rattle.std.specs.Prelude.{◌≡◌, ◌↔◌, ◌-◌, ◌^◌, ◌<◌, ◌≤◌, ◌==◌, [], length, count_by, All, IfOk, IfErr, IsOk, ◌⊎◌};
ghost use Rattle.ct_words.specs.declared.limits.TheConstants.{MAX_N};
ghost use Rattle.ct_words.specs.Code.{IsSoundCode};
ghost use Rattle.ct_words.specs.Constructions.Places.{ArePlaces};
ghost use Rattle.ct_words.specs.Constructions.Shortened.{has_digits, shortened, shortened_weight};
ghost use Rattle.ct_build.specs.declared.fault.BuildFault.TheVariants.{Empty, Memory};

use crate::fault::BuildFault;
use crate::places::{has_digits, without_places};
use ct_words::{Code, Word};
use std::alloc::{AllocError, Global};

/// The code of the words of the part that have the digits, each 0 or 1, at the p places, without these places. The places
/// are distinct places of its words, in ascending order, fewer than its length, and there are as many digits. The length
/// is p less; a weight is less by the ones among the digits.
///
/// It is `Empty` exactly where no word of the part has the digits at the places.
pub fn shorten(
    alloc: Global,
    part: &Code,
    places: &[u32],
    digits: &[u32],
) -> Result<Code, BuildFault>
    requires places { ArePlaces part.now.n places.now }
    requires some { length places.now < part.now.n }
    requires digits { length digits.now ≡ length places.now }
    requires binary { All (λ a. a < 2) digits.now }
    ensures n { IfOk result (λ c. c.n ≡ part.now.n - length places.now) }
    ensures d { IfOk result (λ c. c.d ≡ part.now.d) }
    ensures w { IfOk result (λ c. c.w ≡ shortened_weight digits.now part.now.w) }
    ensures words { IfOk result (λ c. c.words ≡ shortened part.now.n places.now digits.now part.now.words) }
    ensures empty { (result ≡ Err Empty) ↔ (shortened part.now.n places.now digits.now part.now.words ≡ []) }
    ensures faults { IfErr result (λ e. (e ≡ Empty) ⊎ (e ≡ Memory)) }
    ensures sound { IfOk result IsSoundCode }
{
    let words = shortened_words(alloc, part.n(), places, digits, part.words())?;
    if words.is_empty() {
        return Err(BuildFault::Empty);
    }
    let n = part.n() - places.len() as u32;
    let w = weight_without(part.w(), digits);
    Ok(Code::from_sorted(n, part.d(), w, words))
}

/// The words of length n that have the digits at the places, without these places. Want of memory never comes where there
/// is none.
pub(crate) fn shortened_words(
    alloc: Global,
    n: u32,
    places: &[u32],
    digits: &[u32],
    words: &[Word],
) -> Result<Vec<Word>, AllocError>
    requires length { n ≤ MAX_N }
    requires places { ArePlaces n places.now }
    requires words { All (λ x. x < 2 ^ n) words.now }
    ensures words { IfOk result (λ v. v.items ≡ shortened n places.now digits.now words.now) }
    ensures none { shortened n places.now digits.now words.now ≡ [] → IsOk result }
{
    let mut rest = Vec::new(alloc);
    for word in words {
        if has_digits(*word, n, places, digits) {
            rest.push(without_places(*word, n, places))?;
        }
    }
    Ok(rest)
}

/// The weight less the ones among the digits.
fn weight_without(w: Option<u32>, digits: &[u32]) -> Option<u32>
    requires { length digits.now ≤ MAX_N }
    ensures { result ≡ shortened_weight digits.now w }
{
    let ones = ones_among(digits) as u32;
    w.map(|k| k.saturating_sub(ones))
}

/// The number of ones among the digits.
pub(crate) fn ones_among(digits: &[u32]) -> usize
    ensures { result ≡ count_by (λ a. a == 1) digits.now }
{
    digits.iter().filter(|a| **a == 1).count()
}
