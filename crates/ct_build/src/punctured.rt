//! Codes without some of their places.

ghost use Rattle.std.specs.Prelude.{◌≡◌, ◌-◌, ◌^◌, ◌<◌, ◌≤◌, length, All, IfOk, IsPermutation};
ghost use Rattle.ct_words.specs.declared.limits.TheConstants.{MAX_N};
ghost use Rattle.ct_words.specs.Code.{IsSoundCode};
ghost use Rattle.ct_words.specs.Constructions.Places.{ArePlaces};
ghost use Rattle.ct_words.specs.Constructions.Punctured.{punctured};

use crate::places::without_places;
use crate::sorted::code_of;
use ct_words::{Code, Word};
use std::alloc::{AllocError, Global};

/// The code of the words of the part without the p places, which are distinct places of its words, in ascending order,
/// fewer than its distance and than its length. Length and distance are p less; it has as many words, and no weight.
pub fn puncture(alloc: Global, part: &Code, places: &[u32]) -> Result<Code, AllocError>
    requires places { ArePlaces part.now.n places.now }
    requires few { length places.now < part.now.d }
    requires some { length places.now < part.now.n }
    ensures n { IfOk result (λ c. c.n ≡ part.now.n - length places.now) }
    ensures d { IfOk result (λ c. c.d ≡ part.now.d - length places.now) }
    ensures w { IfOk result (λ c. c.w ≡ None) }
    ensures words { IfOk result (λ c. IsPermutation (punctured part.now.n places.now part.now.words) c.words) }
    ensures sound { IfOk result IsSoundCode }
{
    let words = punctured_words(alloc, part.n(), places, part.words())?;
    let p = places.len() as u32;
    Ok(code_of(part.n() - p, part.d() - p, None, words))
}

/// The words of length n without the places.
pub(crate) fn punctured_words(
    alloc: Global,
    n: u32,
    places: &[u32],
    words: &[Word],
) -> Result<Vec<Word>, AllocError>
    requires length { n ≤ MAX_N }
    requires places { ArePlaces n places.now }
    requires words { All (λ x. x < 2 ^ n) words.now }
    ensures { IfOk result (λ v. v.items ≡ punctured n places.now words.now) }
{
    let mut rest = Vec::with_capacity(alloc, words.len())?;
    for word in words {
        rest.push(without_places(*word, n, places))?;
    }
    Ok(rest)
}
