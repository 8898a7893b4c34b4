//! Codes whose words have one more digit at their end: 0, 1, or the parity of the weight.

ghost use Rattle.std.specs.Prelude.{◌≡◌, ◌+◌, ◌<◌, ◌≤◌, map, IfOk};
ghost use Rattle.std.specs.Option.{option_map, ForSome};
ghost use Rattle.ct_words.specs.declared.limits.TheConstants.{MAX_N};
ghost use Rattle.ct_words.specs.Code.{IsSoundCode};
ghost use Rattle.ct_words.specs.Constructions.Joined.{followed_by};
ghost use Rattle.ct_words.specs.Constructions.Even.{even_from};
ghost use Rattle.ct_words.specs.Constructions.Append.{lengthened, one_appended, with_parity};

use crate::even::even_from;
use ct_words::{Code, Word, weight};
use std::alloc::{AllocError, Global};

/// The words of the part, each followed by the digit 0: a code of length n + 1, of the same distance and weight. `Err` is
/// want of memory, here and below.
pub fn lengthen(alloc: Global, part: &Code) -> Result<Code, AllocError>
    requires { part.now.n < MAX_N }
    ensures words { IfOk result (λ c. c.words ≡ lengthened part.now.words) }
    ensures n { IfOk result (λ c. c.n ≡ part.now.n + 1) }
    ensures d { IfOk result (λ c. c.d ≡ part.now.d) }
    ensures w { IfOk result (λ c. c.w ≡ part.now.w) }
    ensures sound { IfOk result IsSoundCode }
{
    let words = followed_by_digit(alloc, part, 0)?;
    Ok(Code::from_sorted(part.n() + 1, part.d(), part.w(), words))
}

/// The words of the part, each followed by the digit 1: a code of length n + 1, of the same distance, and of a weight one
/// greater where the part has one.
pub fn append_one(alloc: Global, part: &Code) -> Result<Code, AllocError>
    requires { part.now.n < MAX_N }
    ensures words { IfOk result (λ c. c.words ≡ one_appended part.now.words) }
    ensures n { IfOk result (λ c. c.n ≡ part.now.n + 1) }
    ensures d { IfOk result (λ c. c.d ≡ part.now.d) }
    ensures w { IfOk result (λ c. c.w ≡ option_map (λ k. k + 1) part.now.w) }
    ensures sound { IfOk result IsSoundCode }
{
    let words = followed_by_digit(alloc, part, 1)?;
    Ok(Code::from_sorted(part.n() + 1, part.d(), one_heavier(part.w()), words))
}

/// The words of the part, each followed by the parity of its weight, which makes all weights even: a code of length
/// n + 1, of distance d + 1 where d is odd and else d. A weight w becomes w + w mod 2.
pub fn parity(alloc: Global, part: &Code) -> Result<Code, AllocError>
    requires { part.now.n < MAX_N }
    ensures words { IfOk result (λ c. c.words ≡ with_parity part.now.n part.now.words) }
    ensures n { IfOk result (λ c. c.n ≡ part.now.n + 1) }
    ensures d { IfOk result (λ c. c.d ≡ even_from part.now.d) }
    ensures w { IfOk result (λ c. c.w ≡ option_map even_from part.now.w) }
    ensures sound { IfOk result IsSoundCode }
{
    let words = followed_by_parity(alloc, part)?;
    Ok(Code::from_sorted(
        part.n() + 1,
        even_from(part.d()),
        even_weight(part.w()),
        words,
    ))
}

/// The words of the part, each followed by the digit.
pub(crate) fn followed_by_digit(
    alloc: Global,
    part: &Code,
    digit: u32,
) -> Result<Vec<Word>, AllocError>
    requires short { part.now.n < MAX_N }
    requires digit { digit < 2 }
    ensures { IfOk result (λ v. v.items ≡ map (λ x. followed_by 1 x digit) part.now.words) }
{
    let words = part.words();
    let mut longer = Vec::with_capacity(alloc, words.len())?;
    for word in words {
        longer.push(*word * 2 + digit)?;
    }
    Ok(longer)
}

/// The words of the part, each followed by the parity of its weight.
pub(crate) fn followed_by_parity(alloc: Global, part: &Code) -> Result<Vec<Word>, AllocError>
    requires { part.now.n < MAX_N }
    ensures { IfOk result (λ v. v.items ≡ with_parity part.now.n part.now.words) }
{
    let words = part.words();
    let mut longer = Vec::with_capacity(alloc, words.len())?;
    for word in words {
        longer.push(*word * 2 + weight(*word) % 2)?;
    }
    Ok(longer)
}

/// The weight with one more, where there is one.
fn one_heavier(w: Option<u32>) -> Option<u32>
    requires { ForSome w (λ k. k ≤ MAX_N) }
    ensures { result ≡ option_map (λ k. k + 1) w }
{
    w.map(|k| k + 1)
}

/// The least even weight from the weight on, where there is one.
fn even_weight(w: Option<u32>) -> Option<u32>
    requires { ForSome w (λ k. k ≤ MAX_N) }
    ensures { result ≡ option_map even_from w }
{
    w.map(even_from)
}
