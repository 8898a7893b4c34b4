//! The words of a code that have a digit at some place, without it, where it is known that there are enough.

ghost use Rattle.std.specs.Prelude.{◌≡◌, ◌-◌, ◌*◌, ◌/◌, ◌%◌, ◌^◌, ◌==◌, ◌<◌, ◌≤◌, [], ◌∷◌, ℕ, length, count_by, option_map, IfOk, None, Some};
ghost use Rattle.std.specs.Int.{div_ceil};
ghost use Rattle.ct_words.specs.Constructions.Shortened.{shortened};
ghost use Rattle.ct_rule_parts.specs.Parts.{half_up};

use crate::first_words::first_words;
use ct_build::shorten;
use ct_words::{Code, Word};
use std::alloc::{AllocError, Global};

/// Of the words of the part that have the more frequent digit at the first place, the first ⌈v/2⌉, without it: a code of length
/// n − 1 and of the same distance, which has half of the v words of the part, rounded up. `Err` is want of memory, here and below.
pub fn half(alloc: Global, part: &Code) -> Result<Code, AllocError>
    requires long { 2 ≤ part.now.n }
    requires plain { part.now.w ≡ None }
    ensures n { IfOk result (λ c. c.n ≡ part.now.n - 1) }
    ensures d { IfOk result (λ c. c.d ≡ part.now.d) }
    ensures w { IfOk result (λ c. c.w ≡ None) }
    ensures size { IfOk result (λ c. length c.words ≡ half_up (length part.now.words)) }
{
    let size = part.words().len().div_ceil(2);
    let digit = if count_at(part, 0, 0) >= size { 0 } else { 1 };
    first_left(alloc, part, 0, digit, size)
}

/// Of the words of the part, of weight w, that have a one at some place that has enough, the first ⌈w·v/n⌉, without it: a code of
/// length n − 1, of the same distance and of weight w − 1 (Johnson 1962). The weight is at least 1.
pub fn with_one(alloc: Global, part: &Code, w: u32) -> Result<Code, AllocError>
    requires long { 2 ≤ part.now.n }
    requires weight { part.now.w ≡ Some w }
    requires ones { 1 ≤ w }
    ensures n { IfOk result (λ c. c.n ≡ part.now.n - 1) }
    ensures d { IfOk result (λ c. c.d ≡ part.now.d) }
    ensures w { IfOk result (λ c. c.w ≡ Some (w - 1)) }
    ensures size { IfOk result (λ c. length c.words ≡ div_ceil (w * length part.now.words) part.now.n) }
{
    let size = (w as usize * part.words().len()).div_ceil(part.n() as usize);
    let place = place_with(part, 1, size);
    first_left(alloc, part, place, 1, size)
}

/// Of the words of the part, of weight w, that have a zero at some place that has enough, the first ⌈(n − w)·v/n⌉, without it: a
/// code of length n − 1, and of the same distance and weight (Johnson 1962). The weight is below n.
pub fn with_zero(alloc: Global, part: &Code, w: u32) -> Result<Code, AllocError>
    requires long { 2 ≤ part.now.n }
    requires weight { part.now.w ≡ Some w }
    requires zeros { w < part.now.n }
    ensures n { IfOk result (λ c. c.n ≡ part.now.n - 1) }
    ensures d { IfOk result (λ c. c.d ≡ part.now.d) }
    ensures w { IfOk result (λ c. c.w ≡ Some w) }
    ensures size { IfOk result (λ c. length c.words ≡ div_ceil ((part.now.n - w) * length part.now.words) part.now.n) }
{
    let zeros = (part.n() - w) as usize;
    let size = (zeros * part.words().len()).div_ceil(part.n() as usize);
    let place = place_with(part, 0, size);
    first_left(alloc, part, place, 0, size)
}

/// Of the words of the part that have the digit, 0 or 1, at the place, the first ones, without it: so many, of which there are
/// enough.
fn first_left(
    alloc: Global,
    part: &Code,
    place: u32,
    digit: u32,
    size: usize,
) -> Result<Code, AllocError>
    requires long { 2 ≤ part.now.n }
    requires place { place < part.now.n }
    requires digit { digit < 2 }
    requires some { 1 ≤ size }
    requires enough { size ≤ length (shortened part.now.n (place ∷ []) (digit ∷ []) part.now.words) }
    ensures n { IfOk result (λ c. c.n ≡ part.now.n - 1) }
    ensures d { IfOk result (λ c. c.d ≡ part.now.d) }
    ensures w { IfOk result (λ c. c.w ≡ option_map (λ k. k - digit) part.now.w) }
    ensures size { IfOk result (λ c. length c.words ≡ size) }
{
    match shorten(alloc, part, &[place], &[digit]) {
        Ok(left) => Ok(first_words(left, size)),
        Err(_) => Err(AllocError),
    }
}

/// The first place that has the digit in so many words of the part, or more. There is one.
fn place_with(part: &Code, digit: u32, least: usize) -> u32
    requires { (p : ℕ) × (p < part.now.n) × (least ≤ length (shortened part.now.n (p ∷ []) (digit ∷ []) part.now.words)) }
    ensures place { result < part.now.n }
    ensures enough { least ≤ length (shortened part.now.n (result ∷ []) (digit ∷ []) part.now.words) }
{
    let n = part.n();
    let mut place = 0;
    while place + 1 < n && count_at(part, place, digit) < least {
        place += 1;
    }
    place
}

/// How many words of the part have the digit at the place.
fn count_at(part: &Code, place: u32, digit: u32) -> usize
    requires { place < part.now.n }
    ensures { result ≡ length (shortened part.now.n (place ∷ []) (digit ∷ []) part.now.words) }
{
    count_of_digit(part.words(), part.n() - 1 - place, digit)
}

/// How many words have the digit that so many digits follow.
fn count_of_digit(words: &[Word], low: u32, digit: u32) -> usize
    requires { low < 32 }
    ensures { result ≡ count_by (λ x. x / 2 ^ low % 2 == digit) words.now }
{
    words
        .iter()
        .filter(|word| (**word >> low) % 2 == digit)
        .count()
}
