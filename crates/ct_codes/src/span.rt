//! The sums of basis words, 64 at a time: sums of the first six basis words are a block, and each sum of the others moves it.
ghost use Rattle.std.specs.Prelude.{◌≡◌, ◌*◌, ◌^◌, ◌≤◌, ◌<◌, ◌%◌, length, if◌then◌else◌, ◌==◌, IfOk};
ghost use Rattle.ct_words.specs.declared.limits.TheConstants.{MAX_N};
ghost use Rattle.ct_words.specs.Coset.{span_word, choice_count, choice_word};
ghost use Rattle.ct_codes.specs.Inside.First.{IsFirstOrNone};
ghost use Rattle.ct_codes.specs.Inside.Span.{AreParts, is_close_sum};
ghost use Rattle.ct_codes.specs.Inside.Translated.{translated};

use crate::choices::append_translated;
use crate::near::first_close;
use crate::rows::{BLOCK, far_in_rows};
use ct_words::Word;
use std::alloc::{AllocError, Global};

/// All sums of basis words, in the order of their numbers.
pub(crate) fn sums(alloc: Global, basis: &[Word]) -> Result<Vec<Word>, AllocError>
    ensures { IfOk result (λ words. words.items ≡ translated basis.now 0) }
{
    let mut words = Vec::new(alloc);
    append_translated(&mut words, 0, basis)?;
    Ok(words)
}

/// The first sum of basis words, from number `64 * from` on, whose distance from the word is below `d`: its number.
pub(crate) fn first_close_sum(
    rows: &[u8],
    block: &[Word],
    steps: &[Word],
    basis: &[Word],
    word: Word,
    from: usize,
    d: u32,
) -> Option<usize>
    requires parts { AreParts rows.now block.now steps.now basis.now }
    ensures { IsFirstOrNone (is_close_sum d basis.now word) (64 * from) (2 ^ length basis.now) result }
{
    for step in from..steps.len() {
        let far = far_in_rows(rows, word ^ steps[step], d);
        if far < BLOCK {
            return Some(step * BLOCK + far);
        }
    }
    None
}

/// The first sum of one basis word or more whose weight is below `d`: its number.
pub(crate) fn first_light_sum(
    rows: &[u8],
    block: &[Word],
    steps: &[Word],
    basis: &[Word],
    d: u32,
) -> Option<usize>
    requires parts { AreParts rows.now block.now steps.now basis.now }
    ensures { IsFirstOrNone (is_close_sum d basis.now 0) 1 (2 ^ length basis.now) result }
{
    if let Some(more) = first_close(0, &block[1..], d) {
        return Some(1 + more);
    }
    first_close_sum(rows, block, steps, basis, 0, 1, d)
}

/// The word of a choice, by its number.
pub(crate) fn choice_word(basis: &[Word], representatives: &[Word], choice: usize) -> Word
    requires basis { length basis.now ≤ MAX_N }
    requires choice { choice < choice_count basis.now representatives.now }
    ensures { result ≡ choice_word basis.now representatives.now choice }
{
    let span = 1usize << basis.len();
    representatives[choice / span] ^ sum_of(basis, choice % span)
}

/// The sum of the basis words that a number chooses.
fn sum_of(basis: &[Word], number: usize) -> Word
    ensures { result ≡ span_word basis.now number }
{
    let mut sum = 0;
    let mut rest = number;
    for word in basis {
        sum ^= if_chosen(*word, rest);
        rest /= 2;
    }
    sum
}

/// The word where the number is odd, and else 0.
pub(crate) fn if_chosen(word: Word, number: usize) -> Word
    ensures { result ≡ (if number % 2 == 1 then word else 0) }
{
    if number % 2 == 1 { word } else { 0 }
}
