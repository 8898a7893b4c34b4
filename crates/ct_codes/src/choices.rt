//! The words of all choices of a coset code, and the search for two that are too close.

ghost use Rattle.std.specs.Prelude.{◌≡◌, ℕ, ◌+◌, ◌^◌, ◌<◌, ◌≤◌, ◌++◌, nat_lt, bit_xor, length, slice_index, position, drop, map, All, IfOk, OnOk, IfSome};
ghost use Rattle.ct_words.specs.declared.limits.TheConstants.{MAX_N};
ghost use Rattle.ct_words.specs.Word.{distance};
ghost use Rattle.ct_words.specs.Pairs.{least_pair};
ghost use Rattle.ct_words.specs.Coset.{coset_list};
ghost use Rattle.ct_codes.specs.Inside.Translated.{translated};

use crate::near::first_close;
use ct_words::Word;
use std::alloc::{AllocError, Global};

/// The words of all choices, in the order of their numbers: one representative after the other.
pub(crate) fn choice_words(
    alloc: Global,
    basis: &[Word],
    representatives: &[Word],
) -> Result<Vec<Word>, AllocError>
    requires { length basis.now ≤ MAX_N }
    ensures { IfOk result (λ words. words.items ≡ coset_list basis.now representatives.now) }
{
    let mut words = Vec::with_capacity(alloc, representatives.len() << basis.len())?;
    for representative in representatives {
        append_translated(&mut words, *representative, basis)?;
    }
    Ok(words)
}

/// Puts the word plus each sum of basis words at the end of `words`: first the word alone, then for each basis word
/// in turn its sums with all that stand there so far.
pub(crate) fn append_translated(
    words: &mut Vec<Word>,
    word: Word,
    basis: &[Word],
) -> Result<(), AllocError>
    ensures { OnOk result (words.new.items ≡ words.old.items ++ translated basis.now word) }
{
    let start = words.len();
    words.push(word)?;
    for basis_word in basis {
        append_sums(words, start, *basis_word)?;
    }
    Ok(())
}

/// Puts the sums of a word with those that stand from place `start` on, in their order, at the end.
fn append_sums(words: &mut Vec<Word>, start: usize, word: Word) -> Result<(), AllocError>
    ensures { OnOk result (words.new.items ≡ words.old.items ++ map (λ x. bit_xor x word) (drop start words.old.items)) }
{
    for place in start..words.len() {
        let sum = words[place] ^ word;
        words.push(sum)?;
    }
    Ok(())
}

/// How many places after the next one the first word stands that has a distance below `d` from the word at `place`. All
/// are words of length 32, too.
fn first_close_after(words: &[Word], place: usize, d: u32) -> Option<usize>
    requires { place < length words.now }
    ensures { result ≡ position (λ x. nat_lt (distance 32 (slice_index words.now place) x) d) (drop (place + 1) words.now) }
{
    first_close(words[place], &words[place + 1..], d)
}

/// The least pair of choices, in order of the first and then the second, whose words, all of which are handed in, have
/// a distance below `d`.
///
/// Only each representative alone is compared with the choices after it: for representatives a, b and sums s, t of basis
/// words, a + s and b + t are as far apart as a and b + s + t.
pub(crate) fn close_choices(
    words: &[Word],
    basis: &[Word],
    representatives: &[Word],
    d: u32,
) -> Option<(usize, usize)>
    requires basis { length basis.now ≤ MAX_N }
    requires words { words.now ≡ coset_list basis.now representatives.now }
    ensures least { (n : ℕ) → All (λ x. x < 2 ^ n) words.now →
        result ≡ least_pair (λ x y. nat_lt (distance n x y) d) words.now }
    ensures places { IfSome result (λ p. (p.0 < p.1) × (p.1 < length words.now)) }
{
    let span = 1usize << basis.len();
    for place in 0..representatives.len() {
        let first = place * span;
        if let Some(more) = first_close_after(words, first, d) {
            return Some((first, first + 1 + more));
        }
    }
    None
}
