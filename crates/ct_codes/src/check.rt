//! Lists of words that are handed in, checked as codes.

ghost use Rattle.std.specs.Prelude.{◌≡◌, ℕ, ◌^◌, ◌<◌, ◌≤◌, nat_lt, length, All, IfOk, IfSome, IsPermutation};
ghost use Rattle.std.specs.Result.{result_err};
ghost use Rattle.ct_words.specs.Word.{distance};
ghost use Rattle.ct_words.specs.Entry.{IsEntry};
ghost use Rattle.ct_words.specs.Code.{IsCodeOf, IsSoundCode};
ghost use Rattle.ct_words.specs.Pairs.{first_of, least_pair};
ghost use Rattle.ct_words.specs.Check.{code_fault, size_fault, weight_fault, repeated_fault, close_fault};

use crate::groups::are_far_by_groups;
use crate::pairs::{close_pair_from, first_close_pair};
use ct_words::{Code, CodeFault, Entry, MAX_WORDS, Word, distance, weight};
use std::alloc::Global;

/// The code of the entry, which is in the table, that has these words, which are below 2^n.
///
/// The refusals in order: `Size` where there is no word or there are more than `MAX_WORDS`, `Weight` with the first
/// word that has not the weight of the entry, `Repeated` with the least pair of equal words, and `Close` with the least
/// pair whose distance is below d, and that distance. `Memory` never comes: where there is none for a copy of the words, each two are
/// compared.
pub fn check_words(alloc: Global, entry: Entry, words: Vec<Word>) -> Result<Code, CodeFault>
    requires entry { IsEntry entry }
    requires words { All (λ x. x < 2 ^ entry.n) words.items }
    ensures fault { result_err result ≡ code_fault entry words.items }
    ensures code { IfOk result (λ c. IsCodeOf entry words.items) }
    ensures entry { IfOk result (λ c. (c.n ≡ entry.n) × (c.d ≡ entry.d) × (c.w ≡ entry.w)) }
    ensures words { IfOk result (λ c. IsPermutation words.items c.words) }
    ensures sound { IfOk result IsSoundCode }
{
    if let Some(fault) = first_fault(alloc, entry, &words) {
        return Err(fault);
    }
    let mut words = words;
    words.sort_unstable();
    let Entry { n, d, w } = entry;
    Ok(Code::from_sorted(n, d, w, words))
}

/// The first reason why the words are no code of the entry.
fn first_fault(alloc: Global, entry: Entry, words: &[Word]) -> Option<CodeFault>
    requires entry { IsEntry entry }
    requires words { All (λ x. x < 2 ^ entry.n) words.now }
    ensures { result ≡ code_fault entry words.now }
{
    if let Some(fault) = size_fault(words) {
        return Some(fault);
    }
    if let Some(fault) = weight_fault(words, entry.w) {
        return Some(fault);
    }
    pair_fault(alloc, words, entry.n, entry.d)
}

/// Whether there are too few words or too many.
fn size_fault(words: &[Word]) -> Option<CodeFault>
    ensures { result ≡ size_fault words.now }
{
    let count = words.len();
    if count == 0 || count > MAX_WORDS {
        Some(CodeFault::Size(count as u64))
    } else {
        None
    }
}

/// The first word of another weight, where a weight is given.
fn weight_fault(words: &[Word], w: Option<u32>) -> Option<CodeFault>
    ensures { (n : ℕ) → All (λ x. x < 2 ^ n) words.now → result ≡ weight_fault n w words.now }
{
    let w = w?;
    for (place, word) in words.iter().enumerate() {
        if weight(*word) != w {
            return Some(CodeFault::Weight(place));
        }
    }
    None
}

/// The least pair of words of so many digits that are closer than `d`. It is not looked for where there is seen to be none.
fn close_pair(alloc: Global, words: &[Word], digits: u32, d: u32) -> Option<(usize, usize)>
    requires distance { 1 ≤ d }
    requires digits { digits < 32 }
    ensures least { (n : ℕ) → All (λ x. x < 2 ^ n) words.now →
        result ≡ least_pair (λ x y. nat_lt (distance n x y) d) words.now }
    ensures places { IfSome result (λ p. (p.0 < p.1) × (p.1 < length words.now)) }
{
    if are_far_by_groups(alloc, words, digits, d) {
        return None;
    }
    first_close_pair(words, d)
}

/// The least pair of equal words, or else the least pair that is closer than `d`: no word before that pair is equal to a
/// later one.
fn pair_fault(alloc: Global, words: &[Word], digits: u32, d: u32) -> Option<CodeFault>
    requires distance { 1 ≤ d }
    requires digits { digits < 32 }
    ensures { (n : ℕ) → All (λ x. x < 2 ^ n) words.now →
        result ≡ first_of (repeated_fault words.now) (close_fault n d words.now) }
{
    let (i, j) = close_pair(alloc, words, digits, d)?;
    match close_pair_from(words, i, 1) {
        Some((first, again)) => Some(CodeFault::Repeated(first, again)),
        None => Some(CodeFault::Close(i, j, distance(words[i], words[j]))),
    }
}
