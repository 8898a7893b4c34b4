//! Words that are seen to be far from each other without comparing each two: words that differ at fewer places than there are groups of
//! places have the same digits in one of the groups.
ghost use Rattle.std.specs.Prelude.{◌≡◌, ℕ, ◌+◌, ◌*◌, ◌^◌, ◌<◌, ◌≤◌, List, length, slice_index, true, AllPairs, IsPermutation};
ghost use Rattle.std.specs.List.Sorted.{IsNonDecreasingBy};
ghost use Rattle.ct_words.specs.Word.{distance};
ghost use Rattle.ct_codes.specs.Inside.Groups.{group_digits, AreFarWhereSame};

use ct_words::{Word, distance};
use std::alloc::Global;

/// How many words there are at least before they are looked at in groups.
const MANY: usize = 256;

/// Of how many words with the same digits in a group at most each two are compared: this part of all words.
const PART: usize = 32;

/// The digits of the word in a group of `width` places, whose last stands `shift` places from the last of the word.
fn group_digits(word: Word, shift: u32, width: u32) -> Word
    requires shift { shift < 32 }
    requires width { width < 32 }
    ensures { result ≡ group_digits shift width word }
{
    (word >> shift) & ((1 << width) - 1)
}

/// Whether the word at the place is seen to be at distance `d` or more from each later one with its digits in the group, where the
/// words ascend by these.
fn is_far_in_group(words: &[Word], place: usize, shift: u32, width: u32, d: u32) -> bool
    requires shift { shift < 32 }
    requires width { width < 32 }
    requires place { place < length words.now }
    ensures { result ≡ true → IsNonDecreasingBy (group_digits shift width) words.now → (m : ℕ) → place < m → m < length words.now →
        group_digits shift width (slice_index words.now place) ≡ group_digits shift width (slice_index words.now m) →
        d ≤ distance 32 (slice_index words.now place) (slice_index words.now m) }
{
    let word = words[place];
    let digits = group_digits(word, shift, width);
    let most = words.len() / PART;
    for other in place + 1..words.len() {
        if group_digits(words[other], shift, width) != digits {
            return true;
        }
        if other - place > most || distance(word, words[other]) < d {
            return false;
        }
    }
    true
}

/// Whether each two words with the same digits in the group are seen to be at distance `d` or more, where the words ascend by these.
fn are_far_in_group(words: &[Word], shift: u32, width: u32, d: u32) -> bool
    requires shift { shift < 32 }
    requires width { width < 32 }
    ensures { result ≡ true → IsNonDecreasingBy (group_digits shift width) words.now → AreFarWhereSame shift width d words.now }
{
    for place in 0..words.len() {
        if !is_far_in_group(words, place, shift, width, d) {
            return false;
        }
    }
    true
}

/// Whether each two words with the same digits in the group are seen to be at distance `d` or more. It sorts the words by these.
fn sort_by_group(words: &mut [Word], shift: u32, width: u32, d: u32) -> bool
    requires shift { shift < 32 }
    requires width { width < 32 }
    ensures permutation { IsPermutation words.old words.new }
    ensures far { result ≡ true → AreFarWhereSame shift width d words.new }
{
    words.sort_unstable_by_key(|word| group_digits(*word, shift, width));
    are_far_in_group(words, shift, width, d)
}

/// Whether each two words of `n` digits are seen to be at distance `d` or more, by `d` groups of their places. Without memory for a copy,
/// and where words are few or groups small, they are not looked at.
pub(crate) fn are_far_by_groups(alloc: Global, words: &[Word], n: u32, d: u32) -> bool
    requires distance { 1 ≤ d }
    requires length { n < 32 }
    ensures { result ≡ true → AllPairs (λ x y. d ≤ distance 32 x y) words.now }
{
    let width = n / d;
    if words.len() < MANY || (1u32 << width) / 8 < d {
        return false;
    }
    let Ok(mut sorted) = Vec::from_slice(alloc, words) else {
        return false;
    };
    for group in 0..d {
        if !sort_by_group(&mut sorted, group * width, width, d) {
            return false;
        }
    }
    true
}
