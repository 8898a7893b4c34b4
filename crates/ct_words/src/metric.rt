//! The weight of a word, and the distance of two words.

ghost use Rattle.std.specs.Prelude.{◌≡◌, ℕ, ◌^◌, ◌<◌};
ghost use Rattle.ct_words.specs.Word.{distance, weight};

use crate::word::Word;

/// The number of places where the two words, of one length, differ (Hamming).
pub fn distance(a: Word, b: Word) -> u32
    ensures { (n : ℕ) → a < 2 ^ n → b < 2 ^ n → result ≡ distance n a b }
{
    (a ^ b).count_ones()
}

/// The number of ones of the word.
pub fn weight(a: Word) -> u32
    ensures { (n : ℕ) → a < 2 ^ n → result ≡ weight n a }
{
    a.count_ones()
}
