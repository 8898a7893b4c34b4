//! The steps by which a code is made from others.

use ct_words::{Listed, Word};

/// A step by which a code is made from one code, its part, or from two, its part and the other.
#[derive(Drop)]
pub enum Step {
    /// Each word is followed by the digit 0.
    Lengthen,
    /// Each word is followed by the digit 1.
    AppendOne,
    /// Each word is followed by the parity of its weight.
    Parity,
    /// These places are left out.
    Puncture(Listed<u32>),
    /// The words that have the digits, the second list, at the places, the first, less these places.
    Shorten(Listed<u32>, Listed<u32>),
    /// This word is added to each word.
    Translate(Word),
    /// Zeros and ones change places.
    Complement,
    /// The words that have a weight after this word is added.
    Select(Word),
    /// u followed by u + v, for the words u of the part and v of the other.
    Uuv,
    /// The words of the part, each followed by the word of the other that stands at the same place.
    Juxtapose,
    /// The first words, so many.
    Trim(u32),
}
