//! Words as texts of the digits `0` and `1`.

ghost use Rattle.std.specs.Prelude.{◌≡◌, ◌≢◌, ◌↔◌, ℕ, ◌^◌, ◌<◌, ◌≤◌, not, length, position, IfOk};
ghost use Rattle.std.specs.Result.{result_ok};
ghost use Rattle.ct_words.specs.declared.limits.TheConstants.{MAX_N};
ghost use Rattle.ct_words.specs.declared.word.WordFault.TheVariants.{BadLength, BadDigit};
ghost use Rattle.ct_words.specs.Word.{digit};
ghost use Rattle.ct_words.specs.Text.{word_of, word_text, is_binary_digit};

use crate::word::{Word, WordFault};

/// The word of length `n`, from 1 to `MAX_N`, that the text writes, digit by digit from place 0 on.
///
/// It is `BadLength` where the text has not `n` bytes, and else `BadDigit` with the first place that is neither `0`
/// nor `1`.
pub fn parse_word(text: &[u8], n: u32) -> Result<Word, WordFault>
    requires some { 1 ≤ n }
    requires room { n ≤ MAX_N }
    ensures word { result_ok result ≡ word_of n text.now }
    ensures text { IfOk result (λ x. (x < 2 ^ n) × (text.now ≡ word_text n x)) }
    ensures bad_length { (l : ℕ) → (result ≡ Err (BadLength l)) ↔ ((l ≡ length text.now) × (l ≢ n)) }
    ensures bad_digit { (p : ℕ) → (result ≡ Err (BadDigit p)) ↔
        ((length text.now ≡ n) × (position (λ b. not (is_binary_digit b)) text.now ≡ Some p)) }
{
    if text.len() != n as usize {
        return Err(WordFault::BadLength(text.len()));
    }
    let mut word: Word = 0;
    for (place, byte) in text.iter().enumerate() {
        if *byte != b'0' && *byte != b'1' {
            return Err(WordFault::BadDigit(place));
        }
        word = 2 * word + (*byte - b'0') as Word;
    }
    Ok(word)
}

/// Writes the text of the word, which is below 2^n, into the `n` bytes of `into`.
pub fn print_word(word: Word, n: u32, into: &mut [u8])
    requires word { word < 2 ^ n }
    requires bytes { length into.old ≡ n }
    ensures { into.new ≡ word_text n word }
{
    for (place, byte) in into.iter_mut().enumerate() {
        *byte = b'0' + digit(word, n, place as u32);
    }
}

/// The digit of the word of length `n` at the place, 0 or 1.
fn digit(word: Word, n: u32, place: u32) -> u8
    requires { place < n }
    ensures value { result ≡ digit n word place }
    ensures binary { result < 2 }
{
    let shift = n - 1 - place;
    if shift >= Word::BITS {
        return 0;
    }
    ((word >> shift) % 2) as u8
}
