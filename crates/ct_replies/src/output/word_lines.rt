//! Lines with words, eight digits at a time.

ghost use Rattle.std.specs.Prelude.{◌≡◌, ◌<◌, ◌≤◌, ◌+◌, ◌*◌, ◌^◌, All, length, take};
ghost use Rattle.ct_words.specs.declared.limits.TheConstants.{MAX_N};
ghost use Rattle.ct_words.specs.Text.{word_text};
ghost use Rattle.ct_replies.specs.Text.{ended, word_lines};
ghost use Rattle.ct_replies.specs.Inside.Texts.{AreTexts};

use ct_text::LINE_FEED;
use ct_words::{Word, print_word};

/// Texts of eight digits, by the words that they are the texts of.
pub(crate) type EightDigits = [[u8; 8]; 256];

/// The texts of all words of length 8.
pub(crate) fn eight_digits() -> EightDigits
    ensures { AreTexts result }
{
    let mut texts = [[0; 8]; 256];
    for word in 0..256 {
        print_word(word as Word, 8, &mut texts[word]);
    }
    texts
}

/// Writes the text of the word of length n, from its end on.
fn print_text(texts: &EightDigits, word: Word, n: u32, into: &mut [u8])
    requires texts { AreTexts texts.now }
    requires word { word < 2 ^ n }
    requires bytes { length into.old ≡ n }
    ensures { into.new ≡ word_text n word }
{
    let mut left = n as usize;
    let mut rest = word;
    while left >= 8 {
        left -= 8;
        into[left..left + 8].copy_from_slice(&texts[(rest % 256) as usize]);
        rest /= 256;
    }
    print_word(rest, left as u32, &mut into[..left]);
}

/// Writes the line with the word of length n.
fn print_line(texts: &EightDigits, word: Word, n: u32, into: &mut [u8])
    requires texts { AreTexts texts.now }
    requires word { word < 2 ^ n }
    requires bytes { length into.old ≡ n + 1 }
    ensures { into.new ≡ ended (word_text n word) }
{
    let length = n as usize;
    print_text(texts, word, n, &mut into[..length]);
    into[length] = LINE_FEED;
}

/// Writes a line for each word of length n to the front of the bytes.
pub(crate) fn print_lines(texts: &EightDigits, n: u32, words: &[Word], into: &mut [u8])
    requires texts { AreTexts texts.now }
    requires length { n ≤ MAX_N }
    requires words { All (λ x. x < 2 ^ n) words.now }
    requires room { length words.now * (n + 1) ≤ length into.old }
    ensures lines { take (length words.now * (n + 1)) into.new ≡ word_lines n words.now }
    ensures size { length into.new ≡ length into.old }
{
    let line = n as usize + 1;
    let mut at = 0;
    for word in words {
        print_line(texts, *word, n, &mut into[at..at + line]);
        at += line;
    }
}
