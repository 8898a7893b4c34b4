//! Sides of bounds, as words name them.

ghost use Rattle.std.specs.Prelude.{◌≡◌};
ghost use Rattle.ct_text.specs.Side.{side_of_word};

use ct_words::Side;

/// The side that the word names: `lower` or `upper`.
pub fn parse_side(word: &[u8]) -> Option<Side>
    ensures { result ≡ side_of_word word.now }
{
    if word == b"lower".as_slice() {
        Some(Side::Lower)
    } else if word == b"upper".as_slice() {
        Some(Side::Upper)
    } else {
        None
    }
}
