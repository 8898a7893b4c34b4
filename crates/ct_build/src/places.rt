//! Words without some of their places.

ghost use Rattle.std.specs.Prelude.{◌≡◌, ◌+◌, ◌*◌, ◌/◌, ◌%◌, ◌^◌, ◌<◌, ◌≤◌};
ghost use Rattle.ct_words.specs.declared.limits.TheConstants.{MAX_N};
ghost use Rattle.ct_words.specs.Word.{digit};
ghost use Rattle.ct_words.specs.Constructions.Places.{ArePlaces, other_places, read_at};
ghost use Rattle.ct_words.specs.Constructions.Shortened.{has_digits};

use ct_words::Word;

/// The word of length n without its digits at the places.
pub(crate) fn without_places(word: Word, n: u32, places: &[u32]) -> Word
    requires length { n ≤ MAX_N }
    requires places { ArePlaces n places.now }
    requires word { word < 2 ^ n }
    ensures { result ≡ read_at n word (other_places n places.now) }
{
    let mut rest = word;
    for place in places {
        rest = without_digit(rest, n - 1 - *place);
    }
    rest
}

/// The word without the digit that `low` digits follow.
fn without_digit(word: Word, low: u32) -> Word
    requires { low < MAX_N }
    ensures { result ≡ word / 2 ^ (low + 1) * 2 ^ low + word % 2 ^ low }
{
    ((word >> (low + 1)) << low) | (word & ((1 << low) - 1))
}

/// Whether the word of length n has at each of the places the digit that is given for it.
pub(crate) fn has_digits(word: Word, n: u32, places: &[u32], digits: &[u32]) -> bool
    requires length { n ≤ MAX_N }
    requires places { ArePlaces n places.now }
    ensures { result ≡ has_digits n places.now digits.now word }
{
    for (place, digit) in places.iter().zip(digits) {
        if (word >> (n - 1 - *place)) % 2 != *digit {
            return false;
        }
    }
    true
}
