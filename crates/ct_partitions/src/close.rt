//! The search for two words of a partition that are closer than they need to be.

ghost use Rattle.std.specs.Prelude.{◌≡◌, ℕ, ◌^◌, ◌<◌, ◌≤◌, length, All, MatchOption, IfSome};
ghost use Rattle.ct_words.specs.PairProducts.{all_places};
ghost use Rattle.ct_words.specs.Pairs.{least_pair};
ghost use Rattle.ct_classes.specs.Partition.{word_lists, words_of_classes};
ghost use Rattle.ct_partitions.specs.Check.{is_close};
ghost use Rattle.ct_partitions.specs.Inside.Rows.{IsLesser};

use ct_codes::first_close_pair;
use ct_words::Word;

/// The least pair of places, in order of the first and then the second, whose words are closer than they need to be: `d`
/// in one class, `between` in different ones. All words are handed in, one class after the other. It is the least of all words
/// that are closer than `between`, or the least of the first class that has words closer than `d`.
pub(crate) fn first_close_places(
    words: &[Word],
    classes: &[Vec<Word>],
    d: u32,
    between: u32,
) -> Option<(usize, usize)>
    requires words { words.now ≡ words_of_classes (word_lists classes.now) }
    requires nearer { between ≤ d }
    ensures least { (n : ℕ) → All (λ x. x < 2 ^ n) words.now →
        result ≡ least_pair (is_close n d between (word_lists classes.now)) (all_places (length words.now)) }
    ensures places { IfSome result (λ p. (p.0 < p.1) × (p.1 < length words.now)) }
{
    let across = first_close_pair(words, between);
    let mut start = 0;
    for class in classes {
        let end = start + class.len();
        if let Some((i, j)) = first_close_pair(class, d) {
            return Some(lesser(across, (start + i, start + j)));
        }
        start = end;
    }
    across
}

/// The lesser of two pairs, in order of the first place and then the second: the other one where there is no first.
fn lesser(pair: Option<(usize, usize)>, other: (usize, usize)) -> (usize, usize)
    ensures { MatchOption pair (result ≡ other) (λ p. IsLesser p other result) }
{
    match pair {
        Some(pair) => lesser_of(pair, other),
        None => other,
    }
}

/// The lesser of two pairs.
fn lesser_of(pair: (usize, usize), other: (usize, usize)) -> (usize, usize)
    ensures { IsLesser pair other result }
{
    if pair.0 < other.0 {
        return pair;
    }
    if pair.0 > other.0 || pair.1 > other.1 {
        return other;
    }
    pair
}
