//! The search for two words that are too close: block after block of words, each against all words before it.
ghost use Rattle.std.specs.Prelude.{◌≡◌, ℕ, ◌^◌, ◌<◌, ◌≤◌, nat_lt, length, drop, All, IfSome, MatchOption};
ghost use Rattle.ct_words.specs.Word.{distance};
ghost use Rattle.ct_words.specs.Pairs.{least_pair};
ghost use Rattle.ct_codes.specs.Inside.Shifted.{shifted};
ghost use Rattle.ct_codes.specs.Inside.Within.{IsLeastWithinOrNone};

use crate::across::first_close_across;
use crate::near::first_close;
use crate::rows::BLOCK;
use ct_words::Word;

/// The least pair of places i < j, in order of i and then j, whose words have a distance below `d`.
///
/// The words are of one length. It takes no memory.
pub fn first_close_pair(words: &[Word], d: u32) -> Option<(usize, usize)>
    ensures least { (n : ℕ) → All (λ x. x < 2 ^ n) words.now →
        result ≡ least_pair (λ x y. nat_lt (distance n x y) d) words.now }
    ensures places { IfSome result (λ p. (p.0 < p.1) × (p.1 < length words.now)) }
{
    let blocks = words.len() / BLOCK;
    let mut least = None;
    for block in 0..blocks {
        let start = block * BLOCK;
        least = with_later(words, start, start + BLOCK, least, d);
    }
    with_later(words, blocks * BLOCK, words.len(), least, d)
}

/// The least such pair whose first place is `start` or comes after it. All are words of length 32, too.
pub(crate) fn close_pair_from(words: &[Word], start: usize, d: u32) -> Option<(usize, usize)>
    requires start { start ≤ length words.now }
    ensures least { result ≡ shifted start (least_pair (λ x y. nat_lt (distance 32 x y) d) (drop start words.now)) }
    ensures places { IfSome result (λ p. (p.0 < p.1) × (p.1 < length words.now)) }
{
    let (i, j) = first_close_pair(&words[start..], d)?;
    Some((start + i, start + j))
}

/// The least such pair of the words before `end`, where that of the words before `start` is known: a pair with a later word
/// comes before it only where its first place does.
fn with_later(
    words: &[Word],
    start: usize,
    end: usize,
    least: Option<(usize, usize)>,
    d: u32,
) -> Option<(usize, usize)>
    requires places { (start ≤ end) × (end ≤ length words.now) }
    requires least { IsLeastWithinOrNone (λ x y. nat_lt (distance 32 x y) d) words.now 0 start least }
    ensures { IsLeastWithinOrNone (λ x y. nat_lt (distance 32 x y) d) words.now 0 end result }
{
    let first = first_place(least, start);
    if let Some((i, more)) = first_close_across(&words[..first], &words[start..end], d) {
        return Some((i, start + more));
    }
    match least {
        Some(_) => least,
        None => close_pair_within(words, start, end, d),
    }
}

/// The first place of the pair, or `start` where there is none.
fn first_place(pair: Option<(usize, usize)>, start: usize) -> usize
    ensures { MatchOption pair (result ≡ start) (λ p. result ≡ p.0) }
{
    match pair {
        Some((i, _)) => i,
        None => start,
    }
}

/// The least such pair of the words from `start` on and before `end`, word by word.
fn close_pair_within(words: &[Word], start: usize, end: usize, d: u32) -> Option<(usize, usize)>
    requires places { (start ≤ end) × (end ≤ length words.now) }
    ensures { IsLeastWithinOrNone (λ x y. nat_lt (distance 32 x y) d) words.now start end result }
{
    for i in start..end {
        if let Some(more) = first_close(words[i], &words[i + 1..end], d) {
            return Some((i, i + 1 + more));
        }
    }
    None
}
