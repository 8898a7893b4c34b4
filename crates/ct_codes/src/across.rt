//! Two words that are too close, one of each of two lists.
ghost use Rattle.std.specs.Prelude.{◌≡◌, ℕ, nat_lt, List, length};
ghost use Rattle.ct_words.specs.Word.{distance};
ghost use Rattle.ct_codes.specs.Inside.Across.{IsFirstAcrossOrNone};
ghost use Rattle.ct_codes.specs.Inside.Rows.{AreRows};

use crate::near::first_close;
use crate::rows::{BLOCK, ROWS, far_in_rows, write_rows};
use ct_words::Word;

/// How many words a block has to be compared with before its rows are worth writing.
const MANY: usize = 256;

/// The first of the words that is closer than `d` to one of the later words, by its place, and the place of the first of those to
/// which it is. All are words of length 32, too. It takes no memory.
pub(crate) fn first_close_across(words: &[Word], later: &[Word], d: u32) -> Option<(usize, usize)>
    ensures { IsFirstAcrossOrNone (λ x y. nat_lt (distance 32 x y) d) words.now later.now result }
{
    if words.len() >= MANY && later.len() == BLOCK {
        across_rows(words, later, d)
    } else {
        across_plainly(words, later, d)
    }
}

/// The same by the rows of the later words, which are a block.
fn across_rows(words: &[Word], later: &[Word], d: u32) -> Option<(usize, usize)>
    requires block { length later.now ≡ 64 }
    ensures { IsFirstAcrossOrNone (λ x y. nat_lt (distance 32 x y) d) words.now later.now result }
{
    let mut rows = [0u8; ROWS];
    write_rows(&mut rows, later);
    close_to_block(words, &rows, d)
}

/// The first of the words that is closer than `d` to one of a block, whose rows are handed in, and the first of the block to which
/// it is.
fn close_to_block(words: &[Word], rows: &[u8], d: u32) -> Option<(usize, usize)>
    requires rows { length rows.now ≡ 8192 }
    ensures { (block : List ℕ) → length block ≡ 64 → AreRows rows.now block →
        IsFirstAcrossOrNone (λ x y. nat_lt (distance 32 x y) d) words.now block result }
{
    for place in 0..words.len() {
        let far = far_in_rows(rows, words[place], d);
        if far < BLOCK {
            return Some((place, far));
        }
    }
    None
}

/// The same, over the later words themselves.
fn across_plainly(words: &[Word], later: &[Word], d: u32) -> Option<(usize, usize)>
    ensures { IsFirstAcrossOrNone (λ x y. nat_lt (distance 32 x y) d) words.now later.now result }
{
    for place in 0..words.len() {
        if let Some(other) = first_close(words[place], later, d) {
            return Some((place, other));
        }
    }
    None
}
