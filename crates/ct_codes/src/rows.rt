//! Which words of a block of 64 are close to a word, looked for in 64 lanes at once.
//!
//! Of each hexadecimal digit of the block's words, and each value of such a digit, the rows hold how many binary digits
//! differ: one number for each word. Eight rows, one for each digit of a word, add up to its distances from all 64.
ghost use Rattle.std.specs.Prelude.{◌≡◌, ℕ, ◌/◌, ◌%◌, ◌^◌, ◌<◌, not, nat_lt, List, length, map, min, IfOk};
ghost use Rattle.std.specs.List.{prefix_len};
ghost use Rattle.std.specs.Simd.Lanes.{mask_l};
ghost use Rattle.ct_words.specs.Word.{distance};
ghost use Rattle.ct_codes.specs.Inside.Rows.{row_entry, AreRows};

use ct_words::{Word, distance};
use std::alloc::{AllocError, Global};
use std::simd::prelude::*;

/// How many words a block has.
pub(crate) const BLOCK: usize = 64;

/// How many numbers the rows of a block are: one for each hexadecimal digit of a word, value of it and word of the block.
pub(crate) const ROWS: usize = 8 * 16 * BLOCK;

/// The rows of the words of a block.
pub(crate) fn rows_of(alloc: Global, block: &[Word]) -> Result<Vec<u8>, AllocError>
    requires { length block.now ≡ 64 }
    ensures { IfOk result (λ rows. AreRows rows.items block.now) }
{
    let mut rows = vec![in alloc; 0u8; ROWS]?;
    write_rows(&mut rows, block);
    Ok(rows)
}

/// Writes the rows of the words of a block.
pub(crate) fn write_rows(rows: &mut [u8], block: &[Word])
    requires rows { length rows.old ≡ 8192 }
    requires block { length block.now ≡ 64 }
    ensures { AreRows rows.new block.now }
{
    for place in 0..ROWS {
        rows[place] = row_entry(block, place);
    }
}

/// The number at a place of the rows.
fn row_entry(block: &[Word], place: usize) -> u8
    requires block { length block.now ≡ 64 }
    requires place { place < 8192 }
    ensures { result ≡ row_entry block.now place }
{
    let digit = (block[place % 64] >> (place / 1024 * 4)) % 16;
    distance((place / 64 % 16) as Word, digit) as u8
}

/// The row of a hexadecimal digit of a word, by its place from the last.
fn row(rows: &[u8], word: Word, place: u32) -> u8x64
    requires rows { length rows.now ≡ 8192 }
    requires place { place < 8 }
    ensures size { length result ≡ 64 }
    ensures distances { (block : List ℕ) → length block ≡ 64 → AreRows rows.now block →
        result ≡ map (λ x. distance 4 (word / 16 ^ place % 16) (x / 16 ^ place % 16)) block }
{
    let digit = (word >> (place * 4)) % 16;
    let start = (place * 16 + digit) as usize * 64;
    u8x64::from_slice(&rows[start..])
}

/// The distances of a word, of length 32 too, from the words of the block.
fn distances(rows: &[u8], word: Word) -> u8x64
    requires rows { length rows.now ≡ 8192 }
    ensures size { length result ≡ 64 }
    ensures distances { (block : List ℕ) → length block ≡ 64 → AreRows rows.now block →
        result ≡ map (distance 32 word) block }
{
    row(rows, word, 0)
        + row(rows, word, 1)
        + row(rows, word, 2)
        + row(rows, word, 3)
        + row(rows, word, 4)
        + row(rows, word, 5)
        + row(rows, word, 6)
        + row(rows, word, 7)
}

/// How many words of the block come before the first whose distance from the word is below `d`: 64 where none is.
pub(crate) fn far_in_rows(rows: &[u8], word: Word, d: u32) -> usize
    requires rows { length rows.now ≡ 8192 }
    ensures { (block : List ℕ) → length block ≡ 64 → AreRows rows.now block →
        result ≡ prefix_len (λ x. not (nat_lt (distance 32 word x) d)) block }
{
    let limit = limit_of(d);
    let close = lanes_below(distances(rows, word), limit);
    if close == 0 {
        BLOCK
    } else {
        close.trailing_zeros() as usize
    }
}

/// The limit on distances as a byte: above all of them where `d` is.
fn limit_of(d: u32) -> u8
    ensures { result ≡ min d 33 }
{
    d.min(33) as u8
}

/// The lanes whose number is below the limit, as a mask.
fn lanes_below(lanes: u8x64, limit: u8) -> u64
    requires { length lanes ≡ 64 }
    ensures { result ≡ mask_l (map (λ x. nat_lt x limit) lanes) }
{
    lanes.simd_lt(u8x64::splat(limit)).to_bitmask()
}
