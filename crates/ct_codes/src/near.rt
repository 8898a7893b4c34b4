//! The first of many words that is close to one, looked for eight words at a time.
ghost use Rattle.std.specs.Prelude.{◌≡◌, ◌+◌, ◌≤◌, not, nat_lt, length, position};
ghost use Rattle.std.specs.List.{prefix_len};
ghost use Rattle.std.specs.Simd.Lanes.{chunk};
ghost use Rattle.ct_words.specs.Word.{distance};

use ct_words::{Word, distance};
use std::simd::prelude::*;

/// How many words are compared at once.
const LANES: usize = 8;

/// The first place of `others` whose word has a distance below `d` from `word`. Whatever their length, all are words of length
/// 32, too, and at the same distance. It takes no memory.
pub fn first_close(word: Word, others: &[Word], d: u32) -> Option<usize>
    ensures { result ≡ position (λ x. nat_lt (distance 32 word x) d) others.now }
{
    let blocks = others.len() / LANES;
    for block in 0..blocks {
        let at = block * LANES;
        let far = far_in_block(word, others, at, d);
        if far < LANES {
            return Some(at + far);
        }
    }
    let start = blocks * LANES;
    let more = first_close_plainly(word, &others[start..], d)?;
    Some(start + more)
}

/// How many of the `LANES` words from place `at` on come before the first whose distance from `word` is below `d`.
fn far_in_block(word: Word, others: &[Word], at: usize, d: u32) -> usize
    requires { at + 8 ≤ length others.now }
    ensures { result ≡ prefix_len (λ x. not (nat_lt (distance 32 word x) d)) (chunk at 8 others.now) }
{
    let distances = (u32x8::from_slice(&others[at..]) ^ u32x8::splat(word)).count_ones();
    let close = distances.simd_lt(u32x8::splat(d)).to_bitmask();
    if close == 0 {
        LANES
    } else {
        close.trailing_zeros() as usize
    }
}

/// The same, word by word.
fn first_close_plainly(word: Word, others: &[Word], d: u32) -> Option<usize>
    ensures { result ≡ position (λ x. nat_lt (distance 32 word x) d) others.now }
{
    others.iter().position(|other| distance(word, *other) < d)
}
