//! The least close pair of lists of many lengths, against a plain double loop, and of words of the Golay code.

use crate::cosets::golay;
use ct_codes::first_close_pair;
use ct_words::{Word, distance};
use std::alloc::{AllocError, Global};
use std::process::Abort;
use std::test::Fail;

/// Lengths about those of blocks, and about those from which blocks have rows.
const LENGTHS: [usize; 13] = [0, 1, 63, 64, 65, 127, 128, 129, 200, 319, 320, 321, 385];

/// Places about the ends of blocks.
const PLACES: [usize; 14] = [0, 1, 62, 63, 64, 65, 127, 128, 199, 255, 256, 319, 320, 384];

/// The least close pair, word by word.
fn plainly(words: &[Word], d: u32) -> Option<(usize, usize)> {
    for i in 0..words.len() {
        for j in i + 1..words.len() {
            if distance(words[i], words[j]) < d {
                return Some((i, j));
            }
        }
    }
    None
}

/// Whether the words are far from each other, and the last of them with another last digit, put after them, is close to it alone.
fn is_close_at_the_end(alloc: Global, far: &[Word]) -> Result<bool, AllocError> {
    let Some(last) = far.last() else {
        return Ok(false);
    };
    let mut words = far.to_vec(alloc)?;
    words.push(*last ^ 1)?;
    let end = (far.len() - 1, far.len());
    Ok(first_close_pair(far, 7) == None && first_close_pair(&words, 7) == Some(end))
}

/// The first words of a code of distance 8, and one after them.
fn assert_ends(rt: &impl Abort, alloc: Global, far: &[Word]) -> Result<(), AllocError> {
    for length in 1..41 {
        assert!(rt; length <= far.len());
        assert!(rt; is_close_at_the_end(alloc, &far[..length])?, "at {length}");
    }
    Ok(())
}

/// Whether the words, far from each other, with the word at place `j` put close to that at place `i`, have no other close pair.
fn is_close_at(alloc: Global, far: &[Word], i: usize, j: usize) -> Result<bool, AllocError> {
    let mut words = far.to_vec(alloc)?;
    if i >= far.len() || j >= words.len() {
        return Ok(false);
    }
    words[j] = far[i] ^ 1;
    let pair = Some((i, j));
    Ok(plainly(&words, 7) == pair && first_close_pair(&words, 7) == pair)
}

/// One close pair at each two places about the ends of blocks.
fn assert_corners(rt: &impl Abort, alloc: Global, far: &[Word]) -> Result<(), AllocError> {
    for i in &PLACES {
        for j in &PLACES {
            if *i < *j && *j < far.len() {
                assert!(rt; is_close_at(alloc, far, *i, *j)?, "at {i} {j}");
            }
        }
    }
    Ok(())
}

/// The words of the code of Golay.
#[test]
fn close_pairs_of_far_words(rt: HostRuntime) -> Result<(), Fail> {
    let code = golay(&rt, rt.alloc())?;
    let all = code.words();
    assert!(rt; all.len() == 4096);
    assert_ends(&rt, rt.alloc(), all)?;
    for length in &LENGTHS {
        assert!(rt; *length <= 4096);
        assert_corners(&rt, rt.alloc(), &all[..*length])?;
    }
    Ok(())
}

/// So many words as they come.
fn scattered(alloc: Global, length: usize) -> Result<Vec<Word>, AllocError> {
    let mut words = Vec::new(alloc);
    let mut word: Word = 1;
    for _place in 0..length {
        word = word.wrapping_mul(1664525).wrapping_add(1013904223);
        words.push(word)?;
    }
    Ok(words)
}

/// Distances that words of 32 digits have, and above.
const DISTANCES: [u32; 13] = [0, 1, 2, 3, 4, 5, 6, 7, 8, 12, 32, 33, 300];

/// Words as they come, for which many pairs are close or none.
#[test]
fn close_pairs_of_scattered_words(rt: HostRuntime) -> Result<(), Fail> {
    for length in &LENGTHS {
        let words = scattered(rt.alloc(), *length)?;
        for d in &DISTANCES {
            assert!(rt;
                first_close_pair(&words, *d) == plainly(&words, *d),
                "at {length} {d}"
            );
        }
    }
    Ok(())
}
