//! Codes that are listed. Any code of the size will do, so each is checked by itself: the line before it, the order of its words, their
//! distances and their weights.

use crate::outcome::Outcome;
use crate::tally::Tally;
use ct_words::{MAX_N, Word, parse_word};
use std::alloc::{AllocError, Global};
use std::io;

/// An entry, with what is submitted before, and how many words of a code of it are listed then.
#[derive(Clone, Copy)]
struct Listing {
    before: &'static str,
    n: u32,
    d: u32,
    w: Option<u32>,
    size: usize,
}

/// The seven lines of the Fano plane.
const FANO_PLANE: &str =
    "submit fano lines 5\nkind='words'\nn=7\nd=4\nw=3\nwords=['1101000','0110100','0011010','0001101','1000110','0100011','1010001']\n";

/// The extended Hamming code has 16 words; two words differ at all of 30 places, or have 15 ones each and none in common; the triples of six
/// places whose sum is 0 modulo 6 are 4. Four lines of the Fano plane miss a point, the complements of all are seven, and of weight 4 and
/// length 8 the greatest sum class has 10 words, more than the lines with a place more.
const LISTINGS: [(&str, u32, u32, Option<u32>, usize); 13] = [
    ("", 1, 30, None, 1),
    ("", 29, 30, None, 1),
    ("", 30, 30, None, 2),
    ("", 30, 30, Some(15), 2),
    ("", 5, 3, None, 4),
    ("", 8, 4, None, 16),
    ("", 4, 4, Some(0), 1),
    ("", 6, 4, Some(3), 4),
    ("", 16, 8, None, 32),
    (FANO_PLANE, 7, 4, Some(3), 7),
    (FANO_PLANE, 6, 4, Some(3), 4),
    (FANO_PLANE, 7, 4, Some(4), 7),
    (FANO_PLANE, 8, 4, Some(4), 10),
];

/// The entry as a command names it.
fn entry_words(alloc: Global, listing: Listing) -> Result<String, AllocError> {
    let Listing { n, d, .. } = listing;
    match listing.w {
        None => format!(in alloc; "{n} {d}"),
        Some(w) => format!(in alloc; "{n} {d} {w}"),
    }
}

/// What is written after the line of the submission, where there was one.
fn after_submission(listing: Listing, output: &[u8]) -> &[u8] {
    if listing.before.is_empty() {
        return output;
    }
    match output.iter().position(|byte| *byte == b'\n') {
        Some(end) => &output[end..][1..],
        None => output,
    }
}

/// The words of length n of the lines after the first, where each of these is one.
fn words_of(alloc: Global, output: &[u8], n: u32) -> Result<Option<Vec<Word>>, AllocError> {
    let mut words = Vec::new(alloc);
    for (number, line) in output.split(|byte| *byte == b'\n').enumerate() {
        if number == 0 || line.is_empty() {
            continue;
        }
        if n < 1 || n > MAX_N {
            return Ok(None);
        }
        let Ok(word) = parse_word(line, n) else {
            return Ok(None);
        };
        words.push(word)?;
    }
    Ok(Some(words))
}

/// Whether the words ascend, each two differ at so many places, and each has the weight, where one is given.
fn is_code(words: &[Word], d: u32, w: Option<u32>) -> bool {
    for (place, word) in words.iter().enumerate() {
        if w.is_some_and(|w| word.count_ones() != w) {
            return false;
        }
        for before in &words[..place] {
            if before >= word || (before ^ word).count_ones() < d {
                return false;
            }
        }
    }
    true
}

/// Whether the output is a code of the entry with so many words.
fn is_listed(alloc: Global, listing: Listing, output: &[u8]) -> Result<bool, AllocError> {
    let entry = entry_words(alloc, listing)?;
    let first = format!(in alloc; "code {entry} size {}\n", listing.size)?;
    let Some(words) = words_of(alloc, output, listing.n)? else {
        return Ok(false);
    };
    Ok(
        output.starts_with(first.as_bytes())
            && words.len() == listing.size
            && is_code(&words, listing.d, listing.w),
    )
}

/// Each listing is a code of its entry, with as many words as are known.
pub fn run_all(rt: &(impl Print + AllocGlobal), tally: &mut Tally) -> io::Result<()> {
    let alloc = rt.alloc();
    for (before, n, d, w, size) in LISTINGS {
        let listing = Listing {
            before,
            n,
            d,
            w,
            size,
        };
        let entry = entry_words(alloc, listing)?;
        let lines = format!(in alloc; "{}list {entry}\n", listing.before)?;
        let input = Vec::from_slice(alloc, lines.as_bytes())?;
        let outcome = Outcome::of_mode(alloc, "session", input)?;
        let is_met = is_listed(alloc, listing, after_submission(listing, &outcome.output))?;
        tally.count(rt, lines.as_str().trim_end(), is_met, outcome.text())?;
    }
    Ok(())
}
