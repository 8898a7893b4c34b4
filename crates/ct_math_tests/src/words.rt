//! Words whose texts, weights and distances are known.

use ct_words::{MAX_BOUND, MAX_N, Word, WordFault, distance, parse_word, print_word, weight};

/// A text of 24 digits, its word, and how many ones it has.
type Known = (&'static [u8], Word, u32);

/// Two words of the extended Golay code (Golay 1949), the two ends of the space and a word of weight 2.
const KNOWN: [Known; 5] = [
    (b"101011100011000000000001", 0xae3001, 8),
    (b"010101110001100000000001", 0x571801, 8),
    (b"000000000000000000000000", 0, 0),
    (b"111111111111111111111111", 0xffffff, 24),
    (b"000000000000000000000110", 6, 2),
];

fn is_known((text, word, ones): Known) -> bool {
    parse_word(text, 24) == Ok(word) && weight(word) == ones
}

/// Two words, and at how many places they differ.
const DISTANCES: [(Word, Word, u32); 3] = [(0xae3001, 0x571801, 8), (0, 0xffffff, 24), (6, 6, 0)];

#[test]
fn texts_weights_and_distances(rt: HostRuntime) {
    for row in &KNOWN {
        assert!(rt; is_known(*row), "{}", row.1);
    }
    for (first, second, places) in &DISTANCES {
        assert!(rt; distance(*first, *second) == *places, "{first} {second}");
    }
}

/// A word, its length, and its text.
type Printed = (Word, u32, &'static [u8]);

/// Words of every length: none, 24 digits, 32 digits, and more than a word has.
const PRINTED: [Printed; 8] = [
    (0, 0, b""),
    (0xae3001, 24, b"101011100011000000000001"),
    (0x571801, 24, b"010101110001100000000001"),
    (0, 24, b"000000000000000000000000"),
    (0xffffff, 24, b"111111111111111111111111"),
    (6, 24, b"000000000000000000000110"),
    (0x80000001, 32, b"10000000000000000000000000000001"),
    (0xc0000001, 34, b"0011000000000000000000000000000001"),
];

fn is_printed((word, n, text): Printed) -> bool {
    let mut printed = [b'?'; 34];
    let length = n as usize;
    if length > 34 || u64::from(word) >= 1 << n {
        return false;
    }
    print_word(word, n, &mut printed[..length]);
    &printed[..length] == text
}

#[test]
fn printed_words(rt: HostRuntime) {
    for row in &PRINTED {
        assert!(rt; is_printed(*row), "{} of length {}", row.0, row.1);
    }
}

/// A text, a length, and the word that it is, or why it is none.
type Read = (&'static [u8], u32, Result<Word, WordFault>);

/// Texts that are no words, and the shortest and the longest that are.
const READ: [Read; 7] = [
    (b"0110", 5, Err(WordFault::BadLength(4))),
    (b"01 2", 5, Err(WordFault::BadLength(4))),
    (b"", 1, Err(WordFault::BadLength(0))),
    (b"01 2x", 5, Err(WordFault::BadDigit(2))),
    (b"/1", 2, Err(WordFault::BadDigit(0))),
    (b"1", 1, Ok(1)),
    (&[b'1'; 30], 30, Ok(1073741823)),
];

fn is_read((text, n, wanted): Read) -> bool {
    1 <= n && n <= MAX_N && parse_word(text, n) == wanted
}

#[test]
fn refused_texts(rt: HostRuntime) {
    assert!(rt; MAX_N == 30 && MAX_BOUND == 1073741824);
    for row in &READ {
        assert!(rt; is_read(*row), "{:?}", row.2);
    }
}
