//! Words of lines, numbers read and numbers printed, and ids, as they are written down here.

use ct_names::Id;
use ct_text::{first_words, parse_number, put_number};
use std::alloc::{AllocError, Global};
use std::test::Fail;

// Lines, and at most four of their words with a bar after each.
const LINES: [(&[u8], &[u8]); 8] = [
    (b"", b""),
    (b"  ", b""),
    (b" \r", b""),
    (b"show 10 6", b"show|10|6|"),
    (b"  show   10 6  \r", b"show|10|6|"),
    (b"show\t10 6\r\r", b"show\t10|6\r|"),
    (b"a b c d", b"a|b|c|d|"),
    (b"a b c d e", b"a|b|c|d|"),
];

// At most four words of the line, with a bar after each.
fn barred_words(alloc: Global, line: &[u8]) -> Result<Vec<u8>, AllocError> {
    let mut barred = Vec::new(alloc);
    for word in &first_words(alloc, line, 4)? {
        barred.extend_from_slice(word)?;
        barred.push(b'|')?;
    }
    Ok(barred)
}

#[test]
fn words_of_lines(rt: HostRuntime) -> Result<(), Fail> {
    for (line, wanted) in &LINES {
        let barred = barred_words(rt.alloc(), line)?;
        assert!(rt; barred.as_slice() == *wanted, "of {line:?}");
    }
    Ok(())
}

// Texts, each with its number.
const NUMBERS: [(&[u8], u64); 4] = [
    (b"0", 0),
    (b"28", 28),
    (b"10", 10),
    (b"18446744073709551615", 18446744073709551615),
];

// Texts that are no numbers, with commas between them.
const NO_NUMBERS: &str = ",00,07,+5,-5,5 ,5x,18446744073709551616,100000000000000000000";

// Whether the text is read as the number, which is printed as this text behind another.
fn is_number(alloc: Global, text: &[u8], number: u64) -> Result<bool, AllocError> {
    let mut printed = b"A(".to_vec(alloc)?;
    put_number(alloc, &mut printed, number)?;
    let (before, after) = printed.split_at(2);
    Ok(parse_number(text) == Some(number) && before == b"A(".as_slice() && after == text)
}

#[test]
fn numbers(rt: HostRuntime) -> Result<(), Fail> {
    for (text, number) in &NUMBERS {
        assert!(rt; is_number(rt.alloc(), text, *number)?, "{number}");
    }
    for text in NO_NUMBERS.split(',') {
        assert!(rt; parse_number(text.as_bytes()).is_none(), "{text}");
    }
    Ok(())
}

// Ids, and texts that are none, with commas between them.
const IDS: &str = "a,z-_9,hexa,a2345678901234567890123456789012";

const NO_IDS: &str = ",b23456789012345678901234567890123,A,9a,-a,_a,aB,a b,a\u{e9}";

// Whether the text is an id, and that of it.
fn is_id(text: &str) -> bool {
    matches!(Id::parse(text.as_bytes()), Some(id) if id.text() == text.as_bytes())
}

#[test]
fn ids(rt: HostRuntime) {
    for text in IDS.split(',') {
        assert!(rt; is_id(text), "{text}");
    }
    for text in NO_IDS.split(',') {
        assert!(rt; Id::parse(text.as_bytes()).is_none(), "{text}");
    }
}

const LETTERS: &[u8] = b"abcdefghijklmnopqrstuvwxyz";

const DIGITS: &[u8] = b"0123456789";

// Whether the byte begins an id and stands in one as it should.
fn is_known_in_ids(byte: u8) -> bool {
    let letter = LETTERS.contains(&byte);
    let stands = letter || DIGITS.contains(&byte) || b"-_".contains(&byte);
    Id::parse(&[byte]).is_some() == letter && Id::parse(&[b'a', byte]).is_some() == stands
}

// Whether the byte is a number, begins one and stands in one as it should.
fn is_known_in_numbers(byte: u8) -> bool {
    let digit = DIGITS.contains(&byte);
    parse_number(&[byte]).is_some() == digit
        && parse_number(&[byte, b'0']).is_some() == (digit && byte != b'0')
        && parse_number(&[b'1', byte]).is_some() == digit
}

/// Of all bytes, which begin an id, which stand in one, and which begin and stand in a number.
#[test]
fn bytes_of_ids_and_numbers(rt: HostRuntime) {
    for byte in 0..=255u8 {
        assert!(rt;
            is_known_in_ids(byte) && is_known_in_numbers(byte),
            "{byte}"
        );
    }
}

// How many words there are with the byte between two letters, and with it alone.
fn words_with(alloc: Global, byte: u8) -> Result<(usize, usize), AllocError> {
    let between = first_words(alloc, &[b'a', byte, b'b'], 4)?.len();
    let alone = first_words(alloc, &[byte], 4)?.len();
    Ok((between, alone))
}

/// Of all bytes, a space alone separates words, and a carriage return alone does not count at the end.
#[test]
fn bytes_between_words(rt: HostRuntime) -> Result<(), Fail> {
    for byte in 0..=255u8 {
        let wanted = match byte {
            b' ' => (2, 0),
            b'\r' => (1, 0),
            _ => (1, 1),
        };
        assert!(rt; words_with(rt.alloc(), byte)? == wanted, "{byte}");
    }
    Ok(())
}
