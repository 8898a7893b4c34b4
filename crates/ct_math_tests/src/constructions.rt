//! Constructions whose words are known, against the sets written out.

use crate::build_parts::{Few, Place, Words, answers, code_of, even_code, shows};
use crate::build_steps::{are_binary, are_places, has_length};
use ct_build::{
    BuildFault, append_one, complement, juxtapose, lengthen, parity, puncture, select_weight,
    shorten, translate, trim, uuv,
};
use ct_words::{Code, MAX_CODE_DISTANCE, MAX_N, Word};
use std::alloc::{AllocError, Global};
use std::process::Abort;
use std::test::Fail;

/// Four words of length 6, each digit of two three times over, in no order.
const THRICE: Words = (
    (6, 3, None),
    Few::Four([0b111000, 0b000000, 0b111111, 0b000111]),
);

/// The four words of length 6 and weight 3 whose places of ones add up to a multiple of 6.
const SUMS: Words = (
    (6, 4, Some(3)),
    Few::Four([0b000111, 0b011100, 0b101010, 0b110001]),
);

/// Two words of length 4 and weight 2.
const PAIRS: Words = ((4, 4, Some(2)), Few::Two([0b0011, 0b1100]));

/// Two words of length 5 and weight 2.
const TWO: Words = ((5, 4, Some(2)), Few::Two([0b00011, 0b01100]));

/// Four words of even weight and length 7.
const EVEN: Words = (
    (7, 4, None),
    Few::Four([0b0000000, 0b0001111, 0b1110001, 0b1111110]),
);

/// Each two of four words, one after the other.
const PAIRS_OF_THRICE: [Word; 16] = [
    0b000000_000000,
    0b000000_000111,
    0b000000_111000,
    0b000000_111111,
    0b000111_000000,
    0b000111_000111,
    0b000111_111000,
    0b000111_111111,
    0b111000_000000,
    0b111000_000111,
    0b111000_111000,
    0b111000_111111,
    0b111111_000000,
    0b111111_000111,
    0b111111_111000,
    0b111111_111111,
];

/// All places of a word of the greatest length but the last.
const MOST_PLACES: [u32; 29] = [
    0, 1, 2, 3, 4, 5, 6, 7, 8, 9, 10, 11, 12, 13, 14, 15, 16, 17, 18, 19, 20, 21, 22, 23, 24, 25,
    26, 27, 28,
];

/// The least and the greatest word of half the greatest length.
const HALVES: Words = ((15, 15, None), Few::Two([0, 0x7fff]));

/// The least and the greatest word of the greatest length.
const ENDS: Words = ((30, 30, None), Few::Two([0, 0x3fff_ffff]));

/// Two words that differ at each place, of the greatest length.
const OPPOSITE: Words = ((30, 30, None), Few::Two([0x0000_0003, 0x3fff_fffc]));

/// A construction of one code.
#[derive(Clone, Copy)]
enum OfOne {
    Lengthen,
    AppendOne,
    Parity,
    Puncture(Few<u32>),
    /// Without so many of the first places.
    PunctureFirst(usize),
    Shorten(Few<u32>, Few<u32>),
    Translate(Word),
    Complement,
    /// The sums with the word that have the weight.
    Select(Word, u32),
    Trim(u32),
}

/// A construction of two codes.
#[derive(Clone, Copy)]
enum OfTwo {
    Uuv,
    Juxtapose,
}

/// Each construction of one code, and what it makes of a code. Among them: two words of odd distance at the greatest length that grows by a
/// parity; words without the first place, without two, without none, and without the most that can be left out, 29; a 1 at the first
/// place, digits that no word has, and words of constant weight with two digits, and with a 0 inside.
const MADE_OF_ONE: [(OfOne, Words, Result<Words, BuildFault>); 31] = [
    (
        OfOne::Lengthen,
        THRICE,
        Ok((
            (7, 3, None),
            Few::Four([0b0000000, 0b0001110, 0b1110000, 0b1111110]),
        )),
    ),
    (
        OfOne::Lengthen,
        SUMS,
        Ok((
            (7, 4, Some(3)),
            Few::Four([0b0001110, 0b0111000, 0b1010100, 0b1100010]),
        )),
    ),
    (
        OfOne::AppendOne,
        THRICE,
        Ok((
            (7, 3, None),
            Few::Four([0b0000001, 0b0001111, 0b1110001, 0b1111111]),
        )),
    ),
    (
        OfOne::AppendOne,
        SUMS,
        Ok((
            (7, 4, Some(4)),
            Few::Four([0b0001111, 0b0111001, 0b1010101, 0b1100011]),
        )),
    ),
    (
        OfOne::Parity,
        THRICE,
        Ok((
            (7, 4, None),
            Few::Four([0b0000000, 0b0001111, 0b1110001, 0b1111110]),
        )),
    ),
    (
        OfOne::Parity,
        SUMS,
        Ok((
            (7, 4, Some(4)),
            Few::Four([0b0001111, 0b0111001, 0b1010101, 0b1100011]),
        )),
    ),
    (
        OfOne::Parity,
        TWO,
        Ok(((6, 4, Some(2)), Few::Two([0b000110, 0b011000]))),
    ),
    (
        OfOne::Parity,
        ((29, 29, None), Few::Two([0x1fff_fffe, 0x0000_0001])),
        Ok(OPPOSITE),
    ),
    (
        OfOne::Translate(0b100000),
        THRICE,
        Ok((
            (6, 3, None),
            Few::Four([0b011000, 0b011111, 0b100000, 0b100111]),
        )),
    ),
    (
        OfOne::Translate(0b000111),
        SUMS,
        Ok((
            (6, 4, None),
            Few::Four([0b000000, 0b011011, 0b101101, 0b110110]),
        )),
    ),
    (OfOne::Translate(0x3fff_ffff), OPPOSITE, Ok(OPPOSITE)),
    (
        OfOne::Complement,
        THRICE,
        Ok((
            (6, 3, None),
            Few::Four([0b000000, 0b000111, 0b111000, 0b111111]),
        )),
    ),
    (
        OfOne::Complement,
        TWO,
        Ok(((5, 4, Some(3)), Few::Two([0b10011, 0b11100]))),
    ),
    (OfOne::Complement, OPPOSITE, Ok(OPPOSITE)),
    (
        OfOne::Select(0b000000, 3),
        THRICE,
        Ok(((6, 4, Some(3)), Few::Two([0b000111, 0b111000]))),
    ),
    (
        OfOne::Select(0b000111, 4),
        SUMS,
        Ok(((6, 4, Some(4)), Few::Three([0b011011, 0b101101, 0b110110]))),
    ),
    (
        OfOne::Select(0b000111, 0),
        SUMS,
        Ok(((6, 4, Some(0)), Few::One([0b000000]))),
    ),
    (OfOne::Select(0b000111, 2), SUMS, Err(BuildFault::Empty)),
    (
        OfOne::Trim(3),
        THRICE,
        Ok(((6, 3, None), Few::Three([0b000000, 0b000111, 0b111000]))),
    ),
    (
        OfOne::Trim(1),
        SUMS,
        Ok(((6, 4, Some(3)), Few::One([0b000111]))),
    ),
    (OfOne::Trim(4), SUMS, Ok(SUMS)),
    (OfOne::Trim(5), SUMS, Err(BuildFault::Few(4, 5))),
    (
        OfOne::Puncture(Few::One([0])),
        EVEN,
        Ok((
            (6, 3, None),
            Few::Four([0b000000, 0b001111, 0b110001, 0b111110]),
        )),
    ),
    (
        OfOne::Puncture(Few::Two([1, 6])),
        EVEN,
        Ok((
            (5, 2, None),
            Few::Four([0b00000, 0b00111, 0b11000, 0b11111]),
        )),
    ),
    (OfOne::PunctureFirst(0), EVEN, Ok(EVEN)),
    (
        OfOne::PunctureFirst(27),
        ENDS,
        Ok(((3, 3, None), Few::Two([0b000, 0b111]))),
    ),
    (
        OfOne::PunctureFirst(29),
        ENDS,
        Ok(((1, 1, None), Few::Two([0, 1]))),
    ),
    (
        OfOne::Shorten(Few::One([0]), Few::One([1])),
        THRICE,
        Ok(((5, 3, None), Few::Two([0b11000, 0b11111]))),
    ),
    (
        OfOne::Shorten(Few::Two([0, 1]), Few::Two([0, 1])),
        THRICE,
        Err(BuildFault::Empty),
    ),
    (
        OfOne::Shorten(Few::Two([0, 5]), Few::Two([1, 0])),
        SUMS,
        Ok(((4, 4, Some(2)), Few::One([0b0101]))),
    ),
    (
        OfOne::Shorten(Few::One([3]), Few::One([0])),
        SUMS,
        Ok(((5, 4, Some(3)), Few::Two([0b10110, 0b11001]))),
    ),
];

/// What two codes make. Two words with themselves, at the greatest length; two codes of two words, of which the words u followed by v would be others. Side by side: four words with themselves, and codes of different sizes, two of constant
/// weight, and one of constant weight with one without.
const MADE_OF_TWO: [(OfTwo, Words, Words, Words); 6] = [
    (
        OfTwo::Uuv,
        HALVES,
        HALVES,
        (
            (30, 15, None),
            Few::Four([0x0000_0000, 0x0000_7fff, 0x3fff_8000, 0x3fff_ffff]),
        ),
    ),
    (OfTwo::Juxtapose, HALVES, HALVES, ENDS),
    (
        OfTwo::Uuv,
        ((4, 4, None), Few::Two([0b0000, 0b1111])),
        ((4, 3, None), Few::Two([0b0000, 0b0111])),
        (
            (8, 3, None),
            Few::Four([0b00000000, 0b00000111, 0b11111000, 0b11111111]),
        ),
    ),
    (
        OfTwo::Juxtapose,
        THRICE,
        THRICE,
        (
            (12, 6, None),
            Few::Four([
                0b000000000000,
                0b000111000111,
                0b111000111000,
                0b111111111111,
            ]),
        ),
    ),
    (
        OfTwo::Juxtapose,
        SUMS,
        PAIRS,
        ((10, 8, Some(5)), Few::Two([0b0001110011, 0b0111001100])),
    ),
    (
        OfTwo::Juxtapose,
        PAIRS,
        THRICE,
        ((10, 7, None), Few::Two([0b0011000000, 0b1100000111])),
    ),
];

/// The words with a 0, with a 1, or with their parity behind them.
fn made_longer(
    rt: &impl Abort,
    alloc: Global,
    construction: OfOne,
    part: &Code,
) -> Result<Code, AllocError> {
    assert!(rt; part.n() < MAX_N);
    match construction {
        OfOne::Lengthen => lengthen(alloc, part),
        OfOne::AppendOne => append_one(alloc, part),
        _ => parity(alloc, part),
    }
}

/// So many of the first places, but not the last of the greatest length.
fn first_places(count: usize) -> &'static [u32] {
    &MOST_PLACES[..count.min(MOST_PLACES.len())]
}

/// The words without the places.
fn punctured(
    rt: &impl Abort,
    alloc: Global,
    part: &Code,
    places: &[u32],
) -> Result<Code, AllocError> {
    assert!(rt; are_places(places, part.n()) && places.len() < part.n() as usize);
    assert!(rt; places.len() < part.d() as usize);
    puncture(alloc, part, places)
}

/// The words with these digits at the places, without them.
fn shortened(
    rt: &impl Abort,
    alloc: Global,
    part: &Code,
    places: &[u32],
    digits: &[u32],
) -> Result<Code, BuildFault> {
    assert!(rt; are_places(places, part.n()) && places.len() < part.n() as usize);
    assert!(rt; digits.len() == places.len() && are_binary(digits));
    shorten(alloc, part, places, digits)
}

/// The sums with the word.
fn translated(rt: &impl Abort, alloc: Global, part: &Code, by: Word) -> Result<Code, AllocError> {
    assert!(rt; has_length(by, part.n()));
    translate(alloc, part, by)
}

/// The sums with the word that have the weight.
fn selected(
    rt: &impl Abort,
    alloc: Global,
    part: &Code,
    by: Word,
    w: u32,
) -> Result<Code, BuildFault> {
    assert!(rt; has_length(by, part.n()) && w <= part.n());
    select_weight(alloc, part, by, w)
}

/// The first words.
fn trimmed(rt: &impl Abort, alloc: Global, part: &Code, size: u32) -> Result<Code, BuildFault> {
    assert!(rt; 1 <= size);
    trim(alloc, part, size)
}

/// What the construction makes of the code, whose condition is tested.
fn made_of_one(
    rt: &impl Abort,
    alloc: Global,
    construction: OfOne,
    part: &Code,
) -> Result<Code, BuildFault> {
    match construction {
        OfOne::Lengthen | OfOne::AppendOne | OfOne::Parity => {
            Ok(made_longer(rt, alloc, construction, part)?)
        }
        OfOne::Puncture(places) => Ok(punctured(rt, alloc, part, places.as_slice())?),
        OfOne::PunctureFirst(count) => Ok(punctured(rt, alloc, part, first_places(count))?),
        OfOne::Shorten(places, digits) => {
            shortened(rt, alloc, part, places.as_slice(), digits.as_slice())
        }
        OfOne::Translate(by) => Ok(translated(rt, alloc, part, by)?),
        OfOne::Complement => Ok(complement(alloc, part)?),
        OfOne::Select(by, w) => selected(rt, alloc, part, by, w),
        OfOne::Trim(size) => trimmed(rt, alloc, part, size),
    }
}

/// What the construction makes of the two codes, whose condition is tested.
fn made_of_two(
    rt: &impl Abort,
    alloc: Global,
    construction: OfTwo,
    part: &Code,
    other: &Code,
) -> Result<Code, AllocError> {
    match construction {
        OfTwo::Uuv => {
            assert!(rt; part.n() == other.n() && 2 * part.n() <= MAX_N);
            uuv(alloc, part, other)
        }
        OfTwo::Juxtapose => {
            assert!(rt; part.n() + other.n() <= MAX_N);
            assert!(rt; part.d() + other.d() <= MAX_CODE_DISTANCE);
            juxtapose(alloc, part, other)
        }
    }
}

/// Whether the construction makes this of the code.
fn is_made_of_one(
    rt: &impl Abort,
    alloc: Global,
    construction: OfOne,
    part: Words,
    wanted: Result<Words, BuildFault>,
) -> Result<bool, Fail> {
    let part = code_of(rt, alloc, part)?;
    Ok(answers(&made_of_one(rt, alloc, construction, &part), wanted))
}

#[test]
fn constructions_of_one_code(rt: HostRuntime) -> Result<(), Fail> {
    for (row, (construction, part, wanted)) in MADE_OF_ONE.iter().enumerate() {
        assert!(rt;
            is_made_of_one(&rt, rt.alloc(), *construction, *part, *wanted)?,
            "row {row}"
        );
    }
    Ok(())
}

/// Whether the construction makes this of the two codes.
fn makes(
    rt: &impl Abort,
    alloc: Global,
    construction: OfTwo,
    part: &Code,
    other: &Code,
    place: Place,
    words: &[Word],
) -> Result<bool, AllocError> {
    let made = made_of_two(rt, alloc, construction, part, other)?;
    Ok(shows(&made, place, words))
}

/// Whether the construction makes this of the codes of these words.
fn is_made_of_two(
    rt: &impl Abort,
    alloc: Global,
    construction: OfTwo,
    part: Words,
    other: Words,
    wanted: Words,
) -> Result<bool, Fail> {
    let part = code_of(rt, alloc, part)?;
    let other = code_of(rt, alloc, other)?;
    let (place, few) = wanted;
    Ok(makes(
        rt,
        alloc,
        construction,
        &part,
        &other,
        place,
        few.as_slice(),
    )?)
}

#[test]
fn constructions_of_two_codes(rt: HostRuntime) -> Result<(), Fail> {
    for (row, (construction, part, other, wanted)) in MADE_OF_TWO.iter().enumerate() {
        let is_made = is_made_of_two(&rt, rt.alloc(), *construction, *part, *other, *wanted)?;
        assert!(rt; is_made, "row {row}");
    }
    Ok(())
}

/// Four words with themselves: the words of each two of them, as their sums are words again.
#[test]
fn sums_of_four_words(rt: HostRuntime) -> Result<(), Fail> {
    let alloc = rt.alloc();
    let part = code_of(&rt, alloc, THRICE)?;
    let place = (12, 3, None);
    assert!(rt;
        makes(
            &rt,
            alloc,
            OfTwo::Uuv,
            &part,
            &part,
            place,
            &PAIRS_OF_THRICE
        )?
    );
    Ok(())
}

/// Whether these are the words of even weight, at distance 2.
fn are_even_words(rt: &impl Abort, alloc: Global, n: u32, words: &[Word]) -> Result<bool, Fail> {
    let place: Place = (n, 2, None);
    Ok(shows(&even_code(rt, alloc, n)?, place, words))
}

#[test]
fn words_of_even_weight(rt: HostRuntime) -> Result<(), Fail> {
    assert!(rt; are_even_words(&rt, rt.alloc(), 1, &[0])?);
    assert!(rt; are_even_words(&rt, rt.alloc(), 3, &[0b000, 0b011, 0b101, 0b110])?);
    Ok(())
}
