//! Builds whose words are known, and such that are refused, with the first reason where there are several.

use crate::build_parts::{
    Few, Place, Words, answers, code_of, entry_of, even_code, optional_code, shows,
};
use crate::build_steps::{Change, build};
use ct_build::BuildFault;
use ct_words::{Code, Word};
use std::alloc::Global;
use std::process::Abort;
use std::test::Fail;

/// The least and the greatest word of length 3.
const ENDS: Words = ((3, 3, None), Few::Two([0b000, 0b111]));

/// The least and the greatest word of length 5.
const LONG_ENDS: Words = ((5, 5, None), Few::Two([0b00000, 0b11111]));

/// The same words, with a distance that is smaller than theirs.
const APART: Words = ((5, 3, None), Few::Two([0b00000, 0b11111]));

/// Two words of length 4 and weight 2.
const PAIRS: Words = ((4, 4, Some(2)), Few::Two([0b0011, 0b1100]));

/// One word of length 4 and weight 3.
const ONES: Words = ((4, 4, Some(3)), Few::One([0b0111]));

/// One word of length 3 and weight 1.
const ONE: Words = ((3, 4, Some(1)), Few::One([0b010]));

/// Two words of length 6 and weight 3.
const TRIPLES: Words = ((6, 6, Some(3)), Few::Two([0b000111, 0b111000]));

/// A change, the part and the other code that it is given, the stated entry, and what is built: the words, or the reason against it.
type Row = (
    Change,
    Words,
    Option<Words>,
    Place,
    Result<Few<Word>, BuildFault>,
);

/// Longer codes, shorter ones, such of the same length, and codes of two parts, with and without a weight. A stated
/// distance may be smaller than the one that the step gives, and a step that needs no other code takes one.
///
/// Refused are parts of a wrong length or weight, also where the other part is wrong; two parts, of which the other has a wrong length or
/// weight, or is not handed in, also where the distance is too small; a distance that each kind of step gives to words at distance 3
/// below the stated one, also where there are too few words; and words that are too few alone.
const BUILDS: [Row; 41] = [
    (
        Change::Lengthen,
        ENDS,
        None,
        (4, 3, None),
        Ok(Few::Two([0b0000, 0b1110])),
    ),
    (
        Change::Lengthen,
        PAIRS,
        None,
        (5, 4, Some(2)),
        Ok(Few::Two([0b00110, 0b11000])),
    ),
    (
        Change::AppendOne,
        PAIRS,
        None,
        (5, 4, Some(3)),
        Ok(Few::Two([0b00111, 0b11001])),
    ),
    (
        Change::Parity,
        ONES,
        None,
        (5, 4, Some(4)),
        Ok(Few::One([0b01111])),
    ),
    (
        Change::Parity,
        PAIRS,
        Some(ENDS),
        (5, 3, None),
        Ok(Few::Two([0b00110, 0b11000])),
    ),
    (
        Change::Puncture(Few::Two([1, 4])),
        LONG_ENDS,
        None,
        (3, 3, None),
        Ok(Few::Two([0b000, 0b111])),
    ),
    (
        Change::Shorten(Few::One([5]), Few::One([1])),
        TRIPLES,
        None,
        (5, 6, Some(2)),
        Ok(Few::One([0b00011])),
    ),
    (
        Change::Translate(0b100000),
        TRIPLES,
        None,
        (6, 5, None),
        Ok(Few::Two([0b011000, 0b100111])),
    ),
    (
        Change::Complement,
        TRIPLES,
        None,
        (6, 4, Some(3)),
        Ok(Few::Two([0b000111, 0b111000])),
    ),
    (
        Change::Select(0b00011),
        LONG_ENDS,
        None,
        (5, 6, Some(3)),
        Ok(Few::One([0b11100])),
    ),
    (
        Change::Trim(1),
        TRIPLES,
        None,
        (6, 6, Some(3)),
        Ok(Few::One([0b000111])),
    ),
    (
        Change::Juxtapose,
        PAIRS,
        Some(ENDS),
        (7, 7, None),
        Ok(Few::Two([0b0011000, 0b1100111])),
    ),
    (
        Change::Juxtapose,
        PAIRS,
        Some(ONE),
        (7, 8, Some(3)),
        Ok(Few::One([0b0011010])),
    ),
    (
        Change::Lengthen,
        ENDS,
        None,
        (5, 3, None),
        Err(BuildFault::WrongPart(0)),
    ),
    (
        Change::Lengthen,
        PAIRS,
        None,
        (5, 4, Some(3)),
        Err(BuildFault::WrongPart(0)),
    ),
    (
        Change::AppendOne,
        PAIRS,
        None,
        (5, 4, Some(0)),
        Err(BuildFault::WrongPart(0)),
    ),
    (
        Change::Parity,
        ONES,
        None,
        (5, 4, Some(3)),
        Err(BuildFault::WrongPart(0)),
    ),
    (
        Change::Parity,
        ENDS,
        None,
        (4, 4, Some(2)),
        Err(BuildFault::WrongPart(0)),
    ),
    (
        Change::Puncture(Few::One([0])),
        PAIRS,
        None,
        (4, 3, None),
        Err(BuildFault::WrongPart(0)),
    ),
    (
        Change::Shorten(Few::One([0]), Few::One([1])),
        PAIRS,
        None,
        (3, 4, Some(2)),
        Err(BuildFault::WrongPart(0)),
    ),
    (
        Change::Complement,
        ONES,
        None,
        (4, 4, Some(3)),
        Err(BuildFault::WrongPart(0)),
    ),
    (
        Change::Select(0),
        PAIRS,
        None,
        (4, 4, Some(2)),
        Err(BuildFault::WrongPart(0)),
    ),
    (
        Change::Trim(1),
        PAIRS,
        None,
        (4, 4, Some(3)),
        Err(BuildFault::WrongPart(0)),
    ),
    (
        Change::Uuv,
        ENDS,
        None,
        (8, 3, None),
        Err(BuildFault::WrongPart(0)),
    ),
    (
        Change::Juxtapose,
        PAIRS,
        None,
        (4, 3, None),
        Err(BuildFault::WrongPart(0)),
    ),
    (
        Change::Juxtapose,
        ENDS,
        None,
        (7, 4, Some(2)),
        Err(BuildFault::WrongPart(0)),
    ),
    (
        Change::Uuv,
        ENDS,
        None,
        (6, 30, None),
        Err(BuildFault::WrongPart(1)),
    ),
    (
        Change::Uuv,
        ENDS,
        Some(PAIRS),
        (6, 3, None),
        Err(BuildFault::WrongPart(1)),
    ),
    (
        Change::Juxtapose,
        PAIRS,
        None,
        (7, 4, None),
        Err(BuildFault::WrongPart(1)),
    ),
    (
        Change::Juxtapose,
        PAIRS,
        Some(ENDS),
        (8, 30, None),
        Err(BuildFault::WrongPart(1)),
    ),
    (
        Change::Juxtapose,
        PAIRS,
        Some(ENDS),
        (7, 4, Some(2)),
        Err(BuildFault::WrongPart(1)),
    ),
    (
        Change::Juxtapose,
        PAIRS,
        Some(PAIRS),
        (8, 4, Some(3)),
        Err(BuildFault::WrongPart(1)),
    ),
    (
        Change::Puncture(Few::Four([0, 1, 2, 3])),
        APART,
        None,
        (1, 3, None),
        Err(BuildFault::Short(0, 3)),
    ),
    (
        Change::Puncture(Few::Two([0, 1])),
        APART,
        None,
        (3, 3, None),
        Err(BuildFault::Short(1, 3)),
    ),
    (
        Change::Parity,
        APART,
        None,
        (6, 5, None),
        Err(BuildFault::Short(4, 5)),
    ),
    (
        Change::Select(0),
        APART,
        None,
        (5, 6, Some(1)),
        Err(BuildFault::Short(4, 6)),
    ),
    (
        Change::Complement,
        APART,
        None,
        (5, 4, None),
        Err(BuildFault::Short(3, 4)),
    ),
    (
        Change::Trim(3),
        APART,
        None,
        (5, 4, None),
        Err(BuildFault::Short(3, 4)),
    ),
    (
        Change::Trim(3),
        APART,
        None,
        (5, 3, None),
        Err(BuildFault::Few(2, 3)),
    ),
    (
        Change::Uuv,
        APART,
        Some(APART),
        (10, 4, None),
        Err(BuildFault::Short(3, 4)),
    ),
    (
        Change::Juxtapose,
        APART,
        Some(APART),
        (10, 7, None),
        Err(BuildFault::Short(6, 7)),
    ),
];

/// Whether just this is built.
fn is_built(
    rt: &impl Abort,
    alloc: Global,
    (change, part, other, stated, wanted): Row,
) -> Result<bool, Fail> {
    let part = code_of(rt, alloc, part)?;
    let other = optional_code(rt, alloc, other)?;
    let made = build(rt, alloc, change, entry_of(stated), &part, other.as_ref())?;
    Ok(answers(&made, wanted.map(|words| (stated, words))))
}

#[test]
fn builds_of_few_words(rt: HostRuntime) -> Result<(), Fail> {
    for (number, row) in BUILDS.iter().enumerate() {
        assert!(rt; is_built(&rt, rt.alloc(), *row)?, "row {number}");
    }
    Ok(())
}

/// The sums of the words of even weight with two words.
const SUMS: [Word; 8] = [
    0b000000, 0b000111, 0b011011, 0b011100, 0b101010, 0b101101, 0b110001, 0b110110,
];

#[test]
fn built_of_even_words(rt: HostRuntime) -> Result<(), Fail> {
    let alloc = rt.alloc();
    let even = even_code(&rt, alloc, 3)?;
    let ends = code_of(&rt, alloc, ENDS)?;
    let place = (6, 3, None);
    let code = build(&rt, alloc, Change::Uuv, entry_of(place), &even, Some(&ends))??;
    assert!(rt; shows(&code, place, &SUMS));
    Ok(())
}

/// The greatest distances of both parts add up to more than a code may have.
#[test]
fn great_distances(rt: HostRuntime) -> Result<(), Fail> {
    let alloc = rt.alloc();
    let far = Code::from_sorted(15, 60, None, [5].to_vec(alloc)?);
    let place = (30, 30, None);
    let code = build(
        &rt,
        alloc,
        Change::Juxtapose,
        entry_of(place),
        &far,
        Some(&far),
    )??;
    assert!(rt; shows(&code, place, &[5 * 32768 + 5]));
    Ok(())
}
