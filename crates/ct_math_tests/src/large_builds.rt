//! Builds from well-known codes, and of as many words as the limit or more.

use crate::build_parts::{Few, Place, Words, code_of, entry_of, even_code, linear_code};
use crate::build_steps::{Change, build};
use crate::known_codes::GOLAY;
use ct_build::BuildFault;
use ct_words::{Code, Word};
use std::alloc::Global;
use std::process::Abort;
use std::test::Fail;

/// Check digits of a shortened Hamming code (Hamming 1950): different numbers with two ones or more.
const CHECKS: [Word; 19] = [
    3, 5, 6, 7, 9, 10, 11, 12, 13, 14, 15, 17, 18, 19, 20, 21, 22, 23, 24,
];

/// Two words of length 4.
const ENDS: Words = ((4, 4, None), Few::Two([0b0000, 0b1111]));

/// A change of one code, the stated entry, and the number of words that are built.
type Built = (Change, Place, usize);

/// A change of one code, the stated entry, and the reason against it.
type Refused = (Change, Place, BuildFault);

/// Whether so many words of the stated entry are built.
fn builds(
    rt: &impl Abort,
    alloc: Global,
    (change, stated, size): Built,
    part: &Code,
    other: Option<&Code>,
) -> Result<bool, Fail> {
    let code = build(rt, alloc, change, entry_of(stated), part, other)??;
    Ok((code.n(), code.d(), code.w()) == stated && code.words().len() == size)
}

/// Each row is built of the part.
fn assert_built(rt: &impl Abort, alloc: Global, rows: &[Built], part: &Code) -> Result<(), Fail> {
    for row in rows {
        assert!(rt; builds(rt, alloc, *row, part, None)?, "{:?}", row.1);
    }
    Ok(())
}

/// Whether the change is refused for this reason.
fn refuses(
    rt: &impl Abort,
    alloc: Global,
    (change, stated, fault): Refused,
    part: &Code,
    other: Option<&Code>,
) -> Result<bool, Fail> {
    let made = build(rt, alloc, change, entry_of(stated), part, other)?;
    Ok(made.err() == Some(fault))
}

/// Each row is refused of the part and the other code.
fn assert_refused(
    rt: &impl Abort,
    alloc: Global,
    rows: &[Refused],
    part: &Code,
    other: Option<&Code>,
) -> Result<(), Fail> {
    for row in rows {
        assert!(rt; refuses(rt, alloc, *row, part, other)?, "{:?}", row.1);
    }
    Ok(())
}

/// The code of Golay shortened, and its words of one weight.
const OF_GOLAY: [Built; 2] = [
    (
        Change::Shorten(Few::One([0]), Few::One([0])),
        (23, 8, None),
        2048,
    ),
    (Change::Select(0), (24, 8, Some(8)), 759),
];

/// Words of one weight of the code of Golay that are none, too near each other, or of another length.
const NOT_OF_GOLAY: [Refused; 3] = [
    (Change::Select(0), (24, 8, Some(1)), BuildFault::Empty),
    (
        Change::Select(0),
        (24, 10, Some(8)),
        BuildFault::Short(8, 10),
    ),
    (
        Change::Select(0),
        (23, 8, Some(8)),
        BuildFault::WrongPart(0),
    ),
];

/// Whether the first 2,048 words are all.
fn has_first_words(
    rt: &impl Abort,
    alloc: Global,
    half: &Code,
    stated: Place,
) -> Result<bool, Fail> {
    let first = build(rt, alloc, Change::Trim(2048), entry_of(stated), half, None)??;
    Ok(first.words() == half.words())
}

/// All words of the shortened Golay code, and more.
fn assert_trimmed(rt: &impl Abort, alloc: Global, golay: &Code) -> Result<(), Fail> {
    let place = (23, 8, None);
    let shorter = Change::Shorten(Few::One([0]), Few::One([0]));
    let half = build(rt, alloc, shorter, entry_of(place), golay, None)??;
    let many = (Change::Trim(2049), place, BuildFault::Few(2048, 2049));
    assert_refused(rt, alloc, &[many], &half, None)?;
    assert!(rt; has_first_words(rt, alloc, &half, place)?);
    Ok(())
}

#[test]
fn golay_code(rt: HostRuntime) -> Result<(), Fail> {
    let golay = linear_code(&rt, rt.alloc(), 24, 8, &GOLAY)?;
    assert_built(&rt, rt.alloc(), &OF_GOLAY, &golay)?;
    assert_refused(&rt, rt.alloc(), &NOT_OF_GOLAY, &golay, None)?;
    assert_trimmed(&rt, rt.alloc(), &golay)
}

/// The shortened Hamming code of length n: a word for each of the checks, below the highest places.
fn hamming_code(rt: &impl Abort, alloc: Global, n: u32, checks: &[Word]) -> Result<Code, Fail> {
    let mut basis = Vec::new(alloc);
    let mut place: Word = 1u32.wrapping_shl(n.saturating_sub(1));
    for check in checks {
        basis.push(place | *check)?;
        place /= 2;
    }
    linear_code(rt, alloc, n, 3, &basis)
}

/// More words than the limit.
const MANY: BuildFault = BuildFault::Size(524_288);

/// More words than the limit, of the part, also where the distance is too small or no word results.
/// A trim never wants more words than the limit, so that too many words and too few don't come together; and too few
/// words to trim are some.
const OF_MANY: [Refused; 3] = [
    (Change::Trim(262_144), (24, 3, None), MANY),
    (Change::Trim(1), (24, 4, None), BuildFault::Short(3, 4)),
    (Change::Select(0), (24, 4, Some(1)), MANY),
];

/// More words than the limit, of the other code.
const BESIDE_MANY: [Refused; 2] = [
    (Change::Juxtapose, (28, 7, None), MANY),
    (Change::Juxtapose, (28, 8, None), BuildFault::Short(7, 8)),
];

#[test]
fn many_words(rt: HostRuntime) -> Result<(), Fail> {
    let hamming = hamming_code(&rt, rt.alloc(), 24, &CHECKS)?;
    assert_refused(&rt, rt.alloc(), &OF_MANY, &hamming, None)?;
    let ends = code_of(&rt, rt.alloc(), ENDS)?;
    assert_refused(&rt, rt.alloc(), &BESIDE_MANY, &ends, Some(&hamming))
}

/// Steps over a code of length 23 and just so many words as the limit.
const OF_MOST: [Built; 6] = [
    (Change::Lengthen, (24, 3, None), 262_144),
    (Change::AppendOne, (24, 3, None), 262_144),
    (Change::Translate(1), (23, 3, None), 262_144),
    (Change::Translate(0x55_5555), (23, 3, None), 262_144),
    (Change::Complement, (23, 3, None), 262_144),
    (Change::Trim(262_144), (23, 3, None), 262_144),
];

/// Steps over that code with its parities.
const OF_MOST_EVEN: [Built; 4] = [
    (Change::Puncture(Few::One([0])), (23, 3, None), 262_144),
    (Change::Puncture(Few::One([23])), (23, 3, None), 262_144),
    (
        Change::Shorten(Few::One([0]), Few::One([1])),
        (23, 4, None),
        131_072,
    ),
    (Change::Select(0), (24, 4, Some(0)), 1),
];

/// That code with its parities, whose words at distance 4 are punctured.
fn assert_built_of_even(rt: &impl Abort, alloc: Global, hamming: &Code) -> Result<(), Fail> {
    let stated = entry_of((24, 4, None));
    let even = build(rt, alloc, Change::Parity, stated, hamming, None)??;
    assert!(rt; even.words().len() == 262_144);
    assert_built(rt, alloc, &OF_MOST_EVEN, &even)
}

/// Each kind of step that takes one part, over a part of just so many words as the limit: the shortened Hamming code of
/// length 23.
#[test]
fn steps_at_the_limit(rt: HostRuntime) -> Result<(), Fail> {
    let hamming = hamming_code(&rt, rt.alloc(), 23, &CHECKS[..18])?;
    assert!(rt; hamming.words().len() == 262_144);
    assert_built(&rt, rt.alloc(), &OF_MOST, &hamming)?;
    assert_built_of_even(&rt, rt.alloc(), &hamming)
}

/// A part of just so many words as the limit, beside fewer.
#[test]
fn part_at_the_limit(rt: HostRuntime) -> Result<(), Fail> {
    let most = even_code(&rt, rt.alloc(), 19)?;
    let few = even_code(&rt, rt.alloc(), 9)?;
    let row = (Change::Juxtapose, (28, 4, None), 256);
    assert!(rt; builds(&rt, rt.alloc(), row, &most, Some(&few))?);
    Ok(())
}

/// A basis of a code of length 14 and distance 4.
const SIX: [Word; 6] = [0x2007, 0x100b, 0x80d, 0x40e, 0x213, 0x115];

/// A result of more words than the limit, also where the distance is too small.
const ABOVE_MOST: [Refused; 2] = [
    (Change::Uuv, (28, 4, None), MANY),
    (Change::Uuv, (28, 5, None), BuildFault::Short(4, 5)),
];

/// A result of just so many words as the limit.
#[test]
fn result_at_the_limit(rt: HostRuntime) -> Result<(), Fail> {
    let even = even_code(&rt, rt.alloc(), 14)?;
    let five = linear_code(&rt, rt.alloc(), 14, 4, &SIX[..5])?;
    let row = (Change::Uuv, (28, 4, None), 262_144);
    assert!(rt; builds(&rt, rt.alloc(), row, &even, Some(&five))?);
    Ok(())
}

/// A result of more.
#[test]
fn result_above_the_limit(rt: HostRuntime) -> Result<(), Fail> {
    let even = even_code(&rt, rt.alloc(), 14)?;
    let six = linear_code(&rt, rt.alloc(), 14, 4, &SIX)?;
    assert_refused(&rt, rt.alloc(), &ABOVE_MOST, &even, Some(&six))
}
