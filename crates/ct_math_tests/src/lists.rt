//! Entries and lists of words whose answers are known.

use crate::build_parts::{Few, Place, entry_of, have_length, shows};
use ct_codes::{
    Code, CodeFault, Entry, MAX_CODE_DISTANCE, MAX_WORDS, check_words, first_close_pair,
};
use ct_words::Word;
use std::alloc::Global;
use std::process::Abort;
use std::test::Fail;

/// A length, a distance and a weight, and whether they are an entry of the table: inside of it, at its ends and outside.
const ENTRIES: [(Place, bool); 17] = [
    ((1, 3, None), true),
    ((30, 30, None), true),
    ((30, 3, None), true),
    ((30, 30, Some(15)), true),
    ((29, 30, None), true),
    ((24, 7, None), true),
    ((24, 8, Some(12)), true),
    ((24, 8, Some(0)), true),
    ((24, 8, Some(24)), true),
    ((0, 3, None), false),
    ((31, 3, None), false),
    ((10, 2, None), false),
    ((10, 31, None), false),
    ((30, 31, None), false),
    ((24, 7, Some(12)), false),
    ((24, 8, Some(25)), false),
    ((24, 2, Some(12)), false),
];

/// Entries, and the limits of codes.
#[test]
fn entries(rt: HostRuntime) {
    assert!(rt; MAX_WORDS == 16384 && MAX_CODE_DISTANCE == 60);
    for (place, wanted) in &ENTRIES {
        assert!(rt; entry_of(*place).in_table() == *wanted, "{place:?}");
    }
}

/// A(10,6).
const PLAIN: Place = (10, 6, None);

/// A(8,4,4).
const WEIGHTED: Place = (8, 4, Some(4));

/// What `check_words` answers for the entry.
fn answer(
    rt: &impl Abort,
    alloc: Global,
    entry: Entry,
    words: &[Word],
) -> Result<Result<Code, CodeFault>, Fail> {
    assert!(rt; entry.in_table() && have_length(words, entry.n));
    Ok(check_words(alloc, entry, words.to_vec(alloc)?))
}

/// Whether the words are a code of the entry, in this order.
fn is_code(
    rt: &impl Abort,
    alloc: Global,
    place: Place,
    words: &[Word],
    sorted: &[Word],
) -> Result<bool, Fail> {
    let code = answer(rt, alloc, entry_of(place), words)??;
    Ok(shows(&code, place, sorted))
}

/// Six words of length 10 and distance 6, and the same in order.
const SIX: [Word; 6] = [1023, 960, 568, 294, 149, 75];

const SIX_IN_ORDER: [Word; 6] = [75, 149, 294, 568, 960, 1023];

/// Three words of length 8, weight 4 and distance 4, and the same in order.
const THREE: [Word; 3] = [0b11110000, 0b11001100, 0b00001111];

const THREE_IN_ORDER: [Word; 3] = [0b00001111, 0b11001100, 0b11110000];

#[test]
fn lists_that_are_codes(rt: HostRuntime) -> Result<(), Fail> {
    assert!(rt; is_code(&rt, rt.alloc(), PLAIN, &SIX, &SIX_IN_ORDER)?);
    assert!(rt; is_code(&rt, rt.alloc(), WEIGHTED, &THREE, &THREE_IN_ORDER)?);
    assert!(rt; first_close_pair(&SIX, 7) == Some((0, 1)));
    Ok(())
}

/// Lists with each fault.
const WITH_FAULTS: [(Place, Few<Word>, CodeFault); 4] = [
    (PLAIN, Few::Two([0, 992]), CodeFault::Close(0, 1, 5)),
    (PLAIN, Few::Four([0, 31, 992, 0]), CodeFault::Repeated(0, 3)),
    (
        WEIGHTED,
        Few::Two([0b11110000, 0b00000111]),
        CodeFault::Weight(1),
    ),
    (PLAIN, Few::None([]), CodeFault::Size(0)),
];

/// Why the words are refused, where they are.
fn fault_of(
    rt: &impl Abort,
    alloc: Global,
    place: Place,
    words: &[Word],
) -> Result<Option<CodeFault>, Fail> {
    Ok(answer(rt, alloc, entry_of(place), words)?.err())
}

/// Among them one word more than the limit, each of a wrong weight: the count comes first.
#[test]
fn lists_with_faults(rt: HostRuntime) -> Result<(), Fail> {
    for (place, words, fault) in &WITH_FAULTS {
        let found = fault_of(&rt, rt.alloc(), *place, words.as_slice())?;
        assert!(rt; found == Some(*fault), "{fault:?}");
    }
    let many = vec![in rt.alloc(); 0; MAX_WORDS + 1]?;
    let found = fault_of(&rt, rt.alloc(), WEIGHTED, &many)?;
    assert!(rt; found == Some(CodeFault::Size(16385)));
    Ok(())
}
