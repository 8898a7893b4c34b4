//! Coset codes whose answers are known.

use crate::build_parts::{Few, have_length};
use crate::known_codes::{GOLAY, NORDSTROM_ROBINSON, REED_MULLER};
use ct_codes::{
    Code, CodeFault, CosetCode, Entry, MAX_COSET_WORK, MAX_REPRESENTATIVES, check_cosets,
};
use ct_words::{Word, weight};
use std::alloc::Global;
use std::process::Abort;
use std::test::Fail;

/// What `check_cosets` answers for the entry (n,d).
fn answer(
    rt: &impl Abort,
    alloc: Global,
    n: u32,
    d: u32,
    basis: &[Word],
    representatives: &[Word],
) -> Result<Result<CosetCode, CodeFault>, Fail> {
    let entry = Entry { n, d, w: None };
    assert!(rt; entry.in_table());
    assert!(rt; have_length(basis, n) && have_length(representatives, n));
    let basis = basis.to_vec(alloc)?;
    let representatives = representatives.to_vec(alloc)?;
    Ok(check_cosets(alloc, entry, basis, representatives))
}

/// The extended Golay code of length 24.
pub(crate) fn golay(rt: &impl Abort, alloc: Global) -> Result<Code, Fail> {
    let code = answer(rt, alloc, 24, 8, &GOLAY, &[0])??;
    Ok(code.list(alloc)?)
}

/// How many of the words have the weight.
fn count_of_weight(words: &[Word], ones: u32) -> usize {
    words.iter().filter(|word| weight(**word) == ones).count()
}

/// A coset code that is known: its entry, its cosets, how many words it has, how many of some weights, and its last word.
#[derive(Clone, Copy)]
struct Known {
    n: u32,
    d: u32,
    basis: &'static [Word],
    representatives: &'static [Word],
    size: u32,
    weights: &'static [(u32, usize)],
    last: Word,
}

/// The code of Golay has 4,096 words, 759 of weight 8; that of Nordstrom and Robinson has 256.
const KNOWN: [Known; 3] = [
    Known {
        n: 24,
        d: 8,
        basis: &GOLAY,
        representatives: &[0],
        size: 4096,
        weights: &[(8, 759)],
        last: 0xffffff,
    },
    Known {
        n: 16,
        d: 6,
        basis: &REED_MULLER,
        representatives: &NORDSTROM_ROBINSON,
        size: 256,
        weights: &[(0, 1), (6, 112), (8, 30), (10, 112), (16, 1)],
        last: 0xffff,
    },
    Known {
        n: 6,
        d: 6,
        basis: &[],
        representatives: &[0b111111, 0b000000],
        size: 2,
        weights: &[(0, 1), (6, 1)],
        last: 0b111111,
    },
];

/// Whether the words of the known code, as many as it has of each weight, are these.
fn are_known_words(words: &[Word], known: &Known) -> bool {
    for (ones, count) in known.weights {
        if count_of_weight(words, *ones) != *count {
            return false;
        }
    }
    words.len() == known.size as usize && words.last() == Some(&known.last)
}

/// Whether the cosets are the known code, whose words are listed.
fn is_known(rt: &impl Abort, alloc: Global, known: &Known) -> Result<bool, Fail> {
    let (n, d) = (known.n, known.d);
    let code = answer(rt, alloc, n, d, known.basis, known.representatives)??;
    let list = code.list(alloc)?;
    Ok(
        code.entry() == Entry { n, d, w: None }
            && code.size() == known.size
            && (list.n(), list.d(), list.w()) == (n, d, None)
            && are_known_words(list.words(), known),
    )
}

/// The words of each known code are listed in order.
#[test]
fn known_codes(rt: HostRuntime) -> Result<(), Fail> {
    for known in &KNOWN {
        assert!(rt; is_known(&rt, rt.alloc(), known)?, "{}", known.size);
    }
    Ok(())
}

/// Why the cosets are refused, where they are.
fn fault_of(
    rt: &impl Abort,
    alloc: Global,
    n: u32,
    d: u32,
    basis: &[Word],
    representatives: &[Word],
) -> Result<Option<CodeFault>, Fail> {
    Ok(answer(rt, alloc, n, d, basis, representatives)?.err())
}

/// How many basis words and representatives are handed in, each of them 0, and why they are refused at (30,3).
const COUNTS: [(usize, usize, CodeFault); 14] = [
    (31, 4097, CodeFault::Size(31)),
    (31, 0, CodeFault::Size(31)),
    (30, 0, CodeFault::Size(0)),
    (30, 4097, CodeFault::Size(4097)),
    (0, 4097, CodeFault::Size(4097)),
    (30, 4096, CodeFault::Work(9009398277996544)),
    (25, 1, CodeFault::Work(33554432)),
    (23, 2, CodeFault::Work(25165824)),
    (2, 4096, CodeFault::Work(33562624)),
    (1, 4096, CodeFault::Work(16781312)),
    (1, 4095, CodeFault::Close(0, 1, 0)),
    (0, 4096, CodeFault::Close(0, 1, 0)),
    (22, 2, CodeFault::Close(0, 1, 0)),
    (1, 1, CodeFault::Close(0, 1, 0)),
];

/// Why so many of the zeros as a basis and so many as representatives are refused at (30,3), where they are.
fn fault_of_counts(
    rt: &impl Abort,
    alloc: Global,
    zeros: &[Word],
    basis: usize,
    representatives: usize,
) -> Result<Option<CodeFault>, Fail> {
    assert!(rt; basis <= zeros.len() && representatives <= zeros.len());
    fault_of(rt, alloc, 30, 3, &zeros[..basis], &zeros[..representatives])
}

/// Counts and works at the limits and above them; each stands before what comes later.
#[test]
fn limits_of_cosets(rt: HostRuntime) -> Result<(), Fail> {
    assert!(rt; MAX_REPRESENTATIVES == 4096 && MAX_COSET_WORK == 16777216);
    let zeros = vec![in rt.alloc(); 0; MAX_REPRESENTATIVES + 1]?;
    for (basis, representatives, wanted) in &COUNTS {
        let fault = fault_of_counts(&rt, rt.alloc(), &zeros, *basis, *representatives)?;
        assert!(rt; fault == Some(*wanted), "{wanted:?}");
    }
    Ok(())
}

/// A basis and representatives of a code of length 8 and distance 4, and why they are refused: choices that are equal, a basis word twice, a
/// word 0 in the basis, a representative twice, one in the coset of another.
const EQUAL_CHOICES: [(Few<Word>, Few<Word>, CodeFault); 5] = [
    (
        Few::Two([0b00001111, 0b00001111]),
        Few::One([0]),
        CodeFault::Close(0, 3, 0),
    ),
    (
        Few::Two([0b00001111, 0]),
        Few::One([0]),
        CodeFault::Close(0, 2, 0),
    ),
    (
        Few::Two([0, 0b00001111]),
        Few::One([0]),
        CodeFault::Close(0, 1, 0),
    ),
    (
        Few::None([]),
        Few::Four([0, 0b00001111, 0b11110000, 0b00001111]),
        CodeFault::Close(1, 3, 0),
    ),
    (
        Few::One([0b00001111]),
        Few::Three([0, 0b11110000, 0b11111111]),
        CodeFault::Close(2, 5, 0),
    ),
];

/// The least pair of choices of the code of Nordstrom and Robinson at distance 6 is that of its first two representatives.
#[test]
fn choices_that_are_close(rt: HostRuntime) -> Result<(), Fail> {
    for (basis, representatives, wanted) in &EQUAL_CHOICES {
        let (basis, representatives) = (basis.as_slice(), representatives.as_slice());
        let fault = fault_of(&rt, rt.alloc(), 8, 4, basis, representatives)?;
        assert!(rt; fault == Some(*wanted), "{wanted:?}");
    }
    let near = fault_of(&rt, rt.alloc(), 16, 7, &REED_MULLER, &NORDSTROM_ROBINSON)?;
    assert!(rt; near == Some(CodeFault::Close(0, 32, 6)));
    Ok(())
}
