//! Codes that constructions and builds begin with, and that they make.

ghost use Rattle.std.specs.Prelude.{◌≡◌, ◌<◌, ◌^◌, true, All};

use crate::build_steps::are_below;
use ct_build::{BuildFault, even_words};
use ct_codes::{check_cosets, check_words};
use ct_words::{Code, Entry, MAX_N, Word};
use std::alloc::Global;
use std::process::Abort;
use std::test::Fail;

/// The length, the distance and the weight of an entry.
pub(crate) type Place = (u32, u32, Option<u32>);

/// Up to seven numbers. They stand in a row of a table itself, for each reference from a row to others is dear to prove.
#[derive(Clone, Copy)]
pub(crate) enum Few<T> {
    None([T; 0]),
    One([T; 1]),
    Two([T; 2]),
    Three([T; 3]),
    Four([T; 4]),
    Five([T; 5]),
    Six([T; 6]),
    Seven([T; 7]),
}

impl<T> Few<T> {
    /// The numbers.
    pub(crate) fn as_slice(&self) -> &[T] {
        match self {
            Few::None(numbers) => numbers,
            Few::One(numbers) => numbers,
            Few::Two(numbers) => numbers,
            Few::Three(numbers) => numbers,
            Few::Four(numbers) => numbers,
            Few::Five(numbers) => numbers,
            Few::Six(numbers) => numbers,
            Few::Seven(numbers) => numbers,
        }
    }
}

/// A code written out: its entry and its words.
pub(crate) type Words = (Place, Few<Word>);

/// The entry A(n,d), or A(n,d,w).
pub(crate) fn entry_of((n, d, w): Place) -> Entry {
    Entry { n, d, w }
}

/// Whether each word has length n.
pub(crate) fn have_length(words: &[Word], n: u32) -> bool
    ensures { result ≡ true → All (λ x. x < 2 ^ n) words.now }
{
    n < 32 && are_below(words, 1 << n)
}

/// The code of the words, which are checked.
pub(crate) fn code_of(rt: &impl Abort, alloc: Global, (place, few): Words) -> Result<Code, Fail> {
    let entry = entry_of(place);
    let words = few.as_slice();
    assert!(rt; entry.in_table());
    assert!(rt; have_length(words, entry.n));
    Ok(check_words(alloc, entry, words.to_vec(alloc)?)?)
}

/// The code of the words, where any are given.
pub(crate) fn optional_code(
    rt: &impl Abort,
    alloc: Global,
    code: Option<Words>,
) -> Result<Option<Code>, Fail> {
    match code {
        Some(code) => Ok(Some(code_of(rt, alloc, code)?)),
        None => Ok(None),
    }
}

/// All words of even weight of length n.
pub(crate) fn even_code(rt: &impl Abort, alloc: Global, n: u32) -> Result<Code, Fail> {
    assert!(rt; 1 <= n && n <= MAX_N);
    Ok(even_words(alloc, n)?)
}

/// The code of all sums of the basis words, which are checked.
pub(crate) fn linear_code(
    rt: &impl Abort,
    alloc: Global,
    n: u32,
    d: u32,
    basis: &[Word],
) -> Result<Code, Fail> {
    let entry = Entry { n, d, w: None };
    assert!(rt; entry.in_table());
    assert!(rt; have_length(basis, n));
    let cosets = check_cosets(alloc, entry, basis.to_vec(alloc)?, [0].to_vec(alloc)?)?;
    Ok(cosets.list(alloc)?)
}

/// Whether the code is just this one, whose words are written in ascending order.
pub(crate) fn shows(code: &Code, place: Place, words: &[Word]) -> bool {
    (code.n(), code.d(), code.w()) == place && code.words() == words
}

/// Whether the answer is just this code, or this fault.
pub(crate) fn answers(made: &Result<Code, BuildFault>, wanted: Result<Words, BuildFault>) -> bool {
    match (made, wanted) {
        (Ok(code), Ok((place, words))) => shows(code, place, words.as_slice()),
        (Err(fault), Err(wanted)) => *fault == wanted,
        _ => false,
    }
}
