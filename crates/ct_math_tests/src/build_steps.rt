//! Steps, and what is built by them.

ghost use Rattle.std.specs.Prelude.{◌≡◌, ◌+◌, ◌^◌, ◌<◌, ◌≤◌, true, length, All};
ghost use Rattle.std.specs.List.Sorted.{IsStrictlyIncreasing};
ghost use Rattle.ct_words.specs.declared.entry.Entry.{Entry};
ghost use Rattle.ct_words.specs.Constructions.Places.{ArePlaces};
ghost use Rattle.ct_build.specs.Build.{FieldsFit, FitsStated};

use crate::build_parts::Few;
use ct_build::{BuildFault, MAX_BUILT, Step, apply};
use ct_words::{Code, Entry, Listed, MAX_N, Word};
use std::alloc::Global;
use std::process::Abort;
use std::test::Fail;

/// What a step does, with its numbers.
#[derive(Clone, Copy)]
pub(crate) enum Change {
    Lengthen,
    AppendOne,
    Parity,
    Puncture(Few<u32>),
    Shorten(Few<u32>, Few<u32>),
    Translate(Word),
    Complement,
    Select(Word),
    Uuv,
    Juxtapose,
    Trim(u32),
}

/// The step that does so.
pub(crate) fn step_of(alloc: Global, change: Change) -> Result<Step, Fail> {
    Ok(match change {
        Change::Lengthen => Step::Lengthen,
        Change::AppendOne => Step::AppendOne,
        Change::Parity => Step::Parity,
        Change::Puncture(places) => Step::Puncture(numbers(alloc, places.as_slice())?),
        Change::Shorten(places, digits) => {
            let places = numbers(alloc, places.as_slice())?;
            Step::Shorten(places, numbers(alloc, digits.as_slice())?)
        }
        Change::Translate(by) => Step::Translate(by),
        Change::Complement => Step::Complement,
        Change::Select(by) => Step::Select(by),
        Change::Uuv => Step::Uuv,
        Change::Juxtapose => Step::Juxtapose,
        Change::Trim(size) => Step::Trim(size),
    })
}

/// The numbers in a row.
fn numbers(alloc: Global, list: &[u32]) -> Result<Listed<u32>, Fail> {
    Ok(Listed::from_vec(list.to_vec(alloc)?))
}

/// What the step makes of the part and the other code, which it has to fit.
pub(crate) fn build(
    rt: &impl Abort,
    alloc: Global,
    change: Change,
    stated: Entry,
    part: &Code,
    other: Option<&Code>,
) -> Result<Result<Code, BuildFault>, Fail> {
    let step = step_of(alloc, change)?;
    assert!(rt; fits(&step, stated));
    Ok(apply(alloc, &step, stated, part, other))
}

/// Whether the stated entry is in the table, and the step fits it.
pub(crate) fn fits(step: &Step, stated: Entry) -> bool
    ensures { result ≡ true → FitsStated step.now stated }
{
    stated.in_table() && fields_fit(step, stated)
}

/// Whether the step's fields, and whether a weight is stated, are as the step asks for.
#[tactic(auto, unfolding(ct_build::specs::Build::FieldsFit))]
fn fields_fit(step: &Step, stated: Entry) -> bool
    ensures { result ≡ true → FieldsFit step.now stated }
{
    match step {
        Step::Lengthen | Step::AppendOne | Step::Parity | Step::Juxtapose => 2 <= stated.n,
        Step::Puncture(places) => stated.w.is_none() && leaves_out(places.as_slice(), stated.n),
        Step::Shorten(places, digits) => {
            leaves_out(places.as_slice(), stated.n)
                && digits.as_slice().len() == places.as_slice().len()
                && are_binary(digits.as_slice())
        }
        Step::Translate(by) => stated.w.is_none() && has_length(*by, stated.n),
        Step::Complement => true,
        Step::Select(by) => stated.w.is_some() && has_length(*by, stated.n),
        Step::Uuv => stated.w.is_none() && stated.n % 2 == 0,
        Step::Trim(size) => 1 <= *size && *size as usize <= MAX_BUILT,
    }
}

/// Whether the word is below 2^n.
pub(crate) fn has_length(word: Word, n: u32) -> bool
    ensures { result ≡ true → word < 2 ^ n }
{
    n < 32 && word < 1 << n
}

/// Whether words of length n are left where the places are left out.
fn leaves_out(places: &[u32], n: u32) -> bool
    ensures some { result ≡ true → 1 ≤ length places.now }
    ensures places { result ≡ true → ArePlaces (n + length places.now) places.now }
    ensures length { result ≡ true → n + length places.now ≤ MAX_N }
{
    if n > MAX_N || places.is_empty() || places.len() > MAX_N as usize {
        return false;
    }
    let long = n + places.len() as u32;
    long <= MAX_N && are_places(places, long)
}

/// Whether these are distinct places of a word of length n, in ascending order.
pub(crate) fn are_places(places: &[u32], n: u32) -> bool
    ensures { result ≡ true → ArePlaces n places.now }
{
    are_below(places, n) && are_ascending(places)
}

/// Whether each number is below n.
pub(crate) fn are_below(numbers: &[u32], n: u32) -> bool
    ensures { result ≡ true → All (λ a. a < n) numbers.now }
{
    numbers.iter().all(|number| *number < n)
}

/// Whether each number is below the next.
fn are_ascending(numbers: &[u32]) -> bool
    ensures { result ≡ true → IsStrictlyIncreasing numbers.now }
{
    for k in 1..numbers.len() {
        if numbers[k - 1] >= numbers[k] {
            return false;
        }
    }
    true
}

/// Whether each digit is 0 or 1.
pub(crate) fn are_binary(digits: &[u32]) -> bool
    ensures { result ≡ true → All (λ a. a < 2) digits.now }
{
    are_below(digits, 2)
}
