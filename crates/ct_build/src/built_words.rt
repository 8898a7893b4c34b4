//! The words that a step makes.

ghost use Rattle.std.specs.Prelude.{◌≡◌, ◌+◌, ◌*◌, ◌^◌, ◌<◌, ◌≤◌, ◌≢◌, [], take, None, IfOk, OnErr, IsPermutation};
ghost use Rattle.std.specs.Option.{option_copied, option_map, ForSome};
ghost use Rattle.ct_words.specs.declared.limits.TheConstants.{MAX_N};
ghost use Rattle.ct_words.specs.declared.entry.Entry.{Entry};
ghost use Rattle.ct_build.specs.declared.step.Step.TheVariants.{Uuv, Juxtapose};
ghost use Rattle.ct_build.specs.Build.{FitsStated, shape_of, selected_of, built, early_fault};

use crate::append::{followed_by_digit, followed_by_parity};
use crate::juxtaposed::joined_words;
use crate::parts_and_sums::words_and_sums;
use crate::punctured::punctured_words;
use crate::shortened::shortened_words;
use crate::step::Step;
use crate::translation::{all_ones, sorted_sums, sums_of_weight};
use ct_words::{Code, Entry, Word};
use std::alloc::{AllocError, Global};

/// The words that the step makes, which nothing is told against before it is taken. It fails only where there is one.
#[tactic(auto, unfolding(crate::specs::Build::built))]
pub(crate) fn built_words(
    alloc: Global,
    step: &Step,
    stated: Entry,
    part: &Code,
    other: Option<&Code>,
) -> Result<Vec<Word>, AllocError>
    requires fits { FitsStated step.now stated }
    requires faultless { early_fault step.now stated (shape_of part.now) (option_map shape_of (option_copied other)) ≡ None }
    ensures words { IfOk result (λ v. IsPermutation (built step.now stated part.now (option_copied other.entry)) v.items) }
    ensures some { OnErr result (built step.now stated part.now (option_copied other.entry) ≢ []) }
{
    let n = part.n();
    let words = part.words();
    match step {
        Step::Lengthen => followed_by_digit(alloc, part, 0),
        Step::AppendOne => followed_by_digit(alloc, part, 1),
        Step::Parity => followed_by_parity(alloc, part),
        Step::Puncture(places) => punctured_words(alloc, n, places.as_slice(), words),
        Step::Shorten(places, digits) => {
            shortened_words(alloc, n, places.as_slice(), digits.as_slice(), words)
        }
        Step::Translate(by) => sorted_sums(alloc, words, *by),
        Step::Complement => sorted_sums(alloc, words, all_ones(n)),
        Step::Select(by) => selected_words(alloc, part, *by, stated.w),
        Step::Uuv => words_with_sums(alloc, part, other),
        Step::Juxtapose => words_side_by_side(alloc, part, other),
        Step::Trim(size) => first_words(alloc, words, *size),
    }
}

/// The words of weight w among the sums of each word of the part and the word `by`, where w is given.
fn selected_words(
    alloc: Global,
    part: &Code,
    by: Word,
    w: Option<u32>,
) -> Result<Vec<Word>, AllocError>
    requires { by < 2 ^ part.now.n }
    ensures words { IfOk result (λ v. v.items ≡ selected_of w part.now.n by part.now.words) }
    ensures some { OnErr result (selected_of w part.now.n by part.now.words ≢ []) }
{
    match w {
        Some(w) => sums_of_weight(alloc, part, by, w),
        None => Ok(Vec::new(alloc)),
    }
}

/// The words of the part followed by their sums with those of the other code, of the same length.
#[tactic(auto, unfolding(crate::specs::Build::built))]
fn words_with_sums(
    alloc: Global,
    part: &Code,
    other: Option<&Code>,
) -> Result<Vec<Word>, AllocError>
    requires room { 2 * part.now.n ≤ MAX_N }
    requires lengths { ForSome (option_copied other) (λ o. o.n ≡ part.now.n) }
    ensures words { (e : Entry) → IfOk result (λ v. IsPermutation (built Uuv e part.now (option_copied other.entry)) v.items) }
    ensures some { (e : Entry) → OnErr result (built Uuv e part.now (option_copied other.entry) ≢ []) }
{
    match other {
        Some(other) => words_and_sums(alloc, part.n(), part.words(), other.words()),
        None => Ok(Vec::new(alloc)),
    }
}

/// The words of the part, each followed by that of the other code at the same place.
#[tactic(auto, unfolding(crate::specs::Build::built))]
fn words_side_by_side(
    alloc: Global,
    part: &Code,
    other: Option<&Code>,
) -> Result<Vec<Word>, AllocError>
    requires { ForSome (option_copied other) (λ o. part.now.n + o.n ≤ MAX_N) }
    ensures words { (e : Entry) → IfOk result (λ v. IsPermutation (built Juxtapose e part.now (option_copied other.entry)) v.items) }
    ensures some { (e : Entry) → OnErr result (built Juxtapose e part.now (option_copied other.entry) ≢ []) }
{
    match other {
        Some(other) => joined_words(alloc, part.words(), other.n(), other.words()),
        None => Ok(Vec::new(alloc)),
    }
}

/// The first words, so many, or all where there are fewer.
fn first_words(alloc: Global, words: &[Word], size: u32) -> Result<Vec<Word>, AllocError>
    ensures { IfOk result (λ v. v.items ≡ take size words.now) }
{
    let count = words.len().min(size as usize);
    Vec::from_slice(alloc, &words[..count])
}
