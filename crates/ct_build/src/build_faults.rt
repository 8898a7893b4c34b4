//! Why a step does not build a code of a stated entry.

ghost use Rattle.std.specs.Prelude.{◌≡◌, ◌≤◌, nat_lt, if◌then◌else◌, Some, None, IfNone, IfOk, OnOk, IfErr};
ghost use Rattle.std.specs.Option.{ForSome, unwrap_or};
ghost use Rattle.ct_words.specs.declared.code.TheConstants.{MAX_CODE_DISTANCE};
ghost use Rattle.ct_build.specs.declared.building.TheConstants.{MAX_BUILT};
ghost use Rattle.ct_build.specs.declared.fault.BuildFault.TheVariants.{Few};
ghost use Rattle.ct_build.specs.Build.{FitsStated, IsShape, part_fault, other_fault, distance_of, step_distance, size_of, other_of, result_size, above_limit, sizes_fault, few_fault, short_fault, early_fault, told_fault};

use crate::building::MAX_BUILT;
use crate::even::even_from;
use crate::fault::BuildFault;
use crate::right_parts::{is_right_length, is_right_other, is_right_weight};
use crate::shape::Shape;
use crate::step::Step;
use ct_words::Entry;

/// The first reason against the step over codes of these shapes that needs no word of them: in the order of `apply` all of
/// its reasons but `Empty`. Where the number of words that result depends on the words, for `shorten` and `select`, it is
/// no reason: no more words result than the part has.
#[tactic(auto, unfolding(crate::specs::Build::early_fault))]
pub fn early_fault(
    step: &Step,
    stated: Entry,
    part: Shape,
    other: Option<Shape>,
) -> Option<BuildFault>
    requires fits { FitsStated step.now stated }
    requires part { IsShape part }
    requires other { ForSome other IsShape }
    ensures value { result ≡ early_fault step.now stated part other }
    ensures sizes { IfNone result ((part.size ≤ MAX_BUILT) × (size_of (other_of step.now other) ≤ MAX_BUILT)) }
    ensures made { IfNone result (unwrap_or (result_size step.now part other) 0 ≤ MAX_BUILT) }
{
    if let Some(fault) = part_fault(step, stated, part) {
        return Some(fault);
    }
    if let Some(fault) = other_fault(step, stated, part, other) {
        return Some(fault);
    }
    if let Some(fault) = short_fault(step_distance(step, part.d, distance_of(other)), stated.d) {
        return Some(fault);
    }
    if let Some(fault) = size_fault(step, part, other) {
        return Some(fault);
    }
    few_fault(step, part.size)
}

/// How many words the step makes of codes of these shapes, none where that depends on their words; or the first reason against
/// it that the shapes tell, that no word results among them. Where the number is told, so is every reason.
pub fn told_size(
    step: &Step,
    stated: Entry,
    part: Shape,
    other: Option<Shape>,
) -> Result<Option<u32>, BuildFault>
    requires fits { FitsStated step.now stated }
    requires part { IsShape part }
    requires other { ForSome other IsShape }
    ensures size { IfOk result (λ size. size ≡ result_size step.now part other) }
    ensures accepted { OnOk result (told_fault step.now stated part other ≡ None) }
    ensures fault { IfErr result (λ fault. told_fault step.now stated part other ≡ Some fault) }
{
    if let Some(fault) = early_fault(step, stated, part, other) {
        return Err(fault);
    }
    match result_size(step, part, other) {
        Some(0) => Err(BuildFault::Empty),
        Some(count) => Ok(Some(count as u32)),
        None => Ok(None),
    }
}

/// Whether the part has another length or weight than the step asks for.
fn part_fault(step: &Step, stated: Entry, part: Shape) -> Option<BuildFault>
    requires fits { FitsStated step.now stated }
    requires part { IsShape part }
    ensures { result ≡ part_fault step.now stated part }
{
    if is_right_length(step, stated.n, part.n)
        && is_right_weight(step, stated.n, stated.w, part.w)
    {
        None
    } else {
        Some(BuildFault::WrongPart(0))
    }
}

/// Whether the other code is not such as the step asks for.
fn other_fault(step: &Step, stated: Entry, part: Shape, other: Option<Shape>) -> Option<BuildFault>
    requires part { IsShape part }
    requires other { ForSome other IsShape }
    ensures { result ≡ other_fault step.now stated part other }
{
    if is_right_other(step, stated, part, other) {
        None
    } else {
        Some(BuildFault::WrongPart(1))
    }
}

/// Whether the first distance is below the second.
fn short_fault(have: u32, want: u32) -> Option<BuildFault>
    ensures { result ≡ short_fault have want }
{
    if have < want {
        Some(BuildFault::Short(have, want))
    } else {
        None
    }
}

/// The distance that the step gives to the words it makes of a part of distance `d` and another code of distance `e`.
#[tactic(auto, unfolding(crate::specs::Build::step_distance))]
fn step_distance(step: &Step, d: u32, e: u32) -> u32
    requires d { d ≤ MAX_CODE_DISTANCE }
    requires e { e ≤ MAX_CODE_DISTANCE }
    ensures { result ≡ step_distance step.now d e }
{
    match step {
        Step::Parity | Step::Select(_) => even_from(d),
        Step::Puncture(places) => (d as usize).saturating_sub(places.as_slice().len()) as u32,
        Step::Uuv => (2 * d).min(e),
        Step::Juxtapose => d + e,
        _ => d,
    }
}

/// The distance of the code, 0 where there is none.
fn distance_of(other: Option<Shape>) -> u32
    requires { ForSome other IsShape }
    ensures value { result ≡ distance_of other }
    ensures limit { result ≤ MAX_CODE_DISTANCE }
{
    match other {
        Some(code) => code.d,
        None => 0,
    }
}

/// Whether there are more words than the limit.
fn above_limit(count: u64) -> Option<BuildFault>
    ensures value { result ≡ above_limit count }
    ensures limit { IfNone result (count ≤ MAX_BUILT) }
{
    if count > MAX_BUILT as u64 {
        Some(BuildFault::Size(count))
    } else {
        None
    }
}

/// The first number of words above the limit, of the part, the other code and the result where it is known.
#[tactic(auto, unfolding(crate::specs::Build::sizes_fault))]
fn size_fault(step: &Step, part: Shape, other: Option<Shape>) -> Option<BuildFault>
    ensures sizes { IfNone result ((part.size ≤ MAX_BUILT) × (size_of (other_of step.now other) ≤ MAX_BUILT)) }
    ensures made { IfNone result (unwrap_or (result_size step.now part other) 0 ≤ MAX_BUILT) }
    ensures value { result ≡ sizes_fault step.now part other (unwrap_or (result_size step.now part other) 0) }
{
    let second = size_of(other_of(step, other));
    if let Some(fault) = above_limit(part.size) {
        return Some(fault);
    }
    if let Some(fault) = above_limit(second) {
        return Some(fault);
    }
    match result_size(step, part, other) {
        Some(count) => above_limit(count),
        None => None,
    }
}

/// The other code, where the step needs one.
#[tactic(auto, unfolding(crate::specs::Build::other_of))]
fn other_of(step: &Step, other: Option<Shape>) -> Option<Shape>
    ensures { result ≡ other_of step.now other }
{
    match step {
        Step::Uuv | Step::Juxtapose => other,
        _ => None,
    }
}

/// The number of words of the code, 0 where there is none.
fn size_of(other: Option<Shape>) -> u64
    ensures { result ≡ size_of other }
{
    match other {
        Some(code) => code.size,
        None => 0,
    }
}

/// The number of words that the step makes of codes of these shapes, each of at most `MAX_BUILT` words, none where that
/// depends on their words.
#[tactic(auto, unfolding(crate::specs::Build::result_size))]
pub fn result_size(step: &Step, part: Shape, other: Option<Shape>) -> Option<u64>
    requires part { part.size ≤ MAX_BUILT }
    requires other { size_of (other_of step.now other) ≤ MAX_BUILT }
    ensures { result ≡ result_size step.now part other }
{
    match step {
        Step::Shorten(_, _) | Step::Select(_) => None,
        Step::Uuv => Some(part.size * size_of(other)),
        Step::Juxtapose => Some(part.size.min(size_of(other))),
        Step::Trim(size) => Some(u64::from(*size).min(part.size)),
        _ => Some(part.size),
    }
}

/// Whether the part, of so many words, has fewer words than a trim wants.
#[tactic(auto, unfolding(crate::specs::Build::few_fault))]
fn few_fault(step: &Step, count: u64) -> Option<BuildFault>
    ensures { result ≡ few_fault step.now count }
{
    match step {
        Step::Trim(size) => fewer_than(count, *size),
        _ => None,
    }
}

/// Whether there are fewer words than are wanted.
fn fewer_than(have: u64, want: u32) -> Option<BuildFault>
    ensures { result ≡ (if nat_lt have want then Some (Few have want) else None) }
{
    if have < u64::from(want) {
        Some(BuildFault::Few(have, u64::from(want)))
    } else {
        None
    }
}
