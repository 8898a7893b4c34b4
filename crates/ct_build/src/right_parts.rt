//! Whether codes are such as a step asks for.

ghost use Rattle.std.specs.Prelude.{◌≡◌, ◌≤◌, ◌+◌, ◌==◌, ◌&&◌};
ghost use Rattle.std.specs.Option.{ForSome};
ghost use Rattle.ct_words.specs.declared.limits.TheConstants.{MAX_N};
ghost use Rattle.ct_build.specs.Build.{IsShape, is_right_length, gives_weight, is_right_weight, add_up, is_right_other};

use crate::even::even_from;
use crate::shape::Shape;
use crate::shortened::ones_among;
use crate::step::Step;
use ct_words::Entry;

/// Whether the step makes words of length `n` of words of length `m`.
#[tactic(auto, unfolding(crate::specs::Build::is_right_length))]
pub(crate) fn is_right_length(step: &Step, n: u32, m: u32) -> bool
    requires n { n ≤ MAX_N }
    requires m { m ≤ MAX_N }
    ensures { result ≡ is_right_length step.now n m }
{
    match step {
        Step::Lengthen | Step::AppendOne | Step::Parity => m + 1 == n,
        Step::Puncture(places) | Step::Shorten(places, _) => {
            m as usize == n as usize + places.as_slice().len()
        }
        Step::Uuv => 2 * m == n,
        Step::Juxtapose => m < n,
        _ => m == n,
    }
}

/// Whether the step takes a part of weight `v`, or of none, where the weight `w` of words of length `n` is stated, or none.
#[tactic(auto, unfolding(crate::specs::Build::is_right_weight))]
pub(crate) fn is_right_weight(step: &Step, n: u32, w: Option<u32>, v: Option<u32>) -> bool
    requires w { ForSome w (λ k. k ≤ MAX_N) }
    requires v { ForSome v (λ k. k ≤ MAX_N) }
    ensures { result ≡ is_right_weight step.now n w v }
{
    let Some(w) = w else {
        return true;
    };
    match (step, v) {
        (Step::Select(_), None) => true,
        (Step::Select(_), Some(_)) => false,
        (_, None) => false,
        (_, Some(v)) => gives_weight(step, n, v, w),
    }
}

/// Whether the step makes words of length `n` and weight `w` of a part of weight `v`.
#[tactic(auto, unfolding(crate::specs::Build::gives_weight))]
fn gives_weight(step: &Step, n: u32, v: u32, w: u32) -> bool
    requires v { v ≤ MAX_N }
    requires w { w ≤ MAX_N }
    ensures { result ≡ gives_weight step.now n v w }
{
    match step {
        Step::AppendOne => v + 1 == w,
        Step::Parity => even_from(v) == w,
        Step::Shorten(_, digits) => v as usize == w as usize + ones_among(digits.as_slice()),
        Step::Complement => v + w == n,
        Step::Juxtapose => true,
        _ => v == w,
    }
}

/// Whether the other code is such as the step asks for.
#[tactic(auto, unfolding(crate::specs::Build::is_right_other))]
pub(crate) fn is_right_other(step: &Step, stated: Entry, part: Shape, other: Option<Shape>) -> bool
    requires part { IsShape part }
    requires other { ForSome other IsShape }
    ensures { result ≡ is_right_other step.now stated part other }
{
    match (step, other) {
        (Step::Uuv, Some(other)) => 2 * other.n == stated.n,
        (Step::Juxtapose, Some(other)) => completes(stated, part, other),
        (Step::Uuv | Step::Juxtapose, None) => false,
        _ => true,
    }
}

/// Whether the lengths of two codes add up to the stated one, and their weights where one is stated.
fn completes(stated: Entry, part: Shape, other: Shape) -> bool
    requires part { IsShape part }
    requires other { IsShape other }
    ensures { result ≡ ((part.n + other.n == stated.n) && add_up stated.w part.w other.w) }
{
    part.n + other.n == stated.n && add_up(stated.w, part.w, other.w)
}

/// Whether two weights add up to the one that is stated, where one is.
fn add_up(w: Option<u32>, u: Option<u32>, v: Option<u32>) -> bool
    requires u { ForSome u (λ k. k ≤ MAX_N) }
    requires v { ForSome v (λ k. k ≤ MAX_N) }
    ensures { result ≡ add_up w u v }
{
    match (w, u, v) {
        (None, _, _) => true,
        (Some(w), Some(u), Some(v)) => u + v == w,
        _ => false,
    }
}
