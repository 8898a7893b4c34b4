//! Codes of a stated entry, built from other codes by a step.

ghost use Rattle.std.specs.Prelude.{◌≡◌, ◌≢◌, Some, None, IfOk, OnOk, IfErr, IsPermutation};
ghost use Rattle.std.specs.Option.{option_copied, option_map, ForSome};
ghost use Rattle.ct_words.specs.Code.{IsSoundCode};
ghost use Rattle.ct_build.specs.Build.{FitsStated, IsShape, shape_of, built, build_fault};

use crate::build_faults::early_fault;
use crate::built_words::built_words;
use crate::fault::BuildFault;
use crate::shape::Shape;
use crate::sorted::code_of;
use crate::step::Step;
use ct_words::{Code, Entry};
use std::alloc::Global;

/// The greatest number of words of a code that is built, and of the codes that it is built from, 262,144.
pub const MAX_BUILT: usize = 262_144;

/// The code of the stated entry whose words the step makes of the part and, where it needs one, of the other code. The
/// entry is in the table and the step fits it.
///
/// The refusals in order: `WrongPart(0)` where the part has not the length that the step asks for, or, where a weight is
/// stated, not the weight; `WrongPart(1)` where the step needs another code and none is handed in, or one of a wrong
/// length or weight; `Short` with the distance that the step gives and the stated one, which is greater; `Size` with the
/// first number of words above `MAX_BUILT`, of the part, the other code and the result; `Few` where a trim wants more
/// words than the part has; `Empty` where no word results. `Memory` comes only where there is none of these reasons: the
/// words could not be stored.
///
/// The code has the stated distance, which may be smaller than the one that the step gives, and no weight where none is
/// stated.
pub fn apply(
    alloc: Global,
    step: &Step,
    stated: Entry,
    part: &Code,
    other: Option<&Code>,
) -> Result<Code, BuildFault>
    requires fits { FitsStated step.now stated }
    ensures fault { IfErr result (λ fault. fault ≢ BuildFault.Memory
        → build_fault step.now stated part.now (option_copied other.entry) ≡ Some fault) }
    ensures memory { IfErr result (λ fault. fault ≡ BuildFault.Memory
        → build_fault step.now stated part.now (option_copied other.entry) ≡ None) }
    ensures accepted { OnOk result (build_fault step.now stated part.now (option_copied other.entry) ≡ None) }
    ensures words { IfOk result (λ c. IsPermutation (built step.now stated part.now (option_copied other.entry)) c.words) }
    ensures n { IfOk result (λ c. c.n ≡ stated.n) }
    ensures d { IfOk result (λ c. c.d ≡ stated.d) }
    ensures w { IfOk result (λ c. c.w ≡ stated.w) }
    ensures sound { IfOk result IsSoundCode }
{
    if let Some(fault) = early_fault(step, stated, Shape::of(part), shape_beside(other)) {
        return Err(fault);
    }
    let words = built_words(alloc, step, stated, part, other)?;
    if words.is_empty() {
        return Err(BuildFault::Empty);
    }
    Ok(code_of(stated.n, stated.d, stated.w, words))
}

/// The shape of a code that may be handed in.
fn shape_beside(other: Option<&Code>) -> Option<Shape>
    ensures value { result ≡ option_map shape_of (option_copied other.entry) }
    ensures limits { ForSome result IsShape }
    ensures sound { ForSome (option_copied other.entry) IsSoundCode }
{
    match other {
        Some(code) => Some(Shape::of(code)),
        None => None,
    }
}
