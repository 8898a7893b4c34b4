//! The codes of lines, each kept as long as a later line needs it.

ghost use Rattle.std.specs.Prelude.{◌≡◌, ◌<◌, ◌++◌, ◌||◌, List, length, All, slice_get, slice_set, Some, None, IfOk, OnOk, if◌then◌else◌};
ghost use Rattle.ct_words.specs.Constructions.Places.{is_among};
ghost use Rattle.ct_words.specs.Code.{CodeValue};
ghost use Rattle.ct_rules.specs.Derivation.{LineValue};
ghost use Rattle.ct_list.specs.Inside.Kept.{AreCodesFor, AreKept, is_named, named_by};

use ct_rules::Line;
use ct_words::Code;
use std::alloc::{AllocError, Global};

/// Whether the place is among these.
fn is_among(places: &[usize], place: usize) -> bool
    ensures { result ≡ is_among places.now place }
{
    places.contains(&place)
}

/// Whether one of the lines names the place.
fn is_named(lines: &[Line], place: usize) -> bool
    ensures { result ≡ is_named lines.now place }
{
    lines
        .iter()
        .any(|line| is_among(line.from.as_slice(), place))
}

/// Whether the place is among these, or one of the lines names it.
fn is_pending(places: &[usize], lines: &[Line], place: usize) -> bool
    ensures { result ≡ (is_among places.now place || is_named lines.now place) }
{
    is_among(places, place) || is_named(lines, place)
}

/// The code at the place, which is there: a copy where it is still needed, else the code itself, and then none is kept there.
/// `Err` is want of memory.
fn take_code(
    kept: &mut Vec<Option<Code>>,
    place: usize,
    is_needed: bool,
) -> Result<Code, AllocError>
    requires { (c : CodeValue) × (slice_get kept.old.items place ≡ Some (Some c)) }
    ensures code { IfOk result (λ c. slice_get kept.old.items place ≡ Some (Some c)) }
    ensures kept { OnOk result (kept.new.items ≡ (if is_needed then kept.old.items else slice_set kept.old.items place None)) }
{
    if is_needed {
        let Some(code) = &kept[place] else {
            unreachable!()
        };
        return code.try_copy();
    }
    let Some(code) = kept[place].take() else {
        unreachable!()
    };
    Ok(code)
}

/// The codes of the lines at the places, in their order. A code is kept as long as one of the places after its own or of the
/// lines that are still to come names it. `Err` is want of memory.
pub(crate) fn take_codes(
    alloc: Global,
    kept: &mut Vec<Option<Code>>,
    from: &[usize],
    rest: &[Line],
) -> Result<Vec<Code>, AllocError>
    requires built { All (λ p. p < length kept.old.items) from.now }
    requires kept { (lines : List LineValue) × AreKept lines kept.old.items (from.now ++ named_by rest.now) }
    ensures codes { (lines : List LineValue) → AreKept lines kept.old.items (from.now ++ named_by rest.now) →
        IfOk result (λ codes. AreCodesFor lines from.now codes.items) }
    ensures kept { (lines : List LineValue) → AreKept lines kept.old.items (from.now ++ named_by rest.now) →
        OnOk result (AreKept lines kept.new.items (named_by rest.now)) }
    ensures size { OnOk result (length kept.new.items ≡ length kept.old.items) }
{
    let mut codes = Vec::with_capacity(alloc, from.len())?;
    for k in 0..from.len() {
        let place = from[k];
        let is_needed = is_pending(&from[k + 1..], rest, place);
        let code = take_code(kept, place, is_needed)?;
        codes.push(code)?;
    }
    Ok(codes)
}
