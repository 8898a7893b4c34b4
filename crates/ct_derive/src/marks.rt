//! Marks of places.

ghost use Rattle.std.specs.Prelude.{◌≡◌, ◌↔◌, ◌<◌, ◌^◌, ℕ, true, All, Contains, IfOk, length};
ghost use Rattle.std.specs.List.Sorted.{IsStrictlyIncreasing};
ghost use Rattle.ct_derive.specs.Pruning.{is_marked, with_marks};

use std::alloc::{AllocError, Global};

/// Marks the places.
pub fn mark(marks: &mut [bool], places: &[usize])
    requires { All (λ p. p < length marks.old) places.now }
    ensures { marks.new ≡ with_marks places.now marks.old }
{
    for place in places {
        marks[*place] = true;
    }
}

/// The places that are marked, in ascending order. `Err` is want of memory.
pub(crate) fn marked_places(alloc: Global, marks: &[bool]) -> Result<Vec<u32>, AllocError>
    requires { length marks.now < 2 ^ 32 }
    ensures ascending { IfOk result (λ places. IsStrictlyIncreasing places.items) }
    ensures places { IfOk result (λ places. (p : ℕ) → Contains places.items p ↔ (is_marked marks.now p ≡ true)) }
{
    let mut places = Vec::new(alloc);
    for place in 0..marks.len() {
        if marks[place] {
            places.push(place as u32)?;
        }
    }
    Ok(places)
}
