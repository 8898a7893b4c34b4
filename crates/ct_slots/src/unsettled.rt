//! The slots that have to be looked at when a table begins: those of the entries that are not settled, in an order in which most of what
//! a rule rests on comes first.

ghost use Rattle.std.specs.Prelude.{◌≡◌, ◌%◌, ◌<◌, ◌≤◌, ℕ, OnOk};
ghost use Rattle.ct_words.specs.declared.limits.TheConstants.{MAX_N};
ghost use Rattle.ct_words.specs.declared.entry.Entry.{Entry};
ghost use Rattle.ct_words.specs.Entry.{IsEntry, constant_weight};
ghost use Rattle.ct_rule_parts.specs.Slot.{Slot};
ghost use Rattle.ct_slots.specs.Number.{distances, even_distances};
ghost use Rattle.ct_slots.specs.Worklist.{IsMarked, IsMarkedOrSettled};
ghost use Rattle.ct_slots.specs.Inside.Marked.{distance_at, even_distance_at, AreMarkedWithWeight, AreMarkedWithoutWeight};

use crate::bounds::Bounds;
use crate::worklist::Worklist;
use ct_words::{Entry, MAX_N, Side};
use std::alloc::AllocError;

/// Marks a side of an entry, but where its bounds are one. After an `Err`, which is want of memory, all is as before.
fn mark_unless_settled(
    work: &mut Worklist,
    bounds: &Bounds,
    side: Side,
    entry: Entry,
) -> Result<(), AllocError>
    requires { IsEntry entry }
    ensures marked { OnOk result (IsMarkedOrSettled bounds.now work.new (side, entry)) }
    ensures kept { (t : Slot) → IsMarked work.old t → IsMarked work.new t }
{
    if bounds.is_settled(entry) {
        return Ok(());
    }
    work.mark(side, entry)?;
    Ok(())
}

/// Marks a side of the entries of the length n and the distance d with weight that are not settled.
fn mark_weights(
    work: &mut Worklist,
    bounds: &Bounds,
    side: Side,
    n: u32,
    d: u32,
) -> Result<(), AllocError>
    requires some { 1 ≤ n }
    requires short { n ≤ MAX_N }
    requires far { 4 ≤ d }
    requires near { d ≤ MAX_N }
    requires even { d % 2 ≡ 0 }
    ensures marked { OnOk result ((w : ℕ) → w ≤ n → IsMarkedOrSettled bounds.now work.new (side, constant_weight n d w)) }
    ensures kept { (t : Slot) → IsMarked work.old t → IsMarked work.new t }
{
    for w in 0..n + 1 {
        mark_unless_settled(work, bounds, side, Entry { n, d, w: Some(w) })?;
    }
    Ok(())
}

/// Marks a side of the entries of the distance d with weight that are not settled, by length.
fn mark_lengths(work: &mut Worklist, bounds: &Bounds, side: Side, d: u32) -> Result<(), AllocError>
    requires far { 4 ≤ d }
    requires near { d ≤ MAX_N }
    requires even { d % 2 ≡ 0 }
    ensures marked { OnOk result (AreMarkedWithWeight bounds.now work.new side d) }
    ensures kept { (t : Slot) → IsMarked work.old t → IsMarked work.new t }
{
    for n in 1..MAX_N + 1 {
        mark_weights(work, bounds, side, n, d)?;
    }
    Ok(())
}

/// The even distance at a place: from above they rise, from below they fall.
fn even_distance_at(side: Side, k: u32) -> u32
    requires { k < even_distances }
    ensures distance { result ≡ even_distance_at side k }
    ensures far { 4 ≤ result }
    ensures near { result ≤ MAX_N }
    ensures even { result % 2 ≡ 0 }
{
    match side {
        Side::Upper => 4 + 2 * k,
        Side::Lower => MAX_N - 2 * k,
    }
}

/// Marks a side of the entries with weight that are not settled, by distance.
fn mark_with_weight(work: &mut Worklist, bounds: &Bounds, side: Side) -> Result<(), AllocError>
    ensures marked { OnOk result ((d : ℕ) → 4 ≤ d → d ≤ MAX_N → d % 2 ≡ 0 → AreMarkedWithWeight bounds.now work.new side d) }
    ensures kept { (t : Slot) → IsMarked work.old t → IsMarked work.new t }
{
    for k in 0..MAX_N / 2 - 1 {
        mark_lengths(work, bounds, side, even_distance_at(side, k))?;
    }
    Ok(())
}

/// The distance at a place: from above they rise, from below they fall.
fn distance_at(side: Side, k: u32) -> u32
    requires { k < distances }
    ensures distance { result ≡ distance_at side k }
    ensures far { 3 ≤ result }
    ensures near { result ≤ MAX_N }
{
    match side {
        Side::Upper => 3 + k,
        Side::Lower => MAX_N - k,
    }
}

/// Marks a side of the entries of the length n without weight that are not settled, by distance.
fn mark_distances(
    work: &mut Worklist,
    bounds: &Bounds,
    side: Side,
    n: u32,
) -> Result<(), AllocError>
    requires some { 1 ≤ n }
    requires short { n ≤ MAX_N }
    ensures marked { OnOk result (AreMarkedWithoutWeight bounds.now work.new side n) }
    ensures kept { (t : Slot) → IsMarked work.old t → IsMarked work.new t }
{
    for k in 0..MAX_N - 2 {
        let d = distance_at(side, k);
        mark_unless_settled(work, bounds, side, Entry { n, d, w: None })?;
    }
    Ok(())
}

/// Marks a side of the entries without weight that are not settled, by length.
fn mark_without_weight(work: &mut Worklist, bounds: &Bounds, side: Side) -> Result<(), AllocError>
    ensures marked { OnOk result ((n : ℕ) → 1 ≤ n → n ≤ MAX_N → AreMarkedWithoutWeight bounds.now work.new side n) }
    ensures kept { (t : Slot) → IsMarked work.old t → IsMarked work.new t }
{
    for n in 1..MAX_N + 1 {
        mark_distances(work, bounds, side, n)?;
    }
    Ok(())
}

/// Marks a side of the entries that are not settled, those with weight first.
fn mark_side(work: &mut Worklist, bounds: &Bounds, side: Side) -> Result<(), AllocError>
    ensures marked { OnOk result ((e : Entry) → IsEntry e → IsMarkedOrSettled bounds.now work.new (side, e)) }
    ensures kept { (t : Slot) → IsMarked work.old t → IsMarked work.new t }
{
    mark_with_weight(work, bounds, side)?;
    mark_without_weight(work, bounds, side)?;
    Ok(())
}

/// Marks every slot of the table whose entry is not settled, those of upper bounds first: many of these show at once that a lower
/// bound is the best. After an `Err`, which is want of memory, some may be marked.
pub fn mark_unsettled(work: &mut Worklist, bounds: &Bounds) -> Result<(), AllocError>
    ensures marked { OnOk result ((s : Slot) → IsEntry s.1 → IsMarkedOrSettled bounds.now work.new s) }
    ensures kept { (t : Slot) → IsMarked work.old t → IsMarked work.new t }
{
    mark_side(work, bounds, Side::Upper)?;
    mark_side(work, bounds, Side::Lower)?;
    Ok(())
}
