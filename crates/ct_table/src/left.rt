//! What is left of the lines once supports are taken out: one walk over the lines that followed those of the base.

ghost use Rattle.std.specs.Prelude.{◌≡◌, ◌+◌, ◌<◌, ◌≤◌, ◌++◌, ◌∷◌, [], ℕ, List, Some, None, All, IfOk, OnOk, OnErr, option_map, length, slice_index_or};
ghost use Rattle.ct_words.specs.Entry.{IsEntry};
ghost use Rattle.ct_rule_parts.specs.declared.support.Support.{Support};
ghost use Rattle.ct_rules.specs.Removal.{marked, names_one, voided};
ghost use Rattle.ct_rules.specs.Derivation.{LineValue};
ghost use Rattle.ct_rules.specs.Rule.{named_place};
ghost use Rattle.ct_table.specs.Closing.{HasMoreLines};
ghost use Rattle.ct_kept.specs.Kept.{KeptValue, BaseValue, set_back};
ghost use Rattle.ct_slots.specs.Places.{AreSupportPlaces};
ghost use Rattle.ct_slots.specs.Worklist.{IsMarked, IsIdle};
ghost use Rattle.ct_slots.specs.Number.{bound_of};
ghost use Rattle.ct_rule_parts.specs.Slot.{Slot, slot_of, IsBetter};
ghost use Rattle.ct_table.specs.Table.{IsTable};
ghost use Rattle.ct_table.specs.Inside.Walk.{moved_place, moved_places, moved_line, with_moved, walk};
ghost use Rattle.ct_table.specs.Inside.Removing.{IsSetBack, IsMarkedIfLost, IsTakenOut};

use crate::closing::{Closing, close};
use ct_kept::{Base, Kept};
use ct_rules::{Line, Support, names_one};
use ct_slots::{SupportPlaces, Worklist, is_better};
use ct_words::Claim;
use smallvec::SmallVec;
use std::alloc::{AllocError, Global};

/// Where the line at a place has moved, none where it stayed behind: the lines of the base stay at their places, and `moved`
/// tells it of the others.
fn moved_place(base: usize, moved: &[Option<usize>], place: usize) -> Option<usize>
    ensures { result ≡ moved_place base moved.now place }
{
    if place < base {
        return Some(place);
    }
    moved.get(place - base).copied().flatten()
}

/// The places to which lines have moved, none where one of them stayed behind. `Err` is want of memory.
fn moved_places(
    alloc: Global,
    base: usize,
    moved: &[Option<usize>],
    from: &[usize],
) -> Result<Option<SmallVec<usize, 2>>, AllocError>
    ensures { IfOk result (λ places. option_map (λ p. p.items) places ≡ moved_places base moved.now from.now) }
{
    let mut places = SmallVec::new(alloc);
    for place in from {
        let Some(there) = moved_place(base, moved, *place) else {
            return Ok(None);
        };
        places.push(there)?;
    }
    Ok(Some(places))
}

/// Puts a line again with the places to which the lines that it names have moved, and gives its own; `None` where it stays
/// behind, because its rule names a support at a marked place, or because it names a line that stayed behind. After an `Err`,
/// which is want of memory, what is kept is as before.
fn move_line(
    alloc: Global,
    kept: &mut Kept,
    base: usize,
    moved: &[Option<usize>],
    line: &Line,
    gone: &[bool],
) -> Result<Option<usize>, AllocError>
    requires { IsEntry line.now.claim.entry }
    ensures kept { OnOk result (kept.new ≡ with_moved kept.old (moved_line base (marked gone.now) moved.now line.now)) }
    ensures there { IfOk result (λ there. there ≡ option_map (λ _. length kept.old.lines) (moved_line base (marked gone.now) moved.now line.now)) }
    ensures unchanged { OnErr result (kept.new ≡ kept.old) }
{
    if names_one(gone, line.rule) {
        return Ok(None);
    }
    let Some(from) = moved_places(alloc, base, moved, line.from.as_slice())? else {
        return Ok(None);
    };
    let there = kept.line_count();
    kept.put(Line {
        claim: line.claim,
        rule: line.rule,
        from,
    })?;
    Ok(Some(there))
}

/// Puts the later lines again after those of the base, but those that rest on a support at a marked place. After an `Err`, which
/// is want of memory, some may have been put.
fn keep_lines(
    alloc: Global,
    kept: &mut Kept,
    later: &[Line],
    gone: &[bool],
) -> Result<(), AllocError>
    requires { All (λ l. IsEntry l.claim.entry) later.now }
    ensures walked { OnOk result (kept.new ≡ walk (length kept.old.lines) (marked gone.now) [] kept.old later.now) }
    ensures lines { HasMoreLines kept.old kept.new }
{
    let base = kept.line_count();
    let mut moved = Vec::new(alloc);
    for line in later {
        let there = move_line(alloc, kept, base, &moved, line, gone)?;
        moved.push(there)?;
    }
    Ok(())
}

/// Marks the slot of a line that is better than what stands there now. After an `Err`, which is want of memory, nothing changes.
fn mark_if_lost(kept: &Kept, work: &mut Worklist, line: &Line) -> Result<(), AllocError>
    requires { IsEntry line.now.claim.entry }
    ensures lost { OnOk result (IsMarkedIfLost kept.now.bounds work.new line.now) }
    ensures kept { (t : Slot) → IsMarked work.old t → IsMarked work.new t }
{
    let Claim { side, entry, value } = line.claim;
    if is_better(side, value, kept.bound(side, entry)) {
        work.mark(side, entry)?;
    }
    Ok(())
}

/// Marks each slot that had a better line than what stands there now. After an `Err`, which is want of memory, some may be
/// marked.
fn mark_lost(kept: &Kept, work: &mut Worklist, later: &[Line]) -> Result<(), AllocError>
    requires { All (λ l. IsEntry l.claim.entry) later.now }
    ensures { OnOk result (All (IsMarkedIfLost kept.now.bounds work.new) later.now) }
{
    for line in later {
        mark_if_lost(kept, work, line)?;
    }
    Ok(())
}

/// Puts the lines again that rest on no support at a marked place, and closes the table over the others. After an `Err`, which
/// is want of memory, lines may have been put after those of the base.
fn settle(
    alloc: Global,
    supports: &[Support],
    places: &SupportPlaces,
    closing: &mut Closing,
    later: &[Line],
    gone: &[bool],
) -> Result<(), AllocError>
    requires back { (full : List Support) × (old : KeptValue) × (base : BaseValue) × IsSetBack full old base closing.now later.now × (supports.now ≡ voided (marked gone.now) full) }
    requires places { AreSupportPlaces supports.now places.now }
    ensures taken { OnOk result ((full : List Support) (old : KeptValue) (base : BaseValue) → IsSetBack full old base closing.old later.now →
        supports.now ≡ voided (marked gone.now) full → IsTakenOut (marked gone.now) full old closing.new) }
    ensures lines { HasMoreLines closing.old.kept closing.new.kept }
{
    keep_lines(alloc, &mut closing.kept, later, gone)?;
    mark_lost(&closing.kept, &mut closing.work, later)?;
    close(alloc, supports, places, closing)
}

/// Takes out the supports at the marked places, in which there is nothing any more. Where no line names one, all stays as it is.
/// After an `Err`, which is want of memory, what is kept is as before.
pub(crate) fn take_out(
    alloc: Global,
    supports: &[Support],
    places: &SupportPlaces,
    base: &Base,
    closing: &mut Closing,
    gone: &[bool],
) -> Result<(), AllocError>
    requires table { (full : List Support) × IsTable full closing.now.kept base.now closing.now.work × (supports.now ≡ voided (marked gone.now) full) }
    requires places { AreSupportPlaces supports.now places.now }
    ensures taken { OnOk result ((full : List Support) → IsTable full closing.old.kept base.now closing.old.work →
        supports.now ≡ voided (marked gone.now) full → IsTakenOut (marked gone.now) full closing.old.kept closing.new) }
    ensures lines { OnOk result (HasMoreLines (set_back base.now closing.old.kept) closing.new.kept) }
    ensures unchanged { OnErr result (closing.new.kept ≡ closing.old.kept) }
    ensures idle { OnErr result (IsIdle closing.new.work) }
{
    if !closing.kept.names(gone) {
        return Ok(());
    }
    let undo = closing.kept.set_back(base, alloc)?;
    let done = settle(alloc, supports, places, closing, undo.later(), gone);
    if done.is_err() {
        closing.work.clear();
        closing.kept.put_back(undo);
    }
    done
}
