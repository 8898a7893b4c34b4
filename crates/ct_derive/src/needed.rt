//! The pieces of evidence that lines need.

ghost use Rattle.std.specs.Prelude.{◌≡◌, ◌+◌, ◌<◌, ◌≤◌, ◌^◌, ℕ, List, All, IfOk, OnOk, false, length, replicate};
ghost use Rattle.std.specs.Option.{option_to_list};
ghost use Rattle.ct_rules.specs.Derivation.{LineValue};
ghost use Rattle.ct_rules.specs.Rule.{named_place};
ghost use Rattle.ct_derive.specs.Pieces.{cited_places, AreEarlier, AreNeeded};
ghost use Rattle.ct_derive.specs.Inside.Needed.{AreMarkedPieces};
ghost use Rattle.ct_derive.specs.Pruning.{with_marks};

use crate::marks::{mark, marked_places};
use crate::parts::PieceParts;
use ct_rules::{Line, Rule, place_of};
use std::alloc::{AllocError, Global};

/// Marks the piece whose support the rule names, where it names one.
fn mark_cited(marks: &mut [bool], rule: Rule)
    requires { All (λ p. p < length marks.old) (option_to_list (named_place rule)) }
    ensures { marks.new ≡ with_marks (option_to_list (named_place rule)) marks.old }
{
    if let Some(place) = place_of(rule) {
        marks[place as usize] = true;
    }
}

/// Marks the pieces whose supports the lines name.
fn mark_cited_by(marks: &mut [bool], lines: &[Line])
    requires { All (λ p. p < length marks.old) (cited_places lines.now) }
    ensures { marks.new ≡ with_marks (cited_places lines.now) marks.old }
{
    for line in lines {
        mark_cited(marks, line.rule);
    }
}

/// Marks the parts of the piece at the place, where it is marked. `Err` is want of memory.
fn mark_parts<P: PieceParts>(
    alloc: Global,
    marks: &mut [bool],
    pieces: &P,
    place: usize,
) -> Result<(), AllocError>
    requires size { length marks.old ≡ length (P.parts_of pieces.now) }
    requires place { place < length (P.parts_of pieces.now) }
    requires earlier { AreEarlier (P.parts_of pieces.now) }
    ensures { OnOk result ((lines : List LineValue) → AreMarkedPieces (place + 1) (P.parts_of pieces.now) lines marks.old →
        AreMarkedPieces place (P.parts_of pieces.now) lines marks.new) }
{
    if !marks[place] {
        return Ok(());
    }
    let parts = pieces.parts(alloc, place)?;
    mark(marks, parts.places());
    Ok(())
}

/// Marks the parts of the marked pieces, and theirs, and no other piece. `Err` is want of memory.
fn mark_all_parts<P: PieceParts>(
    alloc: Global,
    marks: &mut [bool],
    pieces: &P,
) -> Result<(), AllocError>
    requires size { length marks.old ≡ length (P.parts_of pieces.now) }
    requires earlier { AreEarlier (P.parts_of pieces.now) }
    ensures { OnOk result ((lines : List LineValue) →
        AreMarkedPieces (length (P.parts_of pieces.now)) (P.parts_of pieces.now) lines marks.old →
        AreMarkedPieces 0 (P.parts_of pieces.now) lines marks.new) }
{
    let mut place = pieces.count();
    while place > 0 {
        place -= 1;
        mark_parts(alloc, marks, pieces, place)?;
    }
    Ok(())
}

/// Marks the pieces that the lines need, where none is marked. `Err` is want of memory.
fn mark_needed<P: PieceParts>(
    alloc: Global,
    marks: &mut [bool],
    pieces: &P,
    lines: &[Line],
) -> Result<(), AllocError>
    requires none { marks.old ≡ replicate (length (P.parts_of pieces.now)) false }
    requires cited { All (λ p. p < length (P.parts_of pieces.now)) (cited_places lines.now) }
    requires earlier { AreEarlier (P.parts_of pieces.now) }
    ensures { OnOk result (AreMarkedPieces 0 (P.parts_of pieces.now) lines.now marks.new) }
{
    mark_cited_by(marks, lines);
    mark_all_parts(alloc, marks, pieces)
}

/// Marks of the pieces that the lines need. `Err` is want of memory.
fn needed_marks<P: PieceParts>(
    alloc: Global,
    pieces: &P,
    lines: &[Line],
) -> Result<Vec<bool>, AllocError>
    requires cited { All (λ p. p < length (P.parts_of pieces.now)) (cited_places lines.now) }
    requires earlier { AreEarlier (P.parts_of pieces.now) }
    ensures { IfOk result (λ marks. AreMarkedPieces 0 (P.parts_of pieces.now) lines.now marks.items) }
{
    let mut marks = vec![in alloc; false; pieces.count()]?;
    mark_needed(alloc, &mut marks, pieces, lines)?;
    Ok(marks)
}

/// The places of the pieces that the lines need, ascending: the parts of these alone are asked for. `Err` is want of memory.
pub fn needed_pieces<P: PieceParts>(
    alloc: Global,
    pieces: &P,
    lines: &[Line],
) -> Result<Vec<u32>, AllocError>
    requires few { length (P.parts_of pieces.now) < 2 ^ 32 }
    requires cited { All (λ p. p < length (P.parts_of pieces.now)) (cited_places lines.now) }
    requires earlier { AreEarlier (P.parts_of pieces.now) }
    ensures { IfOk result (λ places. AreNeeded (P.parts_of pieces.now) lines.now places.items) }
{
    let marks = needed_marks(alloc, pieces, lines)?;
    marked_places(alloc, &marks)
}
