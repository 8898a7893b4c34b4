//! The best bounds of a table with their explanations.

ghost use Rattle.std.specs.Prelude.{◌≡◌, ◌<◌, ℕ, IfOk, length, slice_get, Some};
ghost use Rattle.ct_words.specs.Entry.{IsEntry};
ghost use Rattle.ct_rule_parts.specs.Slot.{slot_of};
ghost use Rattle.ct_rules.specs.Derivation.{LineValue, IsBest};
ghost use Rattle.ct_table.specs.Table.{IsShownTable};
ghost use Rattle.ct_derive.specs.Derivation.{AreOrdered};
ghost use Rattle.ct_derive.specs.Explanation.{IsExplanation};
ghost use Rattle.ct_derive.specs.Pieces.{AreEarlier, AreNeeded};

use crate::marking::needed_lines;
use crate::pruning::marked_lines;
use ct_derive::{Derivation, PieceParts, needed_pieces};
use ct_rules::Line;
use ct_table::Table;
use ct_words::{Entry, Side};
use std::alloc::{AllocError, Global};

/// The lines of the table that the one at a place needs, and this as the last: an explanation of its claim. `Err` is want of
/// memory.
pub fn lines_to(alloc: Global, table: &Table, last: usize) -> Result<Vec<Line>, AllocError>
    requires table { IsShownTable table.now }
    requires last { last < length table.now.lines }
    ensures { (l : LineValue) → slice_get table.now.lines last ≡ Some l →
        IfOk result (λ lines. IsExplanation table.now.supports (slot_of l.claim) l.claim.value lines.items) }
{
    let marks = needed_lines(alloc, table, last)?;
    marked_lines(alloc, table, &marks)
}

/// An explanation of the best bound of a side of an entry of the table, by lines that the table keeps, and the places of the
/// pieces that it needs: its supports are those of the pieces. `Err` is want of memory.
pub fn explain<P: PieceParts>(
    alloc: Global,
    table: &Table,
    pieces: &P,
    side: Side,
    entry: Entry,
) -> Result<Derivation, AllocError>
    requires entry { IsEntry entry }
    requires pieces { length (P.parts_of pieces.now) ≡ length table.now.supports }
    requires earlier { AreEarlier (P.parts_of pieces.now) }
    ensures lines { IfOk result (λ d. (v : ℕ) × IsBest table.now.supports (side, entry) v
        × IsExplanation table.now.supports (side, entry) v d.lines) }
    ensures pieces { IfOk result (λ d. AreNeeded (P.parts_of pieces.now) d.lines d.pieces) }
    ensures ordered { IfOk result (λ d. AreOrdered d.lines) }
{
    let count = table.supports().len();
    let places = pieces.count();
    prove!(places == count);
    let lines = lines_to(alloc, table, table.reason(side, entry))?;
    let pieces = needed_pieces(alloc, pieces, &lines)?;
    Ok(Derivation { pieces, lines })
}
