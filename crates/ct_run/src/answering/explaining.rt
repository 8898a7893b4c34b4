//! The best bounds of a ledger with their explanations.

ghost use Rattle.std.specs.Prelude.{IfOk};
ghost use Rattle.ct_words.specs.Entry.{IsEntry};
ghost use Rattle.ct_derive.specs.Derivation.{AreOrdered};
ghost use Rattle.ct_explain.specs.Explained.{ExplainsBest};

use ct_derive::Derivation;
use ct_explain::PartsOfPieces;
use ct_ledger::Ledger;
use ct_words::{Entry, Side};
use std::alloc::{AllocError, Global};

/// An explanation of the best bound of a side of an entry of the table over the pieces of the ledger, and the pieces that it needs.
/// `Err` is want of memory.
pub fn explain(
    alloc: Global,
    ledger: &Ledger,
    side: Side,
    entry: Entry,
) -> Result<Derivation, AllocError>
    requires { IsEntry entry }
    ensures best { IfOk result (ExplainsBest ledger.now.pieces side entry) }
    ensures ordered { IfOk result (λ d. AreOrdered d.lines) }
{
    let pieces = PartsOfPieces::new(ledger.pieces());
    ct_reasons::explain(alloc, ledger.table(), &pieces, side, entry)
}
