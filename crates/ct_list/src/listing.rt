//! The code behind the best lower bound of an entry.

ghost use Rattle.std.specs.Prelude.{◌≡◌, ◌<◌, ◌+◌, ℕ, length, drop, slice_get, Some, IfOk, OnOk};
ghost use Rattle.ct_words.specs.declared.claim.Side.TheVariants.{Lower};
ghost use Rattle.ct_words.specs.declared.entry.Entry.{Entry};
ghost use Rattle.ct_words.specs.Entry.{IsEntry};
ghost use Rattle.ct_derive.specs.Explanation.{IsExplanation};
ghost use Rattle.ct_piece.specs.Supports.{supports_of};
ghost use Rattle.ct_rule_parts.specs.Slot.{claim_at};
ghost use Rattle.ct_rules.specs.Derivation.{LineValue};
ghost use Rattle.ct_derive.specs.Listed.{IsListedCode};
ghost use Rattle.ct_list.specs.Inside.Kept.{AreKept, IsCodeFor, named_by};

use crate::kept::take_codes;
use crate::rows::code_by_rule;
use ct_ledger::Ledger;
use ct_reasons::lines_to;
use ct_rules::Line;
use ct_words::{Code, Entry, Side};
use std::alloc::{AllocError, Global};

/// The code of the line at the place, the next one of an explanation of a lower bound over the pieces of the ledger: made of the
/// codes that are kept for the lines that it names, each of which is dropped where no later line needs it. The ledger stays the same. `Err` is want of memory.
fn next_code(
    alloc: Global,
    ledger: &mut Ledger,
    lines: &[Line],
    place: usize,
    kept: &mut Vec<Option<Code>>,
) -> Result<Code, AllocError>
    requires explained { (e : Entry) × (v : ℕ) × IsExplanation (supports_of ledger.old.pieces) (Lower, e) v lines.now }
    requires place { place < length lines.now }
    requires next { length kept.old.items ≡ place }
    requires kept { AreKept lines.now kept.old.items (named_by (drop place lines.now)) }
    ensures code { (l : LineValue) → slice_get lines.now place ≡ Some l → IfOk result (IsCodeFor l.claim) }
    ensures kept { OnOk result (AreKept lines.now kept.new.items (named_by (drop (place + 1) lines.now))) }
    ensures size { OnOk result (length kept.new.items ≡ place) }
    ensures unchanged { ledger.new ≡ ledger.old }
{
    let line = &lines[place];
    let codes = take_codes(alloc, kept, line.from.as_slice(), &lines[place + 1..])?;
    code_by_rule(alloc, ledger, line.rule, line.claim.entry, codes)
}

/// The code of the last of the lines, an explanation of a lower bound over the pieces of the ledger: the codes of the lines are
/// built one after the other. The ledger stays the same. `Err` is want of memory.
fn last_code(alloc: Global, ledger: &mut Ledger, lines: &[Line]) -> Result<Code, AllocError>
    requires { (e : Entry) × (v : ℕ) × IsExplanation (supports_of ledger.old.pieces) (Lower, e) v lines.now }
    ensures code { (e : Entry) (v : ℕ) → IsExplanation (supports_of ledger.old.pieces) (Lower, e) v lines.now →
        IfOk result (IsCodeFor (claim_at (Lower, e) v)) }
    ensures unchanged { ledger.new ≡ ledger.old }
{
    let last = lines.len() - 1;
    let mut kept = Vec::with_capacity(alloc, last)?;
    for place in 0..last {
        let code = next_code(alloc, ledger, lines, place, &mut kept)?;
        kept.push(Some(code))?;
    }
    next_code(alloc, ledger, lines, last, &mut kept)
}

/// A code of the entry with exactly as many words as the ledger's best lower bound of it. Codes of builds that it is made of are made,
/// where the ledger does not keep them, and are kept from then on; the ledger stays the same. `Err` is want of memory.
pub fn list(alloc: Global, ledger: &mut Ledger, entry: Entry) -> Result<Code, AllocError>
    requires entry { IsEntry entry }
    ensures code { IfOk result (IsListedCode (supports_of ledger.old.pieces) entry) }
    ensures unchanged { ledger.new ≡ ledger.old }
{
    let table = ledger.table();
    let pieces = ledger.pieces();
    let supports = table.supports();
    prove!(supports.len() == pieces.len());
    let lines = lines_to(alloc, table, table.reason(Side::Lower, entry))?;
    let code = last_code(alloc, ledger, &lines)?;
    let n = code.n();
    prove!(n == entry.n);
    Ok(code)
}
