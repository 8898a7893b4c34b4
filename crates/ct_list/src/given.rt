//! The code of a piece of evidence.

ghost use Rattle.std.specs.Prelude.{◌≡◌, length, slice_get, Some, IfOk, IsSome};
ghost use Rattle.ct_rule_parts.specs.Support.{size_at};
ghost use Rattle.ct_piece.specs.Supports.{supports_of};
ghost use Rattle.ct_rule_codes.specs.CodeEntry.{entry_of_code};

use ct_ledger::Ledger;
use ct_words::{Code, Entry};
use std::alloc::{AllocError, Global};

/// The code of the piece at the place, which gives a size at the entry. The ledger stays the same. `Err` is want of memory.
pub(crate) fn given_code(
    alloc: Global,
    ledger: &mut Ledger,
    entry: Entry,
    place: u32,
) -> Result<Code, AllocError>
    requires { IsSome (size_at (slice_get (supports_of ledger.old.pieces) place) entry) }
    ensures entry { IfOk result (λ c. entry_of_code c ≡ entry) }
    ensures size { IfOk result (λ c. size_at (slice_get (supports_of ledger.old.pieces) place) entry ≡ Some (length c.words)) }
    ensures unchanged { ledger.new ≡ ledger.old }
{
    let pieces = ledger.pieces();
    prove!((place as usize) < pieces.len());
    ledger.code(alloc, place as usize)
}
