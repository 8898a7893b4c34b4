//! The code of a sum class.

ghost use Rattle.std.specs.Prelude.{◌≡◌, [], length, true, IfOk, Some};
ghost use Rattle.ct_words.specs.Entry.{IsEntry};
ghost use Rattle.ct_rule_codes.specs.CodeEntry.{entry_of_code};
ghost use Rattle.ct_weight_rules.specs.GrahamSloane.{graham_sloane};

use ct_sum_classes::sum_class_list;
use ct_words::{Code, Entry};
use std::alloc::{AllocError, Global};

/// The words of the length and the weight of the entry, which is in the table, the places of whose ones add up to r modulo the
/// length, where there is such a class. `Err` is want of memory.
pub fn sum_class(alloc: Global, entry: Entry, r: u32) -> Result<Code, AllocError>
    requires entry { IsEntry entry }
    requires defined { (graham_sloane r).condition entry ≡ true }
    ensures entry { IfOk result (λ c. entry_of_code c ≡ entry) }
    ensures size { IfOk result (λ c. (graham_sloane r).number entry [] ≡ Some (length c.words)) }
{
    sum_class_list(alloc, entry.n, entry.w.unwrap_or(0), r)
}
