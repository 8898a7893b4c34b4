//! The tally of a table's bounds.

ghost use Rattle.std.specs.Prelude.{◌≡◌, ◌≤◌, ◌<◌, ◌+◌, ◌*◌, ◌^◌, ◌∷◌, ◌++◌, [], ℕ, List, All, length};
ghost use Rattle.ct_words.specs.declared.entry.Entry.{Entry};
ghost use Rattle.ct_words.specs.Entry.{IsEntry};
ghost use Rattle.ct_rule_parts.specs.Slot.{Slot};
ghost use Rattle.ct_sample.specs.Summary.{AreBest, tally_of};

use ct_ledger::Table;
use ct_words::Entry;

/// Entries of a table by their bounds.
#[derive(Clone, Copy)]
pub struct Tally {
    /// How many have equal bounds.
    pub equal: u32,
    /// The sum of their lower bounds.
    pub lower: u64,
    /// The sum of their upper bounds.
    pub upper: u64,
}

/// The tally of one entry more.
fn with_entry(tally: Tally, table: &Table, entry: Entry) -> Tally
    requires entry { IsEntry entry }
    requires small { (tally.equal < 2 ^ 31) × (tally.lower ≤ 2 ^ 62) × (tally.upper ≤ 2 ^ 62) }
    ensures tally { (best : Slot → ℕ) (entries : List Entry) → AreBest table.now.supports best → tally ≡ tally_of best entries
        → result ≡ tally_of best (entries ++ entry ∷ []) }
    ensures equal { result.equal ≤ tally.equal + 1 }
    ensures lower { result.lower < tally.lower + 2 ^ 32 }
    ensures upper { result.upper < tally.upper + 2 ^ 32 }
{
    let lower = table.lower(entry);
    let upper = table.upper(entry);
    Tally {
        equal: tally.equal + u32::from(lower == upper),
        lower: tally.lower + u64::from(lower),
        upper: tally.upper + u64::from(upper),
    }
}

/// The tally of entries of the table.
pub(crate) fn tally_of(table: &Table, entries: &[Entry]) -> Tally
    requires entries { All IsEntry entries.now }
    requires few { length entries.now < 2 ^ 16 }
    ensures { (best : Slot → ℕ) → AreBest table.now.supports best → result ≡ tally_of best entries.now }
{
    let mut tally = Tally {
        equal: 0,
        lower: 0,
        upper: 0,
    };
    for entry in entries {
        tally = with_entry(tally, table, *entry);
    }
    tally
}
