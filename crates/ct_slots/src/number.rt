//! The numbers of the slots of a table: the sides of its entries.

ghost use Rattle.std.specs.Prelude.{◌≡◌, ◌<◌, ◌≤◌, ◌*◌, ◌+◌, ◌-◌, ℕ};
ghost use Rattle.ct_words.specs.Entry.{IsEntry};
ghost use Rattle.ct_rule_parts.specs.Slot.{Slot};
ghost use Rattle.ct_slots.specs.Number.{side_size, count_in_length, entries_to, entry_in, number_in_length, entry_number, slot_number};

use ct_words::{Entry, MAX_N, Side};

/// How many distances the table has, from 3 on.
const DISTANCES: usize = MAX_N as usize - 2;

/// How many even distances the table has, from 4 on.
const EVEN_DISTANCES: usize = MAX_N as usize / 2 - 1;

/// How many entries the table has: at each length one for each distance, and at each even distance one for each weight.
pub const ENTRIES: usize = MAX_N as usize * DISTANCES
    + EVEN_DISTANCES * (MAX_N as usize * (MAX_N as usize + 3) / 2);

/// How many sides of entries the table has.
pub const SLOTS: usize = 2 * ENTRIES;

/// How many entries have a length below n.
fn entries_below(n: u32) -> usize
    requires from { 1 ≤ n }
    requires to { n ≤ MAX_N }
    ensures { result ≡ entries_to (n - 1) }
{
    let k = n as usize - 1;
    // There are twice as many distances as even ones, so k * DISTANCES + EVEN_DISTANCES * (k * (k + 3) / 2) is as much.
    EVEN_DISTANCES * (k * (k + 7) / 2)
}

/// The number of an entry of the table among those of its length.
fn number_in_length(entry: Entry) -> usize
    requires { IsEntry entry }
    ensures number { result ≡ number_in_length entry entry.w }
    ensures bound { result < count_in_length entry.n }
{
    match entry.w {
        None => entry.d as usize - 3,
        Some(w) => DISTANCES + (entry.d as usize / 2 - 2) * (entry.n as usize + 1) + w as usize,
    }
}

/// The number of an entry of the table.
pub(crate) fn entry_number(entry: Entry) -> usize
    requires { IsEntry entry }
    ensures number { result ≡ entry_number entry }
    ensures bound { result < side_size }
{
    entries_below(entry.n) + number_in_length(entry)
}

/// The number of a side of an entry of the table.
#[tactic(auto, unfolding(crate::specs::Number::slot_number))]
pub fn slot_number(side: Side, entry: Entry) -> usize
    requires { IsEntry entry }
    ensures number { result ≡ slot_number (side, entry) }
    ensures bound { result < 2 * side_size }
{
    match side {
        Side::Lower => entry_number(entry),
        Side::Upper => ENTRIES + entry_number(entry),
    }
}

/// Each side of each entry of the table has a number of its own, and each number is that of one.
pub fn slots_have_numbers()
    ensures bound { (s : Slot) → IsEntry s.1 → slot_number s < 2 * side_size }
    ensures apart { (s t : Slot) → IsEntry s.1 → IsEntry t.1 → slot_number s ≡ slot_number t → s ≡ t }
    ensures dense { (k : ℕ) → k < 2 * side_size → (s : Slot) × IsEntry s.1 × (slot_number s ≡ k) }
{}
