//! Entries in a row: what a rule rests on, or what may rest on an entry by it.

ghost use Rattle.std.specs.Prelude.{◌≡◌, ◌≤◌, length, slice_get};
ghost use Rattle.ct_words.specs.declared.limits.TheConstants.{MAX_N};
ghost use Rattle.ct_rule_parts.specs.Entries.{listed};
ghost use Rattle.ct_rule_parts.specs.Parts.{are_entries};

use ct_duals::AcceptedDual;
use ct_words::{Entry, MAX_N};

/// Up to three entries, in order, or those whose upper bounds an accepted dual rests on, `MAX_N` at most.
#[derive(Clone, Copy)]
pub enum Entries<'a> {
    /// None.
    Zero,
    /// One.
    One(Entry),
    /// Two.
    Two(Entry, Entry),
    /// Three.
    Three(Entry, Entry, Entry),
    /// Those that the dual rests on.
    OfDual(&'a AcceptedDual),
}

impl<'a> Entries<'a> {
    /// How many they are.
    pub fn len(self) -> usize
        ensures count { result ≡ length (listed self.entry) }
        ensures few { result ≤ MAX_N }
    {
        match self {
            Entries::Zero => 0,
            Entries::One(_) => 1,
            Entries::Two(_, _) => 2,
            Entries::Three(_, _, _) => 3,
            Entries::OfDual(dual) => dual.premise_count(),
        }
    }

    /// The entry at a place, from 0; `None` past their end.
    pub fn get(self, place: usize) -> Option<Entry>
        ensures { result ≡ slice_get (listed self.entry) place }
    {
        match (self, place) {
            (Entries::One(first) | Entries::Two(first, _) | Entries::Three(first, _, _), 0) => {
                Some(first)
            }
            (Entries::Two(_, second) | Entries::Three(_, second, _), 1) => Some(second),
            (Entries::Three(_, _, third), 2) => Some(third),
            (Entries::OfDual(dual), _) => dual.premise(place),
            _ => None,
        }
    }

    /// Whether all are entries of the table.
    pub fn are_in_table(self) -> bool
        ensures { result ≡ are_entries (listed self.entry) }
    {
        match self {
            Entries::Zero => true,
            Entries::One(first) => first.in_table(),
            Entries::Two(first, second) => first.in_table() && second.in_table(),
            Entries::Three(first, second, third) => {
                first.in_table() && second.in_table() && third.in_table()
            }
            // What an accepted dual rests on is in the table.
            Entries::OfDual(dual) => dual.premise_count() <= MAX_N as usize,
        }
    }
}
