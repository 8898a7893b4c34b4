//! Accepted duals that are kept.
ghost use Rattle.std.specs.Prelude.{◌≡◌, ℕ, ◌≤◌, ◌↔◌, IsTrue, Contains, All, Some, length, slice_get};
ghost use Rattle.ct_words.specs.declared.limits.TheConstants.{MAX_BOUND, MAX_N};
ghost use Rattle.ct_words.specs.Code.{IsTrueUpper};
ghost use Rattle.ct_words.specs.Entry.{IsEntry};
ghost use Rattle.ct_words.specs.Numbers.{numbers_of, combination};
ghost use Rattle.ct_duals.specs.Bound.{IsAccepted, AreTrueUppers, IsSpread, dual_bound, dual_spread, dual_premises, positive};
ghost use Rattle.ct_duals.specs.Local.{AreTrueLocals, local_bound};
ghost use Rattle.ct_duals.specs.Inside.Proven.{IsProven};

use crate::accepted::Accepted;
use crate::dual::Dual;
use crate::premise::{is_premise, positive_index, premise_at};
use ct_words::Entry;
use std::marker::Model;

/// A dual that was accepted, with its f(0), of its own: it meets its inequalities, so no code of its entry is larger than its
/// bound. `Accepted::try_keep` alone makes one. Contracts see the dual and its f(0).
pub struct AcceptedDual {
    dual: Dual,
    at_zero: i128,
}

impl Drop for AcceptedDual {
    fn drop(self) {
        let AcceptedDual {
            dual: _,
            at_zero: _,
        } = self;
    }
}

impl Model for AcceptedDual {
    ghost use Rattle.ct_duals.specs.Bound.{AcceptedValue};
    ghost use Rattle.ct_duals.specs.Inside.Proven.{IsProven};

    ghost Value = { AcceptedValue };

    ghost view = { λ a. record { dual = a.dual; at_zero = a.at_zero } };

    ghost invariant = { λ a. IsProven (record { dual = a.dual; at_zero = a.at_zero }) };
}

impl AcceptedDual {
    /// A dual that was accepted, with its f(0). Nothing is tested, and no memory taken.
    pub(crate) fn new(dual: Dual, at_zero: i128) -> AcceptedDual
        requires { IsProven (record { dual = dual; at_zero = at_zero }) }
        ensures { result ≡ record { dual = dual; at_zero = at_zero } }
    {
        AcceptedDual { dual, at_zero }
    }

    /// The dual.
    pub fn dual(&self) -> &Dual
        ensures value { result.now ≡ self.now.dual }
        ensures accepted { IsAccepted self.now }
    {
        &self.dual
    }

    /// Its f(0).
    pub fn at_zero(&self) -> i128
        ensures value { result ≡ self.now.at_zero }
    {
        self.at_zero
    }

    /// The entry whose codes it bounds.
    pub fn entry(&self) -> Entry
        ensures value { result ≡ self.now.dual.entry }
        ensures in_table { IsEntry result }
        ensures few { length (dual_premises self.now.dual) ≤ MAX_N }
    {
        self.dual.entry
    }

    /// How many upper bounds its own rests on, `MAX_N` at most: one for each index where more than 0 is allowed. They are of
    /// entries of the table.
    pub fn premise_count(&self) -> usize
        ensures count { result ≡ length (dual_premises self.now.dual) }
        ensures few { result ≤ MAX_N }
        ensures entries { All IsEntry (dual_premises self.now.dual) }
    {
        self.dual.premise_count()
    }

    /// The entry at a place, from 0, among those whose upper bounds its own rests on: A(n,2⌈d/2⌉,t) for the distance t of each index
    /// where more than 0 is allowed, ascending. `None` past their end.
    pub fn premise(&self, place: usize) -> Option<Entry>
        ensures { result ≡ slice_get (dual_premises self.now.dual) place }
    {
        let i = positive_index(self.dual.y.as_slice(), place)?;
        Some(premise_at(self.dual.entry, i))
    }

    /// Whether its bound rests on the upper bound of the entry.
    pub fn rests_on(&self, entry: Entry) -> bool
        ensures { IsTrue result ↔ Contains (dual_premises self.now.dual) entry }
    {
        is_premise(self.dual.entry, self.dual.y.as_slice(), entry)
    }

    /// f(0) + S + T from one upper bound for each of the entries that it rests on, in their order, as `Accepted::spread` says. It takes
    /// no memory.
    pub fn spread(&self, uppers: &[u32]) -> i128
        ensures value { result ≡ dual_spread self.now.dual self.now.at_zero uppers.now }
        ensures pairs { AreTrueUppers (dual_premises self.now.dual) uppers.now →
            IsSpread self.now.dual.entry (combination (numbers_of self.now.dual.entry) self.now.dual.c) result }
    {
        Accepted::new(&self.dual, self.at_zero).spread(uppers)
    }

    /// Its bound from one upper bound for each of the entries that it rests on, in their order, as `Accepted::bound` says. It
    /// takes no memory.
    pub fn bound(&self, uppers: &[u32]) -> u32
        ensures value { result ≡ dual_bound self.now.dual self.now.at_zero uppers.now }
        ensures some { 1 ≤ result }
        ensures limit { result ≤ MAX_BOUND }
        ensures sound { AreTrueUppers (dual_premises self.now.dual) uppers.now → IsTrueUpper self.now.dual.entry result }
    {
        Accepted::new(&self.dual, self.at_zero).bound(uppers)
    }

    /// Its bound, where its entry has a weight w, from one number for each index i where it allows more than 0, ascending, that bounds
    /// the doubly constant codes of (w,i,n−w,i,d), as `Accepted::local_bound` says. It takes no memory.
    pub fn local_bound(&self, uppers: &[u32]) -> u32
        ensures value { result ≡ local_bound self.now.dual self.now.at_zero uppers.now }
        ensures some { 1 ≤ result }
        ensures limit { result ≤ MAX_BOUND }
        ensures sound { (w : ℕ) → self.now.dual.entry.w ≡ Some w → AreTrueLocals self.now.dual.entry w (positive self.now.dual.y) uppers.now →
            IsTrueUpper self.now.dual.entry result }
    {
        Accepted::new(&self.dual, self.at_zero).local_bound(uppers)
    }
}
