//! The table of bounds.

ghost use Rattle.std.specs.Prelude.{◌≡◌, ◌+◌, ◌<◌, ◌^◌, ◌∷◌, ◌++◌, [], ℕ, List, Some, IfOk, OnOk, OnErr, length, remove, slice_get, option_map};
ghost use Rattle.ct_words.specs.Claim.{IsTrueClaim};
ghost use Rattle.ct_words.specs.Entry.{IsEntry};
ghost use Rattle.ct_words.specs.declared.claim.Side.{Side};
ghost use Rattle.ct_rule_parts.specs.Slot.{claim_at};
ghost use Rattle.ct_rule_parts.specs.Support.{Stands, AllStand};
ghost use Rattle.ct_rules.specs.Derivation.{IsDerivation, IsBest};
ghost use Rattle.ct_rules.specs.Removal.{only, marked, without};
ghost use Rattle.ct_table.specs.Removal.{KeepsReasons};
ghost use Rattle.ct_table.specs.Table.{Grew, IsShownTable, bound_at, reason_at};

use crate::closing::Closing;
use crate::exchanging::{exchange, leave_out, nothings, only};
use crate::follow::follow;
use crate::left::take_out;
use crate::start::{begin, close_over};
use ct_kept::Base;
use ct_rules::{Line, Support};
use ct_slots::SupportPlaces;
use ct_words::{Entry, Side};
use std::alloc::{AllocError, Global};
use std::marker::Model;

/// For each entry of the table the best bounds that derivations from its supports give, and a derivation of each. Contracts see
/// the supports, the lines, and for each side of each entry its bound and the number of the line that is its reason.
pub struct Table {
    supports: Vec<Support>,
    places: SupportPlaces,
    base: Base,
    closing: Closing,
}

impl Drop for Table {
    fn drop(self) {
        let Table {
            supports: _,
            places: _,
            base: _,
            closing: _,
        } = self;
    }
}

impl Model for Table {
    ghost use Rattle.ct_slots.specs.Places.{AreSupportPlaces};
    ghost use Rattle.ct_table.specs.Table.{TableValue, IsTable, table_of};

    ghost Value = { TableValue };

    ghost view = { λ t. table_of t.supports.items t.closing.kept };

    ghost invariant = { λ t. IsTable t.supports.items t.closing.kept t.base t.closing.work × AreSupportPlaces t.supports.items t.places };
}

impl Table {
    /// The table of no supports. `Err` is want of memory.
    pub fn new(alloc: Global) -> Result<Table, AllocError>
        ensures { IfOk result (λ table. table.supports ≡ []) }
    {
        Table::rebuild(alloc, Vec::new(alloc))
    }

    /// The table of the supports, which have to stand and be fewer than 2^32. `Err` is want of memory.
    pub fn rebuild(alloc: Global, supports: Vec<Support>) -> Result<Table, AllocError>
        requires stand { AllStand supports.items }
        requires few { length supports.items < 2 ^ 32 }
        ensures supports { IfOk result (λ table. table.supports ≡ supports.items) }
    {
        let mut places = SupportPlaces::none(alloc)?;
        let mut closing = begin(alloc, &places)?;
        let base = closing.kept.begin(alloc)?;
        close_over(alloc, &supports, &mut places, &mut closing)?;
        Ok(Table {
            supports,
            places,
            base,
            closing,
        })
    }

    /// Puts a support at the end. The lines stay, each new one has a better bound than its side and entry had, and where a bound
    /// stays its reason does. After an `Err`, which is want of memory, the table is as before.
    pub fn add(&mut self, support: Support) -> Result<(), AllocError>
        requires stands { Stands support }
        requires few { length self.now.supports + 1 < 2 ^ 32 }
        ensures supports { OnOk result (self.new.supports ≡ self.old.supports ++ support ∷ []) }
        ensures grew { OnOk result (Grew self.old self.new) }
        ensures unchanged { OnErr result (self.new ≡ self.old) }
    {
        let alloc = *self.supports.allocator();
        let place = self.supports.len();
        self.supports.reserve(1)?;
        self.places.add(&support)?;
        self.supports.push_reserved(support);
        let done = follow(
            alloc,
            &self.supports,
            &self.places,
            &mut self.closing,
            place as u32,
        );
        if let Err(error) = done {
            self.supports.truncate(place);
            self.places.rebuild(&self.supports);
            return Err(error);
        }
        Ok(())
    }

    /// Takes out the support at the place; the later ones move down by one. Where a reason did not rest on it, neither by its rule
    /// nor through its lines, its claim and its rule stay, the rule's place lowered where it is above. After an `Err`, which is
    /// want of memory, the table is as before.
    pub fn remove(&mut self, place: usize) -> Result<(), AllocError>
        requires { place < length self.now.supports }
        ensures supports { OnOk result (self.new.supports ≡ remove self.old.supports place) }
        ensures reasons { OnOk result (KeepsReasons (only place) self.old self.new) }
        ensures unchanged { OnErr result (self.new ≡ self.old) }
    {
        let alloc = *self.supports.allocator();
        let gone = only(alloc, self.supports.len(), place)?;
        self.remove_all(&gone)
    }

    /// Takes out the supports at the marked places; the others move down and keep their order. Where a reason rested on none of
    /// them, neither by its rule nor through its lines, its claim and its rule stay, the rule's place lowered by how many of them
    /// were below it. After an `Err`, which is want of memory, the table is as before.
    pub fn remove_all(&mut self, gone: &[bool]) -> Result<(), AllocError>
        ensures supports { OnOk result (self.new.supports ≡ without (marked gone.now) self.old.supports) }
        ensures reasons { OnOk result (KeepsReasons (marked gone.now) self.old self.new) }
        ensures unchanged { OnErr result (self.new ≡ self.old) }
    {
        let alloc = *self.supports.allocator();
        let mut taken = nothings(alloc, self.supports.len())?;
        exchange(&mut self.supports, &mut taken, gone);
        let done = take_out(
            alloc,
            &self.supports,
            &self.places,
            &self.base,
            &mut self.closing,
            gone,
        );
        if let Err(error) = done {
            exchange(&mut taken, &mut self.supports, gone);
            return Err(error);
        }
        drop(taken);
        self.closing.kept.lower(gone);
        leave_out(&mut self.supports, gone);
        self.places.rebuild(&self.supports);
        Ok(())
    }

    /// The supports, in the order in which they were added.
    pub fn supports(&self) -> &[Support]
        ensures supports { result.now ≡ self.now.supports }
        ensures table { IsShownTable self.now }
    {
        &self.supports
    }

    /// The best lower bound of an entry of the table.
    pub fn lower(&self, entry: Entry) -> u32
        requires { IsEntry entry }
        ensures bound { result ≡ bound_at self.now (Side.Lower, entry) }
        ensures best { IsBest self.now.supports (Side.Lower, entry) result }
        ensures holds { IsTrueClaim (claim_at (Side.Lower, entry) result) }
    {
        self.closing.kept.bound(Side::Lower, entry)
    }

    /// The best upper bound of an entry of the table.
    pub fn upper(&self, entry: Entry) -> u32
        requires { IsEntry entry }
        ensures bound { result ≡ bound_at self.now (Side.Upper, entry) }
        ensures best { IsBest self.now.supports (Side.Upper, entry) result }
        ensures holds { IsTrueClaim (claim_at (Side.Upper, entry) result) }
    {
        self.closing.kept.bound(Side::Upper, entry)
    }

    /// The number of the line that gives the best bound of a side of an entry of the table.
    pub fn reason(&self, side: Side, entry: Entry) -> usize
        requires { IsEntry entry }
        ensures reason { result ≡ reason_at self.now (side, entry) }
        ensures number { result < length self.now.lines }
        ensures claim { (v : ℕ) × IsBest self.now.supports (side, entry) v
            × (option_map (λ l. l.claim) (slice_get self.now.lines result) ≡ Some (claim_at (side, entry) v)) }
    {
        self.closing.kept.reason(side, entry)
    }

    /// The line of a number below `line_count`.
    pub fn line(&self, number: usize) -> &Line
        requires { number < length self.now.lines }
        ensures line { slice_get self.now.lines number ≡ Some result.now }
        ensures derivation { IsDerivation self.now.supports self.now.lines }
    {
        self.closing.kept.line(number)
    }

    /// How many lines the table keeps.
    pub fn line_count(&self) -> usize
        ensures { result ≡ length self.now.lines }
    {
        self.closing.kept.line_count()
    }

    /// How often this table has tried a rule at an entry, from 0 on, while it was made and since; it stays at its last value.
    pub fn evaluations(&self) -> u64 {
        self.closing.evaluations
    }
}
