//! What a table keeps: the lines of a derivation, and for each slot its bound and the line that gives it.

ghost use Rattle.std.specs.Prelude.{◌≡◌, ◌+◌, ◌-◌, ◌<◌, ◌≤◌, ◌*◌, ◌%◌, ◌++◌, ◌↔◌, false, [], List, All, OnOk, OnErr, IfOk, length, map, replicate, take, drop, slice_get, Some};
ghost use Rattle.ct_words.specs.declared.claim.Side.TheVariants.{Lower};
ghost use Rattle.ct_words.specs.declared.limits.TheConstants.{MAX_N};
ghost use Rattle.ct_words.specs.Entry.{IsEntry, unrestricted, constant_weight};
ghost use Rattle.ct_rule_parts.specs.declared.support.Support.{Support};
ghost use Rattle.ct_rule_parts.specs.Slot.{slot_of};
ghost use Rattle.ct_slots.specs.Number.{bound_of, distances, entries_to, even_distances, side_number, side_size, slot_number};
ghost use Rattle.ct_kept.specs.Kept.{with_line_put, reason_of, set_back, IsKept};
ghost use Rattle.ct_rules.specs.Rule.{named_place};
ghost use Rattle.ct_rules.specs.Removal.{names_one, marked, lowered_line};
ghost use Rattle.ct_kept.specs.Inside.Ground.{AreLargest};
ghost use Rattle.ct_kept.specs.Inside.Started.{IsStarted};

use crate::ground::{ground_line, ground_line_with_weight};
use crate::lowering::{lower_lines, names_place};
use ct_rules::Line;
use ct_slots::{Bounds, SLOTS, slot_number};
use ct_sum_classes::{LargestClass, largest_sum_classes};
use ct_words::{Claim, Entry, MAX_N, Side};
use std::alloc::{AllocError, Global};
use std::marker::Model;
use std::mem;

/// What a table keeps: the lines of a derivation, and for each side of each entry, by its number, the bound and the place of
/// the line that gives it. The first lines are those of the base, which rest on no support whatever comes and goes. Contracts
/// see bounds, reasons and all lines in a row, and how many of these the base has.
pub struct Kept {
    bounds: Bounds,
    reasons: Vec<usize>,
    first: Vec<Line>,
    later: Vec<Line>,
}

impl Drop for Kept {
    fn drop(self) {
        let Kept {
            bounds: _,
            reasons: _,
            first: _,
            later: _,
        } = self;
    }
}

impl Model for Kept {
    ghost use Rattle.std.specs.Prelude.{◌≡◌, ◌*◌, ◌++◌, length};
    ghost use Rattle.ct_slots.specs.Number.{side_size};
    ghost use Rattle.ct_kept.specs.Kept.{KeptValue};

    ghost Value = { KeptValue };

    ghost view = { λ k. record { bounds = k.bounds; reasons = k.reasons.items; lines = k.first.items ++ k.later.items; base = length k.first.items } };

    ghost invariant = { λ k. length k.reasons.items ≡ 2 * side_size };
}

/// The bounds and reasons of a table at one time, and how many lines it had.
#[derive(Drop)]
pub struct Saved {
    bounds: Bounds,
    reasons: Vec<usize>,
    count: usize,
}

impl Model for Saved {
    ghost use Rattle.std.specs.Prelude.{◌≡◌, ◌*◌, length};
    ghost use Rattle.ct_slots.specs.Number.{side_size};
    ghost use Rattle.ct_kept.specs.Kept.{SavedValue};

    ghost Value = { SavedValue };

    ghost view = { λ s. record { bounds = s.bounds; reasons = s.reasons.items; count = s.count } };

    ghost invariant = { λ s. length s.reasons.items ≡ 2 * side_size };
}

/// The bounds and reasons of a base.
#[derive(Drop)]
pub struct Base {
    bounds: Bounds,
    reasons: Vec<usize>,
}

impl Model for Base {
    ghost use Rattle.std.specs.Prelude.{◌≡◌, ◌*◌, length};
    ghost use Rattle.ct_slots.specs.Number.{side_size};
    ghost use Rattle.ct_kept.specs.Kept.{BaseValue};

    ghost Value = { BaseValue };

    ghost view = { λ b. record { bounds = b.bounds; reasons = b.reasons.items } };

    ghost invariant = { λ b. length b.reasons.items ≡ 2 * side_size };
}

/// What was kept beside the lines of the base when it was set back: bounds, reasons and the lines that followed.
#[derive(Drop)]
pub struct Undo {
    bounds: Bounds,
    reasons: Vec<usize>,
    later: Vec<Line>,
}

impl Model for Undo {
    ghost use Rattle.std.specs.Prelude.{◌≡◌, ◌*◌, length};
    ghost use Rattle.ct_slots.specs.Number.{side_size};
    ghost use Rattle.ct_kept.specs.Kept.{UndoValue};

    ghost Value = { UndoValue };

    ghost view = { λ u. record { bounds = u.bounds; reasons = u.reasons.items; later = u.later.items } };

    ghost invariant = { λ u. length u.reasons.items ≡ 2 * side_size };
}

impl Undo {
    /// The lines that followed those of the base.
    pub fn later(&self) -> &[Line]
        ensures { result.now ≡ self.now.later }
    {
        &self.later
    }
}

impl Kept {
    /// The bound that stands on a side of an entry of the table.
    pub fn bound(&self, side: Side, entry: Entry) -> u32
        requires { IsEntry entry }
        ensures { result ≡ bound_of self.now.bounds (side, entry) }
    {
        self.bounds.bound(side, entry)
    }

    /// The bounds that stand.
    pub fn bounds(&self) -> &Bounds
        ensures { result.now ≡ self.now.bounds }
    {
        &self.bounds
    }

    /// The place of the line that gives the bound of a side of an entry of the table.
    pub fn reason(&self, side: Side, entry: Entry) -> usize
        requires { IsEntry entry }
        ensures { result ≡ reason_of self.now (side, entry) }
    {
        self.reasons[slot_number(side, entry)]
    }

    /// How many lines there are.
    pub fn line_count(&self) -> usize
        ensures { result ≡ length self.now.lines }
    {
        self.first.len() + self.later.len()
    }

    /// The line at a place.
    pub fn line(&self, number: usize) -> &Line
        requires { number < length self.now.lines }
        ensures { slice_get self.now.lines number ≡ Some result.now }
    {
        if number < self.first.len() {
            &self.first[number]
        } else {
            &self.later[number - self.first.len()]
        }
    }

    /// Puts a line at the end, whose slot has the number; its claim is now the bound of its slot. After an `Err`, which is want of
    /// memory, all is as before.
    #[inline(always)]
    fn put_at(&mut self, number: usize, line: Line) -> Result<(), AllocError>
        requires number { number ≡ slot_number (slot_of line.claim) }
        requires bound { number < 2 * side_size }
        ensures put { OnOk result (self.new ≡ with_line_put self.old line) }
        ensures unchanged { OnErr result (self.new ≡ self.old) }
    {
        let value = line.claim.value;
        let place = self.first.len() + self.later.len();
        self.later.push(line)?;
        self.bounds.set_at(number, value);
        self.reasons[number] = place;
        Ok(())
    }

    /// Puts a line at the end; its claim is now the bound of its slot. After an `Err`, which is want of memory, all is as
    /// before.
    #[inline(always)]
    pub fn put(&mut self, line: Line) -> Result<(), AllocError>
        requires { IsEntry line.claim.entry }
        ensures put { OnOk result (self.new ≡ with_line_put self.old line) }
        ensures unchanged { OnErr result (self.new ≡ self.old) }
    {
        let number = slot_number(line.claim.side, line.claim.entry);
        self.put_at(number, line)
    }

    /// No lines, and 0 for each bound and reason. `Err` is want of memory.
    pub fn empty(alloc: Global) -> Result<Kept, AllocError>
        ensures bounds { IfOk result (λ kept. length kept.bounds ≡ 2 * side_size) }
        ensures reasons { IfOk result (λ kept. length kept.reasons ≡ 2 * side_size) }
        ensures lines { IfOk result (λ kept. kept.lines ≡ []) }
        ensures base { IfOk result (λ kept. kept.base ≡ 0) }
    {
        Ok(Kept {
            bounds: Bounds::zero(alloc)?,
            reasons: vec![in alloc; 0; SLOTS]?,
            first: Vec::new(alloc),
            later: Vec::new(alloc),
        })
    }

    /// What is needed to take back what comes after. `Err` is want of memory.
    pub fn save(&self, alloc: Global) -> Result<Saved, AllocError>
        ensures { IfOk result (λ saved. saved ≡ record { bounds = self.now.bounds; reasons = self.now.reasons; count = length self.now.lines }) }
    {
        Ok(Saved {
            bounds: self.bounds.try_copy(alloc)?,
            reasons: Vec::from_slice(alloc, &self.reasons)?,
            count: self.line_count(),
        })
    }

    /// Takes back all that came after: the bounds and reasons are those that were saved, and the lines are as many as then.
    pub fn restore(&mut self, saved: Saved)
        requires lines { saved.count ≤ length self.now.lines }
        requires base { self.now.base ≤ saved.count }
        ensures { self.new ≡ record { bounds = saved.bounds; reasons = saved.reasons; lines = take saved.count self.old.lines; base = self.old.base } }
    {
        self.bounds = saved.bounds;
        self.reasons = saved.reasons;
        self.later.truncate(saved.count - self.first.len());
    }

    /// Makes all lines those of the base, where it has none yet, and gives its bounds and reasons. After an `Err`, which is
    /// want of memory, all is as before.
    pub fn begin(&mut self, alloc: Global) -> Result<Base, AllocError>
        requires { self.now.base ≡ 0 }
        ensures base { IfOk result (λ base. base ≡ record { bounds = self.old.bounds; reasons = self.old.reasons }) }
        ensures begun { OnOk result (self.new ≡ record { bounds = self.old.bounds; reasons = self.old.reasons; lines = self.old.lines; base = length self.old.lines }) }
        ensures unchanged { OnErr result (self.new ≡ self.old) }
    {
        let base = Base {
            bounds: self.bounds.try_copy(alloc)?,
            reasons: Vec::from_slice(alloc, &self.reasons)?,
        };
        mem::swap(&mut self.first, &mut self.later);
        Ok(base)
    }

    /// Sets back to the base: its bounds and reasons, and its lines alone. Gives what is needed to put back what was there.
    /// After an `Err`, which is want of memory, all is as before.
    pub fn set_back(&mut self, base: &Base, alloc: Global) -> Result<Undo, AllocError>
        ensures back { OnOk result (self.new ≡ set_back base.now self.old) }
        ensures undo { IfOk result (λ undo. undo ≡ record { bounds = self.old.bounds; reasons = self.old.reasons; later = drop self.old.base self.old.lines }) }
        ensures unchanged { OnErr result (self.new ≡ self.old) }
    {
        let bounds = base.bounds.try_copy(alloc)?;
        let reasons = Vec::from_slice(alloc, &base.reasons)?;
        Ok(Undo {
            bounds: mem::replace(&mut self.bounds, bounds),
            reasons: mem::replace(&mut self.reasons, reasons),
            later: mem::replace(&mut self.later, Vec::new(alloc)),
        })
    }

    /// Puts back what was there beside the lines of the base. It takes no memory.
    pub fn put_back(&mut self, undo: Undo)
        ensures { self.new ≡ record { bounds = undo.bounds; reasons = undo.reasons; lines = take self.old.base self.old.lines ++ undo.later; base = self.old.base } }
    {
        self.bounds = undo.bounds;
        self.reasons = undo.reasons;
        self.later = undo.later;
    }

    /// Whether the rule of a line after those of the base names a support at a marked place.
    pub fn names(&self, gone: &[bool]) -> bool
        ensures { (result ≡ false) ↔ All (λ l. names_one (marked gone.now) (named_place l.rule) ≡ false) (drop self.now.base self.now.lines) }
    {
        names_place(&self.later, gone)
    }

    /// Lowers the rule of each line after those of the base, as it is over the supports that are left once those at the marked
    /// places are taken out. It takes no memory.
    pub fn lower(&mut self, gone: &[bool])
        ensures { self.new ≡ record { bounds = self.old.bounds; reasons = self.old.reasons; lines = take self.old.base self.old.lines ++ map (lowered_line (marked gone.now)) (drop self.old.base self.old.lines); base = self.old.base } }
    {
        lower_lines(&mut self.later, gone);
    }

    /// Puts the ground lines of the side of the entries of the length n without weight, whose slots have the numbers from the first on.
    /// `Err` is want of memory.
    fn put_distances(
        &mut self,
        alloc: Global,
        side: Side,
        n: u32,
        first: usize,
    ) -> Result<(), AllocError>
        requires from { 1 ≤ n }
        requires to { n ≤ MAX_N }
        requires first { first ≡ slot_number (side, unrestricted n 3) }
        requires bound { first < 2 * side_size }
        requires before { IsStarted first self.now }
        ensures { OnOk result (IsStarted (first + distances) self.new) }
    {
        for d in 3..MAX_N + 1 {
            let number = first + (d as usize - 3);
            self.put_at(number, ground_line(alloc, side, n, d))?;
        }
        Ok(())
    }

    /// Puts the ground lines of the side of the entries of the length n and the distance d with weight, whose slots have the numbers from
    /// the first on. Bounds from below take the largest sum classes of the length. `Err` is want of memory.
    fn put_weights(
        &mut self,
        alloc: Global,
        side: Side,
        n: u32,
        d: u32,
        first: usize,
        classes: &[LargestClass],
    ) -> Result<(), AllocError>
        requires from { 1 ≤ n }
        requires to { n ≤ MAX_N }
        requires far { 4 ≤ d }
        requires near { d ≤ MAX_N }
        requires even { d % 2 ≡ 0 }
        requires first { first ≡ slot_number (side, constant_weight n d 0) }
        requires bound { first < 2 * side_size }
        requires classes { side ≡ Lower → AreLargest n classes.now }
        requires before { IsStarted first self.now }
        ensures { OnOk result (IsStarted (first + (n + 1)) self.new) }
    {
        for w in 0..n + 1 {
            let number = first + w as usize;
            self.put_at(
                number,
                ground_line_with_weight(alloc, side, n, d, w, classes),
            )?;
        }
        Ok(())
    }

    /// The same for all distances.
    fn put_with_weight(
        &mut self,
        alloc: Global,
        side: Side,
        n: u32,
        first: usize,
        classes: &[LargestClass],
    ) -> Result<(), AllocError>
        requires from { 1 ≤ n }
        requires to { n ≤ MAX_N }
        requires first { first ≡ slot_number (side, constant_weight n 4 0) }
        requires bound { first < 2 * side_size }
        requires classes { side ≡ Lower → AreLargest n classes.now }
        requires before { IsStarted first self.now }
        ensures { OnOk result (IsStarted (first + even_distances * (n + 1)) self.new) }
    {
        let row = n as usize + 1;
        for k in 0..MAX_N / 2 - 1 {
            let number = first + k as usize * row;
            self.put_weights(alloc, side, n, 4 + 2 * k, number, classes)?;
        }
        Ok(())
    }

    /// Puts the ground lines of the side of all entries of the length n. `Err` is want of memory.
    fn start_length(&mut self, alloc: Global, side: Side, n: u32) -> Result<(), AllocError>
        requires from { 1 ≤ n }
        requires to { n ≤ MAX_N }
        requires before { IsStarted (side_number side * side_size + entries_to (n - 1)) self.now }
        ensures { OnOk result (IsStarted (side_number side * side_size + entries_to n) self.new) }
    {
        let plain = slot_number(side, Entry { n, d: 3, w: None });
        self.put_distances(alloc, side, n, plain)?;
        let weighted = slot_number(
            side,
            Entry {
                n,
                d: 4,
                w: Some(0),
            },
        );
        match side {
            Side::Lower => self.put_with_weight(alloc, side, n, weighted, &largest_sum_classes(n)),
            Side::Upper => self.put_with_weight(alloc, side, n, weighted, &[]),
        }
    }

    /// Puts the ground lines of the side of all entries of the table. `Err` is want of memory.
    fn start_side(&mut self, alloc: Global, side: Side) -> Result<(), AllocError>
        requires { IsStarted (side_number side * side_size) self.now }
        ensures { OnOk result (IsStarted (side_number side * side_size + side_size) self.new) }
    {
        for n in 1..MAX_N + 1 {
            self.start_length(alloc, side, n)?;
        }
        Ok(())
    }

    /// For each side of each entry of the table the best bound that a rule gives that rests on nothing. `Err` is want of memory.
    pub fn start(alloc: Global) -> Result<Kept, AllocError>
        ensures kept { IfOk result (λ kept. (supports : List Support) → IsKept supports kept) }
        ensures base { IfOk result (λ kept. kept.base ≡ 0) }
    {
        let mut kept = Kept::empty(alloc)?;
        kept.start_side(alloc, Side::Lower)?;
        kept.start_side(alloc, Side::Upper)?;
        Ok(kept)
    }
}
