//! The bounds of a table, by the numbers of the slots.

ghost use Rattle.std.specs.Prelude.{◌≡◌, ◌==◌, ◌*◌, ◌<◌, IfOk, MatchBool, replicate, slice_set};
ghost use Rattle.ct_words.specs.declared.claim.Side.TheVariants.{Lower, Upper};
ghost use Rattle.ct_words.specs.Entry.{IsEntry};
ghost use Rattle.ct_rule_parts.specs.Slot.{IsBetter, IsNoBetter};
ghost use Rattle.ct_slots.specs.Number.{bound_of, side_size, slot_number};

use crate::number::{SLOTS, slot_number};
use ct_words::{Entry, Side};
use std::alloc::{AllocError, Global};
use std::marker::Model;

/// For each side of each entry of the table, by its number, a bound. Contracts see the bounds in a row.
#[derive(Drop)]
pub struct Bounds {
    bounds: Vec<u32>,
}

impl Model for Bounds {
    ghost use Rattle.std.specs.Prelude.{◌≡◌, ◌*◌, List, ℕ, length};
    ghost use Rattle.ct_slots.specs.Number.{side_size};

    ghost Value = { List ℕ };

    ghost view = { λ b. b.bounds.items };

    ghost invariant = { λ b. length b.bounds.items ≡ 2 * side_size };
}

/// Whether the first bound is better than the second: from below greater, from above smaller.
pub fn is_better(side: Side, bound: u32, other: u32) -> bool
    ensures { MatchBool result (IsBetter side bound other) (IsNoBetter side bound other) }
{
    match side {
        Side::Lower => bound > other,
        Side::Upper => bound < other,
    }
}

impl Bounds {
    /// All bounds are 0. `Err` is want of memory.
    pub fn zero(alloc: Global) -> Result<Bounds, AllocError>
        ensures { IfOk result (λ bounds. bounds ≡ replicate (2 * side_size) 0) }
    {
        Ok(Bounds {
            bounds: vec![in alloc; 0; SLOTS]?,
        })
    }

    /// The same bounds again. `Err` is want of memory.
    pub fn try_copy(&self, alloc: Global) -> Result<Bounds, AllocError>
        ensures { IfOk result (λ bounds. bounds ≡ self.now) }
    {
        Ok(Bounds {
            bounds: Vec::from_slice(alloc, &self.bounds)?,
        })
    }

    /// The bound of a side of an entry of the table.
    #[inline(always)]
    pub fn bound(&self, side: Side, entry: Entry) -> u32
        requires { IsEntry entry }
        ensures { result ≡ bound_of self.now (side, entry) }
    {
        self.bounds[slot_number(side, entry)]
    }

    /// Whether both bounds of an entry of the table are one.
    pub fn is_settled(&self, entry: Entry) -> bool
        requires { IsEntry entry }
        ensures { result ≡ (bound_of self.now (Lower, entry) == bound_of self.now (Upper, entry)) }
    {
        self.bound(Side::Lower, entry) == self.bound(Side::Upper, entry)
    }

    /// Another bound of a side of an entry of the table.
    pub fn set(&mut self, side: Side, entry: Entry, value: u32)
        requires { IsEntry entry }
        ensures { self.new ≡ slice_set self.old (slot_number (side, entry)) value }
    {
        self.set_at(slot_number(side, entry), value);
    }

    /// Another bound of the slot that has the number.
    pub fn set_at(&mut self, number: usize, value: u32)
        requires { number < 2 * side_size }
        ensures { self.new ≡ slice_set self.old number value }
    {
        self.bounds[number] = value;
    }
}
