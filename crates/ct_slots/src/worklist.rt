//! The slots that are still to be looked at.

ghost use Rattle.std.specs.Prelude.{◌≡◌, ◌≢◌, ◌+◌, ◌≤◌, ◌*◌, ◌⊎◌, ◌↔◌, IsTrue, replicate, false, OnOk, OnErr, IfOk, IfSome, IfNone, if◌then◌else◌, slice_index_or, ◌∷◌, ◌++◌, []};
ghost use Rattle.ct_words.specs.declared.entry.Entry.{Entry};
ghost use Rattle.ct_words.specs.Entry.{IsEntry};
ghost use Rattle.ct_rule_parts.specs.Slot.{Slot};
ghost use Rattle.ct_slots.specs.Number.{side_size, slot_number};
ghost use Rattle.ct_slots.specs.Worklist.{IsMarked, IsIdle, waiting};

use crate::number::{SLOTS, slot_number};
use ct_words::{Entry, Side};
use std::alloc::{AllocError, Global};
use std::collections::VecDeque;
use std::marker::Model;

/// The slots that are still to be looked at, sides of entries of the table. Contracts see which are marked, and the order in
/// which they will be taken: first in, first out.
#[derive(Drop)]
pub struct Worklist {
    marks: Vec<bool>,
    queue: VecDeque<(Side, Entry)>,
}

impl Model for Worklist {
    ghost use Rattle.ct_slots.specs.Worklist.{WorkValue, IsSoundWork};

    ghost Value = { WorkValue };

    ghost view = { λ w. record { marks = w.marks.items; queue = w.queue.items } };

    ghost invariant = { λ w. IsSoundWork (record { marks = w.marks.items; queue = w.queue.items }) };
}

impl Worklist {
    /// No slots. `Err` is want of memory.
    pub fn none(alloc: Global) -> Result<Worklist, AllocError>
        ensures idle { IfOk result (λ work. IsIdle work) }
        ensures queue { IfOk result (λ work. work.queue ≡ []) }
    {
        Ok(Worklist {
            marks: vec![in alloc; false; SLOTS]?,
            queue: VecDeque::new(alloc),
        })
    }

    /// Whether the side of the entry is marked.
    pub fn is_marked(&self, side: Side, entry: Entry) -> bool
        requires { IsEntry entry }
        ensures { IsTrue result ↔ IsMarked self.now (side, entry) }
    {
        self.marks[slot_number(side, entry)]
    }

    /// Marks a side of an entry, which is put at the end where it is not marked yet. After an `Err`, which is want of memory,
    /// all is as before.
    pub fn mark(&mut self, side: Side, entry: Entry) -> Result<(), AllocError>
        requires { IsEntry entry }
        ensures marked { OnOk result (IsMarked self.new (side, entry)) }
        ensures kept { (t : Slot) → IsMarked self.old t → IsMarked self.new t }
        ensures only { (t : Slot) → IsEntry t.1 → IsMarked self.new t → IsMarked self.old t ⊎ (t ≡ (side, entry)) }
        ensures unchanged { OnErr result (self.new ≡ self.old) }
        ensures last { OnOk result (self.new.queue
            ≡ (if slice_index_or self.old.marks (slot_number (side, entry)) false then self.old.queue else self.old.queue ++ (side, entry) ∷ [])) }
        ensures one_more { waiting self.new ≤ waiting self.old + 1 }
    {
        let number = slot_number(side, entry);
        if self.marks[number] {
            return Ok(());
        }
        self.queue.push_back((side, entry))?;
        self.marks[number] = true;
        Ok(())
    }

    /// Takes the slot that waits longest, which is then not marked. `None` comes exactly where none is left, and then none is
    /// marked.
    pub fn take(&mut self) -> Option<(Side, Entry)>
        ensures idle { IfNone result (IsIdle self.old) }
        ensures unchanged { IfNone result (self.new ≡ self.old) }
        ensures entry { IfSome result (λ s. IsEntry s.1) }
        ensures was_marked { IfSome result (λ s. IsMarked self.old s) }
        ensures taken { IfSome result (λ s. ¬ (IsMarked self.new s)) }
        ensures others { IfSome result (λ s. (t : Slot) → IsEntry t.1 → t ≢ s → IsMarked self.old t → IsMarked self.new t) }
        ensures only { (t : Slot) → IsMarked self.new t → IsMarked self.old t }
        ensures one_less { IfSome result (λ _. waiting self.new + 1 ≡ waiting self.old) }
        ensures first { IfSome result (λ s. self.old.queue ≡ s ∷ self.new.queue) }
    {
        let (side, entry) = self.queue.pop_front()?;
        self.marks[slot_number(side, entry)] = false;
        Some((side, entry))
    }

    /// No more slots wait than there are.
    pub fn waits_for_few(&self)
        ensures { waiting self.now ≤ 2 * side_size }
    {
        let _marks = &self.marks;
    }

    /// Takes all marks away. It takes no memory.
    pub fn clear(&mut self)
        ensures { IsIdle self.new }
    {
        while let Some(_) = self.take() {}
    }
}
