//! The supports at an entry, found by the entry.

ghost use Rattle.std.specs.Prelude.{◌≡◌, ◌<◌, ◌≤◌, ◌^◌, ◌++◌, ◌∷◌, [], ℕ, OnOk, OnErr, IfOk, IfSome, length, map, take, slice_index_or, replicate, None};
ghost use Rattle.ct_slots.specs.Number.{side_size};
ghost use Rattle.ct_words.specs.declared.entry.Entry.{Entry};
ghost use Rattle.ct_words.specs.Entry.{IsEntry};
ghost use Rattle.ct_slots.specs.Places.{entry_of_support, side_of_support, IsPlaceOf, IsUpTo, AreChained, last_at, with_last};

use crate::number::{ENTRIES, entry_number};
use ct_rule_parts::Support;
use ct_words::{Entry, Side};
use std::alloc::{AllocError, Global};
use std::marker::Model;

/// For each place of a list of supports the entry of the table that it stands for: the one to which the support gave something
/// when it was put there. The places of one entry are found from the last to the first, without a look at the others. Contracts
/// see the entries.
#[derive(Drop)]
pub struct SupportPlaces {
    entries: Vec<Option<Entry>>,
    before: Vec<Option<u32>>,
    last: Vec<Option<u32>>,
}

impl Model for SupportPlaces {
    ghost use Rattle.std.specs.Prelude.{List, Option};
    ghost use Rattle.ct_words.specs.declared.entry.Entry.{Entry};
    ghost use Rattle.ct_slots.specs.Places.{AreChained};

    ghost Value = { List (Option Entry) };

    ghost view = { λ p. p.entries.items };

    ghost invariant = { λ p. AreChained p.entries.items p.before.items p.last.items };
}

/// The entry of the table to which the support gives something, where there is one.
pub fn entry_of_support(support: &Support) -> Option<Entry>
    ensures entry { result ≡ entry_of_support support.now }
    ensures in_table { IfSome result (λ e. IsEntry e) }
{
    match support {
        Support::Nothing => None,
        Support::Size { entry, .. } if entry.in_table() => Some(*entry),
        Support::Size { .. } => None,
        Support::Bound(dual) | Support::Odd { dual, .. } => Some(dual.entry()),
        Support::Local(dual) => Some(dual.dual().entry()),
    }
}

/// The side on which the support gives something, where it gives anything.
pub fn side_of_support(support: &Support) -> Side
    ensures { result ≡ side_of_support support.now }
{
    match support {
        Support::Nothing | Support::Size { .. } => Side::Lower,
        Support::Bound(_) | Support::Odd { .. } | Support::Local(_) => Side::Upper,
    }
}

/// No last place for so many entries. `Err` is want of memory.
fn no_places(alloc: Global, count: usize) -> Result<Vec<Option<u32>>, AllocError>
    ensures { IfOk result (λ last. last.items ≡ replicate count None) }
{
    vec![in alloc; None; count]
}

/// Puts a place, which is above all others of its entry, at the end of the chain of the entry, and gives the one before it.
fn chain(last: &mut [Option<u32>], entry: Option<Entry>, place: u32) -> Option<u32>
    requires count { length last.old ≡ side_size }
    requires entry { IfSome entry (λ e. IsEntry e) }
    ensures before { result ≡ last_at last.old entry }
    ensures last { last.new ≡ with_last last.old entry place }
{
    let Some(entry) = entry else {
        return None;
    };
    let number = entry_number(entry);
    let before = last[number];
    last[number] = Some(place);
    before
}

/// Makes room for one more than so many places, where there is none. After an `Err`, which is want of memory, all is as before.
fn make_room(before: &mut Vec<Option<u32>>, count: usize) -> Result<(), AllocError>
    requires { count ≤ length before.old.items }
    ensures room { OnOk result (count < length before.new.items) }
    ensures no_less { length before.old.items ≤ length before.new.items }
    ensures kept { (k : ℕ) → slice_index_or before.new.items k None ≡ slice_index_or before.old.items k None }
{
    if before.len() == count {
        before.push(None)?;
    }
    Ok(())
}

/// Takes all last places away.
fn forget(last: &mut [Option<u32>])
    ensures { last.new ≡ replicate (length last.old) None }
{
    last.fill(None);
}

/// The places of other supports, no more than before: they come first.
fn place_all(
    entries: &mut [Option<Entry>],
    before: &mut [Option<u32>],
    last: &mut [Option<u32>],
    supports: &[Support],
)
    requires entries { length supports.now ≤ length entries.old }
    requires before { length entries.old ≤ length before.old }
    requires few { length entries.old ≤ 2 ^ 32 }
    requires last { last.old ≡ replicate side_size None }
    ensures entries { take (length supports.now) entries.new ≡ map entry_of_support supports.now }
    ensures chained { AreChained (map entry_of_support supports.now) before.new last.new }
{
    for place in 0..supports.len() {
        let entry = entry_of_support(&supports[place]);
        before[place] = chain(last, entry, place as u32);
        entries[place] = entry;
    }
}

impl SupportPlaces {
    /// No supports. `Err` is want of memory.
    pub fn none(alloc: Global) -> Result<SupportPlaces, AllocError>
        ensures { IfOk result (λ places. places ≡ []) }
    {
        Ok(SupportPlaces {
            entries: Vec::new(alloc),
            before: Vec::new(alloc),
            last: no_places(alloc, ENTRIES)?,
        })
    }

    /// One more support, at the end. After an `Err`, which is want of memory, all is as before.
    pub fn add(&mut self, support: &Support) -> Result<(), AllocError>
        requires { length self.now < 2 ^ 32 }
        ensures added { OnOk result (self.new ≡ self.old ++ entry_of_support support.now ∷ []) }
        ensures unchanged { OnErr result (self.new ≡ self.old) }
    {
        let place = self.entries.len();
        make_room(&mut self.before, place)?;
        let entry = entry_of_support(support);
        self.entries.push(entry)?;
        self.before[place] = chain(&mut self.last, entry, place as u32);
        Ok(())
    }

    /// Other supports, no more than before. It takes no memory.
    pub fn rebuild(&mut self, supports: &[Support])
        requires { length supports.now ≤ length self.now }
        ensures { self.new ≡ map entry_of_support supports.now }
    {
        forget(&mut self.last);
        place_all(
            &mut self.entries,
            &mut self.before,
            &mut self.last,
            supports,
        );
        self.entries.truncate(supports.len());
    }

    /// The last place that stands for the entry, which has to be in the table.
    pub fn last(&self, entry: Entry) -> Option<u32>
        requires { IsEntry entry }
        ensures place { IfSome result (λ place. IsPlaceOf self.now entry place) }
        ensures last { (place : ℕ) → IsPlaceOf self.now entry place → IsUpTo result place }
    {
        self.last[entry_number(entry)]
    }

    /// The last place below this one that stands for the same entry.
    pub fn before(&self, place: u32) -> Option<u32>
        requires { place < length self.now }
        ensures place { (e : Entry) → IsPlaceOf self.now e place → IfSome result (λ other. (other < place) × IsPlaceOf self.now e other) }
        ensures last { (e : Entry) (other : ℕ) → IsPlaceOf self.now e place → IsPlaceOf self.now e other → other < place → IsUpTo result other }
    {
        self.before[place as usize]
    }
}
