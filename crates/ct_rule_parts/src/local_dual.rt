//! Accepted duals of entries with weight, beside bounds of the doubly constant codes about a word.

ghost use Rattle.std.specs.Prelude.{◌≡◌, ◌≤◌, ◌-◌, length, take, map, All, IfOk, IsSome};
ghost use Rattle.ct_words.specs.declared.limits.TheConstants.{MAX_BOUND, MAX_N};
ghost use Rattle.ct_words.specs.Entry.{IsEntry};
ghost use Rattle.ct_duals.specs.Bound.{positive};
ghost use Rattle.ct_duals.specs.Dual.{degree_of};
ghost use Rattle.ct_rule_parts.specs.Local.{doubly_at, lesser, local_value};
ghost use Rattle.ct_rule_parts.specs.Parts.{weight_of};

use ct_doubly::doubly;
use ct_duals::AcceptedDual;
use ct_words::{Entry, MAX_N};
use std::alloc::{AllocError, Global};
use std::marker::Model;

/// An accepted dual of an entry with a weight w, and for each index i where it allows more than 0 the bound `doubly` of the doubly
/// constant codes of (w,i,n−w,i,d), worked out once. Contracts see the accepted dual.
#[derive(Drop)]
pub struct LocalDual {
    dual: AcceptedDual,
    doubly: Vec<u32>,
}

impl Model for LocalDual {
    ghost use Rattle.std.specs.Prelude.{◌≡◌, ◌≤◌, length};
    ghost use Rattle.ct_words.specs.declared.limits.TheConstants.{MAX_N};
    ghost use Rattle.ct_duals.specs.Bound.{AcceptedValue};
    ghost use Rattle.ct_rule_parts.specs.Local.{doubly_uppers};

    ghost Value = { AcceptedValue };

    ghost view = { λ l. l.dual };

    ghost invariant = { λ l. (l.doubly.items ≡ doubly_uppers l.dual.dual) × (length l.doubly.items ≤ MAX_N) };
}

impl LocalDual {
    /// The dual, for whose indices the bounds are worked out. `Err` is want of memory.
    pub fn new(alloc: Global, dual: AcceptedDual) -> Result<LocalDual, AllocError>
        requires weight { IsSome dual.dual.entry.w }
        ensures { IfOk result (λ local. local ≡ dual) }
    {
        let doubly = doubly_uppers(alloc, dual.entry(), dual.dual().y.as_slice())?;
        Ok(LocalDual { dual, doubly })
    }

    /// The dual.
    pub fn dual(&self) -> &AcceptedDual
        ensures { result.now ≡ self.now }
    {
        &self.dual
    }

    /// Its local bound from one upper bound for each of the entries A(n,d,2i) that it rests on, in their order: at each index from the
    /// lesser of the upper bound and `doubly`. It takes no memory.
    pub fn bound(&self, uppers: &[u32]) -> u32
        ensures value { result ≡ local_value self.now uppers.now }
        ensures some { 1 ≤ result }
        ensures limit { result ≤ MAX_BOUND }
    {
        let mut row = [0; MAX_N as usize];
        let count = put_lesser(uppers, &self.doubly, &mut row);
        self.dual.local_bound(&row[..count])
    }
}

/// The bound of the doubly constant codes about a word of the entry, which has a weight, at the index.
fn doubly_at(entry: Entry, i: u32) -> u32
    requires entry { IsEntry entry }
    requires weight { IsSome entry.w }
    requires index { i ≤ degree_of entry }
    ensures { result ≡ doubly_at entry i }
{
    let w = entry.w.unwrap_or(0);
    doubly(w, i, entry.n - w, i, entry.d)
}

/// These bounds at each index where more than 0 is allowed.
fn doubly_uppers(alloc: Global, entry: Entry, y: &[(u32, i64)]) -> Result<Vec<u32>, AllocError>
    requires entry { IsEntry entry }
    requires weight { IsSome entry.w }
    requires indices { All (λ p. p.0 ≤ degree_of entry) y.now }
    ensures { IfOk result (λ uppers. uppers.items ≡ map (λ p. doubly_at entry p.0) (positive y.now)) }
{
    let mut uppers = Vec::new(alloc);
    for (i, number) in y {
        if *number > 0 {
            uppers.push(doubly_at(entry, *i))?;
        }
    }
    Ok(uppers)
}

/// Puts the lesser of both numbers at each place into the row, as far as both slices go, and tells how many they are.
fn put_lesser(uppers: &[u32], others: &[u32], row: &mut [u32]) -> usize
    requires room { length others.now ≤ length row.old }
    ensures few { result ≤ length row.new }
    ensures lesser { take result row.new ≡ lesser uppers.now others.now }
{
    let count = uppers.len().min(others.len());
    for place in 0..count {
        row[place] = uppers[place].min(others[place]);
    }
    count
}
