//! Rows of a tableau.
ghost use Rattle.ct_finder.specs.Inside.Pivot.{crossed};
ghost use Rattle.std.specs.Prelude.{◌≡◌, ◌<◌, ◌≤◌, ◌^◌, None, pos, ◌≤ℤ◌, length, map, find, int_div};
ghost use Rattle.ct_finder.specs.Divisor.{gcd_of, divisor};
ghost use Rattle.ct_finder.specs.Pivot.{at, is_wide, pivoted_row};
ghost use Rattle.ct_finder.specs.Narrow.{AreNarrow};

use crate::arithmetic::{cross, gcd, is_wide, quotient};
use std::marker::Model;

/// A row of a tableau: its entries, each at most 2^63 - 1 in absolute value. Contracts see the list of the entries.
#[derive(Drop)]
pub struct Row {
    entries: Vec<i64>,
}

impl Model for Row {
    ghost use Rattle.std.specs.Prelude.{List, ℤ};
    ghost use Rattle.ct_finder.specs.Narrow.{AreNarrow};

    ghost Value = { List ℤ };

    ghost view = { λ r. r.entries.items };

    ghost invariant = { λ r. AreNarrow r.entries.items };
}

impl Row {
    /// The entries of the vector.
    pub fn from_vec(entries: Vec<i64>) -> Row
        requires { AreNarrow entries.items }
        ensures { result ≡ entries.items }
    {
        Row { entries }
    }

    /// The entries as a slice.
    pub fn as_slice(&self) -> &[i64]
        ensures value { result.now ≡ self.now }
        ensures narrow { AreNarrow self.now }
    {
        &self.entries
    }

    /// Takes the entries of a row of the same width.
    pub(crate) fn copy_from(&mut self, other: &Row)
        requires { length self.old ≡ length other.now }
        ensures value { self.new ≡ other.now }
        ensures narrow { AreNarrow self.new }
    {
        self.entries.copy_from_slice(&other.entries);
    }

    /// What the row becomes once the pivot row has entered at the place e: p · R - r · P, divided by the greatest common
    /// divisor of its entries. Where an entry would be wide, the first such entry, and the row is of no more use.
    pub(crate) fn pivot_on(&mut self, pivot: &Row, e: usize) -> Option<i128>
        requires width { length self.old ≡ length pivot.now }
        requires place { e < length pivot.now }
        requires positive { pos 1 ≤ℤ at pivot.now e }
        ensures wide { result ≡ find is_wide (pivoted_row e pivot.now self.old) }
        ensures row { result ≡ None → self.new ≡ pivoted_row e pivot.now self.old }
    {
        pivot_entries(&mut self.entries, &pivot.entries, e)
    }
}

/// The same for the entries of a row.
fn pivot_entries(row: &mut [i64], pivot: &[i64], e: usize) -> Option<i128>
    requires width { length row.old ≡ length pivot.now }
    requires place { e < length pivot.now }
    requires positive { pos 1 ≤ℤ at pivot.now e }
    requires narrow { AreNarrow row.old }
    ensures wide { result ≡ find is_wide (pivoted_row e pivot.now row.old) }
    ensures row { result ≡ None → row.new ≡ pivoted_row e pivot.now row.old }
    ensures narrow { AreNarrow row.new }
{
    let p = pivot[e];
    let r = row[e];
    let divisor = divisor_of_crossed(row, pivot, p, r);
    divide_crossed(row, pivot, p, r, divisor)
}

/// The greatest common divisor of p · R - r · P, 1 where each entry is 0.
fn divisor_of_crossed(row: &[i64], pivot: &[i64], p: i64, r: i64) -> i128
    requires width { length row.now ≡ length pivot.now }
    requires positive { pos 1 ≤ℤ p }
    ensures { result ≡ pos (divisor (crossed p r pivot.now row.now)) }
{
    let divisor = gcd_of_crossed(row, pivot, p, r);
    if divisor == 0 { 1 } else { divisor as i128 }
}

/// The greatest common divisor of the entries of p · R - r · P.
fn gcd_of_crossed(row: &[i64], pivot: &[i64], p: i64, r: i64) -> u128
    requires width { length row.now ≡ length pivot.now }
    requires positive { pos 1 ≤ℤ p }
    ensures value { result ≡ gcd_of (crossed p r pivot.now row.now) }
    ensures small { result < 2 ^ 127 }
{
    let mut divisor: u128 = 0;
    for j in 0..row.len() {
        divisor = gcd(cross(p, row[j], r, pivot[j]).unsigned_abs(), divisor);
        if divisor == 1 {
            return 1;
        }
    }
    divisor
}

/// Puts p · R - r · P, divided, in the place of R. Where an entry would be wide, the first such entry.
fn divide_crossed(row: &mut [i64], pivot: &[i64], p: i64, r: i64, divisor: i128) -> Option<i128>
    requires width { length row.old ≡ length pivot.now }
    requires positive { pos 1 ≤ℤ p }
    requires divisor { pos 1 ≤ℤ divisor }
    requires narrow { AreNarrow row.old }
    ensures wide { result ≡ find is_wide (map (λ z. int_div z divisor) (crossed p r pivot.now row.old)) }
    ensures row { result ≡ None → row.new ≡ map (λ z. int_div z divisor) (crossed p r pivot.now row.old) }
    ensures narrow { AreNarrow row.new }
{
    for j in 0..row.len() {
        let entry = quotient(cross(p, row[j], r, pivot[j]), divisor);
        if is_wide(entry) {
            return Some(entry);
        }
        row[j] = entry as i64;
    }
    None
}
