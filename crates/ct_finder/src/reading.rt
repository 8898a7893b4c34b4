//! The primal of a run, read off the tableau that it ends with.
ghost use Rattle.ct_finder.specs.Inside.Numbers.{numbers_of_range};
ghost use Rattle.std.specs.Prelude.{◌≡◌, ◌≤◌, ◌<◌, ◌*◌, ◌/◌, ◌^◌, ◌++◌, pos, ◌≤ℤ◌, int_lt, length, filter, get_or, [], ◌∷◌, None, IfOk, IfSome, OnOk};
ghost use Rattle.std.specs.Result.{result_err};
ghost use Rattle.ct_finder.specs.Divisor.{gcd as gcd_of_both};
ghost use Rattle.ct_duals.specs.Bound.{natural};
ghost use Rattle.ct_finder.specs.Pivot.{at, constant_of};
ghost use Rattle.ct_finder.specs.Sum.{HasWidth};
ghost use Rattle.ct_finder.specs.Basic.{AreBasic};
ghost use Rattle.ct_finder.specs.RunPrimal.{run_scale, number_at_place};
ghost use Rattle.ct_finder.specs.Ready.{seen};
ghost use Rattle.ct_finder.specs.Reading.{large, large_after, large_number, large_scale, line_of, lines_seen, number_over, reading_of, scale_after};

use crate::arithmetic::gcd;
use crate::row::Row;
use crate::tableau::Tableau;
use ct_primal::Primal;
use ct_words::Entry;
use std::alloc::{AllocError, Global};

/// What is read off a tableau with which a run ended as least.
#[derive(Drop)]
pub(crate) enum Reading {
    /// The primal.
    Primal(Primal),
    /// The first number of the primal that is above 2^63 - 1.
    Wide(i128),
}

/// A row with its basic column: its place, the entry there, and the constant.
#[derive(Clone, Copy)]
pub(crate) struct Line {
    pub(crate) place: usize,
    pub(crate) entry: u64,
    pub(crate) constant: u64,
}

/// The primal of a tableau, whose rows have constants of at least 0 and their basic columns to themselves; the a's of the indices of
/// the range stand at its places from 1 on. `Err` is want of memory.
pub(crate) fn read_primal(
    alloc: Global,
    tableau: &Tableau,
    entry: Entry,
    even: bool,
    range: &[u32],
) -> Result<Reading, AllocError>
    requires width { HasWidth (length tableau.now.cost) (seen tableau.now) }
    requires basic { AreBasic (length tableau.now.cost) (seen tableau.now) }
    ensures { IfOk result (λ r. r ≡ reading_of entry even range.now (seen tableau.now)) }
{
    let q = match scale(tableau, range.len()) {
        Ok(q) => q,
        Err(number) => return Ok(Reading::Wide(number as i128)),
    };
    if let Some(number) = large_number(tableau, range.len(), q) {
        return Ok(Reading::Wide(number as i128));
    }
    let a = pairs(alloc, tableau, range, q)?;
    Ok(Reading::Primal(Primal {
        entry,
        even,
        q: q as i64,
        a,
    }))
}

/// An entry of a row, which is at least 0.
fn entry_at(row: &Row, place: usize) -> u64
    requires place { place < length row.now }
    requires some { pos 0 ≤ℤ at row.now place }
    ensures value { result ≡ natural (at row.now place) }
    ensures small { result < 2 ^ 63 }
{
    row.as_slice()[place].unsigned_abs()
}

/// The constant of a row, which is at least 0.
fn constant_at(row: &Row) -> u64
    requires some_entries { 1 ≤ length row.now }
    requires some { pos 0 ≤ℤ constant_of row.now }
    ensures value { result ≡ natural (constant_of row.now) }
    ensures small { result < 2 ^ 63 }
{
    entry_at(row, row.as_slice().len() - 1)
}

/// The row at a place of the tableau, with its basic column.
fn line_at(tableau: &Tableau, i: usize) -> Line
    requires width { HasWidth (length tableau.now.cost) (seen tableau.now) }
    requires basic { AreBasic (length tableau.now.cost) (seen tableau.now) }
    requires place { i < length tableau.now.rows.items }
    ensures value { result ≡ line_of (get_or (lines_seen tableau.now) i ([], 0)) }
    ensures some { 1 ≤ result.entry }
    ensures small { (result.entry < 2 ^ 63) × (result.constant < 2 ^ 63) }
{
    let place = tableau.basics[i];
    let entry = entry_at(&tableau.rows[i], place);
    let constant = constant_at(&tableau.rows[i]);
    Line {
        place,
        entry,
        constant,
    }
}

/// (q/g) · β, with the greatest common divisor g of q and β: their least common multiple.
fn next_scale(q: u64, entry: u64) -> u128
    requires some { (1 ≤ q) × (1 ≤ entry) }
    requires small { (q < 2 ^ 63) × (entry < 2 ^ 63) }
    ensures value { result ≡ q / gcd_of_both q entry * entry }
    ensures some_of { 1 ≤ result }
    ensures small_of { result < 2 ^ 126 }
{
    let divisor = gcd(u128::from(q), u128::from(entry));
    u128::from(q) / divisor * u128::from(entry)
}

/// A number, where it is at most 2^63 - 1.
fn narrow(number: u128) -> Result<u64, u128>
    ensures fault { result_err result ≡ large number }
    ensures value { IfOk result (λ n. (n ≡ number) × (n < 2 ^ 63)) }
{
    if number > i64::MAX as u128 {
        Err(number)
    } else {
        Ok(number as u64)
    }
}

/// The scale after a row: where its basic column is one of so many a's, the least common multiple with its entry there.
fn scale_after(q: u64, line: Line, count: usize) -> Result<u64, u128>
    requires some { (1 ≤ q) × (1 ≤ line.entry) }
    requires small { (q < 2 ^ 63) × (line.entry < 2 ^ 63) }
    ensures fault { result_err result ≡ large (scale_after q line count) }
    ensures value { IfOk result (λ n. n ≡ scale_after q line count) }
    ensures some_of { IfOk result (λ n. (1 ≤ n) × (n < 2 ^ 63)) }
    ensures small_of { IfSome (result_err result) (λ n. n < 2 ^ 126) }
{
    if line.place < 1 || line.place > count {
        return Ok(q);
    }
    narrow(next_scale(q, line.entry))
}

/// The scale of the primal, or the first of the scales after each row that is above 2^63 - 1.
fn scale(tableau: &Tableau, count: usize) -> Result<u64, u128>
    requires width { HasWidth (length tableau.now.cost) (seen tableau.now) }
    requires basic { AreBasic (length tableau.now.cost) (seen tableau.now) }
    ensures fault { result_err result ≡ large_scale count (seen tableau.now) }
    ensures small { IfSome (result_err result) (λ n. n < 2 ^ 126) }
    ensures value { IfOk result (λ q. q ≡ run_scale count (seen tableau.now)) }
    ensures some { IfOk result (λ q. (1 ≤ q) × (q < 2 ^ 63)) }
{
    let mut q = 1;
    for i in 0..tableau.rows.len() {
        match scale_after(q, line_at(tableau, i), count) {
            Ok(next) => q = next,
            Err(number) => return Err(number),
        }
    }
    Ok(q)
}

/// κ · (q/β): the number of a row over a scale.
fn number_over(q: u64, line: Line) -> u128
    requires some { 1 ≤ line.entry }
    requires small { (q < 2 ^ 63) × (line.constant < 2 ^ 63) }
    ensures value { result ≡ number_over q line }
    ensures small_of { result < 2 ^ 126 }
{
    u128::from(line.constant) * u128::from(q / line.entry)
}

/// The number of a row whose basic column is one of so many a's, where it is above 2^63 - 1.
fn large_after(q: u64, line: Line, count: usize) -> Option<u128>
    requires some { 1 ≤ line.entry }
    requires small { (q < 2 ^ 63) × (line.constant < 2 ^ 63) }
    ensures value { result ≡ large_after q line count }
    ensures small_of { IfSome result (λ n. n < 2 ^ 126) }
{
    if line.place < 1 || line.place > count {
        return None;
    }
    narrow(number_over(q, line)).err()
}

/// The first number of a row over the scale of the primal that is above 2^63 - 1.
fn large_number(tableau: &Tableau, count: usize, q: u64) -> Option<u128>
    requires width { HasWidth (length tableau.now.cost) (seen tableau.now) }
    requires basic { AreBasic (length tableau.now.cost) (seen tableau.now) }
    requires small { q < 2 ^ 63 }
    ensures value { result ≡ large_number q count (seen tableau.now) }
    ensures small_of { IfSome result (λ n. n < 2 ^ 126) }
{
    for i in 0..tableau.rows.len() {
        if let Some(number) = large_after(q, line_at(tableau, i), count) {
            return Some(number);
        }
    }
    None
}

/// The number of the a at a place: that of the first row whose basic column it is, 0 where there is none.
fn number_at(tableau: &Tableau, q: u64, place: usize) -> u128
    requires width { HasWidth (length tableau.now.cost) (seen tableau.now) }
    requires basic { AreBasic (length tableau.now.cost) (seen tableau.now) }
    requires small { q < 2 ^ 63 }
    ensures value { result ≡ number_at_place q (lines_seen tableau.now) place }
{
    for i in 0..tableau.rows.len() {
        let line = line_at(tableau, i);
        if line.place == place {
            return number_over(q, line);
        }
    }
    0
}

/// Puts an index with its number to the end, where this is above 0.
fn push_number(a: &mut Vec<(u32, i64)>, i: u32, number: u128) -> Result<(), AllocError>
    requires narrow { number < 2 ^ 63 }
    ensures { OnOk result (a.new.items ≡ a.old.items ++ filter (λ u. int_lt (pos 0) u.1) ((i, pos number) ∷ [])) }
{
    if number > 0 {
        a.push((i, number as i64))?;
    }
    Ok(())
}

/// The indices of the range with the numbers of their a's, where these are above 0.
fn pairs(
    alloc: Global,
    tableau: &Tableau,
    range: &[u32],
    q: u64,
) -> Result<Vec<(u32, i64)>, AllocError>
    requires width { HasWidth (length tableau.now.cost) (seen tableau.now) }
    requires basic { AreBasic (length tableau.now.cost) (seen tableau.now) }
    requires small { q < 2 ^ 63 }
    requires scale { q ≡ run_scale (length range.now) (seen tableau.now) }
    requires narrow { large_number q (length range.now) (seen tableau.now) ≡ None }
    ensures { IfOk result (λ a. a.items ≡ filter (λ u. int_lt (pos 0) u.1) (numbers_of_range range.now (seen tableau.now))) }
{
    let mut a = Vec::new(alloc);
    for j in 0..range.len() {
        push_number(&mut a, range[j], number_at(tableau, q, j + 1))?;
    }
    Ok(a)
}
