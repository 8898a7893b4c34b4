//! The opening tableau of a run.
ghost use Rattle.ct_finder.specs.Sum.{opening_row};
ghost use Rattle.ct_finder.specs.Inside.Rows.{rows_to};
ghost use Rattle.std.specs.Prelude.{◌≡◌, ◌≤◌, ◌<◌, ◌++◌, ◌==◌, suc, cond, replicate, pos, neg_ℤ, All, map, IfOk, OnOk};
ghost use Rattle.ct_words.specs.Entry.{IsEntry};
ghost use Rattle.ct_words.specs.Scheme.{IsSmall};
ghost use Rattle.ct_finder.specs.Column.{range_of, columns, place_of_column, cost_entry, opening};
ghost use Rattle.ct_finder.specs.Column.Column.{S as SColumn};
ghost use Rattle.ct_finder.specs.Ready.{seen, IsReady};

use crate::row::Row;
use crate::tableau::Tableau;
use ct_duals::{degree, is_in_range};
use ct_words::{Entry, Scheme};
use std::alloc::{AllocError, Global};

/// The indices that two words of a code of the entry may have, ascending; the even ones alone where `even` is set.
pub(crate) fn range_of(alloc: Global, entry: Entry, even: bool) -> Result<Vec<u32>, AllocError>
    requires { IsEntry entry }
    ensures { IfOk result (λ range. range.items ≡ range_of entry even) }
{
    let mut range = Vec::new(alloc);
    for i in 0..degree(entry) + 1 {
        if is_in_range(entry, even, i) {
            range.push(i)?;
        }
    }
    Ok(range)
}

/// The opening tableau over the numbers of a scheme, with an a for each index of the range.
pub(crate) fn opening<S: Scheme>(
    alloc: Global,
    scheme: &S,
    range: &[u32],
) -> Result<Tableau, AllocError>
    requires range { All (λ i. i ≤ S.degree scheme.now) range.now }
    ensures value { IfOk result (λ t. seen t ≡ opening (S.number scheme.now) range.now (S.degree scheme.now)) }
    ensures ready { IfOk result (λ t. IsReady t) }
{
    let degree = scheme.degree();
    let rows = opening_rows(alloc, scheme, range)?;
    let basics = opening_basics(alloc, range, degree)?;
    let cost = opening_cost(alloc, range, degree)?;
    let pivot = opening_cost(alloc, range, degree)?;
    Ok(Tableau {
        rows,
        basics,
        cost,
        pivot,
    })
}

/// How many columns there are, for which memory is asked at once.
fn width(range: &[u32], degree: u32) -> usize {
    range
        .len()
        .saturating_add(degree as usize)
        .saturating_add(2)
}

/// The opening rows of 1, 2, .., degree.
fn opening_rows<S: Scheme>(alloc: Global, scheme: &S, range: &[u32]) -> Result<Vec<Row>, AllocError>
    requires range { All (λ i. i ≤ S.degree scheme.now) range.now }
    ensures { IfOk result (λ rows. rows.items ≡
        map (opening_row (S.number scheme.now) (columns range.now (S.degree scheme.now))) (rows_to (S.degree scheme.now))) }
{
    let mut rows = Vec::with_capacity(alloc, scheme.degree() as usize)?;
    for before in 0..scheme.degree() {
        rows.push(opening_row(alloc, scheme, range, before + 1)?)?;
    }
    Ok(rows)
}

/// The opening row of k: -N(k,i) at each a_i, 1 at s_k, N(k,0) at the constant and 0 elsewhere.
fn opening_row<S: Scheme>(
    alloc: Global,
    scheme: &S,
    range: &[u32],
    k: u32,
) -> Result<Row, AllocError>
    requires range { All (λ i. i ≤ S.degree scheme.now) range.now }
    requires row { k ≤ S.degree scheme.now }
    ensures { IfOk result (λ r. r ≡
        opening_row (S.number scheme.now) (columns range.now (S.degree scheme.now)) k) }
{
    let mut entries = Vec::with_capacity(alloc, width(range, scheme.degree()))?;
    entries.push(0)?;
    push_numbers(&mut entries, scheme, range, k)?;
    push_unit(&mut entries, scheme.degree(), k)?;
    entries.push(number(scheme, k, 0))?;
    Ok(Row::from_vec(entries))
}

/// Puts -N(k,i) at the end, for each index i of the range.
fn push_numbers<S: Scheme>(
    entries: &mut Vec<i64>,
    scheme: &S,
    range: &[u32],
    k: u32,
) -> Result<(), AllocError>
    requires range { All (λ i. i ≤ S.degree scheme.now) range.now }
    requires row { k ≤ S.degree scheme.now }
    ensures { OnOk result (entries.new.items ≡
        entries.old.items ++ map (λ i. neg_ℤ (S.number scheme.now k i)) range.now) }
{
    for i in range {
        entries.push(-number(scheme, k, *i))?;
    }
    Ok(())
}

/// Puts 1 at the end at the place of s_k, and 0 at those of the other s's.
fn push_unit(entries: &mut Vec<i64>, degree: u32, k: u32) -> Result<(), AllocError>
    ensures { OnOk result (entries.new.items ≡
        entries.old.items ++ map (λ j. cond (j == k) (pos 1) (pos 0)) (rows_to degree)) }
{
    for before in 0..degree {
        entries.push(unit(before + 1, k))?;
    }
    Ok(())
}

/// 1 where the numbers are equal, else 0.
fn unit(j: u32, k: u32) -> i64
    ensures { result ≡ cond (j == k) (pos 1) (pos 0) }
{
    if j == k { 1 } else { 0 }
}

/// The number of the scheme at k and i.
fn number<S: Scheme>(scheme: &S, k: u32, i: u32) -> i64
    requires row { k ≤ S.degree scheme.now }
    requires index { i ≤ S.degree scheme.now }
    ensures value { result ≡ S.number scheme.now k i }
    ensures small { IsSmall result }
{
    scheme.number(k, i) as i64
}

/// The places of the basic columns: that of s_k for the row of k.
fn opening_basics(alloc: Global, range: &[u32], degree: u32) -> Result<Vec<usize>, AllocError>
    ensures { IfOk result (λ basics. basics.items ≡
        map (λ k. place_of_column (SColumn k) (columns range.now degree)) (rows_to degree)) }
{
    let mut basics = Vec::with_capacity(alloc, degree as usize)?;
    for before in 0..degree as usize {
        basics.push(range.len() + 1 + before)?;
    }
    Ok(basics)
}

/// The opening cost row: 1 at z, -1 at each a_i and 0 elsewhere.
fn opening_cost(alloc: Global, range: &[u32], degree: u32) -> Result<Row, AllocError>
    ensures { IfOk result (λ r. r ≡ map cost_entry (columns range.now degree)) }
{
    let mut entries = Vec::with_capacity(alloc, width(range, degree))?;
    entries.push(1)?;
    push_repeated(&mut entries, -1, range.len())?;
    push_repeated(&mut entries, 0, degree as usize + 1)?;
    Ok(Row::from_vec(entries))
}

/// Puts so many times the same entry at the end.
pub(crate) fn push_repeated(
    entries: &mut Vec<i64>,
    entry: i64,
    count: usize,
) -> Result<(), AllocError>
    ensures { OnOk result (entries.new.items ≡ entries.old.items ++ replicate count entry) }
{
    for _ in 0..count {
        entries.push(entry)?;
    }
    Ok(())
}
