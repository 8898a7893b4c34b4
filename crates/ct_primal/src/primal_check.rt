//! The check of a primal.

ghost use Rattle.std.specs.Prelude.{◌≡◌, ◌≤◌, ◌<◌, ◌+◌, ◌*◌, ◌^◌, [], suc, ℤ, pos, ◌+ℤ◌, ◌*ℤ◌, ◌≤ℤ◌, unsigned_abs, length, All, IfOk, None};
ghost use Rattle.std.specs.Result.{result_err};
ghost use Rattle.ct_words.specs.declared.limits.TheConstants.{MAX_BOUND, MAX_N};
ghost use Rattle.ct_words.specs.Counting.Sums.{total};
ghost use Rattle.ct_words.specs.Numbers.{combination};
ghost use Rattle.ct_duals.specs.declared.dual.Dual.{Dual};
ghost use Rattle.ct_duals.specs.Dual.{Fits, IsDual, degree_of};
ghost use Rattle.ct_duals.specs.Check.{first_below, dual_fault};
ghost use Rattle.ct_duals.specs.Bound.{dual_bound, natural};
ghost use Rattle.ct_primal.specs.Primal.{IsPrimal, transformed, whole, primal_fault, row_fault, scale_fault, primal_value};

use crate::primal::Primal;
use crate::primal_fault::PrimalFault;
use ct_words::{MAX_BOUND, Scheme, add_product};

/// The value of the primal, where its scale is above 0 and no transformed number is below 0: the least of `MAX_BOUND` and ⌊(q + the
/// sum of the a_i)/q⌋. No dual of the same entry and the same mark that is accepted, and allows nothing, has a bound below it. The
/// scheme fits the entry of the primal.
///
/// The refusals in order: `Scale` where q is not above 0, and `Below` with the least k from 1 to the degree where q times the number
/// at k and 0, and the sum of a_i times that at k and i, is below 0, and this sum. It takes no memory, and every sum fits: the
/// numbers of a primal are below 2^63, those of a scheme below 2^47, and there are at most `MAX_N` + 1 of each.
pub fn check_primal<S: Scheme>(scheme: &S, primal: &Primal) -> Result<u32, PrimalFault>
    requires fits { Fits (S.belongs scheme.now) (S.index scheme.now) (S.degree scheme.now) (S.number scheme.now) primal.now.entry }
    requires form { IsPrimal primal.now }
    ensures fault { result_err result ≡ primal_fault (S.number scheme.now) primal.now }
    ensures value { IfOk result (λ v. v ≡ primal_value primal.now) }
    ensures least { IfOk result (λ v. (dual : Dual) → IsDual dual → dual.entry ≡ primal.now.entry → dual.even ≡ primal.now.even →
        dual.y ≡ [] → dual_fault (S.number scheme.now) dual ≡ None →
        v ≤ dual_bound dual (combination (S.number scheme.now) dual.c 0) []) }
{
    if let Some(fault) = first_fault(scheme, primal) {
        return Err(fault);
    }
    Ok(value(primal))
}

/// The first reason why the primal is not sound.
#[tactic(auto, unfolding(crate::specs::Primal::primal_fault))]
fn first_fault<S: Scheme>(scheme: &S, primal: &Primal) -> Option<PrimalFault>
    requires degree { S.degree scheme.now ≡ degree_of primal.now.entry }
    requires form { IsPrimal primal.now }
    ensures { result ≡ primal_fault (S.number scheme.now) primal.now }
{
    if let Some(fault) = scale_fault(primal) {
        return Some(fault);
    }
    first_row_fault(scheme, primal)
}

/// Whether the scale is not above 0.
fn scale_fault(primal: &Primal) -> Option<PrimalFault>
    ensures { result ≡ scale_fault primal.now }
{
    if primal.q < 1 {
        Some(PrimalFault::Scale)
    } else {
        None
    }
}

/// The fault of the least row whose transformed number is below 0.
fn first_row_fault<S: Scheme>(scheme: &S, primal: &Primal) -> Option<PrimalFault>
    requires degree { S.degree scheme.now ≡ degree_of primal.now.entry }
    requires form { IsPrimal primal.now }
    ensures { result ≡ first_below (row_fault (S.number scheme.now) primal.now) (suc (degree_of primal.now.entry)) }
{
    for k in 0..scheme.degree() + 1 {
        if let Some(fault) = row_fault(scheme, primal, k) {
            return Some(fault);
        }
    }
    None
}

/// The fault of the row, which is at most the degree, where it is not the first of all and its transformed number is below 0.
fn row_fault<S: Scheme>(scheme: &S, primal: &Primal, k: u32) -> Option<PrimalFault>
    requires degree { S.degree scheme.now ≡ degree_of primal.now.entry }
    requires form { IsPrimal primal.now }
    requires row { k ≤ S.degree scheme.now }
    ensures { result ≡ row_fault (S.number scheme.now) primal.now k }
{
    if k == 0 {
        return None;
    }
    let value = transformed(scheme, primal, k);
    if value >= 0 {
        return None;
    }
    Some(PrimalFault::Below { at: k, value })
}

/// q times the number at k and 0, and the sum of a_i times that at k and i.
fn transformed<S: Scheme>(scheme: &S, primal: &Primal, k: u32) -> i128
    requires degree { S.degree scheme.now ≡ degree_of primal.now.entry }
    requires form { IsPrimal primal.now }
    requires row { k ≤ S.degree scheme.now }
    ensures { result ≡ transformed (S.number scheme.now) primal.now k }
{
    let first = add_product(0, primal.q, scheme.number(k, 0));
    add_products(scheme, k, first, &primal.a)
}

/// The sum with the products of the numbers with those of the scheme at k and their indices added to it.
fn add_products<S: Scheme>(scheme: &S, k: u32, first: i128, pairs: &[(u32, i64)]) -> i128
    requires row { k ≤ S.degree scheme.now }
    requires first { unsigned_abs first ≤ 2 ^ 110 }
    requires indices { All (λ u. u.0 ≤ S.degree scheme.now) pairs.now }
    requires few { length pairs.now ≤ MAX_N }
    ensures { result ≡ first +ℤ total (λ u. u.1 *ℤ S.number scheme.now k u.0) pairs.now }
{
    let mut sum = first;
    for (i, number) in pairs {
        sum = add_product(sum, *number, scheme.number(k, *i));
    }
    sum
}

/// The least of `MAX_BOUND` and ⌊(q + the sum of the a_i)/q⌋.
#[tactic(auto, unfolding(crate::specs::Primal::primal_value))]
fn value(primal: &Primal) -> u32
    requires scale { pos 1 ≤ℤ primal.now.q }
    requires form { IsPrimal primal.now }
    ensures { result ≡ primal_value primal.now }
{
    let value = whole(primal) as u128 / primal.q as u128;
    value.min(u128::from(MAX_BOUND)) as u32
}

/// q and the sum of the a_i.
fn whole(primal: &Primal) -> i128
    requires scale { pos 1 ≤ℤ primal.now.q }
    requires form { IsPrimal primal.now }
    ensures value { result ≡ whole primal.now }
    ensures some { pos 1 ≤ℤ result }
{
    add_numbers(primal.q, &primal.a)
}

/// The number with those of the pairs added to it.
fn add_numbers(first: i64, pairs: &[(u32, i64)]) -> i128
    requires first { pos 1 ≤ℤ first }
    requires numbers { All (λ u. pos 0 ≤ℤ u.1) pairs.now }
    requires few { length pairs.now ≤ MAX_N }
    ensures value { result ≡ first +ℤ total (λ u. u.1) pairs.now }
    ensures some { pos 1 ≤ℤ result }
{
    let mut sum = i128::from(first);
    for (_, number) in pairs {
        sum = add_number(sum, *number);
    }
    sum
}

/// The sum with a number added to it.
fn add_number(sum: i128, number: i64) -> i128
    requires sum { unsigned_abs sum < 2 ^ 116 }
    requires number { pos 0 ≤ℤ number }
    ensures value { result ≡ sum +ℤ number }
    ensures small { unsigned_abs result ≤ unsigned_abs sum + 2 ^ 63 }
{
    sum + i128::from(number)
}
