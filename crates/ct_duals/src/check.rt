//! The check of a dual.
ghost use Rattle.std.specs.Prelude.{◌≡◌, ◌≤◌, ◌+◌, ◌+ℤ◌, ◌*ℤ◌, ◌^◌, ◌<◌, suc, length, unsigned_abs, IfOk, Some, None};
ghost use Rattle.std.specs.Result.{result_err};
ghost use Rattle.ct_words.specs.declared.limits.TheConstants.{MAX_N};
ghost use Rattle.ct_words.specs.Scheme.{IsSmall};
ghost use Rattle.ct_words.specs.Numbers.{combination};
ghost use Rattle.ct_duals.specs.Dual.{Fits, IsDual, degree_of, allowed};
ghost use Rattle.ct_duals.specs.Check.{dual_fault, lead_fault, above_fault, fault_at};

use crate::accepted::Accepted;
use crate::dual::Dual;
use crate::fault::DualFault;
use crate::form::is_in_range;
use ct_words::{Scheme, add_product};

/// The dual as an accepted one, where c_0 is at least 1 and f(i) at most what is allowed at each index i of the range:
/// then no code of its entry is larger than its bound. The scheme fits the entry of the dual.
///
/// The refusals in order: `Lead` where c_0 is 0, and `Above` with the least i of the range where f(i) is above what is
/// allowed, and both numbers. It takes no memory, and every sum fits: the multipliers are below 2^63, the numbers of a
/// scheme below 2^47, and there are at most `MAX_N` + 1 of each.
pub fn check_dual<'a, S: Scheme>(scheme: &S, dual: &'a Dual) -> Result<Accepted<'a>, DualFault>
    requires fits { Fits (S.belongs scheme.now) (S.index scheme.now) (S.degree scheme.now) (S.number scheme.now) dual.now.entry }
    requires form { IsDual dual.now }
    ensures fault { result_err result ≡ dual_fault (S.number scheme.now) dual.now }
    ensures accepted { IfOk result
        (λ a. a ≡ record { dual = dual.now; at_zero = combination (S.number scheme.now) dual.now.c 0 }) }
{
    if let Some(fault) = first_fault(scheme, dual) {
        return Err(fault);
    }
    let at_zero = combination(scheme, dual.c.as_slice(), 0);
    Ok(Accepted::new(dual, at_zero))
}

/// The first reason why the dual is not accepted.
#[tactic(auto, unfolding(crate::specs::Check::dual_fault))]
fn first_fault<S: Scheme>(scheme: &S, dual: &Dual) -> Option<DualFault>
    requires degree { S.degree scheme.now ≡ degree_of dual.now.entry }
    requires form { IsDual dual.now }
    ensures { result ≡ dual_fault (S.number scheme.now) dual.now }
{
    if let Some(fault) = lead_fault(dual) {
        return Some(fault);
    }
    above_fault(scheme, dual)
}

/// Whether c_0 is 0.
fn lead_fault(dual: &Dual) -> Option<DualFault>
    requires { 1 ≤ length dual.now.c }
    ensures { result ≡ lead_fault dual.now }
{
    if dual.c.as_slice()[0] < 1 {
        Some(DualFault::Lead)
    } else {
        None
    }
}

/// The least index of the range where f is above what is allowed.
fn above_fault<S: Scheme>(scheme: &S, dual: &Dual) -> Option<DualFault>
    requires degree { S.degree scheme.now ≡ degree_of dual.now.entry }
    requires form { IsDual dual.now }
    ensures { result ≡ above_fault (S.number scheme.now) dual.now }
{
    for i in 0..scheme.degree() + 1 {
        if let Some(fault) = fault_at(scheme, dual, i) {
            return Some(fault);
        }
    }
    None
}

/// The fault at the index `i`, which is at most the degree, where it is in the range and f(i) above what is allowed.
fn fault_at<S: Scheme>(scheme: &S, dual: &Dual, i: u32) -> Option<DualFault>
    requires degree { S.degree scheme.now ≡ degree_of dual.now.entry }
    requires form { IsDual dual.now }
    requires index { i ≤ S.degree scheme.now }
    ensures { result ≡ fault_at (S.number scheme.now) dual.now i }
{
    if !is_in_range(dual.entry, dual.even, i) {
        return None;
    }
    let value = combination(scheme, dual.c.as_slice(), i);
    let allowed = i128::from(allowed(dual.y.as_slice(), i));
    if value <= allowed {
        return None;
    }
    Some(DualFault::Above {
        at: i,
        value,
        allowed,
    })
}

/// What is allowed at `i`.
fn allowed(y: &[(u32, i64)], i: u32) -> i64
    ensures { result ≡ allowed y.now i }
{
    for (at, number) in y {
        if i == *at {
            return *number;
        }
    }
    0
}

/// f(i): the sum of the products of the multipliers with the numbers of the scheme at `i`.
fn combination<S: Scheme>(scheme: &S, c: &[i64], i: u32) -> i128
    requires index { i ≤ S.degree scheme.now }
    requires rows { length c.now ≤ suc (S.degree scheme.now) }
    requires few { length c.now ≤ suc MAX_N }
    ensures value { result ≡ combination (S.number scheme.now) c.now i }
    ensures small { unsigned_abs result < 2 ^ 116 }
{
    let mut sum: i128 = 0;
    for k in 0..c.len() {
        sum = add_product(sum, c[k], scheme.number(k as u32, i));
    }
    sum
}
