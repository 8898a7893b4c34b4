//! Accepted duals and their bounds.
ghost use Rattle.std.specs.Prelude.{◌≡◌, ℕ, ◌+◌, ◌*◌, ◌/◌, ◌≤◌, ◌<◌, ◌^◌, min, pos, ◌+ℤ◌, ◌≤ℤ◌, length, suc, unsigned_abs, Some, IfOk};
ghost use Rattle.ct_words.specs.declared.limits.TheConstants.{MAX_BOUND, MAX_N};
ghost use Rattle.ct_words.specs.Code.{IsTrueUpper};
ghost use Rattle.ct_words.specs.Numbers.{numbers_of, combination};
ghost use Rattle.ct_duals.specs.Bound.{AcceptedValue, IsAccepted, AreTrueUppers, IsSpread, dual_bound, dual_spread, dual_premises, positive, charges, near_charge, far_charge, is_far, natural};
ghost use Rattle.ct_duals.specs.Local.{AreTrueLocals, local_charge, local_bound};
ghost use Rattle.ct_duals.specs.Inside.Proven.{IsProven};

use crate::accepted_dual::AcceptedDual;
use crate::dual::Dual;
use crate::premise::distance_at;
use ct_words::{Entry, MAX_BOUND};
use std::alloc::AllocError;
use std::marker::Model;

/// A dual that was accepted: it meets its inequalities, so no code of its entry is larger than its bound. Contracts see the
/// dual and its f(0).
#[derive(Drop)]
pub struct Accepted<'a> {
    dual: &'a Dual,
    at_zero: i128,
}

impl<'a> Model for Accepted<'a> {
    ghost Value = { AcceptedValue };

    ghost view = { λ a. record { dual = a.dual.now; at_zero = a.at_zero } };

    ghost invariant = { λ a. IsProven (record { dual = a.dual.now; at_zero = a.at_zero }) };
}

impl<'a> Accepted<'a> {
    /// A dual that was accepted, with its f(0). Nothing is tested, and no memory taken.
    pub(crate) fn new(dual: &'a Dual, at_zero: i128) -> Accepted<'a>
        requires { IsProven (record { dual = dual.now; at_zero = at_zero }) }
        ensures value { result ≡ record { dual = dual.now; at_zero = at_zero } }
    {
        Accepted { dual, at_zero }
    }

    /// Its f(0).
    pub fn at_zero(&self) -> i128
        ensures value { result ≡ self.now.at_zero }
        ensures accepted { IsAccepted self.now }
    {
        self.at_zero
    }

    /// The accepted dual with a copy of its numbers, to be kept. `Err` is want of memory.
    pub fn try_keep(&self) -> Result<AcceptedDual, AllocError>
        ensures { IfOk result (λ kept. kept ≡ self.now) }
    {
        let dual = self.dual.try_copy()?;
        Ok(AcceptedDual::new(dual, self.at_zero))
    }

    /// f(0) + S + T, from one upper bound for each index where more than 0 is allowed, in ascending order; one that is missing counts
    /// as 0. Where the upper bounds are true, each code of the entry has as many words as a code of the entry over whose ordered pairs,
    /// each word with itself included, f adds up to at most that for each word. It takes no memory, and every sum fits: f(0) is below
    /// 2^116, a product below 2^95, and there are at most `MAX_N` of them.
    pub fn spread(&self, uppers: &[u32]) -> i128
        ensures value { result ≡ dual_spread self.now.dual self.now.at_zero uppers.now }
        ensures pairs { AreTrueUppers (dual_premises self.now.dual) uppers.now →
            IsSpread self.now.dual.entry (combination (numbers_of self.now.dual.entry) self.now.dual.c) result }
    {
        let charge = charge(self.dual.entry, self.dual.y.as_slice(), uppers);
        sum(self.at_zero, charge)
    }

    /// The bound of the dual from one upper bound for each index where more than 0 is allowed, in ascending order: the
    /// least of `MAX_BOUND` and ⌊(f(0) + S + T)/c_0⌋. Where the upper bounds are true, no code of the entry is larger; one that
    /// is missing counts as 0. It takes no memory, and every sum fits: a product is below 2^95, and there are at most `MAX_N` of them.
    #[tactic(auto, unfolding(crate::specs::Bound::dual_bound))]
    pub fn bound(&self, uppers: &[u32]) -> u32
        ensures value { result ≡ dual_bound self.now.dual self.now.at_zero uppers.now }
        ensures some { 1 ≤ result }
        ensures limit { result ≤ MAX_BOUND }
        ensures sound { AreTrueUppers (dual_premises self.now.dual) uppers.now → IsTrueUpper self.now.dual.entry result }
    {
        let charge = charge(self.dual.entry, self.dual.y.as_slice(), uppers);
        quotient(self.at_zero, charge, self.dual.c.as_slice()[0])
    }

    /// The bound of the dual, of an entry with a weight w, from one number U_i for each index i where more than 0 is allowed, in
    /// ascending order: the least of `MAX_BOUND` and ⌊(f(0) + Σ y_i·U_i)/c_0⌋. Where no doubly constant code of (w,i,n−w,i,d) has more
    /// than U_i words, no code of the entry is larger: those of its words that are at distance 2i from one of them are such a code. A
    /// number that is missing counts as 0. It takes no memory, and every sum fits, as those of `bound` do.
    #[tactic(auto, unfolding(crate::specs::Local::local_bound))]
    pub fn local_bound(&self, uppers: &[u32]) -> u32
        ensures value { result ≡ local_bound self.now.dual self.now.at_zero uppers.now }
        ensures some { 1 ≤ result }
        ensures limit { result ≤ MAX_BOUND }
        ensures sound { (w : ℕ) → self.now.dual.entry.w ≡ Some w → AreTrueLocals self.now.dual.entry w (positive self.now.dual.y) uppers.now →
            IsTrueUpper self.now.dual.entry result }
    {
        let charge = local_charge(self.dual.y.as_slice(), uppers);
        quotient(self.at_zero, charge, self.dual.c.as_slice()[0])
    }
}

/// S + T: for each index where more than 0 is allowed, this number times the upper bound at its place; of those in the
/// group G the greatest alone, and of the others the sum.
fn charge(entry: Entry, y: &[(u32, i64)], uppers: &[u32]) -> u128
    requires few { length y.now ≤ MAX_N }
    requires lengths { entry.n ≤ MAX_N }
    requires distances { entry.d ≤ MAX_N }
    ensures value { result ≡ near_charge entry (charges (positive y.now) uppers.now)
        + far_charge entry (charges (positive y.now) uppers.now) }
    ensures small { result ≤ suc MAX_N * 2 ^ 95 }
{
    let mut near: u128 = 0;
    let mut far: u128 = 0;
    let mut taken = 0;
    for (i, number) in y {
        if *number > 0 && taken < uppers.len() {
            let charge = product(*number, uppers[taken]);
            taken += 1;
            if is_far(entry, *i) {
                far = far.max(charge);
            } else {
                near += charge;
            }
        }
    }
    near + far
}

/// The sum of the numbers above 0 that are allowed, each times the upper bound at its place.
fn local_charge(y: &[(u32, i64)], uppers: &[u32]) -> u128
    requires few { length y.now ≤ MAX_N }
    ensures value { result ≡ local_charge y.now uppers.now }
    ensures small { result ≤ suc MAX_N * 2 ^ 95 }
{
    let mut sum: u128 = 0;
    let mut taken = 0;
    for (_, number) in y {
        if *number > 0 && taken < uppers.len() {
            sum += product(*number, uppers[taken]);
            taken += 1;
        }
    }
    sum
}

/// A number that is allowed, times an upper bound.
fn product(number: i64, upper: u32) -> u128
    requires number { pos 1 ≤ℤ number }
    ensures value { result ≡ natural number * upper }
    ensures small { result ≤ 2 ^ 95 }
{
    u128::from(number as u64) * u128::from(upper)
}

/// Whether the index is in the group G, 2t ≥ 2n - d for its distance t.
fn is_far(entry: Entry, i: u32) -> bool
    requires length { entry.n ≤ MAX_N }
    requires distance { entry.d ≤ MAX_N }
    ensures { result ≡ is_far entry i }
{
    2 * u64::from(entry.n) <= 2 * distance_at(entry.w, i) + u64::from(entry.d)
}

/// f(0) + charge.
fn sum(at_zero: i128, charge: u128) -> i128
    requires at_zero { unsigned_abs at_zero < 2 ^ 116 }
    requires charge { charge ≤ suc MAX_N * 2 ^ 95 }
    ensures { result ≡ at_zero +ℤ pos charge }
{
    at_zero + charge as i128
}

/// The least of `MAX_BOUND` and ⌊(f(0) + charge)/c_0⌋.
fn quotient(at_zero: i128, charge: u128, lead: i64) -> u32
    requires lead { pos 1 ≤ℤ lead }
    requires least { lead ≤ℤ at_zero }
    requires at_zero { unsigned_abs at_zero < 2 ^ 116 }
    requires charge { charge ≤ suc MAX_N * 2 ^ 95 }
    ensures value { result ≡ min MAX_BOUND (natural (at_zero +ℤ pos charge) / natural lead) }
    ensures some { 1 ≤ result }
{
    let bound = (at_zero as u128 + charge) / lead as u128;
    bound.min(u128::from(MAX_BOUND)) as u32
}
