//! What the check and the bound answer.

ghost use Rattle.std.specs.Prelude.{◌≡◌, ◌≤◌, true, All};
ghost use Rattle.ct_words.specs.declared.limits.TheConstants.{MAX_BOUND};

use ct_duals::{Allowances, Dual, DualFault, Multipliers, check_dual_of_table};
use ct_words::{Entry, MAX_BOUND};
use std::alloc::{AllocError, Global};

/// What becomes of a dual.
#[derive(Clone, Copy, PartialEq, Eq)]
pub enum Answer {
    /// It has not the form of one.
    Malformed,
    /// It is refused.
    Refused(DualFault),
    /// It is accepted, and the upper bounds are not as many as it rests on, or one is too great.
    OtherPremises,
    /// Its bound from the upper bounds.
    Bound(u32),
}

/// The dual of these multipliers and allowances.
fn dual_of(
    alloc: Global,
    entry: Entry,
    even: bool,
    c: &[i64],
    y: &[(u32, i64)],
) -> Result<Dual, AllocError> {
    let c = Multipliers::from_vec(c.to_vec(alloc)?);
    let y = Allowances::from_vec(y.to_vec(alloc)?);
    Ok(Dual { entry, even, c, y })
}

/// What becomes of the dual, and its bound from the upper bounds.
fn judged(dual: &Dual, uppers: &[u32]) -> Answer {
    if !dual.is_formed() {
        return Answer::Malformed;
    }
    let accepted = match check_dual_of_table(dual) {
        Ok(accepted) => accepted,
        Err(fault) => return Answer::Refused(fault),
    };
    if uppers.len() != dual.premise_count() || !are_bounds(uppers) {
        return Answer::OtherPremises;
    }
    Answer::Bound(accepted.bound(uppers))
}

/// What becomes of the dual of these multipliers and allowances.
pub fn answer_to(
    alloc: Global,
    entry: Entry,
    even: bool,
    c: &[i64],
    y: &[(u32, i64)],
    uppers: &[u32],
) -> Result<Answer, AllocError> {
    let dual = dual_of(alloc, entry, even, c, y)?;
    Ok(judged(&dual, uppers))
}

fn are_bounds(uppers: &[u32]) -> bool
    ensures { result ≡ true → All (λ u. u ≤ MAX_BOUND) uppers.now }
{
    uppers.iter().all(|upper| *upper <= MAX_BOUND)
}
