//! Words of two codes side by side, in the closing of a table: two bounds and the least of them. Other ways than those of these
//! loops lay one word side by side at most, since one of the codes has a distance above its length, or two, since one has so great a distance
//! for its length.

ghost use Rattle.std.specs.Prelude.{◌≡◌, ◌<◌, ◌≤◌, ◌+◌, ℕ, List, None, OnOk, min};
ghost use Rattle.ct_words.specs.declared.limits.TheConstants.{MAX_N};
ghost use Rattle.ct_words.specs.declared.claim.Side.TheVariants.{Lower};
ghost use Rattle.ct_words.specs.Entry.{IsEntry, unrestricted};
ghost use Rattle.ct_rule_parts.specs.declared.support.Support.{Support};
ghost use Rattle.ct_rule_parts.specs.Slot.{lower_at};
ghost use Rattle.ct_rules.specs.declared.rule.Rule.TheVariants.{L11};
ghost use Rattle.ct_rules.specs.Closed.{AreTrue};
ghost use Rattle.ct_slots.specs.Number.{bound_of};
ghost use Rattle.ct_offers.specs.Inside.Marking.{KeepsMarks, AreTestedJuxtaposition, AreTestedAtLength, IsTestedAtSum};
ghost use Rattle.ct_offers.specs.Offers.{IsWithin};
ghost use Rattle.ct_offers.specs.Inside.Pulled.{IsPulled};

use crate::best::Best;
use ct_rules::Rule;
use ct_slots::{Bounds, Worklist};
use ct_words::{Entry, MAX_N, Side};
use std::alloc::AllocError;

/// The lower bound of A(n,d) that stands.
fn plain_bound(bounds: &Bounds, n: u32, d: u32) -> u32
    requires { IsEntry (unrestricted n d) }
    ensures { result ≡ bound_of bounds.now (lower_at n d) }
{
    bounds.bound(Side::Lower, Entry { n, d, w: None })
}

/// Asks for what words of a first code of length m give beside those of another. Where thrice the distance of a code is above twice its
/// length it has two words at most.
fn best_with_first(bounds: &Bounds, entry: Entry, m: u32, best: &mut Best, evaluations: &mut u64)
    requires entry { IsEntry entry }
    requires plain { entry.w ≡ None }
    requires from { 3 ≤ m }
    requires to { m + 3 ≤ entry.n }
    requires true_bounds { AreTrue (bound_of bounds.now) }
    requires some { 1 ≤ best.old.value }
    requires two { entry.d ≤ entry.n → 2 ≤ best.old.value }
    ensures pulled { (supports : List Support) → IsPulled supports (bound_of bounds.now) (Lower, entry) best.old best.new }
    ensures within { (supports : List Support) (c : ℕ) → IsWithin supports (bound_of bounds.now) (Lower, entry) best.new.value (L11 m c) }
{
    let rest = entry.n - m;
    let from = entry.d.saturating_sub(2 * rest / 3).max(3);
    let end = (2 * m / 3 + 1).min(entry.d - 2);
    *evaluations = evaluations.saturating_add(u64::from(end.saturating_sub(from)));
    for c in from..end {
        let value = plain_bound(bounds, m, c).min(plain_bound(bounds, rest, entry.d - c));
        best.consider(Side::Lower, Rule::L11(m, c), Some(value));
    }
}

/// Asks for what words side by side give at an entry without weight.
pub(crate) fn best_juxtaposition(
    bounds: &Bounds,
    entry: Entry,
    best: &mut Best,
    evaluations: &mut u64,
)
    requires entry { IsEntry entry }
    requires plain { entry.w ≡ None }
    requires true_bounds { AreTrue (bound_of bounds.now) }
    requires some { 1 ≤ best.old.value }
    requires two { entry.d ≤ entry.n → 2 ≤ best.old.value }
    ensures pulled { (supports : List Support) → IsPulled supports (bound_of bounds.now) (Lower, entry) best.old best.new }
    ensures within { (supports : List Support) (m c : ℕ) → IsWithin supports (bound_of bounds.now) (Lower, entry) best.new.value (L11 m c) }
{
    // Then thrice the distance of one of the codes is above twice its length.
    if 3 * entry.d > 2 * entry.n {
        return;
    }
    // The codes in the other order give the same.
    for m in 3..entry.n / 2 + 1 {
        best_with_first(bounds, entry, m, best, evaluations);
    }
}

/// Marks A(n,d) where words of the entry's code, which are as many as its own bound says, side by side with others give something better there.
fn mark_sum(
    bounds: &Bounds,
    work: &mut Worklist,
    entry: Entry,
    own: u32,
    n: u32,
    d: u32,
) -> Result<(), AllocError>
    requires entry { IsEntry entry }
    requires plain { entry.w ≡ None }
    requires longer { IsEntry (unrestricted n d) }
    requires n { entry.n < n }
    requires d { entry.d + 3 ≤ d }
    requires own { own ≡ bound_of bounds.now (lower_at entry.n entry.d) }
    requires true_bounds { AreTrue (bound_of bounds.now) }
    ensures tested { OnOk result (IsTestedAtSum bounds.now work.new entry n d) }
    ensures kept { KeepsMarks work.old work.new }
{
    let other = plain_bound(bounds, n - entry.n, d - entry.d);
    if own.min(other) <= plain_bound(bounds, n, d) {
        return Ok(());
    }
    let sum = Entry { n, d, w: None };
    if work.is_marked(Side::Lower, sum) {
        return Ok(());
    }
    work.mark(Side::Lower, sum)
}

/// Marks the entries of length n at which words of the entry's code side by side with others give something better.
fn mark_sums_of_length(
    bounds: &Bounds,
    work: &mut Worklist,
    entry: Entry,
    n: u32,
    evaluations: &mut u64,
) -> Result<(), AllocError>
    requires entry { IsEntry entry }
    requires plain { entry.w ≡ None }
    requires from { entry.n + 3 ≤ n }
    requires to { n ≤ MAX_N }
    requires true_bounds { AreTrue (bound_of bounds.now) }
    ensures tested { OnOk result (AreTestedAtLength bounds.now work.new entry n) }
    ensures kept { KeepsMarks work.old work.new }
{
    let own = plain_bound(bounds, entry.n, entry.d);
    let from = entry.d + 3;
    let end = (entry.d + (n - entry.n)).min(MAX_N) + 1;
    *evaluations = evaluations.saturating_add(u64::from(end.saturating_sub(from)));
    for d in from..end {
        mark_sum(bounds, work, entry, own, n, d)?;
    }
    Ok(())
}

/// Marks the entries at which words side by side give something better, one of whose codes is one of the entry, which has no
/// weight. After an `Err`, which is want of memory, some may be marked.
pub(crate) fn mark_juxtaposition(
    bounds: &Bounds,
    work: &mut Worklist,
    entry: Entry,
    evaluations: &mut u64,
) -> Result<(), AllocError>
    requires entry { IsEntry entry }
    requires plain { entry.w ≡ None }
    requires true_bounds { AreTrue (bound_of bounds.now) }
    ensures tested { OnOk result (AreTestedJuxtaposition bounds.now work.new entry) }
    ensures kept { KeepsMarks work.old work.new }
{
    if entry.d > entry.n {
        return Ok(());
    }
    for n in entry.n + 3..MAX_N + 1 {
        mark_sums_of_length(bounds, work, entry, n, evaluations)?;
    }
    Ok(())
}
