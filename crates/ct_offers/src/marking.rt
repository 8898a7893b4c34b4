//! The slots at which a better bound of another may lead to something better: they are marked.

ghost use Rattle.std.specs.Prelude.{◌≡◌, suc, true, OnOk};
ghost use Rattle.ct_words.specs.Entry.{IsEntry};
ghost use Rattle.ct_rule_parts.specs.Support.{AllStand};
ghost use Rattle.ct_rules.specs.declared.rule.Rule.{Rule};
ghost use Rattle.ct_rules.specs.Closed.{AreTrue};
ghost use Rattle.ct_rules.specs.Rule.{is_alone};
ghost use Rattle.ct_slots.specs.Number.{bound_of};
ghost use Rattle.ct_slots.specs.Places.{AreSupportPlaces};
ghost use Rattle.ct_offers.specs.Inside.Marking.{KeepsMarks, IsTestedAt, IsTestedFrom, AreTestedByWeight, IsTestedByDual, AreTestedByDuals, AreTestedAtWeights, AreTestedFromDuals, AreTested};

use crate::following::mark_by_resting;
use crate::juxtaposition::mark_juxtaposition;
use crate::pulling::{given_rule, offer};
use ct_rule_parts::dual_behind;
use ct_rules::{Rule, Support, rested_on_by, rule_side};
use ct_slots::{Bounds, SupportPlaces, Worklist, is_better};
use ct_weight_rules::{of_weight, unweighted, unweighted_and_nearer};
use ct_words::{Entry, Side};
use std::alloc::AllocError;

/// Marks an entry of the table that is not settled, where the rule gives something better there.
#[inline(always)]
fn mark_where_better(
    supports: &[Support],
    bounds: &Bounds,
    work: &mut Worklist,
    rule: Rule,
    entry: Entry,
    evaluations: &mut u64,
) -> Result<(), AllocError>
    requires { IsEntry entry }
    ensures tested { OnOk result (IsTestedAt supports.now bounds.now work.new rule entry) }
    ensures kept { KeepsMarks work.old work.new }
{
    let side = rule_side(rule);
    *evaluations = evaluations.saturating_add(1);
    let Some(value) = offer(supports, bounds, rule, entry) else {
        return Ok(());
    };
    if is_better(side, value, bounds.bound(side, entry)) {
        work.mark(side, entry)
    } else {
        Ok(())
    }
}

/// Marks the entry, where it is in the table and the rule gives something better there; it gives nothing better where both
/// bounds of the entry are one.
#[inline(always)]
fn test(
    supports: &[Support],
    bounds: &Bounds,
    work: &mut Worklist,
    rule: Rule,
    entry: Entry,
    evaluations: &mut u64,
) -> Result<(), AllocError>
    requires stand { AllStand supports.now }
    requires true_bounds { AreTrue (bound_of bounds.now) }
    ensures tested { OnOk result (IsTestedAt supports.now bounds.now work.new rule entry) }
    ensures kept { KeepsMarks work.old work.new }
{
    if !entry.in_table() || work.is_marked(rule_side(rule), entry) {
        return Ok(());
    }
    if bounds.is_settled(entry) {
        return Ok(());
    }
    mark_where_better(supports, bounds, work, rule, entry, evaluations)
}

/// Marks the entries that may rest on this one by the rule, where it gives something better there.
#[inline(always)]
pub(crate) fn mark_by_rule(
    supports: &[Support],
    bounds: &Bounds,
    work: &mut Worklist,
    rule: Rule,
    entry: Entry,
    evaluations: &mut u64,
) -> Result<(), AllocError>
    requires entry { IsEntry entry }
    requires alone { is_alone rule ≡ true }
    requires stand { AllStand supports.now }
    requires true_bounds { AreTrue (bound_of bounds.now) }
    ensures tested { OnOk result (IsTestedFrom supports.now bounds.now work.new entry rule) }
    ensures kept { KeepsMarks work.old work.new }
{
    let dependents = rested_on_by(rule, entry);
    for k in 0..dependents.len() {
        let Some(dependent) = dependents.get(k) else {
            return Ok(());
        };
        test(supports, bounds, work, rule, dependent, evaluations)?;
    }
    Ok(())
}

/// Marks the entries without weight that rest on this one by a rule that leads from entries with weight to those, where it gives
/// something better there.
fn mark_by_weight(
    supports: &[Support],
    bounds: &Bounds,
    work: &mut Worklist,
    side: Side,
    entry: Entry,
    evaluations: &mut u64,
) -> Result<(), AllocError>
    requires entry { IsEntry entry }
    requires stand { AllStand supports.now }
    requires true_bounds { AreTrue (bound_of bounds.now) }
    ensures tested { OnOk result (AreTestedByWeight supports.now bounds.now work.new (side, entry)) }
    ensures kept { KeepsMarks work.old work.new }
{
    let Some(w) = entry.w else {
        return Ok(());
    };
    let same = unweighted(entry);
    let nearer = unweighted_and_nearer(entry);
    match side {
        Side::Lower => {
            test(supports, bounds, work, Rule::L9(w), same, evaluations)?;
            test(supports, bounds, work, Rule::L9(w), nearer, evaluations)
        }
        Side::Upper => {
            test(supports, bounds, work, Rule::U10(w), same, evaluations)?;
            // Words at an odd distance from a word have that weight.
            if w + 1 != entry.d {
                return Ok(());
            }
            test(supports, bounds, work, Rule::U9, nearer, evaluations)
        }
    }
}

/// Marks the entry, where the dual that the support at the place has there rests on the other one and something better is given by it.
fn mark_by_dual(
    supports: &[Support],
    bounds: &Bounds,
    work: &mut Worklist,
    entry: Entry,
    place: u32,
    from: Entry,
    evaluations: &mut u64,
) -> Result<(), AllocError>
    requires stand { AllStand supports.now }
    requires true_bounds { AreTrue (bound_of bounds.now) }
    ensures tested { OnOk result (IsTestedByDual supports.now bounds.now work.new from entry place) }
    ensures kept { KeepsMarks work.old work.new }
{
    let Some(dual) = dual_behind(supports, place as usize, entry) else {
        return Ok(());
    };
    if !dual.rests_on(from) {
        return Ok(());
    }
    let rule = given_rule(supports, Side::Upper, entry, place);
    test(supports, bounds, work, rule, entry, evaluations)
}

/// Marks the entry, where one of the duals that supports have there rests on the other one and something better is given by it. It looks at
/// the supports of the entry alone.
fn mark_by_duals(
    supports: &[Support],
    places: &SupportPlaces,
    bounds: &Bounds,
    work: &mut Worklist,
    entry: Entry,
    from: Entry,
    evaluations: &mut u64,
) -> Result<(), AllocError>
    requires places { AreSupportPlaces supports.now places.now }
    requires stand { AllStand supports.now }
    requires true_bounds { AreTrue (bound_of bounds.now) }
    ensures tested { OnOk result (AreTestedByDuals supports.now bounds.now work.new from entry) }
    ensures kept { KeepsMarks work.old work.new }
{
    if !entry.in_table() {
        return Ok(());
    }
    let mut next = places.last(entry);
    while let Some(place) = next {
        mark_by_dual(supports, bounds, work, entry, place, from, evaluations)?;
        next = places.before(place);
    }
    Ok(())
}

/// Marks the entries of the same length and distance, of each weight, that rest on this one by a dual, where it gives something better there.
fn mark_each_weight(
    supports: &[Support],
    places: &SupportPlaces,
    bounds: &Bounds,
    work: &mut Worklist,
    entry: Entry,
    evaluations: &mut u64,
) -> Result<(), AllocError>
    requires entry { IsEntry entry }
    requires places { AreSupportPlaces supports.now places.now }
    requires stand { AllStand supports.now }
    requires true_bounds { AreTrue (bound_of bounds.now) }
    ensures tested { OnOk result (AreTestedAtWeights supports.now bounds.now work.new entry (suc entry.n)) }
    ensures kept { KeepsMarks work.old work.new }
{
    let Some(weight) = entry.w else {
        return Ok(());
    };
    // A dual of an entry with weight rests on even weights, which are distances of two of its words.
    if weight % 2 == 1 {
        return Ok(());
    }
    for w in 0..entry.n + 1 {
        let other = of_weight(entry, w);
        mark_by_duals(supports, places, bounds, work, other, entry, evaluations)?;
    }
    Ok(())
}

/// Marks the entries that rest on this one by a dual, where it gives something better there.
fn mark_from_duals(
    supports: &[Support],
    places: &SupportPlaces,
    bounds: &Bounds,
    work: &mut Worklist,
    entry: Entry,
    evaluations: &mut u64,
) -> Result<(), AllocError>
    requires entry { IsEntry entry }
    requires places { AreSupportPlaces supports.now places.now }
    requires stand { AllStand supports.now }
    requires true_bounds { AreTrue (bound_of bounds.now) }
    ensures tested { OnOk result (AreTestedFromDuals supports.now bounds.now work.new entry) }
    ensures kept { KeepsMarks work.old work.new }
{
    if supports.is_empty() {
        return Ok(());
    }
    let same = unweighted(entry);
    let nearer = unweighted_and_nearer(entry);
    mark_by_duals(supports, places, bounds, work, same, entry, evaluations)?;
    mark_by_duals(supports, places, bounds, work, nearer, entry, evaluations)?;
    mark_each_weight(supports, places, bounds, work, entry, evaluations)
}

/// Marks the slots that rest on this one, where a rule gives something better there; `evaluations` grows by one for each rule that is asked for
/// its bound, whether it gives one or not, and stays at its greatest value. After an `Err`, which is want of memory, some may be marked.
pub fn mark_dependents(
    supports: &[Support],
    places: &SupportPlaces,
    bounds: &Bounds,
    work: &mut Worklist,
    side: Side,
    entry: Entry,
    evaluations: &mut u64,
) -> Result<(), AllocError>
    requires entry { IsEntry entry }
    requires places { AreSupportPlaces supports.now places.now }
    requires stand { AllStand supports.now }
    requires true_bounds { AreTrue (bound_of bounds.now) }
    ensures tested { OnOk result (AreTested supports.now bounds.now work.new (side, entry)) }
    ensures kept { KeepsMarks work.old work.new }
{
    mark_by_resting(supports, bounds, work, side, entry, evaluations)?;
    mark_by_weight(supports, bounds, work, side, entry, evaluations)?;
    match (side, entry.w) {
        (Side::Lower, None) => mark_juxtaposition(bounds, work, entry, evaluations),
        (Side::Lower, Some(_)) => Ok(()),
        (Side::Upper, None) => Ok(()),
        (Side::Upper, Some(_)) => {
            mark_from_duals(supports, places, bounds, work, entry, evaluations)
        }
    }
}
