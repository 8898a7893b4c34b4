//! The slots that rest on one by a rule with neither numbers nor a support, marked where it gives something better there. Each rule is named, as
//! where it is asked.

ghost use Rattle.std.specs.Prelude.{OnOk, All, drop, take};
ghost use Rattle.ct_words.specs.Entry.{IsEntry};
ghost use Rattle.ct_rule_parts.specs.Support.{AllStand};
ghost use Rattle.ct_rules.specs.declared.rule.TheConstants.{LOWER_RULES, UPPER_RULES, LOWER_WEIGHT_RULES, UPPER_WEIGHT_RULES};
ghost use Rattle.ct_rules.specs.Closed.{AreTrue};
ghost use Rattle.ct_rules.specs.Listing.{rules_alone};
ghost use Rattle.ct_slots.specs.Number.{bound_of};
ghost use Rattle.ct_offers.specs.Inside.Marking.{KeepsMarks, IsTestedFrom};

use crate::marking::mark_by_rule;
use ct_rules::{Rule, Support};
use ct_slots::{Bounds, Worklist};
use ct_words::{Entry, Side};
use std::alloc::AllocError;

/// Marks the entries that rest on this one by a rule that bounds A(n,d) from below, where it gives something better there.
fn mark_by_lower(
    supports: &[Support],
    bounds: &Bounds,
    work: &mut Worklist,
    entry: Entry,
    evaluations: &mut u64,
) -> Result<(), AllocError>
    requires entry { IsEntry entry }
    requires stand { AllStand supports.now }
    requires true_bounds { AreTrue (bound_of bounds.now) }
    ensures tested { OnOk result (All (IsTestedFrom supports.now bounds.now work.new entry) (drop 2 LOWER_RULES)) }
    ensures kept { KeepsMarks work.old work.new }
{
    mark_by_rule(supports, bounds, work, Rule::L3, entry, evaluations)?;
    mark_by_rule(supports, bounds, work, Rule::L4, entry, evaluations)?;
    mark_by_rule(supports, bounds, work, Rule::L5, entry, evaluations)?;
    mark_by_rule(supports, bounds, work, Rule::L6, entry, evaluations)?;
    mark_by_rule(supports, bounds, work, Rule::L7, entry, evaluations)?;
    mark_by_rule(supports, bounds, work, Rule::L8, entry, evaluations)
}

/// Marks the entries that rest on this one by a rule that bounds A(n,d,w) from below, where it gives something better there.
fn mark_by_lower_with_weight(
    supports: &[Support],
    bounds: &Bounds,
    work: &mut Worklist,
    entry: Entry,
    evaluations: &mut u64,
) -> Result<(), AllocError>
    requires entry { IsEntry entry }
    requires stand { AllStand supports.now }
    requires true_bounds { AreTrue (bound_of bounds.now) }
    ensures tested { OnOk result (All (IsTestedFrom supports.now bounds.now work.new entry) (drop 2 LOWER_WEIGHT_RULES)) }
    ensures kept { KeepsMarks work.old work.new }
{
    mark_by_rule(supports, bounds, work, Rule::M3, entry, evaluations)?;
    mark_by_rule(supports, bounds, work, Rule::M4, entry, evaluations)?;
    mark_by_rule(supports, bounds, work, Rule::M5, entry, evaluations)?;
    mark_by_rule(supports, bounds, work, Rule::M6, entry, evaluations)?;
    mark_by_rule(supports, bounds, work, Rule::M7, entry, evaluations)?;
    mark_by_rule(supports, bounds, work, Rule::M8, entry, evaluations)
}

/// Marks the entries that rest on this one by a rule that bounds A(n,d) from above, where it gives something better there.
fn mark_by_upper(
    supports: &[Support],
    bounds: &Bounds,
    work: &mut Worklist,
    entry: Entry,
    evaluations: &mut u64,
) -> Result<(), AllocError>
    requires entry { IsEntry entry }
    requires stand { AllStand supports.now }
    requires true_bounds { AreTrue (bound_of bounds.now) }
    ensures tested { OnOk result (All (IsTestedFrom supports.now bounds.now work.new entry) (drop 4 UPPER_RULES)) }
    ensures kept { KeepsMarks work.old work.new }
{
    mark_by_rule(supports, bounds, work, Rule::U4, entry, evaluations)?;
    mark_by_rule(supports, bounds, work, Rule::U5, entry, evaluations)?;
    mark_by_rule(supports, bounds, work, Rule::U6, entry, evaluations)?;
    mark_by_rule(supports, bounds, work, Rule::U7, entry, evaluations)?;
    mark_by_rule(supports, bounds, work, Rule::U8, entry, evaluations)
}

/// Marks the entries that rest on this one by a rule that bounds A(n,d,w) from above, where it gives something better there.
fn mark_by_upper_with_weight(
    supports: &[Support],
    bounds: &Bounds,
    work: &mut Worklist,
    entry: Entry,
    evaluations: &mut u64,
) -> Result<(), AllocError>
    requires entry { IsEntry entry }
    requires stand { AllStand supports.now }
    requires true_bounds { AreTrue (bound_of bounds.now) }
    ensures tested { OnOk result (All (IsTestedFrom supports.now bounds.now work.new entry) (take 5 (drop 3 UPPER_WEIGHT_RULES))) }
    ensures kept { KeepsMarks work.old work.new }
{
    mark_by_rule(supports, bounds, work, Rule::V3, entry, evaluations)?;
    mark_by_rule(supports, bounds, work, Rule::V4, entry, evaluations)?;
    mark_by_rule(supports, bounds, work, Rule::V5, entry, evaluations)?;
    mark_by_rule(supports, bounds, work, Rule::V6, entry, evaluations)?;
    mark_by_rule(supports, bounds, work, Rule::V7, entry, evaluations)
}

/// Marks the entries that rest on a slot by a rule with neither numbers nor a support, where it gives something better there.
pub(crate) fn mark_by_resting(
    supports: &[Support],
    bounds: &Bounds,
    work: &mut Worklist,
    side: Side,
    entry: Entry,
    evaluations: &mut u64,
) -> Result<(), AllocError>
    requires entry { IsEntry entry }
    requires stand { AllStand supports.now }
    requires true_bounds { AreTrue (bound_of bounds.now) }
    ensures tested { OnOk result (All (IsTestedFrom supports.now bounds.now work.new entry) (rules_alone (side, entry))) }
    ensures kept { KeepsMarks work.old work.new }
{
    match (side, entry.w) {
        (Side::Lower, None) => mark_by_lower(supports, bounds, work, entry, evaluations),
        (Side::Lower, Some(_)) => {
            mark_by_lower_with_weight(supports, bounds, work, entry, evaluations)
        }
        (Side::Upper, None) => mark_by_upper(supports, bounds, work, entry, evaluations),
        (Side::Upper, Some(_)) => {
            mark_by_upper_with_weight(supports, bounds, work, entry, evaluations)
        }
    }
}
