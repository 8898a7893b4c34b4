//! The rules with neither numbers nor a support that rest on a bound, asked one after the other: each is named where it is asked, so that
//! nothing is chosen by the rule once the program is built.

ghost use Rattle.std.specs.Prelude.{All, drop, take};
ghost use Rattle.ct_words.specs.declared.claim.Side.TheVariants.{Lower, Upper};
ghost use Rattle.ct_words.specs.Entry.{IsEntry};
ghost use Rattle.ct_rules.specs.declared.rule.TheConstants.{LOWER_RULES, UPPER_RULES, LOWER_WEIGHT_RULES, UPPER_WEIGHT_RULES};
ghost use Rattle.ct_slots.specs.Number.{bound_of};
ghost use Rattle.ct_offers.specs.Offers.{IsWithin};
ghost use Rattle.ct_offers.specs.Inside.Pulled.{IsPulled, resting_rules};

use crate::best::Best;
use crate::pulling::ask_own;
use ct_rules::{Rule, Support};
use ct_slots::Bounds;
use ct_words::{Entry, Side};

/// Asks each rule that bounds A(n,d) from below by bounds of other entries.
fn ask_lower(
    supports: &[Support],
    bounds: &Bounds,
    entry: Entry,
    best: &mut Best,
    evaluations: &mut u64,
)
    requires { IsEntry entry }
    ensures pulled { IsPulled supports.now (bound_of bounds.now) (Lower, entry) best.old best.new }
    ensures within { All (IsWithin supports.now (bound_of bounds.now) (Lower, entry) best.new.value) (drop 2 LOWER_RULES) }
{
    *evaluations = evaluations.saturating_add(6);
    ask_own(supports, bounds, Rule::L3, entry, best);
    ask_own(supports, bounds, Rule::L4, entry, best);
    ask_own(supports, bounds, Rule::L5, entry, best);
    ask_own(supports, bounds, Rule::L6, entry, best);
    ask_own(supports, bounds, Rule::L7, entry, best);
    ask_own(supports, bounds, Rule::L8, entry, best);
}

/// Asks each rule that bounds A(n,d,w) from below by bounds of other entries.
fn ask_lower_with_weight(
    supports: &[Support],
    bounds: &Bounds,
    entry: Entry,
    best: &mut Best,
    evaluations: &mut u64,
)
    requires { IsEntry entry }
    ensures pulled { IsPulled supports.now (bound_of bounds.now) (Lower, entry) best.old best.new }
    ensures within { All (IsWithin supports.now (bound_of bounds.now) (Lower, entry) best.new.value) (drop 2 LOWER_WEIGHT_RULES) }
{
    *evaluations = evaluations.saturating_add(6);
    ask_own(supports, bounds, Rule::M3, entry, best);
    ask_own(supports, bounds, Rule::M4, entry, best);
    ask_own(supports, bounds, Rule::M5, entry, best);
    ask_own(supports, bounds, Rule::M6, entry, best);
    ask_own(supports, bounds, Rule::M7, entry, best);
    ask_own(supports, bounds, Rule::M8, entry, best);
}

/// Asks each rule that bounds A(n,d) from above by bounds of other entries.
fn ask_upper(
    supports: &[Support],
    bounds: &Bounds,
    entry: Entry,
    best: &mut Best,
    evaluations: &mut u64,
)
    requires { IsEntry entry }
    ensures pulled { IsPulled supports.now (bound_of bounds.now) (Upper, entry) best.old best.new }
    ensures within { All (IsWithin supports.now (bound_of bounds.now) (Upper, entry) best.new.value) (drop 4 UPPER_RULES) }
{
    *evaluations = evaluations.saturating_add(5);
    ask_own(supports, bounds, Rule::U4, entry, best);
    ask_own(supports, bounds, Rule::U5, entry, best);
    ask_own(supports, bounds, Rule::U6, entry, best);
    ask_own(supports, bounds, Rule::U7, entry, best);
    ask_own(supports, bounds, Rule::U8, entry, best);
}

/// Asks each rule that bounds A(n,d,w) from above by bounds of other entries.
fn ask_upper_with_weight(
    supports: &[Support],
    bounds: &Bounds,
    entry: Entry,
    best: &mut Best,
    evaluations: &mut u64,
)
    requires { IsEntry entry }
    ensures pulled { IsPulled supports.now (bound_of bounds.now) (Upper, entry) best.old best.new }
    ensures within { All (IsWithin supports.now (bound_of bounds.now) (Upper, entry) best.new.value) (take 5 (drop 3 UPPER_WEIGHT_RULES)) }
{
    *evaluations = evaluations.saturating_add(5);
    ask_own(supports, bounds, Rule::V3, entry, best);
    ask_own(supports, bounds, Rule::V4, entry, best);
    ask_own(supports, bounds, Rule::V5, entry, best);
    ask_own(supports, bounds, Rule::V6, entry, best);
    ask_own(supports, bounds, Rule::V7, entry, best);
}

/// Asks each rule of the slot with neither numbers nor a support that rests on a bound.
pub(crate) fn ask_resting(
    supports: &[Support],
    bounds: &Bounds,
    side: Side,
    entry: Entry,
    best: &mut Best,
    evaluations: &mut u64,
)
    requires { IsEntry entry }
    ensures pulled { IsPulled supports.now (bound_of bounds.now) (side, entry) best.old best.new }
    ensures within { All (IsWithin supports.now (bound_of bounds.now) (side, entry) best.new.value) (resting_rules (side, entry)) }
{
    match (side, entry.w) {
        (Side::Lower, None) => ask_lower(supports, bounds, entry, best, evaluations),
        (Side::Lower, Some(_)) => {
            ask_lower_with_weight(supports, bounds, entry, best, evaluations)
        }
        (Side::Upper, None) => ask_upper(supports, bounds, entry, best, evaluations),
        (Side::Upper, Some(_)) => {
            ask_upper_with_weight(supports, bounds, entry, best, evaluations)
        }
    }
}
