//! The best bound that the rules give at a slot over what stands.

ghost use Rattle.std.specs.Prelude.{◌≡◌, ◌<◌, ◌≤◌, ◌^◌, ◌∷◌, [], ℕ, List, true, false, if◌then◌else◌, Some, None, IfSome, All, take, map, length, slice_get};
ghost use Rattle.ct_words.specs.declared.limits.TheConstants.{MAX_BOUND, MAX_N};
ghost use Rattle.ct_words.specs.declared.claim.Side.TheVariants.{Lower, Upper};
ghost use Rattle.ct_words.specs.Entry.{IsEntry, is_entry};
ghost use Rattle.ct_rule_parts.specs.Parts.{are_entries, slots_on};
ghost use Rattle.ct_duals.specs.Bound.{dual_premises};
ghost use Rattle.ct_rule_parts.specs.Slot.{IsNoBetter};
ghost use Rattle.ct_rule_parts.specs.Support.{AllStand};
ghost use Rattle.ct_rules.specs.declared.rule.Rule.{Rule};
ghost use Rattle.ct_rules.specs.declared.rule.Rule.TheVariants.{L9, L11, U10};
ghost use Rattle.ct_rules.specs.Closed.{AreTrue};
ghost use Rattle.ct_rules.specs.Listing.{rules_alone};
ghost use Rattle.ct_rules.specs.Rule.{rule_side, is_by_weight, parts_over};
ghost use Rattle.ct_slots.specs.Number.{bound_of};
ghost use Rattle.ct_slots.specs.Places.{AreSupportPlaces};
ghost use Rattle.ct_offers.specs.Offers.{value_over, AreGrounded, IsGiven, IsLimit, IsWithin};
ghost use Rattle.ct_offers.specs.Inside.Pulled.{IsPulled, bounding_rule, bounding_rule_of_weight, given_rule};

use crate::best::Best;
use crate::juxtaposition::best_juxtaposition;
use crate::resting::ask_resting;
use ct_rule_parts::AcceptedDual;
use ct_rules::{Entries, Rule, Support, rests_on, rule_side, value_where_defined};
use ct_slots::{Bounds, SupportPlaces};
use ct_words::{Entry, MAX_N, Side};

/// The bound that stands on a side of an entry, where it is in the table.
#[inline(always)]
fn bound_in_table(bounds: &Bounds, side: Side, entry: Entry) -> Option<u32>
    ensures { result ≡ (if is_entry entry then Some (bound_of bounds.now (side, entry)) else None) }
{
    if entry.in_table() {
        Some(bounds.bound(side, entry))
    } else {
        None
    }
}

/// Puts the bounds that stand on a side of what a dual rests on into the row, in order, and tells how many they are.
fn put_bounds(bounds: &Bounds, side: Side, dual: &AcceptedDual, row: &mut [u32]) -> usize
    requires { length row.old ≡ MAX_N }
    ensures count { result ≡ length (dual_premises dual.now.dual) }
    ensures few { result ≤ length row.new }
    ensures bounds { take (length (dual_premises dual.now.dual)) row.new ≡ map (bound_of bounds.now) (slots_on side (dual_premises dual.now.dual)) }
    ensures in_table { are_entries (dual_premises dual.now.dual) ≡ true }
{
    let count = dual.premise_count();
    for place in 0..count {
        let Some(entry) = dual.premise(place) else {
            return count;
        };
        row[place] = bounds.bound(side, entry);
    }
    count
}

/// The bound that a rule that rests on what a dual does gives at an entry of the table over what stands.
fn offer_of_dual(
    supports: &[Support],
    bounds: &Bounds,
    rule: Rule,
    entry: Entry,
    dual: &AcceptedDual,
) -> Option<u32>
    requires entry { IsEntry entry }
    requires condition { (parts_over supports.now rule).condition entry ≡ true }
    requires rests_on { (parts_over supports.now rule).rests_on entry ≡ dual_premises dual.now.dual }
    ensures value { result ≡ value_over supports.now (bound_of bounds.now) rule entry }
    ensures limit { IfSome result (λ v. v ≤ MAX_BOUND) }
{
    let mut values = [0; MAX_N as usize];
    let count = put_bounds(bounds, rule_side(rule), dual, &mut values);
    value_where_defined(supports, rule, entry, &values[..count])
}

/// The bound that a rule that rests on one entry gives at an entry of the table over what stands.
#[inline(always)]
fn offer_of_one(
    supports: &[Support],
    bounds: &Bounds,
    rule: Rule,
    entry: Entry,
    first: Entry,
) -> Option<u32>
    requires entry { IsEntry entry }
    requires condition { (parts_over supports.now rule).condition entry ≡ true }
    requires rests_on { (parts_over supports.now rule).rests_on entry ≡ first ∷ [] }
    ensures value { result ≡ value_over supports.now (bound_of bounds.now) rule entry }
    ensures limit { IfSome result (λ v. v ≤ MAX_BOUND) }
{
    let values = [bound_in_table(bounds, rule_side(rule), first)?];
    value_where_defined(supports, rule, entry, &values)
}

/// The bound that a rule that rests on two entries gives at an entry of the table over what stands.
#[inline(always)]
fn offer_of_two(
    supports: &[Support],
    bounds: &Bounds,
    rule: Rule,
    entry: Entry,
    first: Entry,
    second: Entry,
) -> Option<u32>
    requires entry { IsEntry entry }
    requires condition { (parts_over supports.now rule).condition entry ≡ true }
    requires rests_on { (parts_over supports.now rule).rests_on entry ≡ first ∷ second ∷ [] }
    ensures value { result ≡ value_over supports.now (bound_of bounds.now) rule entry }
    ensures limit { IfSome result (λ v. v ≤ MAX_BOUND) }
{
    let side = rule_side(rule);
    let values = [
        bound_in_table(bounds, side, first)?,
        bound_in_table(bounds, side, second)?,
    ];
    value_where_defined(supports, rule, entry, &values)
}

/// The bound that a rule that rests on three entries gives at an entry of the table over what stands.
fn offer_of_three(
    supports: &[Support],
    bounds: &Bounds,
    rule: Rule,
    entry: Entry,
    first: Entry,
    second: Entry,
    third: Entry,
) -> Option<u32>
    requires entry { IsEntry entry }
    requires condition { (parts_over supports.now rule).condition entry ≡ true }
    requires rests_on { (parts_over supports.now rule).rests_on entry ≡ first ∷ second ∷ third ∷ [] }
    ensures value { result ≡ value_over supports.now (bound_of bounds.now) rule entry }
    ensures limit { IfSome result (λ v. v ≤ MAX_BOUND) }
{
    let side = rule_side(rule);
    let values = [
        bound_in_table(bounds, side, first)?,
        bound_in_table(bounds, side, second)?,
        bound_in_table(bounds, side, third)?,
    ];
    value_where_defined(supports, rule, entry, &values)
}

/// The bound that the rule gives at an entry of the table over what stands. It takes no memory.
#[inline(always)]
pub fn offer(supports: &[Support], bounds: &Bounds, rule: Rule, entry: Entry) -> Option<u32>
    requires { IsEntry entry }
    ensures value { result ≡ value_over supports.now (bound_of bounds.now) rule entry }
    ensures limit { IfSome result (λ v. v ≤ MAX_BOUND) }
{
    match rests_on(supports, rule, entry)? {
        Entries::Zero => value_where_defined(supports, rule, entry, &[]),
        Entries::One(first) => offer_of_one(supports, bounds, rule, entry, first),
        Entries::Two(first, second) => {
            offer_of_two(supports, bounds, rule, entry, first, second)
        }
        Entries::Three(first, second, third) => {
            offer_of_three(supports, bounds, rule, entry, first, second, third)
        }
        Entries::OfDual(dual) => offer_of_dual(supports, bounds, rule, entry, dual),
    }
}

/// Asks a rule for its bound over what stands.
#[inline(always)]
fn ask(supports: &[Support], bounds: &Bounds, rule: Rule, side: Side, entry: Entry, best: &mut Best)
    requires entry { IsEntry entry }
    requires side { rule_side rule ≡ side }
    ensures pulled { IsPulled supports.now (bound_of bounds.now) (side, entry) best.old best.new }
    ensures within { IsWithin supports.now (bound_of bounds.now) (side, entry) best.new.value rule }
{
    best.consider(side, rule, offer(supports, bounds, rule, entry));
}

/// Asks a rule for its bound over what stands, on its own side.
#[inline(always)]
pub(crate) fn ask_own(
    supports: &[Support],
    bounds: &Bounds,
    rule: Rule,
    entry: Entry,
    best: &mut Best,
)
    requires { IsEntry entry }
    ensures pulled { IsPulled supports.now (bound_of bounds.now) (rule_side rule, entry) best.old best.new }
    ensures within { IsWithin supports.now (bound_of bounds.now) (rule_side rule, entry) best.new.value rule }
{
    let side = rule_side(rule);
    ask(supports, bounds, rule, side, entry, best);
}

/// The bound that stands on the other side of an entry of the table: no rule gives anything better, as both are true.
fn limit_of(bounds: &Bounds, side: Side, entry: Entry) -> u32
    requires { IsEntry entry }
    ensures { (supports : List Support) → AllStand supports → AreTrue (bound_of bounds.now) → IsLimit supports (bound_of bounds.now) (side, entry) result }
{
    match side {
        Side::Lower => bounds.bound(Side::Upper, entry),
        Side::Upper => bounds.bound(Side::Lower, entry),
    }
}

/// Asks each rule of the slot with neither numbers nor a support, but those that rest on nothing: what stands there is no worse than what
/// they give.
fn ask_alone(
    supports: &[Support],
    bounds: &Bounds,
    side: Side,
    entry: Entry,
    best: &mut Best,
    evaluations: &mut u64,
)
    requires entry { IsEntry entry }
    requires grounded { AreGrounded supports.now (bound_of bounds.now) }
    requires standing { IsNoBetter side (bound_of bounds.now (side, entry)) best.old.value }
    ensures pulled { IsPulled supports.now (bound_of bounds.now) (side, entry) best.old best.new }
    ensures within { All (IsWithin supports.now (bound_of bounds.now) (side, entry) best.new.value) (rules_alone (side, entry)) }
{
    ask_resting(supports, bounds, side, entry, best, evaluations);
}

/// Asks for what the lower bound of each weight gives at an entry without weight.
fn ask_lower_weights(
    supports: &[Support],
    bounds: &Bounds,
    entry: Entry,
    best: &mut Best,
    evaluations: &mut u64,
)
    requires entry { IsEntry entry }
    requires true_bounds { AreTrue (bound_of bounds.now) }
    requires some { 1 ≤ best.old.value }
    ensures pulled { IsPulled supports.now (bound_of bounds.now) (Lower, entry) best.old best.new }
    ensures within { (w : ℕ) → w ≤ entry.n → IsWithin supports.now (bound_of bounds.now) (Lower, entry) best.new.value (L9 w) }
{
    // Of words with fewer ones than that, or fewer zeros, no two are so far apart.
    let half = entry.d.div_ceil(2);
    for w in half..(entry.n + 1).saturating_sub(half) {
        *evaluations = evaluations.saturating_add(1);
        ask_own(supports, bounds, Rule::L9(w), entry, best);
    }
}

/// Asks for what the upper bound of each weight gives at an entry without weight.
fn ask_upper_weights(
    supports: &[Support],
    bounds: &Bounds,
    entry: Entry,
    best: &mut Best,
    evaluations: &mut u64,
)
    requires { IsEntry entry }
    ensures pulled { IsPulled supports.now (bound_of bounds.now) (Upper, entry) best.old best.new }
    ensures within { (w : ℕ) → w ≤ entry.n → IsWithin supports.now (bound_of bounds.now) (Upper, entry) best.new.value (U10 w) }
{
    // At an odd distance there is no entry with weight.
    if entry.d % 2 == 1 {
        return;
    }
    *evaluations = evaluations.saturating_add(u64::from(entry.n + 1));
    for w in 0..entry.n + 1 {
        ask_own(supports, bounds, Rule::U10(w), entry, best);
    }
}

/// Asks each rule that leads from entries with weight to those without.
#[tactic(auto, unfolding(ct_rules::specs::Rule::row_of))]
fn ask_by_weight(
    supports: &[Support],
    bounds: &Bounds,
    side: Side,
    entry: Entry,
    best: &mut Best,
    evaluations: &mut u64,
)
    requires entry { IsEntry entry }
    requires true_bounds { AreTrue (bound_of bounds.now) }
    requires some { side ≡ Lower → 1 ≤ best.old.value }
    ensures pulled { IsPulled supports.now (bound_of bounds.now) (side, entry) best.old best.new }
    ensures within { (r : Rule) → is_by_weight r ≡ true → rule_side r ≡ side → IsWithin supports.now (bound_of bounds.now) (side, entry) best.new.value r }
{
    if let Some(_) = entry.w {
        return;
    }
    match side {
        Side::Lower => ask_lower_weights(supports, bounds, entry, best, evaluations),
        Side::Upper => {
            ask_upper_weights(supports, bounds, entry, best, evaluations);
            *evaluations = evaluations.saturating_add(1);
            ask_own(supports, bounds, Rule::U9, entry, best);
        }
    }
}

/// Asks each rule of the slot that names no support, but for words side by side, up to the limit of what a rule can give.
fn ask_unsupported(
    supports: &[Support],
    bounds: &Bounds,
    side: Side,
    entry: Entry,
    limit: u32,
    best: &mut Best,
    evaluations: &mut u64,
)
    requires entry { IsEntry entry }
    requires true_bounds { AreTrue (bound_of bounds.now) }
    requires grounded { AreGrounded supports.now (bound_of bounds.now) }
    requires standing { IsNoBetter side (bound_of bounds.now (side, entry)) best.old.value }
    requires limit { IsLimit supports.now (bound_of bounds.now) (side, entry) limit }
    ensures pulled { IsPulled supports.now (bound_of bounds.now) (side, entry) best.old best.new }
    ensures alone { All (IsWithin supports.now (bound_of bounds.now) (side, entry) best.new.value) (rules_alone (side, entry)) }
    ensures by_weight { (r : Rule) → is_by_weight r ≡ true → rule_side r ≡ side → IsWithin supports.now (bound_of bounds.now) (side, entry) best.new.value r }
{
    ask_alone(supports, bounds, side, entry, best, evaluations);
    if best.value == limit {
        return;
    }
    ask_by_weight(supports, bounds, side, entry, best, evaluations);
}

/// The rule by which the support at a place bounds an entry without weight from above.
fn bounding_rule(supports: &[Support], place: u32) -> Rule
    ensures rule { result ≡ bounding_rule (slice_get supports.now place) place }
    ensures side { rule_side result ≡ Upper }
{
    let Some(support) = supports.get(place as usize) else {
        return Rule::U11(place);
    };
    if let Support::Odd { .. } = support {
        Rule::U12(place)
    } else {
        Rule::U11(place)
    }
}

/// The rule by which the support at a place bounds an entry with weight from above.
fn bounding_rule_of_weight(supports: &[Support], place: u32) -> Rule
    ensures rule { result ≡ bounding_rule_of_weight (slice_get supports.now place) place }
    ensures side { rule_side result ≡ Upper }
{
    let Some(support) = supports.get(place as usize) else {
        return Rule::V9(place);
    };
    if let Support::Local(_) = support {
        Rule::V10(place)
    } else {
        Rule::V9(place)
    }
}

/// The rule by which the support at a place gives to a side of an entry.
pub fn given_rule(supports: &[Support], side: Side, entry: Entry, place: u32) -> Rule
    ensures rule { result ≡ given_rule (slice_get supports.now place) (side, entry) place }
    ensures side { rule_side result ≡ side }
{
    match (side, entry.w) {
        (Side::Lower, None) => Rule::L10(place),
        (Side::Lower, Some(_)) => Rule::M10(place),
        (Side::Upper, None) => bounding_rule(supports, place),
        (Side::Upper, Some(_)) => bounding_rule_of_weight(supports, place),
    }
}

/// Asks for what each support at the entry gives on a side.
fn ask_each_support(
    supports: &[Support],
    places: &SupportPlaces,
    bounds: &Bounds,
    side: Side,
    entry: Entry,
    best: &mut Best,
    evaluations: &mut u64,
)
    requires entry { IsEntry entry }
    requires places { AreSupportPlaces supports.now places.now }
    ensures pulled { IsPulled supports.now (bound_of bounds.now) (side, entry) best.old best.new }
    ensures within { (place : ℕ) → IsWithin supports.now (bound_of bounds.now) (side, entry) best.new.value (given_rule (slice_get supports.now place) (side, entry) place) }
{
    let mut next = places.last(entry);
    while let Some(place) = next {
        let rule = given_rule(supports, side, entry, place);
        *evaluations = evaluations.saturating_add(1);
        ask(supports, bounds, rule, side, entry, best);
        next = places.before(place);
    }
}

/// Asks for what the supports at the entry give on a side, where there are any.
#[inline(always)]
fn ask_supports(
    supports: &[Support],
    places: &SupportPlaces,
    bounds: &Bounds,
    side: Side,
    entry: Entry,
    best: &mut Best,
    evaluations: &mut u64,
)
    requires entry { IsEntry entry }
    requires places { AreSupportPlaces supports.now places.now }
    ensures pulled { IsPulled supports.now (bound_of bounds.now) (side, entry) best.old best.new }
    ensures within { (place : ℕ) → IsWithin supports.now (bound_of bounds.now) (side, entry) best.new.value (given_rule (slice_get supports.now place) (side, entry) place) }
{
    if supports.is_empty() {
        return;
    }
    ask_each_support(supports, places, bounds, side, entry, best, evaluations);
}

/// Asks for what the supports at the entry give from below, and words side by side.
fn ask_below(
    supports: &[Support],
    places: &SupportPlaces,
    bounds: &Bounds,
    entry: Entry,
    best: &mut Best,
    evaluations: &mut u64,
)
    requires entry { IsEntry entry }
    requires places { AreSupportPlaces supports.now places.now }
    requires true_bounds { AreTrue (bound_of bounds.now) }
    requires some { 1 ≤ best.old.value }
    requires two { entry.w ≡ None → entry.d ≤ entry.n → 2 ≤ best.old.value }
    ensures pulled { IsPulled supports.now (bound_of bounds.now) (Lower, entry) best.old best.new }
    ensures given { (place : ℕ) → IsWithin supports.now (bound_of bounds.now) (Lower, entry) best.new.value (given_rule (slice_get supports.now place) (Lower, entry) place) }
    ensures sums { entry.w ≡ None → (m c : ℕ) → IsWithin supports.now (bound_of bounds.now) (Lower, entry) best.new.value (L11 m c) }
{
    ask_supports(
        supports,
        places,
        bounds,
        Side::Lower,
        entry,
        best,
        evaluations,
    );
    match entry.w {
        None => best_juxtaposition(bounds, entry, best, evaluations),
        Some(_) => {}
    }
}

/// The best bound that any rule gives on a side of an entry of the table over what stands, and the rule, none where it is what stands;
/// `evaluations` grows by one for each rule that is asked for its bound, whether it gives one or not, and stays at its greatest value.
pub fn best_offer(
    supports: &[Support],
    places: &SupportPlaces,
    bounds: &Bounds,
    side: Side,
    entry: Entry,
    evaluations: &mut u64,
) -> Best
    requires entry { IsEntry entry }
    requires stand { AllStand supports.now }
    requires true_bounds { AreTrue (bound_of bounds.now) }
    requires grounded { AreGrounded supports.now (bound_of bounds.now) }
    requires places { AreSupportPlaces supports.now places.now }
    ensures given { IsGiven supports.now (bound_of bounds.now) (side, entry) result.value result.rule }
    ensures within { (r : Rule) → rule_side r ≡ side → IsWithin supports.now (bound_of bounds.now) (side, entry) result.value r }
{
    let mut best = Best::standing(bounds, side, entry);
    let limit = limit_of(bounds, side, entry);
    if best.value == limit {
        return best;
    }
    ask_unsupported(supports, bounds, side, entry, limit, &mut best, evaluations);
    match side {
        Side::Upper => {
            ask_supports(
                supports,
                places,
                bounds,
                side,
                entry,
                &mut best,
                evaluations,
            );
            best
        }
        Side::Lower => {
            ask_below(supports, places, bounds, entry, &mut best, evaluations);
            best
        }
    }
}
