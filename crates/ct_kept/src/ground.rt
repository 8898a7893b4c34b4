//! The bounds with which a table begins: of each slot the best that a rule gives that rests on nothing. Each rule is named where it is asked,
//! so that nothing is chosen by the rule once the program is built.

ghost use Rattle.std.specs.Prelude.{◌≡◌, ◌==◌, ◌&&◌, ◌≤◌, ◌^◌, nat_le, nat_lt, ℕ, [], if◌then◌else◌, Contains, Some, None, IfSome};
ghost use Rattle.ct_words.specs.declared.claim.Side.TheVariants.{Lower, Upper};
ghost use Rattle.ct_words.specs.declared.entry.Entry.{Entry};
ghost use Rattle.ct_words.specs.Entry.{IsEntry, unrestricted, constant_weight};
ghost use Rattle.ct_elementary.specs.Bounds.{plotkin_value, sphere_packing_value};
ghost use Rattle.ct_rule_parts.specs.Parts.{has_weight, weight_of, within_limit};
ghost use Rattle.ct_weight_rules.specs.Disjoint.{has_disjoint_words, count_of_disjoint};
ghost use Rattle.ct_weight_rules.specs.FarWords.{has_no_far_words};
ghost use Rattle.ct_weight_rules.specs.ColumnPairs.{below_too_many};
ghost use Rattle.ct_rule_parts.specs.Slot.{IsNoBetter};
ghost use Rattle.ct_rules.specs.declared.rule.Rule.{Rule};
ghost use Rattle.ct_rules.specs.declared.rule.Rule.TheVariants.{M9};
ghost use Rattle.ct_rules.specs.Rule.{rule_side, value_of};
ghost use Rattle.ct_kept.specs.Kept.{RestsOnNothing, IsGroundBound};
ghost use Rattle.ct_kept.specs.Inside.Ground.{class_of, AreLargest, GivesGround, IsGroundWithin, first_ground_rule, other_ground_rules, IsGroundLine};

use ct_elementary::{plotkin, sphere_packing};
use ct_rule_parts::within_limit;
use ct_rules::{Line, Rule, value};
use ct_slots::is_better;
use ct_sum_classes::LargestClass;
use ct_weight_rules::{below_too_many, count_of_disjoint, has_disjoint_words, has_no_far_words};
use ct_words::{Claim, Entry, Side, binomial};
use smallvec::SmallVec;
use std::alloc::Global;

/// A bound of a slot, and the rule that gives it.
#[derive(Clone, Copy)]
struct Ground {
    value: u32,
    rule: Rule,
}

/// The rule that rests on nothing and gives a bound of the side at each entry, with or without weight.
#[inline(always)]
fn first_rule(side: Side, entry: Entry) -> Rule
    ensures { result ≡ first_ground_rule (side, entry) }
{
    match (side, entry.w) {
        (Side::Lower, None) => Rule::L1,
        (Side::Lower, Some(_)) => Rule::M1,
        (Side::Upper, None) => Rule::U0,
        (Side::Upper, Some(_)) => Rule::V0,
    }
}

/// The rule of words that are farther apart than the places allow.
#[inline(always)]
fn far_rule(entry: Entry) -> Rule
    ensures { Contains (other_ground_rules (Upper, entry)) result }
{
    match entry.w {
        None => Rule::U1,
        Some(_) => Rule::V1,
    }
}

/// What two opposite words give.
fn given_by_two(entry: Entry) -> Option<u32>
    ensures { result ≡ (if nat_le entry.d entry.n then Some 2 else None) }
{
    if entry.d <= entry.n { Some(2) } else { None }
}

/// What all words give.
fn given_by_all(entry: Entry) -> Option<u32>
    requires { IsEntry entry }
    ensures { result ≡ within_limit Upper (Some (2 ^ entry.n)) }
{
    within_limit(Side::Upper, 1 << entry.n)
}

/// What words that differ at no more places than there are give.
fn given_by_far(entry: Entry) -> Option<u32>
    ensures { result ≡ (if nat_lt entry.n entry.d then Some 1 else None) }
{
    if entry.n < entry.d { Some(1) } else { None }
}

/// So at no more places than there are ones, or zeros.
fn given_by_no_far(entry: Entry) -> Option<u32>
    requires { IsEntry entry }
    ensures { result ≡ (if has_no_far_words entry then Some 1 else None) }
{
    if has_no_far_words(entry) {
        Some(1)
    } else {
        None
    }
}

/// What words with no one in common give from a side.
fn given_by_disjoint(side: Side, entry: Entry) -> Option<u32>
    requires { IsEntry entry }
    ensures { result ≡ (if has_disjoint_words entry then within_limit side (Some (count_of_disjoint entry)) else None) }
{
    if has_disjoint_words(entry) {
        within_limit(side, count_of_disjoint(entry))
    } else {
        None
    }
}

/// What pairs of words with a one at one place give.
fn given_by_pairs(entry: Entry) -> Option<u32>
    requires { IsEntry entry }
    ensures { result ≡ within_limit Upper (below_too_many entry) }
{
    let count = below_too_many(entry)?;
    within_limit(Side::Upper, count)
}

/// What the average distance of the words gives at A(n,d).
fn given_by_distances(n: u32, d: u32) -> Option<u32>
    requires { IsEntry (unrestricted n d) }
    ensures { result ≡ within_limit Upper (plotkin_value n d) }
{
    let count = plotkin(n, d)?;
    within_limit(Side::Upper, u64::from(count))
}

/// What balls about the words give at A(n,d).
fn given_by_balls(n: u32, d: u32) -> Option<u32>
    requires { IsEntry (unrestricted n d) }
    ensures { result ≡ within_limit Upper (Some (sphere_packing_value n d)) }
{
    within_limit(Side::Upper, u64::from(sphere_packing(n, d)))
}

/// The bound that a rule gives from nothing at an entry of the table. For those that rest on nothing it is worked out at once.
#[inline(always)]
fn given(rule: Rule, entry: Entry) -> Option<u32>
    requires { IsEntry entry }
    ensures { result ≡ value_of [] rule entry [] }
{
    match (rule, entry.w) {
        (Rule::L1, None) => Some(1),
        (Rule::L2, None) => given_by_two(entry),
        (Rule::M1, Some(_)) => Some(1),
        (Rule::M2, Some(_)) => given_by_disjoint(Side::Lower, entry),
        (Rule::U0, None) => given_by_all(entry),
        (Rule::U1, None) => given_by_far(entry),
        (Rule::U2, None) => given_by_distances(entry.n, entry.d),
        (Rule::U3, None) => given_by_balls(entry.n, entry.d),
        (Rule::V0, Some(k)) => within_limit(Side::Upper, binomial(entry.n, k)),
        (Rule::V1, Some(_)) => given_by_no_far(entry),
        (Rule::V2, Some(_)) => given_by_disjoint(Side::Upper, entry),
        (Rule::V8, Some(_)) => given_by_pairs(entry),
        _ => value(&[], rule, entry, &[]),
    }
}

/// What the first rule gives.
#[inline(always)]
fn first_ground(side: Side, entry: Entry) -> Ground
    requires { IsEntry entry }
    ensures given { GivesGround (side, entry) result.rule result.value }
    ensures within { IsGroundWithin (side, entry) result.value (first_ground_rule (side, entry)) }
{
    let rule = first_rule(side, entry);
    let Some(value) = given(rule, entry) else {
        unreachable!()
    };
    Ground { value, rule }
}

/// The better of what was found so far and of what the rule gives.
#[inline(always)]
fn better_ground(side: Side, entry: Entry, rule: Rule, best: Ground) -> Ground
    requires side { rule_side rule ≡ side }
    requires entry { IsEntry entry }
    requires nothing { RestsOnNothing rule entry }
    requires given { GivesGround (side, entry) best.rule best.value }
    ensures given { GivesGround (side, entry) result.rule result.value }
    ensures no_worse { IsNoBetter side best.value result.value }
    ensures within { IsGroundWithin (side, entry) result.value rule }
{
    let Some(value) = given(rule, entry) else {
        return best;
    };
    if is_better(side, value, best.value) {
        Ground { value, rule }
    } else {
        best
    }
}

/// The sum class of an entry with weight, of distance 4, that has the most words, found among the largest of the entry's length.
#[inline(always)]
fn class_from(entry: Entry, classes: &[LargestClass]) -> Option<LargestClass>
    requires entry { IsEntry entry }
    requires classes { AreLargest entry.n classes.now }
    ensures { result ≡ (if has_weight entry && entry.d == 4 then Some (class_of entry.n (weight_of entry)) else None) }
{
    let w = entry.w?;
    if entry.d == 4 {
        Some(classes[w as usize])
    } else {
        None
    }
}

/// The better of what was found so far, from below, and of the size of the largest sum class.
#[inline(always)]
fn better_class(entry: Entry, classes: &[LargestClass], best: Ground) -> Ground
    requires entry { IsEntry entry }
    requires classes { AreLargest entry.n classes.now }
    requires given { GivesGround (Lower, entry) best.rule best.value }
    ensures given { GivesGround (Lower, entry) result.rule result.value }
    ensures no_worse { best.value ≤ result.value }
    ensures within { (k : ℕ) → IsGroundWithin (Lower, entry) result.value (M9 k) }
{
    let Some(class) = class_from(entry, classes) else {
        return best;
    };
    if class.size <= best.value {
        return best;
    }
    Ground {
        value: class.size,
        rule: Rule::M9(class.residue),
    }
}

/// What words give from above that are farther apart than the places allow: one word, which no bound betters.
#[inline(always)]
fn far_ground(entry: Entry) -> Option<Ground>
    requires { IsEntry entry }
    ensures given { IfSome result (λ ground. GivesGround (Upper, entry) ground.rule ground.value) }
    ensures best { IfSome result (λ ground. IsGroundBound (Upper, entry) ground.value) }
{
    let rule = far_rule(entry);
    let value = given(rule, entry)?;
    if value == 1 {
        Some(Ground { value, rule })
    } else {
        None
    }
}

/// The best bound of A(n,d) from below that a rule gives that rests on nothing.
#[tactic(auto, unfolding(ct_rules::specs::Rule::row_of))]
fn best_below(n: u32, d: u32) -> Ground
    requires { IsEntry (unrestricted n d) }
    ensures given { GivesGround (Lower, unrestricted n d) result.rule result.value }
    ensures best { IsGroundBound (Lower, unrestricted n d) result.value }
{
    let entry = Entry { n, d, w: None };
    let first = first_ground(Side::Lower, entry);
    better_ground(Side::Lower, entry, Rule::L2, first)
}

/// That of A(n,d,w) from below. The largest sum classes are those of the length n.
#[tactic(auto, unfolding(ct_rules::specs::Rule::row_of))]
fn best_below_with_weight(n: u32, d: u32, w: u32, classes: &[LargestClass]) -> Ground
    requires entry { IsEntry (constant_weight n d w) }
    requires classes { AreLargest n classes.now }
    ensures given { GivesGround (Lower, constant_weight n d w) result.rule result.value }
    ensures best { IsGroundBound (Lower, constant_weight n d w) result.value }
{
    let entry = Entry { n, d, w: Some(w) };
    let first = first_ground(Side::Lower, entry);
    let disjoint = better_ground(Side::Lower, entry, Rule::M2, first);
    better_class(entry, classes, disjoint)
}

/// That of A(n,d) from above.
#[tactic(auto, unfolding(ct_rules::specs::Rule::row_of))]
fn best_above(n: u32, d: u32) -> Ground
    requires { IsEntry (unrestricted n d) }
    ensures given { GivesGround (Upper, unrestricted n d) result.rule result.value }
    ensures best { IsGroundBound (Upper, unrestricted n d) result.value }
{
    let entry = Entry { n, d, w: None };
    if let Some(ground) = far_ground(entry) {
        return ground;
    }
    let first = first_ground(Side::Upper, entry);
    let far = better_ground(Side::Upper, entry, Rule::U1, first);
    let plotkin = better_ground(Side::Upper, entry, Rule::U2, far);
    better_ground(Side::Upper, entry, Rule::U3, plotkin)
}

/// That of A(n,d,w) from above.
#[tactic(auto, unfolding(ct_rules::specs::Rule::row_of))]
fn best_above_with_weight(n: u32, d: u32, w: u32) -> Ground
    requires { IsEntry (constant_weight n d w) }
    ensures given { GivesGround (Upper, constant_weight n d w) result.rule result.value }
    ensures best { IsGroundBound (Upper, constant_weight n d w) result.value }
{
    let entry = Entry { n, d, w: Some(w) };
    if let Some(ground) = far_ground(entry) {
        return ground;
    }
    let first = first_ground(Side::Upper, entry);
    let far = better_ground(Side::Upper, entry, Rule::V1, first);
    let disjoint = better_ground(Side::Upper, entry, Rule::V2, far);
    better_ground(Side::Upper, entry, Rule::V8, disjoint)
}

/// The best bound of the side of A(n,d) that a rule gives that rests on nothing.
#[inline(always)]
fn best_without_weight(side: Side, n: u32, d: u32) -> Ground
    requires { IsEntry (unrestricted n d) }
    ensures given { GivesGround (side, unrestricted n d) result.rule result.value }
    ensures best { IsGroundBound (side, unrestricted n d) result.value }
{
    match side {
        Side::Lower => best_below(n, d),
        Side::Upper => best_above(n, d),
    }
}

/// That of the side of A(n,d,w). The largest sum classes are those of the length n, which a bound from below takes.
#[inline(always)]
fn best_with_weight(side: Side, n: u32, d: u32, w: u32, classes: &[LargestClass]) -> Ground
    requires entry { IsEntry (constant_weight n d w) }
    requires classes { side ≡ Lower → AreLargest n classes.now }
    ensures given { GivesGround (side, constant_weight n d w) result.rule result.value }
    ensures best { IsGroundBound (side, constant_weight n d w) result.value }
{
    match side {
        Side::Lower => best_below_with_weight(n, d, w, classes),
        Side::Upper => best_above_with_weight(n, d, w),
    }
}

/// The line of the best bound of the side of an entry.
#[inline(always)]
fn line_of(alloc: Global, side: Side, entry: Entry, ground: Ground) -> Line
    requires given { GivesGround (side, entry) ground.rule ground.value }
    requires best { IsGroundBound (side, entry) ground.value }
    ensures { IsGroundLine (side, entry) result }
{
    Line {
        claim: Claim {
            side,
            entry,
            value: ground.value,
        },
        rule: ground.rule,
        from: SmallVec::new(alloc),
    }
}

/// The line of the best bound of the side of A(n,d) that a rule gives that rests on nothing.
#[inline(always)]
pub(crate) fn ground_line(alloc: Global, side: Side, n: u32, d: u32) -> Line
    requires { IsEntry (unrestricted n d) }
    ensures { IsGroundLine (side, unrestricted n d) result }
{
    let ground = best_without_weight(side, n, d);
    line_of(alloc, side, Entry { n, d, w: None }, ground)
}

/// That of the side of A(n,d,w). The largest sum classes are those of the length n, which a bound from below takes.
#[inline(always)]
pub(crate) fn ground_line_with_weight(
    alloc: Global,
    side: Side,
    n: u32,
    d: u32,
    w: u32,
    classes: &[LargestClass],
) -> Line
    requires entry { IsEntry (constant_weight n d w) }
    requires classes { side ≡ Lower → AreLargest n classes.now }
    ensures { IsGroundLine (side, constant_weight n d w) result }
{
    let ground = best_with_weight(side, n, d, w, classes);
    line_of(alloc, side, Entry { n, d, w: Some(w) }, ground)
}
