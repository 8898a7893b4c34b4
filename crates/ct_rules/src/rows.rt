//! The rows of the rules: of each what it is made of, by the functions of its own file.

ghost use Rattle.std.specs.Prelude.{◌≡◌, true, if◌then◌else◌, Some, None, option_map, slice_get};
ghost use Rattle.ct_words.specs.Entry.{IsEntry, unrestricted, constant_weight};
ghost use Rattle.ct_rule_parts.specs.Entries.{listed};
ghost use Rattle.ct_rule_parts.specs.Support.{odd_at};
ghost use Rattle.ct_weight_rules.specs.Delsarte.{dual_above};
ghost use Rattle.ct_weight_rules.specs.LocalDuals.{local_above};
ghost use Rattle.ct_weight_rules.specs.OddSizes.{size_below, odd_size_above};
ghost use Rattle.ct_rules.specs.Inside.RestedOn.{rested_on_by};
ghost use Rattle.ct_rules.specs.Rule.{rule_side, named_place, with_place, is_alone, parts_over, row_of};

use crate::arguments::{Arguments, arguments_of, with_arguments};
use crate::rule::Rule;
use ct_elementary::{far, plotkin, sphere_packing};
use ct_plain_rules::{
    count_of_uuv, farther, longer, longer_and_farther, nearer, parts_of_juxtaposition,
    parts_of_uuv, shorter, shorter_and_nearer, uuv_of,
};
use ct_rule_parts::{Entries, Support, dual_at, first, local_at, odd_at, second, size_at};
use ct_weight_rules::{
    around, averaged, below_too_many, bound_by_ones, bound_by_zeros, complementary,
    count_of_disjoint, count_with_one, count_with_zero, even_of_weight, has_disjoint_words,
    has_no_far_words, johnson_bound, of_weight, one_less, one_more, parts_of_split, size_below,
    split_into, sum_class_size, two_farther, two_nearer, zero_less, zero_more,
};
use ct_words::{Entry, Side, binomial};

/// The side of the bounds that the rule gives.
#[tactic(auto, unfolding(crate::specs::Rule::row_of))]
#[inline(always)]
pub fn rule_side(rule: Rule) -> Side
    ensures { result ≡ rule_side rule }
{
    match rule {
        Rule::L1 | Rule::L2 | Rule::L3 | Rule::L4 | Rule::L5 | Rule::L6 | Rule::L7 | Rule::L8 => {
            Side::Lower
        }
        Rule::L9(_) | Rule::L10(_) | Rule::L11(_, _) => Side::Lower,
        Rule::M1 | Rule::M2 | Rule::M3 | Rule::M4 | Rule::M5 | Rule::M6 | Rule::M7 | Rule::M8 => {
            Side::Lower
        }
        Rule::M9(_) | Rule::M10(_) => Side::Lower,
        _ => Side::Upper,
    }
}

/// The place of the support that the rule names, where it names one.
pub fn place_of(rule: Rule) -> Option<u32>
    ensures { result ≡ named_place rule }
{
    match arguments_of(rule) {
        Arguments::Place(place) => Some(place),
        _ => None,
    }
}

/// The rule with another place of the support that it names, where it names one.
pub fn with_place(rule: Rule, place: u32) -> Rule
    ensures { result ≡ with_place rule place }
{
    with_arguments(rule, Arguments::Place(place))
}

/// The entries that the dual of the support at the place rests on, in order, where the support gives one to an entry without
/// weight.
fn premises_of_dual(supports: &[Support], place: u32, entry: Entry) -> Option<Entries<'_>>
    ensures { option_map listed result
        ≡ (if (dual_above (slice_get supports.now place)).condition entry then Some ((dual_above (slice_get supports.now place)).rests_on entry) else None) }
{
    if entry.w.is_some() {
        return None;
    }
    let dual = dual_at(supports, place as usize, entry)?;
    Some(Entries::OfDual(dual))
}

/// The bound of the dual that the support at the place gives at the entry, from these values.
fn bound_of_dual(supports: &[Support], place: u32, entry: Entry, values: &[u32]) -> Option<u64>
    ensures { result ≡ (dual_above (slice_get supports.now place)).number entry values.now }
{
    let dual = dual_at(supports, place as usize, entry)?;
    Some(u64::from(dual.bound(values)))
}

/// The entries that the dual by which the support at the place may exclude a number of words rests on, in order, where the support
/// has such a dual for an entry without weight.
fn premises_of_odd(supports: &[Support], place: u32, entry: Entry) -> Option<Entries<'_>>
    ensures { option_map listed result
        ≡ (if (odd_size_above (slice_get supports.now place)).condition entry then Some ((odd_size_above (slice_get supports.now place)).rests_on entry) else None) }
{
    if entry.w.is_some() {
        return None;
    }
    let odd = odd_at(supports, place as usize, entry)?;
    Some(Entries::OfDual(odd.dual))
}

/// One below the number of words that the support at the place excludes at the entry, from these values.
fn size_by_odd(supports: &[Support], place: u32, entry: Entry, values: &[u32]) -> Option<u64>
    ensures { result ≡ size_below (odd_at (slice_get supports.now place) entry) values.now }
{
    let odd = odd_at(supports, place as usize, entry)?;
    size_below(odd.dual, odd.m, values)
}

/// The entries that the dual rests on by whose local bound the support at the place bounds an entry with weight, in order, where there is
/// such a dual.
fn premises_of_local(supports: &[Support], place: u32, entry: Entry) -> Option<Entries<'_>>
    ensures { option_map listed result
        ≡ (if (local_above (slice_get supports.now place)).condition entry then Some ((local_above (slice_get supports.now place)).rests_on entry) else None) }
{
    if entry.w.is_none() {
        return None;
    }
    let local = local_at(supports, place as usize, entry)?;
    Some(Entries::OfDual(local.dual()))
}

/// The local bound of the dual that the support at the place gives at the entry, from these values.
fn bound_of_local(supports: &[Support], place: u32, entry: Entry, values: &[u32]) -> Option<u64>
    ensures { result ≡ (local_above (slice_get supports.now place)).number entry values.now }
{
    let local = local_at(supports, place as usize, entry)?;
    Some(u64::from(local.bound(values)))
}

/// What `rests_on` says at A(n,d).
#[tactic(auto, unfolding(crate::specs::Rule::row_of))]
#[inline(always)]
fn rests_on_without_weight(supports: &[Support], rule: Rule, n: u32, d: u32) -> Option<Entries<'_>>
    requires { IsEntry (unrestricted n d) }
    ensures { option_map listed result
        ≡ (if (parts_over supports.now rule).condition (unrestricted n d) then Some ((parts_over supports.now rule).rests_on (unrestricted n d)) else None) }
{
    let entry = Entry { n, d, w: None };
    match rule {
        Rule::L1 | Rule::U0 | Rule::U3 => Some(Entries::Zero),
        Rule::L2 => (d <= n).then_some(Entries::Zero),
        Rule::L3 | Rule::U6 => Some(Entries::One(shorter(entry))),
        Rule::L4 => Some(Entries::One(farther(entry))),
        Rule::L5 => (d % 2 == 0).then_some(Entries::One(shorter_and_nearer(entry))),
        Rule::L6 => Some(Entries::One(longer_and_farther(entry))),
        Rule::L7 | Rule::U8 => Some(Entries::One(longer(entry))),
        Rule::L8 => (n % 2 == 0).then_some(parts_of_uuv(entry)),
        Rule::L9(w) => Some(Entries::One(even_of_weight(entry, w))),
        Rule::L10(place) => size_at(supports, place as usize, entry)
            .is_some()
            .then_some(Entries::Zero),
        Rule::L11(m, c) => Some(parts_of_juxtaposition(m, c, entry)),
        Rule::U1 => (n < d).then_some(Entries::Zero),
        Rule::U2 => plotkin(n, d).is_some().then_some(Entries::Zero),
        Rule::U4 => (d % 2 == 1).then_some(Entries::One(longer_and_farther(entry))),
        Rule::U5 => Some(Entries::One(shorter_and_nearer(entry))),
        Rule::U7 => Some(Entries::One(nearer(entry))),
        Rule::U9 => Some(Entries::One(around(entry))),
        Rule::U10(w) => Some(Entries::One(of_weight(entry, w))),
        Rule::U11(place) => premises_of_dual(supports, place, entry),
        Rule::U12(place) => premises_of_odd(supports, place, entry),
        _ => None,
    }
}

/// What `rests_on` says at A(n,d,w).
#[tactic(auto, unfolding(crate::specs::Rule::row_of))]
#[inline(always)]
fn rests_on_with_weight(
    supports: &[Support],
    rule: Rule,
    n: u32,
    d: u32,
    w: u32,
) -> Option<Entries<'_>>
    requires { IsEntry (constant_weight n d w) }
    ensures { option_map listed result
        ≡ (if (parts_over supports.now rule).condition (constant_weight n d w) then Some ((parts_over supports.now rule).rests_on (constant_weight n d w)) else None) }
{
    let entry = Entry { n, d, w: Some(w) };
    match rule {
        Rule::M1 | Rule::V0 => Some(Entries::Zero),
        Rule::M2 | Rule::V2 => has_disjoint_words(entry).then_some(Entries::Zero),
        Rule::M3 | Rule::V5 => Some(Entries::One(zero_less(entry))),
        Rule::M4 | Rule::V4 => (1 <= w).then_some(Entries::One(one_less(entry))),
        Rule::M5 => Some(Entries::One(one_more(entry))),
        Rule::M6 => Some(Entries::One(zero_more(entry))),
        Rule::M7 | Rule::V3 => Some(Entries::One(complementary(entry))),
        Rule::M8 => Some(Entries::One(two_farther(entry))),
        Rule::M9(r) => sum_class_size(r, entry).is_some().then_some(Entries::Zero),
        Rule::M10(place) => size_at(supports, place as usize, entry)
            .is_some()
            .then_some(Entries::Zero),
        Rule::V1 => has_no_far_words(entry).then_some(Entries::Zero),
        Rule::V6 => (1 <= w).then_some(parts_of_split(entry)),
        Rule::V7 => Some(Entries::One(two_nearer(entry))),
        Rule::V8 => below_too_many(entry).is_some().then_some(Entries::Zero),
        Rule::V9(place) => dual_at(supports, place as usize, entry)
            .is_some()
            .then_some(Entries::Zero),
        Rule::V10(place) => premises_of_local(supports, place, entry),
        _ => None,
    }
}

/// The entries whose bounds the rule rests on at an entry of the table, in order, where its condition holds there, over the
/// support that it names; else `None`.
#[inline(always)]
pub fn rests_on(supports: &[Support], rule: Rule, entry: Entry) -> Option<Entries<'_>>
    requires { IsEntry entry }
    ensures { option_map listed result
        ≡ (if (parts_over supports.now rule).condition entry then Some ((parts_over supports.now rule).rests_on entry) else None) }
{
    let Entry { n, d, w } = entry;
    match w {
        None => rests_on_without_weight(supports, rule, n, d),
        Some(w) => rests_on_with_weight(supports, rule, n, d, w),
    }
}

/// The number that the rule gives at an entry of the table where what it rests on has these values, before the limit of a
/// bound is laid on it.
#[tactic(auto, unfolding(crate::specs::Rule::row_of))]
#[inline(always)]
pub(crate) fn number(supports: &[Support], rule: Rule, entry: Entry, values: &[u32]) -> Option<u64>
    requires { IsEntry entry }
    ensures { result ≡ (parts_over supports.now rule).number entry values.now }
{
    let Entry { n, d, w } = entry;
    match rule {
        Rule::L1 | Rule::M1 => Some(1),
        Rule::L2 => Some(2),
        Rule::L3 | Rule::L4 | Rule::L5 | Rule::L6 | Rule::L9(_) => Some(first(values)),
        Rule::L7 => Some(first(values).div_ceil(2)),
        Rule::L8 => Some(count_of_uuv(entry, values)),
        Rule::L10(place) | Rule::M10(place) => {
            size_at(supports, place as usize, entry).map(u64::from)
        }
        Rule::L11(_, _) => Some(first(values).min(second(values))),
        Rule::U0 => Some(1 << n),
        Rule::U1 => far(n, d).map(u64::from),
        Rule::U2 => plotkin(n, d).map(u64::from),
        Rule::U3 => Some(u64::from(sphere_packing(n, d))),
        Rule::U4 | Rule::U5 | Rule::U7 | Rule::U8 | Rule::V3 => Some(first(values)),
        Rule::U6 => Some(2 * first(values)),
        Rule::U9 => johnson_bound(entry, values),
        Rule::U10(w) => Some(averaged(w, entry, values)),
        Rule::U11(place) | Rule::V9(place) => bound_of_dual(supports, place, entry, values),
        Rule::U12(place) => size_by_odd(supports, place, entry, values),
        Rule::V10(place) => bound_of_local(supports, place, entry, values),
        Rule::M2 | Rule::V2 => Some(count_of_disjoint(entry)),
        Rule::M3 | Rule::M4 | Rule::M7 | Rule::M8 | Rule::V7 => Some(first(values)),
        Rule::M5 => Some(count_with_one(entry, values)),
        Rule::M6 => Some(count_with_zero(entry, values)),
        Rule::M9(r) => sum_class_size(r, entry),
        Rule::V0 => Some(binomial(n, w.unwrap_or(0))),
        Rule::V1 => Some(1),
        Rule::V4 => Some(bound_by_ones(entry, values)),
        Rule::V5 => Some(bound_by_zeros(entry, values)),
        Rule::V6 => Some(first(values) + second(values)),
        Rule::V8 => below_too_many(entry),
    }
}

/// The entries among which are all that rest on this one, which has to be in the table, by the rule, which has to have
/// neither numbers nor a support, nor to lead from entries with weight to those without.
#[tactic(auto, unfolding(crate::specs::Rule::row_of, crate::specs::Inside::RestedOn::rested_on_by))]
#[inline(always)]
pub fn rested_on_by(rule: Rule, entry: Entry) -> Entries<'static>
    requires entry { IsEntry entry }
    requires alone { is_alone rule ≡ true }
    ensures { listed result ≡ rested_on_by rule entry }
{
    match rule {
        Rule::L3 | Rule::U6 => Entries::One(longer(entry)),
        Rule::L4 => Entries::One(nearer(entry)),
        Rule::L5 | Rule::U5 => Entries::One(longer_and_farther(entry)),
        Rule::L6 | Rule::U4 => Entries::One(shorter_and_nearer(entry)),
        Rule::L7 | Rule::U8 => Entries::One(shorter(entry)),
        Rule::L8 => uuv_of(entry),
        Rule::U7 => Entries::One(farther(entry)),
        Rule::M3 | Rule::V5 => Entries::One(zero_more(entry)),
        Rule::M4 | Rule::V4 => Entries::One(one_more(entry)),
        Rule::M5 => Entries::One(one_less(entry)),
        Rule::M6 => Entries::One(zero_less(entry)),
        Rule::M7 | Rule::V3 => Entries::One(complementary(entry)),
        Rule::M8 => Entries::One(two_nearer(entry)),
        Rule::V6 => split_into(entry),
        Rule::V7 => Entries::One(two_farther(entry)),
        _ => Entries::Zero,
    }
}
