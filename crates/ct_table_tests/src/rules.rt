//! The rules at the ends of their ranges, and outside of them, with numbers that are worked out by hand.

ghost use Rattle.std.specs.Prelude.{◌≡◌, ◌/◌, ◌-◌, ◌+◌, [], ◌∷◌, filter, Some, None, is_some};
ghost use Rattle.ct_words.specs.declared.limits.TheConstants.{MAX_N, MAX_BOUND};
ghost use Rattle.ct_words.specs.declared.claim.Side.TheVariants.{Upper};
ghost use Rattle.ct_words.specs.Entry.{unrestricted, constant_weight};
ghost use Rattle.ct_rule_parts.specs.Slot.{lower_at, upper_at};
ghost use Rattle.ct_rule_parts.specs.Parts.{within_limit};
ghost use Rattle.ct_rules.specs.declared.rule.Rule.TheVariants.{L1, L2, L3, L4, L5, L6, L7, L8, L11, M1, U0, U1, U2, U3, U4, U5, U6, U7, U8, V0};
ghost use Rattle.ct_rules.specs.Rule.{premises_of, value_of};

use crate::known::{NUMBERS, entry_at};
use ct_rules::{Rule, Support, premise, premise_count, rule_side, value};
use ct_words::{Entry, MAX_BOUND, Side};

/// Each rule, with the first support, the weight 0, and a length and a distance, where it names any.
const RULES: [Rule; 45] = [
    Rule::L1,
    Rule::L2,
    Rule::L3,
    Rule::L4,
    Rule::L5,
    Rule::L6,
    Rule::L7,
    Rule::L8,
    Rule::L9(0),
    Rule::L10(0),
    Rule::L11(1, 3),
    Rule::M1,
    Rule::M2,
    Rule::M3,
    Rule::M4,
    Rule::M5,
    Rule::M6,
    Rule::M7,
    Rule::M8,
    Rule::M9(0),
    Rule::M10(0),
    Rule::U0,
    Rule::U1,
    Rule::U2,
    Rule::U3,
    Rule::U4,
    Rule::U5,
    Rule::U6,
    Rule::U7,
    Rule::U8,
    Rule::U9,
    Rule::U10(0),
    Rule::U11(0),
    Rule::U12(0),
    Rule::V0,
    Rule::V1,
    Rule::V2,
    Rule::V3,
    Rule::V4,
    Rule::V5,
    Rule::V6,
    Rule::V7,
    Rule::V8,
    Rule::V9(0),
    Rule::V10(0),
];

/// A length, a distance and a weight.
type Place = (u32, u32, Option<u32>);

/// A(n,d), or A(n,d,w).
fn entry_of((n, d, w): Place) -> Entry {
    Entry { n, d, w }
}

/// A(n,d).
fn plain(n: u32, d: u32) -> Entry {
    Entry { n, d, w: None }
}

/// A(n,d,w).
fn weighted(n: u32, d: u32, w: u32) -> Entry {
    Entry { n, d, w: Some(w) }
}

/// A(n,d) from the side of the rule, where a length and a distance are given.
fn on_side(rule: Rule, numbers: Option<(u32, u32)>) -> Option<(Side, Entry)> {
    numbers.map(|(n, d)| (rule_side(rule), plain(n, d)))
}

/// Whether each call answers that the rule is not defined at the entry.
fn is_undefined(supports: &[Support], rule: Rule, entry: Entry) -> bool {
    premise_count(supports, rule, entry).is_none()
        && premise(supports, rule, entry, 0).is_none()
        && value(supports, rule, entry, &[1, 1]).is_none()
}

/// What a rule rests on at a length and a distance: how many premises it has, and the lengths and distances of the first two.
type Premises = (
    Rule,
    u32,
    u32,
    usize,
    Option<(u32, u32)>,
    Option<(u32, u32)>,
);

/// A premise is read off the rule: for L5 at (2,4) it is A(2 - 1,4 - 1), for L8 at (30,29) the lengths are 30/2 = 15 and the distances
/// (29 + 1)/2 = 15 and 29.
const PREMISES: [Premises; 27] = [
    (Rule::L1, 30, 30, 0, None, None),
    (Rule::L2, 30, 30, 0, None, None),
    (Rule::L3, 2, 30, 1, Some((1, 30)), None),
    (Rule::L4, 1, 29, 1, Some((1, 30)), None),
    (Rule::L5, 2, 4, 1, Some((1, 3)), None),
    (Rule::L5, 30, 30, 1, Some((29, 29)), None),
    (Rule::L6, 29, 29, 1, Some((30, 30)), None),
    (Rule::L7, 29, 30, 1, Some((30, 30)), None),
    (Rule::L8, 2, 3, 1, Some((1, 3)), None),
    (Rule::L8, 30, 4, 1, Some((15, 4)), None),
    (Rule::L8, 30, 5, 2, Some((15, 3)), Some((15, 5))),
    (Rule::L8, 30, 29, 2, Some((15, 15)), Some((15, 29))),
    (Rule::L11(1, 3), 2, 6, 2, Some((1, 3)), Some((1, 3))),
    (Rule::L11(9, 27), 30, 30, 2, Some((9, 27)), Some((21, 3))),
    (Rule::U0, 1, 30, 0, None, None),
    (Rule::U1, 29, 30, 0, None, None),
    (Rule::U2, 3, 3, 0, None, None),
    (Rule::U2, 28, 14, 0, None, None),
    (Rule::U2, 27, 13, 0, None, None),
    (Rule::U3, 30, 30, 0, None, None),
    (Rule::U4, 1, 3, 1, Some((2, 4)), None),
    (Rule::U4, 29, 29, 1, Some((30, 30)), None),
    (Rule::U5, 2, 4, 1, Some((1, 3)), None),
    (Rule::U5, 30, 30, 1, Some((29, 29)), None),
    (Rule::U6, 2, 30, 1, Some((1, 30)), None),
    (Rule::U7, 1, 4, 1, Some((1, 3)), None),
    (Rule::U8, 29, 30, 1, Some((30, 30)), None),
];

/// Whether the rule rests on just these premises, and has a value.
fn rests_on((rule, n, d, count, first, second): Premises) -> bool {
    let at = |j| premise(&[], rule, plain(n, d), j);
    premise_count(&[], rule, plain(n, d)) == Some(count)
        && at(0) == on_side(rule, first)
        && at(1) == on_side(rule, second)
        && at(2).is_none()
        && at(usize::MAX).is_none()
        && value(&[], rule, plain(n, d), &[1, 1]).is_some()
}

#[test]
fn premises_at_the_ends(rt: HostRuntime) {
    for (number, row) in PREMISES.iter().enumerate() {
        assert!(rt; rests_on(*row), "row {number}");
    }
}

/// Each digit turned, a word of length n and weight w has the weight n - w: of 30 places with none 30, with 15 as many; at (30,4,15) the
/// rules rest on their own entry.
const TURNED: [(u32, u32, u32, u32); 6] = [
    (1, 4, 0, 1),
    (1, 30, 1, 0),
    (8, 6, 3, 5),
    (30, 4, 15, 15),
    (30, 30, 0, 30),
    (30, 30, 30, 0),
];

/// Whether the rule of turned digits rests on this weight alone.
fn turns(rule: Rule, side: Side, (n, d, w, turned): (u32, u32, u32, u32)) -> bool {
    let entry = weighted(n, d, w);
    let at = |j| premise(&[], rule, entry, j);
    premise_count(&[], rule, entry) == Some(1)
        && at(0) == Some((side, weighted(n, d, turned)))
        && at(1).is_none()
        && at(usize::MAX).is_none()
}

#[test]
fn premises_by_weight(rt: HostRuntime) {
    for row in &TURNED {
        assert!(rt; turns(Rule::M7, Side::Lower, *row), "{row:?}");
        assert!(rt; turns(Rule::V3, Side::Upper, *row), "{row:?}");
        let entry = weighted(row.0, row.1, row.2);
        assert!(rt; premise_count(&[], Rule::M1, entry) == Some(0), "{row:?}");
        assert!(rt; premise_count(&[], Rule::V0, entry) == Some(0), "{row:?}");
    }
}

/// One step past the ends of each range, and the greatest numbers that L11 can name.
const PAST: [(Rule, u32, u32); 31] = [
    (Rule::L2, 29, 30),
    (Rule::L3, 1, 30),
    (Rule::L4, 1, 30),
    (Rule::L5, 30, 29),
    (Rule::L5, 1, 4),
    (Rule::L6, 30, 29),
    (Rule::L6, 29, 30),
    (Rule::L7, 30, 30),
    (Rule::L8, 29, 4),
    (Rule::L11(0, 27), 30, 30),
    (Rule::L11(30, 27), 30, 30),
    (Rule::L11(9, 2), 30, 30),
    (Rule::L11(9, 28), 30, 30),
    (Rule::L11(u32::MAX, 3), 30, 30),
    (Rule::L11(1, u32::MAX), 30, 30),
    (Rule::L11(u32::MAX, u32::MAX), 30, 30),
    (Rule::M1, 30, 30),
    (Rule::M7, 30, 30),
    (Rule::U1, 30, 30),
    (Rule::U2, 29, 30),
    (Rule::U2, 25, 12),
    (Rule::U2, 28, 13),
    (Rule::U4, 29, 30),
    (Rule::U4, 30, 29),
    (Rule::U5, 1, 30),
    (Rule::U5, 30, 3),
    (Rule::U6, 1, 30),
    (Rule::U7, 30, 3),
    (Rule::U8, 30, 30),
    (Rule::V0, 30, 30),
    (Rule::V3, 30, 30),
];

/// Rules that are not defined at an entry with a weight.
const WITHOUT_WEIGHT: [Rule; 8] = [
    Rule::L1,
    Rule::L2,
    Rule::L8,
    Rule::L11(1, 3),
    Rule::U0,
    Rule::U3,
    Rule::U6,
    Rule::U7,
];

#[test]
fn past_the_ends(rt: HostRuntime) {
    for (number, (rule, n, d)) in PAST.iter().enumerate() {
        assert!(rt; is_undefined(&[], *rule, plain(*n, *d)), "row {number}");
    }
    for (number, rule) in WITHOUT_WEIGHT.iter().enumerate() {
        assert!(rt;
            is_undefined(&[], *rule, weighted(28, 6, 3)),
            "row {number}"
        );
    }
}

/// Lengths, distances and weights outside of the table.
const OUTSIDE: [Place; 8] = [
    (0, 3, None),
    (31, 3, None),
    (30, 2, None),
    (30, 31, None),
    (u32::MAX, u32::MAX, None),
    (30, 5, Some(2)),
    (30, 4, Some(31)),
    (u32::MAX, 4, Some(u32::MAX)),
];

/// Whether no rule is defined at the entry, though its support is of just that entry.
fn has_no_rule(entry: Entry) -> bool {
    let supports = [Support::Size { entry, size: 1 }];
    RULES
        .iter()
        .all(|rule| is_undefined(&supports, *rule, entry))
}

#[test]
fn nothing_outside_the_table(rt: HostRuntime) {
    for place in &OUTSIDE {
        assert!(rt; has_no_rule(entry_of(*place)), "{place:?}");
    }
}

/// A rule at a length and a distance, two premise values, and what it gives.
type Given = (Rule, u32, u32, u32, u32, Option<u32>);

/// Half of 2^30 - 1, rounded up, is 2^29. At (30,4) the factor of L8 is 2^14, and 2^14 · 2^16 = 2^30; at (30,5) 2^15 · 2^15 is 2^30. There are
/// 2^30 words of length 30. At (28,14) Plotkin's bound is 4 · 14, at (27,13) 4 · 13 + 4; a ball of radius 14 has (2^30 - C(30,15)) / 2 words,
/// more than a third of all. A rule looks at no more values than it has premises.
const VALUES: [Given; 36] = [
    (Rule::L1, 1, 3, 0, 0, Some(1)),
    (Rule::L2, 3, 3, 0, 0, Some(2)),
    (Rule::L3, 30, 3, MAX_BOUND, 0, Some(MAX_BOUND)),
    (Rule::L3, 30, 3, MAX_BOUND + 1, 0, None),
    (Rule::L4, 30, 29, 2, 9, Some(2)),
    (Rule::L5, 30, 30, 2, 9, Some(2)),
    (Rule::L6, 1, 3, 1, 9, Some(1)),
    (Rule::L6, 1, 3, u32::MAX, 0, None),
    (Rule::L7, 29, 3, 0, 0, Some(0)),
    (Rule::L7, 29, 3, 1, 0, Some(1)),
    (Rule::L7, 29, 3, MAX_BOUND - 1, 0, Some(1 << 29)),
    (Rule::L7, 29, 3, MAX_BOUND, 0, Some(1 << 29)),
    (Rule::L7, 29, 3, u32::MAX, 0, None),
    (Rule::L8, 2, 4, 1, 9, Some(1)),
    (Rule::L8, 30, 4, 1 << 16, 9, Some(MAX_BOUND)),
    (Rule::L8, 30, 4, (1 << 16) + 1, 0, None),
    (Rule::L8, 30, 5, 1 << 15, 1 << 15, Some(MAX_BOUND)),
    (Rule::L8, 30, 5, 1 << 15, (1 << 15) + 1, None),
    (Rule::L8, 30, 5, u32::MAX, u32::MAX, None),
    (Rule::L11(15, 15), 30, 30, 5, 7, Some(5)),
    (Rule::L11(15, 15), 30, 30, 7, 5, Some(5)),
    (Rule::L11(15, 15), 30, 30, u32::MAX, 1 << 30, Some(1 << 30)),
    (Rule::U0, 1, 30, 9, 9, Some(2)),
    (Rule::U0, 30, 3, 9, 9, Some(MAX_BOUND)),
    (Rule::U1, 1, 3, 9, 9, Some(1)),
    (Rule::U2, 3, 3, 9, 9, Some(2)),
    (Rule::U2, 28, 14, 9, 9, Some(56)),
    (Rule::U2, 27, 13, 9, 9, Some(56)),
    (Rule::U3, 30, 30, 9, 9, Some(2)),
    (Rule::U4, 29, 29, 2, 9, Some(2)),
    (Rule::U5, 30, 30, 2, 9, Some(2)),
    (Rule::U6, 2, 3, 1, 9, Some(2)),
    (Rule::U6, 30, 3, MAX_BOUND / 2, 9, Some(MAX_BOUND)),
    (Rule::U6, 30, 3, u32::MAX, 9, Some(MAX_BOUND)),
    (Rule::U7, 30, 4, MAX_BOUND, 9, Some(MAX_BOUND)),
    (Rule::U8, 29, 3, MAX_BOUND + 1, 9, Some(MAX_BOUND)),
];

#[test]
fn values_at_the_ends(rt: HostRuntime) {
    for (number, (rule, n, d, first, second, want)) in VALUES.iter().enumerate() {
        let given = value(&[], *rule, plain(*n, *d), &[*first, *second, 3]);
        assert!(rt; given == *want, "row {number}");
    }
}

/// There are 30!/15!^2 = 155,117,520 words of length 30 and weight 15. A value that is missing counts as 0.
const WITHOUT_PREMISES: [(Rule, Place, u32); 6] = [
    (Rule::M1, (30, 30, Some(30)), 1),
    (Rule::V0, (30, 30, Some(0)), 1),
    (Rule::V0, (30, 30, Some(15)), 155117520),
    (Rule::V0, (30, 30, Some(30)), 1),
    (Rule::L3, (30, 30, None), 0),
    (Rule::L11(15, 15), (30, 30, None), 0),
];

/// With each digit turned there are as many words, from below `MAX_BOUND` at most.
const TURNED_VALUES: [(Rule, u32, Option<u32>); 6] = [
    (Rule::M7, 14, Some(14)),
    (Rule::M7, MAX_BOUND, Some(MAX_BOUND)),
    (Rule::M7, MAX_BOUND + 1, None),
    (Rule::V3, 14, Some(14)),
    (Rule::V3, MAX_BOUND, Some(MAX_BOUND)),
    (Rule::V3, MAX_BOUND + 1, Some(MAX_BOUND)),
];

#[test]
fn values_by_weight_and_without_premises(rt: HostRuntime) {
    for (number, (rule, place, want)) in WITHOUT_PREMISES.iter().enumerate() {
        let given = value(&[], *rule, entry_of(*place), &[]);
        assert!(rt; given == Some(*want), "row {number}");
    }
    assert!(rt; value(&[], Rule::L8, plain(28, 5), &[7]) == Some(0));
    for (number, (rule, first, want)) in TURNED_VALUES.iter().enumerate() {
        let given = value(&[], *rule, weighted(28, 4, 2), &[*first, 9]);
        assert!(rt; given == *want, "row {number}");
    }
}

/// Of the sets of three of the numbers 0 to 5 these add up to 0 modulo 6: 0 1 5, 0 2 4, 1 2 3 and 3 4 5; these to 1: 0 2 5, 0 3 4 and 1 2 4;
/// these to 5: 0 1 4, 0 2 3 and 2 4 5. All 30 numbers add up to 435 = 14 · 30 + 15.
const SUM_CLASSES: [(u32, Place, u32); 6] = [
    (0, (6, 4, Some(3)), 4),
    (1, (6, 4, Some(3)), 3),
    (5, (6, 4, Some(3)), 3),
    (0, (6, 4, Some(0)), 1),
    (0, (1, 4, Some(1)), 1),
    (15, (30, 4, Some(30)), 1),
];

/// Sums that no set has, and entries without sum classes.
const NO_SUM_CLASSES: [(u32, Place); 6] = [
    (6, (6, 4, Some(3))),
    (u32::MAX, (6, 4, Some(3))),
    (1, (6, 4, Some(0))),
    (14, (30, 4, Some(30))),
    (0, (6, 6, Some(3))),
    (0, (6, 4, None)),
];

/// Whether the rule of the sum class gives so many words, and rests on nothing.
fn has_words(r: u32, place: Place, want: u32) -> bool {
    let (rule, entry) = (Rule::M9(r), entry_of(place));
    rule_side(rule) == Side::Lower
        && premise_count(&[], rule, entry) == Some(0)
        && value(&[], rule, entry, &[9]) == Some(want)
}

#[test]
fn sum_classes(rt: HostRuntime) {
    for (number, (r, place, want)) in SUM_CLASSES.iter().enumerate() {
        assert!(rt; has_words(*r, *place, *want), "row {number}");
    }
    for (number, (r, place)) in NO_SUM_CLASSES.iter().enumerate() {
        assert!(rt;
            is_undefined(&[], Rule::M9(*r), entry_of(*place)),
            "row {number}"
        );
    }
}

/// Whether it is none of the rules of one word and of all words, which each side of an entry has from the start, and not that of words
/// side by side.
fn is_counted(rule: Rule) -> bool {
    !matches!(
        rule,
        Rule::L1 | Rule::L11(_, _) | Rule::M1 | Rule::U0 | Rule::V0
    )
}

/// How many rules of the list that are counted are defined at the entry.
fn defined_rules(entry: Entry) -> usize {
    RULES
        .iter()
        .filter(|rule| is_counted(**rule) && premise_count(&[], **rule, entry).is_some())
        .count()
}

/// At A(1,3) L4, L6, L7, L9, U1, U3, U4 and U8 are defined; at A(4,5) L3, L4, L6 to L9, U1 and U3 to U8; at A(4,8) L3 to L9, U1, U3, U5 to U8
/// and U10; at A(8,6) L2 to L9, U2, U3, U5 to U8 and U10; at A(9,5) L2 to L4, L6, L7, L9 and U2 to U9. At A(4,8,2) M3 to M8, V1 and V3 to
/// V7; at A(8,8,4) M2 to M8 and V2 to V8, as three words of weight 4 have no one in common only from 12 places on; at A(1,30,0) M5 to M7,
/// V1, V3 and V7.
const RULES_OF_ENTRIES: [(Place, usize); 8] = [
    ((1, 3, None), 8),
    ((4, 5, None), 13),
    ((4, 8, None), 14),
    ((8, 6, None), 15),
    ((9, 5, None), 14),
    ((4, 8, Some(2)), 12),
    ((8, 8, Some(4)), 14),
    ((1, 30, Some(0)), 6),
];

#[test]
fn rules_of_entries(rt: HostRuntime) {
    for (place, want) in &RULES_OF_ENTRIES {
        assert!(rt; defined_rules(entry_of(*place)) == *want, "{place:?}");
    }
}

/// Whether the bound that the rule gives at the entry rests on that of A(5,4).
fn rests(rule: Rule, entry: Entry) -> bool {
    let there = Some((rule_side(rule), plain(5, 4)));
    premise(&[], rule, entry, 0) == there || premise(&[], rule, entry, 1) == there
}

/// How many rules of the list rest on A(5,4) at the entry.
fn resting_rules(entry: Entry) -> usize {
    RULES.iter().filter(|rule| rests(**rule, entry)).count()
}

/// On A(5,4) from below rest A(6,4), A(5,3), A(4,3), A(4,4), by u followed by u + v A(10,4), A(10,7) and A(10,8), and beside words of A(1,3)
/// A(6,7). On A(5,4) from above rest A(4,3), A(6,5), A(6,4), A(5,5) and A(4,4).
const RESTING: [(Rule, u32, u32); 13] = [
    (Rule::L3, 6, 4),
    (Rule::L4, 5, 3),
    (Rule::L6, 4, 3),
    (Rule::L7, 4, 4),
    (Rule::L8, 10, 4),
    (Rule::L8, 10, 7),
    (Rule::L8, 10, 8),
    (Rule::L11(1, 3), 6, 7),
    (Rule::U4, 4, 3),
    (Rule::U5, 6, 5),
    (Rule::U6, 6, 4),
    (Rule::U7, 5, 5),
    (Rule::U8, 4, 4),
];

#[test]
fn what_rests_on_an_entry(rt: HostRuntime) {
    for (number, (rule, n, d)) in RESTING.iter().enumerate() {
        assert!(rt; rests(*rule, plain(*n, *d)), "row {number}");
    }
    let mut count: usize = 0;
    for number in 0..NUMBERS {
        count = count.saturating_add(resting_rules(entry_at(number)));
    }
    assert!(rt; count == RESTING.len());
}

/// The support of a size at an entry.
fn size_at(n: u32, d: u32, w: Option<u32>, size: u32) -> Support {
    Support::Size {
        entry: Entry { n, d, w },
        size,
    }
}

/// A rule that names a support, an entry, how many premises it has there, and what it gives.
type OfSupport = (Rule, Place, Option<usize>, Option<u32>);

/// A support gives its own size at its own entry, where the rule names its place and the size is a bound of the table.
const OF_SUPPORTS: [OfSupport; 13] = [
    (Rule::L10(0), (28, 3, None), None, None),
    (Rule::L10(1), (28, 3, None), Some(0), Some(MAX_BOUND)),
    (Rule::L10(1), (28, 4, None), None, None),
    (Rule::L10(1), (27, 3, None), None, None),
    (Rule::L10(2), (28, 3, None), Some(0), None),
    (Rule::L10(3), (28, 4, Some(2)), None, None),
    (Rule::L10(4), (31, 3, None), None, None),
    (Rule::L10(5), (28, 3, None), None, None),
    (Rule::L10(u32::MAX), (28, 3, None), None, None),
    (Rule::M10(3), (28, 4, Some(2)), Some(0), Some(14)),
    (Rule::M10(3), (28, 4, Some(26)), None, None),
    (Rule::M10(1), (28, 3, None), None, None),
    (Rule::M10(u32::MAX), (28, 4, Some(2)), None, None),
];

/// Whether the rule gives just this.
fn gives(supports: &[Support], (rule, place, count, want): OfSupport) -> bool {
    let entry = entry_of(place);
    premise_count(supports, rule, entry) == count
        && value(supports, rule, entry, &[]) == want
        && premise(supports, rule, entry, 0).is_none()
}

#[test]
fn sizes_of_supports(rt: HostRuntime) {
    let supports = [
        Support::Nothing,
        size_at(28, 3, None, MAX_BOUND),
        size_at(28, 3, None, MAX_BOUND + 1),
        size_at(28, 4, Some(2), 14),
        size_at(31, 3, None, 2),
    ];
    for (number, row) in OF_SUPPORTS.iter().enumerate() {
        assert!(rt; gives(&supports, *row), "row {number}");
    }
}

/// What rules rest on, in order, with the least and the greatest lengths and distances at which they are defined.
pub fn known_premises()
    ensures one_word { premises_of [] L1 (unrestricted MAX_N MAX_N) ≡ Some [] }
    ensures one_word_of_weight { premises_of [] M1 (constant_weight 4 4 4) ≡ Some [] }
    ensures opposite_words { premises_of [] L2 (unrestricted 5 5) ≡ Some [] }
    ensures lengthened { premises_of [] L3 (unrestricted 2 3) ≡ Some (lower_at 1 3 ∷ []) }
    ensures nearer { premises_of [] L4 (unrestricted MAX_N (MAX_N - 1)) ≡ Some (lower_at MAX_N MAX_N ∷ []) }
    ensures with_parity { premises_of [] L5 (unrestricted 2 4) ≡ Some (lower_at 1 3 ∷ []) }
    ensures punctured { premises_of [] L6 (unrestricted (MAX_N - 1) (MAX_N - 1)) ≡ Some (lower_at MAX_N MAX_N ∷ []) }
    ensures shortened { premises_of [] L7 (unrestricted (MAX_N - 1) MAX_N) ≡ Some (lower_at MAX_N MAX_N ∷ []) }
    // At distances 3 and 4 the words u are all words of even weight.
    ensures uuv { premises_of [] L8 (unrestricted 2 3) ≡ Some (lower_at 1 3 ∷ []) }
    ensures uuv_last { premises_of [] L8 (unrestricted 8 4) ≡ Some (lower_at 4 4 ∷ []) }
    ensures uuv_odd { premises_of [] L8 (unrestricted 8 5) ≡ Some (lower_at 4 3 ∷ lower_at 4 5 ∷ []) }
    ensures uuv_even { premises_of [] L8 (unrestricted 8 6) ≡ Some (lower_at 4 3 ∷ lower_at 4 6 ∷ []) }
    ensures uuv_up { premises_of [] L8 (unrestricted 8 7) ≡ Some (lower_at 4 4 ∷ lower_at 4 7 ∷ []) }
    ensures juxtaposition { premises_of [] (L11 5 3) (unrestricted 12 7) ≡ Some (lower_at 5 3 ∷ lower_at 7 4 ∷ []) }
    ensures first_short { premises_of [] (L11 1 4) (unrestricted 12 7) ≡ Some (lower_at 1 4 ∷ lower_at 11 3 ∷ []) }
    ensures second_short { premises_of [] (L11 11 3) (unrestricted 12 6) ≡ Some (lower_at 11 3 ∷ lower_at 1 3 ∷ []) }
    ensures all_words { premises_of [] U0 (unrestricted 1 MAX_N) ≡ Some [] }
    ensures all_words_of_weight { premises_of [] V0 (constant_weight MAX_N MAX_N 0) ≡ Some [] }
    ensures far_words { premises_of [] U1 (unrestricted (MAX_N - 1) MAX_N) ≡ Some [] }
    ensures plotkin { premises_of [] U2 (unrestricted 10 6) ≡ Some [] }
    ensures sphere_packing { premises_of [] U3 (unrestricted 1 MAX_N) ≡ Some [] }
    ensures parity_above { premises_of [] U4 (unrestricted 7 3) ≡ Some (upper_at 8 4 ∷ []) }
    ensures parity_above_last { premises_of [] U4 (unrestricted (MAX_N - 1) (MAX_N - 1)) ≡ Some (upper_at MAX_N MAX_N ∷ []) }
    ensures punctured_above { premises_of [] U5 (unrestricted 8 4) ≡ Some (upper_at 7 3 ∷ []) }
    ensures punctured_above_first { premises_of [] U5 (unrestricted 2 MAX_N) ≡ Some (upper_at 1 (MAX_N - 1) ∷ []) }
    ensures shortening { premises_of [] U6 (unrestricted 8 3) ≡ Some (upper_at 7 3 ∷ []) }
    ensures shortening_first { premises_of [] U6 (unrestricted 2 MAX_N) ≡ Some (upper_at 1 MAX_N ∷ []) }
    ensures nearer_above { premises_of [] U7 (unrestricted MAX_N 4) ≡ Some (upper_at MAX_N 3 ∷ []) }
    ensures lengthened_above { premises_of [] U8 (unrestricted (MAX_N - 1) MAX_N) ≡ Some (upper_at MAX_N MAX_N ∷ []) }
{}

/// Where rules are not defined: beyond the greatest and below the least lengths and distances, and at entries with and
/// without a weight.
pub fn known_ranges()
    ensures no_weight { filter (λ r. is_some (premises_of [] r (unrestricted 8 6)))
        (L1 ∷ L2 ∷ L3 ∷ L4 ∷ L5 ∷ L6 ∷ L7 ∷ L8 ∷ L11 4 3 ∷ M1 ∷ U0 ∷ U1 ∷ U2 ∷ U3 ∷ U4 ∷ U5 ∷ U6 ∷ U7 ∷ U8 ∷ V0 ∷ []) ≡
        L1 ∷ L2 ∷ L3 ∷ L4 ∷ L5 ∷ L6 ∷ L7 ∷ L8 ∷ L11 4 3 ∷ U0 ∷ U2 ∷ U3 ∷ U5 ∷ U6 ∷ U7 ∷ U8 ∷ [] }
    ensures weight { filter (λ r. is_some (premises_of [] r (constant_weight 8 6 4)))
        (L1 ∷ L2 ∷ L3 ∷ L4 ∷ L5 ∷ L6 ∷ L7 ∷ L8 ∷ L11 4 3 ∷ M1 ∷ U0 ∷ U1 ∷ U2 ∷ U3 ∷ U4 ∷ U5 ∷ U6 ∷ U7 ∷ U8 ∷ V0 ∷ []) ≡ M1 ∷ V0 ∷ [] }
    ensures no_entry { filter (λ r. is_some (premises_of [] r (unrestricted (MAX_N + 1) 6)))
        (L1 ∷ L2 ∷ L3 ∷ L4 ∷ L5 ∷ L6 ∷ L7 ∷ L8 ∷ L11 4 3 ∷ M1 ∷ U0 ∷ U1 ∷ U2 ∷ U3 ∷ U4 ∷ U5 ∷ U6 ∷ U7 ∷ U8 ∷ V0 ∷ []) ≡ [] }
    ensures no_bound { value_of [] L1 (unrestricted (MAX_N + 1) 6) [] ≡ None }
    ensures opposite_words { premises_of [] L2 (unrestricted 5 6) ≡ None }
    ensures lengthened { premises_of [] L3 (unrestricted 1 3) ≡ None }
    ensures nearer { premises_of [] L4 (unrestricted MAX_N MAX_N) ≡ None }
    ensures parity_of_one { premises_of [] L5 (unrestricted 1 4) ≡ None }
    ensures parity_odd { premises_of [] L5 (unrestricted 8 5) ≡ None }
    ensures punctured_long { premises_of [] L6 (unrestricted MAX_N (MAX_N - 1)) ≡ None }
    ensures punctured_far { premises_of [] L6 (unrestricted (MAX_N - 1) MAX_N) ≡ None }
    ensures shortened { premises_of [] L7 (unrestricted MAX_N MAX_N) ≡ None }
    ensures uuv_odd_length { premises_of [] L8 (unrestricted 7 4) ≡ None }
    ensures no_first { premises_of [] (L11 0 3) (unrestricted 12 6) ≡ None }
    ensures no_second { premises_of [] (L11 12 3) (unrestricted 12 6) ≡ None }
    ensures first_near { premises_of [] (L11 5 2) (unrestricted 12 6) ≡ None }
    ensures second_near { premises_of [] (L11 5 4) (unrestricted 12 6) ≡ None }
    ensures not_far { premises_of [] U1 (unrestricted 6 6) ≡ None }
    ensures plotkin_short { premises_of [] U2 (unrestricted 5 6) ≡ None }
    ensures plotkin_short_odd { premises_of [] U2 (unrestricted 4 5) ≡ None }
    ensures plotkin_long { premises_of [] U2 (unrestricted 13 6) ≡ None }
    ensures plotkin_long_odd { premises_of [] U2 (unrestricted 12 5) ≡ None }
    ensures parity_above_even { premises_of [] U4 (unrestricted 8 4) ≡ None }
    ensures parity_above_long { premises_of [] U4 (unrestricted MAX_N 5) ≡ None }
    ensures punctured_above_short { premises_of [] U5 (unrestricted 1 4) ≡ None }
    ensures punctured_above_near { premises_of [] U5 (unrestricted 8 3) ≡ None }
    ensures shortening_short { premises_of [] U6 (unrestricted 1 3) ≡ None }
    ensures nearer_above { premises_of [] U7 (unrestricted 8 3) ≡ None }
    ensures lengthened_above { premises_of [] U8 (unrestricted MAX_N 3) ≡ None }
{}

/// What rules give: A(8,4) = 16 and A(7,3) = 16 each from the other, from below and from above, A(16,4) ≥ 2048 and
/// A(16,8) ≥ 32 from A(8,4) = 16 and A(8,8) = 2, A(23,7) ≤ 4096, which Golay's code has, and so on. A number above
/// `MAX_BOUND` is no lower bound, and as an upper bound it is `MAX_BOUND`.
pub fn known_values()
    ensures one_word { value_of [] L1 (unrestricted 1 3) [] ≡ Some 1 }
    ensures one_word_of_weight { value_of [] M1 (constant_weight 4 4 2) [] ≡ Some 1 }
    ensures opposite_words { value_of [] L2 (unrestricted 5 5) [] ≡ Some 2 }
    ensures lengthened { value_of [] L3 (unrestricted 8 3) (16 ∷ []) ≡ Some 16 }
    ensures nearer { value_of [] L4 (unrestricted 8 3) (16 ∷ []) ≡ Some 16 }
    ensures with_parity { value_of [] L5 (unrestricted 8 4) (16 ∷ []) ≡ Some 16 }
    ensures punctured { value_of [] L6 (unrestricted 7 3) (16 ∷ []) ≡ Some 16 }
    ensures shortened { value_of [] L7 (unrestricted 7 4) (16 ∷ []) ≡ Some 8 }
    ensures shortened_odd { value_of [] L7 (unrestricted 7 4) (5 ∷ []) ≡ Some 3 }
    ensures uuv_of_one { value_of [] L8 (unrestricted 6 4) (1 ∷ []) ≡ Some 4 }
    ensures uuv_near { value_of [] L8 (unrestricted 16 4) (16 ∷ []) ≡ Some 2048 }
    ensures uuv_far { value_of [] L8 (unrestricted 16 8) (16 ∷ 2 ∷ []) ≡ Some 32 }
    ensures uuv_at_five { value_of [] L8 (unrestricted 6 5) (2 ∷ 1 ∷ []) ≡ Some 2 }
    ensures juxtaposition { value_of [] (L11 5 3) (unrestricted 12 7) (4 ∷ 8 ∷ []) ≡ Some 4 }
    ensures juxtaposition_turned { value_of [] (L11 7 4) (unrestricted 12 7) (8 ∷ 4 ∷ []) ≡ Some 4 }
    ensures all_words { value_of [] U0 (unrestricted 3 3) [] ≡ Some 8 }
    ensures all_longest_words { value_of [] U0 (unrestricted MAX_N 3) [] ≡ Some MAX_BOUND }
    ensures all_words_of_weight { value_of [] V0 (constant_weight 4 4 2) [] ≡ Some 6 }
    ensures greatest { value_of [] L8 (unrestricted MAX_N 6) (MAX_BOUND / 2 ∷ 2 ∷ []) ≡ Some MAX_BOUND }
    // 25 · 42,949,673 is 2^30 + 1.
    ensures above { value_of [] L8 (unrestricted 30 6) (25 ∷ 42949673 ∷ []) ≡ None }
    ensures far_above { value_of [] L8 (unrestricted MAX_N 6) (MAX_BOUND / 2 ∷ 4 ∷ []) ≡ None }
    ensures cut { within_limit Upper (Some (MAX_BOUND + 1)) ≡ Some MAX_BOUND }
    ensures far_words { value_of [] U1 (unrestricted 5 6) [] ≡ Some 1 }
    ensures plotkin { value_of [] U2 (unrestricted 10 6) [] ≡ Some 6 }
    ensures plotkin_near { value_of [] U2 (unrestricted 6 4) [] ≡ Some 4 }
    ensures plotkin_shortest { value_of [] U2 (unrestricted 6 6) [] ≡ Some 2 }
    ensures plotkin_below { value_of [] U2 (unrestricted 11 6) [] ≡ Some 12 }
    ensures plotkin_longest { value_of [] U2 (unrestricted 8 4) [] ≡ Some 16 }
    ensures plotkin_odd { value_of [] U2 (unrestricted 5 3) [] ≡ Some 4 }
    ensures plotkin_shortest_odd { value_of [] U2 (unrestricted 5 5) [] ≡ Some 2 }
    ensures plotkin_below_odd { value_of [] U2 (unrestricted 10 5) [] ≡ Some 12 }
    ensures plotkin_longest_odd { value_of [] U2 (unrestricted 11 5) [] ≡ Some 24 }
    ensures sphere_packing { value_of [] U3 (unrestricted 7 3) [] ≡ Some 16 }
    ensures sphere_packing_even { value_of [] U3 (unrestricted 7 4) [] ≡ Some 16 }
    ensures sphere_packing_of_three { value_of [] U3 (unrestricted 23 7) [] ≡ Some 4096 }
    ensures sphere_packing_rounded_down { value_of [] U3 (unrestricted 28 3) [] ≡ Some 9256395 }
    ensures parity_above { value_of [] U4 (unrestricted 7 3) (16 ∷ []) ≡ Some 16 }
    ensures punctured_above { value_of [] U5 (unrestricted 8 4) (16 ∷ []) ≡ Some 16 }
    ensures shortening { value_of [] U6 (unrestricted 8 3) (16 ∷ []) ≡ Some 32 }
    ensures shortening_greatest { value_of [] U6 (unrestricted MAX_N 3) (MAX_BOUND / 2 ∷ []) ≡ Some MAX_BOUND }
    ensures shortening_cut { value_of [] U6 (unrestricted MAX_N 3) ((MAX_BOUND / 2 + 1) ∷ []) ≡ Some MAX_BOUND }
    ensures nearer_above { value_of [] U7 (unrestricted 8 4) (20 ∷ []) ≡ Some 20 }
    ensures lengthened_above { value_of [] U8 (unrestricted 7 3) (20 ∷ []) ≡ Some 20 }
    ensures lengthened_cut { value_of [] U8 (unrestricted 7 3) ((MAX_BOUND + 1) ∷ []) ≡ Some MAX_BOUND }
{}
