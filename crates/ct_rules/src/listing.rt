//! The rules with neither numbers nor a support, by the bounds that they give; and the rules by their names.

ghost use Rattle.std.specs.Prelude.{◌≡◌};
ghost use Rattle.ct_rules.specs.Listing.{rules_alone, first_named, rule_named};

use crate::rule::{
    LOWER_RULES, LOWER_WEIGHT_RULES, OTHER_LOWER_RULES, OTHER_UPPER_RULES, Rule, UPPER_RULES,
    UPPER_WEIGHT_RULES, rule_name,
};
use ct_words::{Entry, Side};

/// The rules with neither numbers nor a support that bound an entry from a side. The first of them gives a bound at each such entry and rests on nothing.
pub fn rules_alone(side: Side, entry: Entry) -> &'static [Rule]
    ensures { result.now ≡ rules_alone (side, entry) }
{
    match (side, entry.w) {
        (Side::Lower, None) => &LOWER_RULES,
        (Side::Lower, Some(_)) => &LOWER_WEIGHT_RULES,
        (Side::Upper, None) => &UPPER_RULES,
        (Side::Upper, Some(_)) => &UPPER_WEIGHT_RULES,
    }
}

/// The first of these rules that has the name.
fn first_named(rules: &[Rule], name: &[u8]) -> Option<Rule>
    ensures { result ≡ first_named name.now rules.now }
{
    for rule in rules {
        if rule_name(*rule).as_bytes() == name {
            return Some(*rule);
        }
    }
    None
}

/// The rule for bounds of this side that has the name, its arguments 0.
pub fn rule_named(side: Side, name: &[u8]) -> Option<Rule>
    ensures { result ≡ rule_named side name.now }
{
    match side {
        Side::Lower => first_named(&LOWER_RULES, name)
            .or(first_named(&LOWER_WEIGHT_RULES, name))
            .or(first_named(&OTHER_LOWER_RULES, name)),
        Side::Upper => first_named(&UPPER_RULES, name)
            .or(first_named(&UPPER_WEIGHT_RULES, name))
            .or(first_named(&OTHER_UPPER_RULES, name)),
    }
}
