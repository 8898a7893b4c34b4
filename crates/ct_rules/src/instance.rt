//! What a rule rests on, and the bound that it gives.

ghost use Rattle.std.specs.Prelude.{◌≡◌, ◌≤◌, true, if◌then◌else◌, List, map, All, Some, None, IfSome, option_map};
ghost use Rattle.std.specs.Option.{ForSome};
ghost use Rattle.ct_words.specs.declared.claim.Claim.{Claim};
ghost use Rattle.ct_words.specs.Claim.{IsTrueClaim};
ghost use Rattle.ct_words.specs.Entry.{IsEntry};
ghost use Rattle.ct_rule_parts.specs.Entries.{listed};
ghost use Rattle.ct_rule_parts.specs.Slot.{slot_of, claim_at};
ghost use Rattle.ct_rule_parts.specs.Support.{Stands};
ghost use Rattle.ct_rules.specs.Rule.{rule_side, applies, parts_over, count_of, premise_of, value_of, cited, premises_of};

use crate::rows::{number, rests_on, rule_side};
use crate::rule::Rule;
use ct_rule_parts::{Entries, Support, within_limit};
use ct_words::{Entry, MAX_BOUND, MAX_N, Side};

/// The entries whose bounds the rule rests on at the entry, in order, where it is defined: the entry is in the table, the rule's
/// condition holds there, and all that it rests on is in the table. `None` comes exactly where it is not defined.
pub fn defined_on(supports: &[Support], rule: Rule, entry: Entry) -> Option<Entries<'_>>
    ensures { option_map listed result
        ≡ (if applies supports.now rule entry then Some ((parts_over supports.now rule).rests_on entry) else None) }
{
    if !entry.in_table() {
        return None;
    }
    let entries = rests_on(supports, rule, entry)?;
    if entries.are_in_table() {
        Some(entries)
    } else {
        None
    }
}

/// Whether the rule is defined at the entry: the entry is in the table, the rule's condition holds there, and all that it
/// rests on is in the table.
pub fn applies(supports: &[Support], rule: Rule, entry: Entry) -> bool
    ensures { result ≡ applies supports.now rule entry }
{
    defined_on(supports, rule, entry).is_some()
}

/// How many premises the rule has at the entry, `MAX_N` at most. `None` comes exactly where the rule, with its argument and the
/// support that it names, is not defined there.
pub fn premise_count(supports: &[Support], rule: Rule, entry: Entry) -> Option<usize>
    ensures count { result ≡ count_of supports.now rule entry }
    ensures few { IfSome result (λ count. count ≤ MAX_N) }
{
    let entries = defined_on(supports, rule, entry)?;
    Some(entries.len())
}

/// The premise of the rule at the entry at the place j, from 0: a side of an entry. `None` comes exactly where the rule,
/// with its argument and the support that it names, is not defined there, and where it has no more than j premises.
pub fn premise(supports: &[Support], rule: Rule, entry: Entry, j: usize) -> Option<(Side, Entry)>
    ensures premise { result ≡ premise_of supports.now rule entry j }
    ensures side { IfSome result (λ s. s.0 ≡ rule_side rule) }
    ensures entry { IfSome result (λ s. IsEntry s.1) }
{
    let there = defined_on(supports, rule, entry)?.get(j)?;
    Some((rule_side(rule), there))
}

/// The bound that the rule gives at an entry where it is defined and its premises have these values, as `value` says.
#[inline(always)]
pub fn value_where_defined(
    supports: &[Support],
    rule: Rule,
    entry: Entry,
    premises: &[u32],
) -> Option<u32>
    requires { applies supports.now rule entry ≡ true }
    ensures value { result ≡ value_of supports.now rule entry premises.now }
    ensures limit { IfSome result (λ v. v ≤ MAX_BOUND) }
{
    let number = number(supports, rule, entry, premises)?;
    within_limit(rule_side(rule), number)
}

/// The bound that the rule gives at the entry where its premises have these values, in the order of the premises. `None`
/// comes exactly where the rule, with its argument and the support that it names, is not defined there, or gives no number,
/// or, for a lower bound, a number above `MAX_BOUND`, which true premises never give. Any missing value counts as 0. Where the
/// support that the rule names, if it names one, stands, and the values are true bounds of the premises, the bound is true.
pub fn value(supports: &[Support], rule: Rule, entry: Entry, premises: &[u32]) -> Option<u32>
    ensures value { result ≡ value_of supports.now rule entry premises.now }
    ensures limit { IfSome result (λ v. v ≤ MAX_BOUND) }
    ensures sound { (claims : List Claim) → ForSome (cited supports.now rule) Stands →
        premises_of supports.now rule entry ≡ Some (map slot_of claims) → premises.now ≡ map (λ c. c.value) claims →
        All IsTrueClaim claims → IfSome result (λ v. IsTrueClaim (claim_at (rule_side rule, entry) v)) }
{
    if !applies(supports, rule, entry) {
        return None;
    }
    value_where_defined(supports, rule, entry, premises)
}
