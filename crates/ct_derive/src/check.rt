//! Lines that someone states, checked against those before them.

ghost use Rattle.std.specs.Prelude.{◌≡◌, ◌-◌, ◌++◌, ◌∷◌, [], List, IfOk, IsSome, OnErr, None, map, option_map};
ghost use Rattle.ct_words.specs.Entry.{IsEntry};
ghost use Rattle.ct_rules.specs.Rule.{rule_side};
ghost use Rattle.ct_rules.specs.Derivation.{LineValue, IsDerivation};
ghost use Rattle.ct_rule_parts.specs.declared.support.Support.{Support};
ghost use Rattle.ct_weight_rules.specs.GrahamSloane.{sum_class_size};
ghost use Rattle.ct_rule_parts.specs.Entries.{listed};
ghost use Rattle.ct_derive.specs.Check.{same_side, claim_numbered, value_for, values_numbered, value_fault, line_fault, line_by};

use crate::class_sizes::ClassSizes;
use ct_rule_parts::within_limit;
use ct_rules::{Entries, Line, Rule, Support, defined_on, rule_side, value};
use ct_words::{Claim, Entry, Side};
use smallvec::SmallVec;
use std::alloc::{AllocError, Global};

/// Why a line does not follow from those before it.
#[derive(Clone, Copy)]
pub enum LineFault {
    /// The rule is not defined at the entry, with its argument and the support that it names, or gives nothing from the
    /// values of the premises.
    NoRule,
    /// The lines that are named are not as many as the rule's premises, or one of them is no earlier line that claims the
    /// premise at its place.
    NoPremise,
    /// The rule gives another value than the one that is stated.
    OtherValue {
        /// The value that the line states.
        stated: u32,
        /// The value that the rule gives.
        given: u32,
    },
}

/// Whether the sides are the same.
fn same_side(side: Side, other: Side) -> bool
    ensures { result ≡ same_side side other }
{
    match (side, other) {
        (Side::Lower, Side::Lower) | (Side::Upper, Side::Upper) => true,
        _ => false,
    }
}

/// The claim of the line with the number, counted from 1, where there is one.
fn claim_numbered(before: &[Line], number: u64) -> Option<Claim>
    ensures { result ≡ claim_numbered before.now number }
{
    if number == 0 {
        return None;
    }
    let line = before.get((number - 1) as usize)?;
    Some(line.claim)
}

/// The value of the claim with the number, where it bounds the entry from this side.
fn value_numbered(before: &[Line], number: u64, side: Side, entry: Entry) -> Option<u32>
    ensures { result ≡ value_for side entry (claim_numbered before.now number) }
{
    let claim = claim_numbered(before, number)?;
    if same_side(claim.side, side) && claim.entry == entry {
        Some(claim.value)
    } else {
        None
    }
}

/// The values of the claims with these numbers, where there are as many as entries and each bounds the entry at its place from
/// this side. `Err` is want of memory.
fn values_numbered(
    alloc: Global,
    before: &[Line],
    side: Side,
    entries: Entries,
    numbers: &[u64],
) -> Result<Option<SmallVec<u32, 4>>, AllocError>
    ensures { IfOk result (λ values. option_map (λ vs. vs.items) values ≡ values_numbered side before.now (listed entries.entry) numbers.now) }
{
    let mut values = SmallVec::new(alloc);
    for place in 0..numbers.len() {
        let Some(entry) = entries.get(place) else {
            return Ok(None);
        };
        let Some(value) = value_numbered(before, numbers[place], side, entry) else {
            return Ok(None);
        };
        values.push(value)?;
    }
    if numbers.len() < entries.len() {
        return Ok(None);
    }
    Ok(Some(values))
}

/// The fault of a stated value, where the rule gives this one.
fn value_fault(stated: u32, given: Option<u32>) -> Option<LineFault>
    ensures { result ≡ value_fault stated given }
{
    match given {
        None => Some(LineFault::NoRule),
        Some(given) if stated == given => None,
        Some(given) => Some(LineFault::OtherValue { stated, given }),
    }
}

/// How many words the sum class has that rule M9 with the residue gives at the entry, where it gives one there. `Err` is want of memory.
fn counted_size(
    sizes: &mut ClassSizes,
    residue: u32,
    entry: Entry,
) -> Result<Option<u64>, AllocError>
    requires { IsEntry entry }
    ensures { IfOk result (λ size. size ≡ sum_class_size residue entry) }
{
    let Some(w) = entry.w else {
        return Ok(None);
    };
    if entry.d != 4 || entry.n <= residue {
        return Ok(None);
    }
    let size = sizes.size(entry.n, w, residue)?;
    Ok(if size > 0 { Some(size) } else { None })
}

/// What `line_fault` says of rule M9 with the residue, whatever the supports and the lines before. `Err` is want of memory.
#[tactic(auto, unfolding(ct_rules::specs::Rule::row_of))]
fn class_fault(
    sizes: &mut ClassSizes,
    claim: Claim,
    residue: u32,
    numbers: &[u64],
) -> Result<Option<LineFault>, AllocError>
    ensures { (supports : List Support) (before : List LineValue) →
        IfOk result (λ fault. fault ≡ line_fault supports before claim (Rule.M9 residue) numbers.now) }
{
    if !claim.entry.in_table() {
        return Ok(Some(LineFault::NoRule));
    }
    let Some(size) = counted_size(sizes, residue, claim.entry)? else {
        return Ok(Some(LineFault::NoRule));
    };
    if !numbers.is_empty() {
        return Ok(Some(LineFault::NoPremise));
    }
    Ok(value_fault(claim.value, within_limit(Side::Lower, size)))
}

/// The first fault of a line that states this claim by this rule, which is of the claim's side, from the lines with these
/// numbers, counted from 1; `None` where it follows from the lines before it. The sizes are of sum classes that lines before it took.
/// `Err` is want of memory.
pub fn line_fault(
    alloc: Global,
    supports: &[Support],
    sizes: &mut ClassSizes,
    before: &[Line],
    claim: Claim,
    rule: Rule,
    numbers: &[u64],
) -> Result<Option<LineFault>, AllocError>
    ensures { IfOk result (λ fault. fault ≡ line_fault supports.now before.now claim rule numbers.now) }
{
    if let Rule::M9(residue) = rule {
        return class_fault(sizes, claim, residue, numbers);
    }
    let Some(entries) = defined_on(supports, rule, claim.entry) else {
        return Ok(Some(LineFault::NoRule));
    };
    let Some(values) = values_numbered(alloc, before, rule_side(rule), entries, numbers)? else {
        return Ok(Some(LineFault::NoPremise));
    };
    Ok(value_fault(
        claim.value,
        value(supports, rule, claim.entry, values.as_slice()),
    ))
}

/// The places of the lines with these numbers, which count from 1. `Err` is want of memory.
fn places_of(alloc: Global, numbers: &[u64]) -> Result<SmallVec<usize, 2>, AllocError>
    ensures { IfOk result (λ places. places.items ≡ map (λ n. n - 1) numbers.now) }
{
    let mut places = SmallVec::new(alloc);
    for number in numbers {
        places.push(number.saturating_sub(1) as usize)?;
    }
    Ok(places)
}

/// Puts a line that states this claim by this rule, which is of the claim's side, from the lines with these numbers, counted
/// from 1, where it follows from the lines so far; else answers its first fault. Lines that are a derivation stay one. After
/// an `Err`, which is want of memory, the lines are as before. The sizes are of sum classes that lines before it took.
pub fn add_line(
    alloc: Global,
    supports: &[Support],
    sizes: &mut ClassSizes,
    lines: &mut Vec<Line>,
    claim: Claim,
    rule: Rule,
    numbers: &[u64],
) -> Result<Option<LineFault>, AllocError>
    requires { claim.side ≡ rule_side rule }
    ensures fault { IfOk result (λ fault. fault ≡ line_fault supports.now lines.old.items claim rule numbers.now) }
    ensures added { IfOk result (λ fault. fault ≡ None → lines.new.items ≡ lines.old.items ++ line_by claim rule numbers.now ∷ []) }
    ensures refused { IfOk result (λ fault. IsSome fault → lines.new.items ≡ lines.old.items) }
    ensures unchanged { OnErr result (lines.new.items ≡ lines.old.items) }
    ensures derivation { IsDerivation supports.now lines.old.items → IsDerivation supports.now lines.new.items }
{
    if let Some(fault) = line_fault(alloc, supports, sizes, lines, claim, rule, numbers)? {
        return Ok(Some(fault));
    }
    let from = places_of(alloc, numbers)?;
    lines.push(Line { claim, rule, from })?;
    Ok(None)
}
