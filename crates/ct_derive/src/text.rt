//! Derivations as text.

ghost use Rattle.std.specs.Prelude.{◌≡◌, ◌+◌, ◌<◌, ◌^◌, ◌++◌, All, OnOk, slice_get};
ghost use Rattle.std.specs.List.{flat_map};
ghost use Rattle.ct_text.specs.Number.{spaced};
ghost use Rattle.ct_derive.specs.Check.{numbers_at};
ghost use Rattle.ct_derive.specs.Derivation.{AreOrdered};
ghost use Rattle.ct_derive.specs.Text.{id_word, argument_words, rule_words, side_text, claim_words, from_words, reason_words, line_text, lines_text, evidence_text};

use ct_names::Id;
use ct_rules::{Arguments, Line, Rule, arguments_of, rule_name};
use ct_text::{LINE_FEED, line_count, put_entry_words, put_number, put_spaced};
use ct_words::{Claim, Side};
use std::alloc::{AllocError, Global};

/// Puts a space and the id at the place, where there is one, at the end of the text.
fn put_id(text: &mut Vec<u8>, ids: &[Id], place: u32) -> Result<(), AllocError>
    ensures { OnOk result (text.new.items ≡ text.old.items ++ id_word (slice_get ids.now place)) }
{
    match ids.get(place as usize) {
        None => Ok(()),
        Some(id) => {
            text.push(b' ')?;
            text.extend_from_slice(id.text())
        }
    }
}

/// Puts the arguments of a rule, each after a space, at the end of the text.
fn put_arguments(
    alloc: Global,
    text: &mut Vec<u8>,
    ids: &[Id],
    arguments: Arguments,
) -> Result<(), AllocError>
    ensures { OnOk result (text.new.items ≡ text.old.items ++ argument_words ids.now arguments) }
{
    match arguments {
        Arguments::Nothing => Ok(()),
        Arguments::Number(number) => put_spaced(alloc, text, u64::from(number)),
        Arguments::Numbers(first, second) => {
            put_spaced(alloc, text, u64::from(first))?;
            put_spaced(alloc, text, u64::from(second))
        }
        Arguments::Place(place) => put_id(text, ids, place),
    }
}

/// Puts the name of the rule and its arguments at the end of the text.
fn put_rule(alloc: Global, text: &mut Vec<u8>, ids: &[Id], rule: Rule) -> Result<(), AllocError>
    ensures { OnOk result (text.new.items ≡ text.old.items ++ rule_words ids.now rule) }
{
    text.extend_from_slice(rule_name(rule).as_bytes())?;
    put_arguments(alloc, text, ids, arguments_of(rule))
}

/// Puts the side at the end of the text.
fn put_side(text: &mut Vec<u8>, side: Side) -> Result<(), AllocError>
    ensures { OnOk result (text.new.items ≡ text.old.items ++ side_text side) }
{
    match side {
        Side::Lower => text.extend_from_slice(b"lower"),
        Side::Upper => text.extend_from_slice(b"upper"),
    }
}

/// Puts the numbers of the lines at these places, each after a space, at the end of the text.
fn put_numbers(alloc: Global, text: &mut Vec<u8>, from: &[usize]) -> Result<(), AllocError>
    requires { All (λ p. p + 1 < 2 ^ 64) from.now }
    ensures { OnOk result (text.new.items ≡ text.old.items ++ flat_map spaced (numbers_at from.now)) }
{
    for place in from {
        put_spaced(alloc, text, *place as u64 + 1)?;
    }
    Ok(())
}

/// Puts the numbers of the lines that hold the premises, where there are some, at the end of the text.
fn put_from(alloc: Global, text: &mut Vec<u8>, from: &[usize]) -> Result<(), AllocError>
    requires { All (λ p. p + 1 < 2 ^ 64) from.now }
    ensures { OnOk result (text.new.items ≡ text.old.items ++ from_words (numbers_at from.now)) }
{
    if from.is_empty() {
        return Ok(());
    }
    text.extend_from_slice(b" from")?;
    put_numbers(alloc, text, from)
}

/// Puts what the line claims at the end of the text.
fn put_claim(alloc: Global, text: &mut Vec<u8>, claim: Claim) -> Result<(), AllocError>
    ensures { OnOk result (text.new.items ≡ text.old.items ++ claim_words claim) }
{
    put_side(text, claim.side)?;
    text.push(b' ')?;
    put_entry_words(alloc, text, claim.entry)?;
    text.extend_from_slice(b" value")?;
    put_spaced(alloc, text, u64::from(claim.value))
}

/// Puts the rule of a line and the numbers of the lines that hold its premises at the end of the text.
fn put_reason(
    alloc: Global,
    text: &mut Vec<u8>,
    ids: &[Id],
    rule: Rule,
    from: &[usize],
) -> Result<(), AllocError>
    requires { All (λ p. p + 1 < 2 ^ 64) from.now }
    ensures { OnOk result (text.new.items ≡ text.old.items ++ reason_words ids.now rule from.now) }
{
    text.extend_from_slice(b" by ")?;
    put_rule(alloc, text, ids, rule)?;
    put_from(alloc, text, from)
}

/// Puts a line of these parts, with its number, at the end of the text.
fn put_parts(
    alloc: Global,
    text: &mut Vec<u8>,
    ids: &[Id],
    number: u64,
    claim: Claim,
    rule: Rule,
    from: &[usize],
) -> Result<(), AllocError>
    requires { All (λ p. p + 1 < 2 ^ 64) from.now }
    ensures { OnOk result (text.new.items ≡ text.old.items ++ line_text ids.now number (record { claim = claim; rule = rule; from = from.now })) }
{
    text.extend_from_slice(b"line")?;
    put_spaced(alloc, text, number)?;
    text.push(b' ')?;
    put_claim(alloc, text, claim)?;
    put_reason(alloc, text, ids, rule, from)?;
    text.push(LINE_FEED)?;
    Ok(())
}

/// Puts the line with its number at the end of the text.
fn put_line(
    alloc: Global,
    text: &mut Vec<u8>,
    ids: &[Id],
    number: u64,
    line: &Line,
) -> Result<(), AllocError>
    requires { All (λ p. p < number) line.now.from }
    ensures { OnOk result (text.new.items ≡ text.old.items ++ line_text ids.now number line.now) }
{
    put_parts(
        alloc,
        text,
        ids,
        number,
        line.claim,
        line.rule,
        line.from.as_slice(),
    )
}

/// Puts the lines, numbered from 1 on, at the end of the text.
pub(crate) fn put_lines(
    alloc: Global,
    text: &mut Vec<u8>,
    ids: &[Id],
    lines: &[Line],
) -> Result<(), AllocError>
    requires { AreOrdered lines.now }
    ensures { OnOk result (text.new.items ≡ text.old.items ++ lines_text ids.now 1 lines.now) }
{
    for place in 0..lines.len() {
        put_line(alloc, text, ids, place as u64 + 1, &lines[place])?;
    }
    Ok(())
}

/// Puts a block of evidence at the end of the text.
pub(crate) fn put_evidence(
    alloc: Global,
    text: &mut Vec<u8>,
    id: Id,
    document: &[u8],
) -> Result<(), AllocError>
    ensures { OnOk result (text.new.items ≡ text.old.items ++ evidence_text id document.now) }
{
    text.extend_from_slice(b"evidence ")?;
    text.extend_from_slice(id.text())?;
    text.extend_from_slice(b" lines")?;
    put_spaced(alloc, text, line_count(document))?;
    text.push(LINE_FEED)?;
    text.extend_from_slice(document)?;
    text.push(LINE_FEED)?;
    Ok(())
}
