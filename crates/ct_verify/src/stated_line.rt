//! Lines of derivations, as their words state them.

ghost use Rattle.std.specs.Prelude.{◌≡◌, drop, map, IfOk, option_map};
ghost use Rattle.ct_text.specs.Number.{number_of};
ghost use Rattle.ct_text.specs.Side.{side_of_word};
ghost use Rattle.ct_verify.specs.Stated.{entry_of_words};
ghost use Rattle.ct_verify.specs.Inside.StatedLine.{bound_of_word, all_numbers, premises_of_words, claim_of, with_rule, with_reason, with_value, line_of};

use crate::stated_rule::{StatedRule, parse_rule};
use ct_text::{parse_entry_numbers, parse_number, parse_side};
use ct_words::{Claim, Entry, MAX_BOUND};
use std::alloc::{AllocError, Global};
use std::marker::Model;

/// A line of a derivation, as it is stated.
#[derive(Drop)]
pub struct StatedLine {
    /// Its number.
    pub number: u64,
    /// What it claims.
    pub claim: Claim,
    /// Its rule.
    pub rule: StatedRule,
    /// The numbers of the lines that hold the premises.
    pub from: Vec<u64>,
}

impl Model for StatedLine {
    ghost use Rattle.ct_verify.specs.Inside.StatedLine.{StatedLineValue};

    ghost Value = { StatedLineValue };

    ghost view = { λ l. record { number = l.number; claim = l.claim; rule = l.rule; from = l.from.items } };
}

/// The entry of the table that the words name.
fn parse_entry(words: &[&[u8]]) -> Option<Entry>
    ensures { result ≡ entry_of_words (map (λ word. word.now) words.now) }
{
    parse_entry_numbers(words)?.entry()
}

/// The bound that a word writes, from 1 to `MAX_BOUND`.
fn parse_bound(word: &[u8]) -> Option<u32>
    ensures { result ≡ bound_of_word word.now }
{
    let number = parse_number(word)?;
    if 1 <= number && number <= u64::from(MAX_BOUND) {
        Some(number as u32)
    } else {
        None
    }
}

/// The numbers that the words write, where each of them is one. `Err` is want of memory.
fn parse_numbers(alloc: Global, words: &[&[u8]]) -> Result<Option<Vec<u64>>, AllocError>
    ensures { IfOk result (λ numbers. option_map (λ ns. ns.items) numbers ≡ all_numbers (map (λ word. word.now) words.now)) }
{
    let mut numbers = Vec::new(alloc);
    for word in words {
        let Some(number) = parse_number(word) else {
            return Ok(None);
        };
        numbers.push(number)?;
    }
    Ok(Some(numbers))
}

/// The numbers of lines that the words name: none, or `from` and at least one number. `Err` is want of memory.
fn parse_premises(alloc: Global, words: &[&[u8]]) -> Result<Option<Vec<u64>>, AllocError>
    ensures { IfOk result (λ numbers. option_map (λ ns. ns.items) numbers ≡ premises_of_words (map (λ word. word.now) words.now)) }
{
    match words {
        [] => Ok(Some(Vec::new(alloc))),
        [word, numbers @ ..] if *word == b"from".as_slice() && !numbers.is_empty() => {
            parse_numbers(alloc, numbers)
        }
        _ => Ok(None),
    }
}

/// The claim that these words make.
fn parse_claim(side: &[u8], entry: &[&[u8]], value: &[u8]) -> Option<Claim>
    ensures { result ≡ claim_of (side_of_word side.now) (entry_of_words (map (λ word. word.now) entry.now)) (bound_of_word value.now) }
{
    Some(Claim {
        side: parse_side(side)?,
        entry: parse_entry(entry)?,
        value: parse_bound(value)?,
    })
}

/// The words but for so many at the front.
fn without_first<'a>(words: &'a [&'a [u8]], count: usize) -> &'a [&'a [u8]]
    ensures { map (λ word. word.now) result.now ≡ drop count (map (λ word. word.now) words.now) }
{
    if count < words.len() {
        &words[count..]
    } else {
        &words[words.len()..]
    }
}

/// The line with this number and claim whose rule is followed by these words. `Err` is want of memory.
fn parse_rest(
    alloc: Global,
    number: Option<u64>,
    claim: Claim,
    rule: Option<StatedRule>,
    words: &[&[u8]],
) -> Result<Option<StatedLine>, AllocError>
    ensures { IfOk result (λ line. line ≡ with_rule number claim rule (map (λ word. word.now) words.now)) }
{
    let Some(number) = number else {
        return Ok(None);
    };
    let Some(rule) = rule else {
        return Ok(None);
    };
    let Some(from) = parse_premises(alloc, without_first(words, rule.arguments))? else {
        return Ok(None);
    };
    Ok(Some(StatedLine {
        number,
        claim,
        rule,
        from,
    }))
}

/// The line with this number and claim; the words are `by`, the name of a rule, and what follows it. `Err` is want of memory.
fn parse_reason(
    alloc: Global,
    number: Option<u64>,
    claim: Option<Claim>,
    words: &[&[u8]],
) -> Result<Option<StatedLine>, AllocError>
    ensures { IfOk result (λ line. line ≡ with_reason number claim (map (λ word. word.now) words.now)) }
{
    let Some(claim) = claim else {
        return Ok(None);
    };
    match words {
        [word, name, rest @ ..] if *word == b"by".as_slice() => {
            let rule = parse_rule(claim.side, name, rest);
            parse_rest(alloc, number, claim, rule, rest)
        }
        _ => Ok(None),
    }
}

/// The line with this number, side and entry; the words are `value`, a bound, and what follows it. `Err` is want of memory.
fn parse_value(
    alloc: Global,
    number: &[u8],
    side: &[u8],
    entry: &[&[u8]],
    words: &[&[u8]],
) -> Result<Option<StatedLine>, AllocError>
    ensures { IfOk result (λ line. line
        ≡ with_value number.now side.now (map (λ word. word.now) entry.now) (map (λ word. word.now) words.now)) }
{
    match words {
        [word, value, rest @ ..] if *word == b"value".as_slice() => {
            let claim = parse_claim(side, entry, value);
            parse_reason(alloc, parse_number(number), claim, rest)
        }
        _ => Ok(None),
    }
}

/// The line that the words after `line` state: its number, the side, the entry by two numbers or three, `value` and the bound,
/// `by` and the rule with its arguments, and where it has premises `from` and their numbers. `Err` is want of memory.
pub(crate) fn parse_line(alloc: Global, words: &[&[u8]]) -> Result<Option<StatedLine>, AllocError>
    ensures { IfOk result (λ line. line ≡ line_of (map (λ word. word.now) words.now)) }
{
    let [number, side, n, d, rest @ ..] = words else {
        return Ok(None);
    };
    let [word, after @ ..] = rest else {
        return Ok(None);
    };
    if *word == b"value".as_slice() {
        parse_value(alloc, number, side, &[*n, *d], rest)
    } else {
        parse_value(alloc, number, side, &[*n, *d, *word], after)
    }
}
