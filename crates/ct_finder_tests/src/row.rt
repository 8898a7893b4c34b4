//! What is found for a row.

ghost use Rattle.std.specs.Prelude.{◌≡◌, ◌%◌, true};
ghost use Rattle.ct_words.specs.Entry.{IsEntry, unrestricted, constant_weight};

use ct_finder::{Found, Stop, find, find_weight};
use ct_primal::Primal;
use ct_words::Entry;
use std::alloc::{AllocError, Global};
use toml::Value;

/// The text that stands there, empty where none does.
pub fn text(value: Option<&Value>) -> &str {
    match value {
        Some(Value::String(text)) => text.as_str(),
        _ => "",
    }
}

/// The list that stands there, empty where none does.
pub fn list(value: Option<&Value>) -> &[Value] {
    match value {
        Some(Value::Array(items)) => items,
        _ => &[],
    }
}

/// The number that stands there, 0 where none does.
pub fn number(value: Option<&Value>) -> u32 {
    match value {
        Some(Value::Integer(k)) => u32::try_from(*k).unwrap_or(0),
        _ => 0,
    }
}

/// A primal, in words: its scale, and its indices with their numbers.
fn primal_text(alloc: Global, primal: &Primal) -> Result<String, AllocError> {
    let mut text = primal.q.to_string(alloc)?;
    for (i, number) in &primal.a {
        text.push_str(&format!(in alloc; " {i}:{number}")?)?;
    }
    Ok(text)
}

/// How the run stopped, in words; with the primal where it is shown to be least.
fn stop_text(alloc: Global, stop: &Stop) -> Result<String, AllocError> {
    match stop {
        Stop::Least(primal) => {
            let shown = primal_text(alloc, primal)?;
            format!(in alloc; "least {shown}")
        }
        Stop::Turns(turns) => format!(in alloc; "turns {turns}"),
        Stop::Wide(x) => format!(in alloc; "wide {x}"),
    }
}

/// What was found, in words: its bound, how the run stopped, and the multipliers of its dual.
fn found_text(alloc: Global, found: &Found) -> Result<String, AllocError> {
    let bound = found.bound;
    let stop = stop_text(alloc, &found.stop)?;
    let mut text = format!(in alloc; "{bound} {stop}:")?;
    for multiplier in found.dual.c.as_slice() {
        text.push(' ')?;
        text.push_str(&multiplier.to_string(alloc)?)?;
    }
    Ok(text)
}

/// What is found without weight, for an entry of the table.
fn plain(alloc: Global, n: u32, d: u32, even: bool, turns: u32) -> Result<String, AllocError> {
    let entry = Entry { n, d, w: None };
    if !entry.in_table() || even && d % 2 != 0 {
        return "no entry".to_string(alloc);
    }
    found_text(alloc, &find(alloc, n, d, even, turns)?)
}

/// What is found with a weight, for an entry of the table.
fn weighted(alloc: Global, n: u32, d: u32, w: u32, turns: u32) -> Result<String, AllocError> {
    let entry = Entry { n, d, w: Some(w) };
    if !entry.in_table() {
        return "no entry".to_string(alloc);
    }
    match find_weight(alloc, n, d, w, turns)? {
        None => "none".to_string(alloc),
        Some(found) => found_text(alloc, &found),
    }
}

/// What is found for a row: length, distance, and a weight, `even` or nothing.
pub fn outcome(alloc: Global, row: &[Value], turns: u32) -> Result<String, AllocError> {
    let n = number(row.first());
    let d = number(row.get(1));
    match row.get(2) {
        Some(Value::Integer(w)) => weighted(alloc, n, d, u32::try_from(*w).unwrap_or(0), turns),
        mark => plain(alloc, n, d, text(mark) == "even", turns),
    }
}
