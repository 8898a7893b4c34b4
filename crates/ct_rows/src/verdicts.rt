//! Derivation documents whose verdicts are known. The head of `verdicts.toml` says what stands at the keys of a group.

use crate::fields::{list, text};
use crate::outcome::Outcome;
use crate::row::bytes_of;
use crate::tally::Tally;
use ct_run::Status;
use std::alloc::{AllocError, Global};
use std::rt::Files;
use std::{fs, io};
use toml::Value;

/// The text of an item.
fn item_text(item: Option<&Value>) -> &str {
    match item {
        Some(Value::String(text)) => text.as_str(),
        _ => "",
    }
}

/// The document of a row of the group: its text, between those of the group.
fn document(alloc: Global, group: &Value, row: &str) -> Result<Vec<u8>, AllocError> {
    let mut document = String::new(alloc);
    document.push_str(text(group, "before"))?;
    document.push_str(row)?;
    document.push_str(text(group, "after"))?;
    bytes_of(alloc, document.as_str())
}

/// The status with which the mode ends after this verdict.
fn status_after(verdict: &str) -> Status {
    if verdict == "yes" {
        Status::Done
    } else {
        Status::Refused
    }
}

/// Counts the document of a row of the group.
fn count(
    rt: &(impl Print + AllocGlobal),
    tally: &mut Tally,
    group: &Value,
    row: &[Value],
) -> io::Result<()> {
    let alloc = rt.alloc();
    let row_text = item_text(row.first());
    let verdict = item_text(row.get(1));
    let outcome = Outcome::of_mode(alloc, "verify", document(alloc, group, row_text)?)?;
    let known = format!(in alloc; "{verdict}\n")?;
    let is_met = outcome.status.number() == status_after(verdict).number()
        && outcome.output.as_slice() == known.as_bytes();
    tally.count(rt, row_text, is_met, outcome.text())
}

/// Counts the documents of the file.
pub fn run_all(rt: &(impl Print + Files + AllocGlobal), tally: &mut Tally) -> anyhow::Result<()> {
    let text = fs::read_to_string(rt, "verdicts.toml")?;
    let file = Value::Table(toml::table_from_str(rt.alloc(), text.as_str())?);
    for group in list(&file, "group") {
        for row in list(group, "rows") {
            if let Value::Array(row) = row {
                count(rt, tally, group, row)?;
            }
        }
    }
    Ok(())
}
