//! What stands at the keys of a part or a row.

use std::alloc::{AllocError, Global};
use toml::{Table, Value};

/// The text at the key, empty where none stands there.
pub fn text<'a>(table: &'a Value, key: &str) -> &'a str {
    match table.get(key) {
        Some(Value::String(text)) => text.as_str(),
        _ => "",
    }
}

/// The number at the key.
pub fn number(table: &Value, key: &str) -> Option<usize> {
    match table.get(key) {
        Some(Value::Integer(number)) => usize::try_from(*number).ok(),
        _ => None,
    }
}

/// The list at the key, empty where none stands there.
pub fn list<'a>(table: &'a Value, key: &str) -> &'a [Value] {
    match table.get(key) {
        Some(Value::Array(items)) => items,
        _ => &[],
    }
}

/// The numbers of the list at the key.
pub fn numbers(alloc: Global, table: &Value, key: &str) -> Result<Vec<u32>, AllocError> {
    let mut numbers = Vec::new(alloc);
    for item in list(table, key) {
        if let Value::Integer(number) = item {
            numbers.push(u32::try_from(*number).unwrap_or(u32::MAX))?;
        }
    }
    Ok(numbers)
}

/// The texts of the list at the key.
pub fn texts(alloc: Global, table: &Value, key: &str) -> Result<Vec<String>, AllocError> {
    let mut texts = Vec::new(alloc);
    for item in list(table, key) {
        if let Value::String(text) = item {
            texts.push(text.as_str().to_string(alloc)?)?;
        }
    }
    Ok(texts)
}

/// Whether each key is one that a part or a row may have, and has what it asks for.
pub fn are_known(table: &Value) -> bool {
    match table {
        Value::Table(members) => members_are_known(members),
        _ => false,
    }
}

fn members_are_known(members: &Table) -> bool {
    for (key, value) in members {
        if !is_known(key.as_str(), value) {
            return false;
        }
    }
    true
}

fn is_known(key: &str, value: &Value) -> bool {
    match value {
        Value::String(_) => {
            [
                "name",
                "input",
                "output",
                "status",
                "input_file",
                "output_file",
            ]
            .contains(&key)
        }
        Value::Integer(_) => ["times", "writes", "read_calls"].contains(&key),
        Value::Array(_) => {
            ["words", "after", "reads", "failing_reads", "failing_writes"].contains(&key)
        }
        _ => false,
    }
}
