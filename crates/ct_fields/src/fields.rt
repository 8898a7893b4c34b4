//! The fields of a document.
ghost use Rattle.std.specs.Prelude.{◌≡◌, ◌+◌, ◌^◌, ◌<◌, ◌≤◌, length, IfOk, option_map};
ghost use Rattle.std.specs.Result.{result_map_both};
ghost use Rattle.toml.specs.Data.{as_str};
ghost use Rattle.toml.specs.View.{view, items_view};
ghost use Rattle.ct_words.specs.declared.limits.TheConstants.{MAX_N};
ghost use Rattle.ct_fields.specs.Reads.{Reads, texts_behind};
ghost use Rattle.ct_fields.specs.Fields.{field, number_in, number_field, texts_of, texts_field, words_from};

use crate::fault::DocumentFault;
use crate::field::FieldName;
use ct_words::{Word, parse_word};
use std::alloc::{AllocError, Global};
use toml::Value;

/// The number of the field, an integer from `low` to `high`.
pub fn number_field(
    document: &Value,
    name: FieldName,
    low: u32,
    high: u32,
) -> Result<u32, DocumentFault>
    ensures { result ≡ number_field name low high (view document.now) }
{
    match document.get(name.text()) {
        Some(value) => number_in(value, low, high).ok_or(DocumentFault::Field(name)),
        None => Err(DocumentFault::Field(name)),
    }
}

/// The number that the value is, where it is an integer from `low` to `high`.
pub(crate) fn number_in(value: &Value, low: u32, high: u32) -> Option<u32>
    ensures { result ≡ number_in low high (view value.now) }
{
    match value {
        Value::Integer(number) => {
            if *number < i64::from(low) || *number > i64::from(high) {
                return None;
            }
            Some(*number as u32)
        }
        _ => None,
    }
}

/// The text of the field. It takes no memory.
pub fn text_field(document: &Value, name: FieldName) -> Result<&str, DocumentFault>
    ensures { result_map_both (λ text. text.now) (λ fault. fault) result ≡ field as_str name (view document.now) }
{
    match document.get(name.text()) {
        Some(Value::String(text)) => Ok(text.as_str()),
        _ => Err(DocumentFault::Field(name)),
    }
}

/// The texts of the field, a list of texts.
pub fn texts_field<'a>(
    alloc: Global,
    document: &'a Value,
    name: FieldName,
) -> Result<Vec<&'a str>, DocumentFault>
    ensures { Reads (λ v. texts_behind v.items) result (texts_field name (view document.now)) }
{
    match document.get(name.text()) {
        Some(Value::Array(values)) => { texts_of(alloc, values)?.ok_or(DocumentFault::Field(name)) }
        _ => Err(DocumentFault::Field(name)),
    }
}

/// The text that the value is.
fn text_in(value: &Value) -> Option<&str>
    ensures { option_map (λ text. text.now) result ≡ as_str (view value.now) }
{
    match value {
        Value::String(text) => Some(text.as_str()),
        _ => None,
    }
}

/// The texts that the values are, where all are texts.
pub fn texts_of(alloc: Global, values: &[Value]) -> Result<Option<Vec<&str>>, AllocError>
    ensures { IfOk result (λ o. option_map (λ v. texts_behind v.items) o ≡ texts_of (items_view values.now)) }
{
    let mut texts = Vec::with_capacity(alloc, values.len())?;
    for value in values {
        let Some(text) = text_in(value) else {
            return Ok(None);
        };
        texts.push_reserved(text);
    }
    Ok(Some(texts))
}

/// The words of length `n` that the texts write, which are counted from `first` on.
pub fn words_from(
    alloc: Global,
    n: u32,
    first: usize,
    texts: &[&str],
) -> Result<Vec<Word>, DocumentFault>
    requires some { 1 ≤ n }
    requires room { n ≤ MAX_N }
    requires places { first + length texts.now < 2 ^ 64 }
    ensures { Reads (λ v. v.items) result (words_from n first (texts_behind texts.now)) }
{
    let mut words = Vec::with_capacity(alloc, texts.len())?;
    for (place, text) in texts.iter().enumerate() {
        let Ok(word) = parse_word(text.as_bytes(), n) else {
            return Err(DocumentFault::Digits(first + place));
        };
        words.push_reserved(word);
    }
    Ok(words)
}
