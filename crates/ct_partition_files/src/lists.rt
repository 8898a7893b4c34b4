//! Lists of words as texts, one list for each class.
ghost use Rattle.std.specs.Prelude.{◌≡◌, ◌≤◌, IfOk, option_map};
ghost use Rattle.toml.specs.View.{view, items_view};
ghost use Rattle.ct_words.specs.declared.limits.TheConstants.{MAX_N};
ghost use Rattle.ct_classes.specs.Partition.{word_lists};
ghost use Rattle.ct_fields.specs.Reads.{Reads, texts_behind};
ghost use Rattle.ct_fields.specs.Fields.{texts_in};
ghost use Rattle.ct_fields.specs.Schema.{needed};
ghost use Rattle.ct_partition_files.specs.Lists.{lists_behind, text_lists_of, text_lists_form, classes_from};

use ct_fields::{DocumentFault, FieldName, texts_of, words_from};
use ct_words::Word;
use std::alloc::{AllocError, Global};
use toml::Value;

/// The lists of texts of the field, a list of lists of texts.
pub(crate) fn text_lists_field<'a>(
    alloc: Global,
    document: &'a Value,
    name: FieldName,
) -> Result<Vec<Vec<&'a str>>, DocumentFault>
    ensures { Reads (λ v. lists_behind v.items) result (needed (text_lists_form name) (view document.now)) }
{
    match document.get(name.text()) {
        Some(Value::Array(values)) => {
            text_lists_of(alloc, values)?.ok_or(DocumentFault::Field(name))
        }
        _ => Err(DocumentFault::Field(name)),
    }
}

/// The lists of texts, where all values are such.
fn text_lists_of(alloc: Global, values: &[Value]) -> Result<Option<Vec<Vec<&str>>>, AllocError>
    ensures { IfOk result (λ o. option_map (λ v. lists_behind v.items) o ≡ text_lists_of (items_view values.now)) }
{
    let mut lists = Vec::with_capacity(alloc, values.len())?;
    for value in values {
        let Some(texts) = texts_in(alloc, value)? else {
            return Ok(None);
        };
        lists.push_reserved(texts);
    }
    Ok(Some(lists))
}

/// The texts of the value, where it is a list of texts.
fn texts_in(alloc: Global, value: &Value) -> Result<Option<Vec<&str>>, AllocError>
    ensures { IfOk result (λ o. option_map (λ v. texts_behind v.items) o ≡ texts_in (view value.now)) }
{
    match value {
        Value::Array(values) => texts_of(alloc, values),
        _ => Ok(None),
    }
}

/// The classes of words of length `n` that the lists of texts write. The texts are counted through all lists.
pub(crate) fn classes_from(
    alloc: Global,
    n: u32,
    lists: &[Vec<&str>],
) -> Result<Vec<Vec<Word>>, DocumentFault>
    requires some { 1 ≤ n }
    requires room { n ≤ MAX_N }
    ensures { Reads (λ v. word_lists v.items) result (classes_from n 0 (lists_behind lists.now)) }
{
    let mut classes = Vec::with_capacity(alloc, lists.len())?;
    let mut first: usize = 0;
    for texts in lists {
        // More texts than there are places would not fit into memory.
        let Some(after) = first.checked_add(texts.len()) else {
            return Err(DocumentFault::Memory);
        };
        classes.push_reserved(words_from(alloc, n, first, texts)?);
        first = after;
    }
    Ok(classes)
}
