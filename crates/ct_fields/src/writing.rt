//! What is written at the keys of a table.
ghost use Rattle.std.specs.Prelude.{◌≡◌, ◌^◌, ◌<◌, ◌≤◌, [], ◌∷◌, All, IfOk, IsTrue, OnOk, codes, option_map, pos};
ghost use Rattle.toml.specs.Data.{string, integer, array};
ghost use Rattle.toml.specs.View.{view, table_view, items_of};
ghost use Rattle.ct_words.specs.declared.limits.TheConstants.{MAX_N};
ghost use Rattle.ct_words.specs.Text.{word_text};
ghost use Rattle.ct_names.specs.Cite.{is_cite};
ghost use Rattle.ct_fields.specs.Written.{word_texts, set_member, put, put_cites, entry_table};
ghost use Rattle.ct_fields.specs.WrittenSchema.{put_some};

use crate::cites::cite_values;
use crate::field::FieldName;
use ct_names::Cite;
use ct_words::{Word, print_word};
use std::alloc::{AllocError, Global};
use toml::{Table, Value};

fn word_text(alloc: Global, n: u32, word: Word) -> Result<Vec<u8>, AllocError>
    requires room { n ≤ MAX_N }
    requires word { word < 2 ^ n }
    ensures { IfOk result (λ text. text.items ≡ word_text n word) }
{
    let mut text = vec![in alloc; 0u8; n as usize]?;
    print_word(word, n, &mut text);
    Ok(text)
}

/// The text of the word of length `n`, as a value of a document.
pub fn word_value(alloc: Global, n: u32, word: Word) -> Result<Value, AllocError>
    requires room { n ≤ MAX_N }
    requires word { word < 2 ^ n }
    ensures { IfOk result (λ value. view value ≡ string (word_text n word)) }
{
    let text = word_text(alloc, n, word)?;
    Ok(Value::String(String::from_utf8(text).unwrap()))
}

/// The texts of the words of length `n`, as a value of a document.
pub fn word_values(alloc: Global, n: u32, words: &[Word]) -> Result<Value, AllocError>
    requires room { n ≤ MAX_N }
    requires words { All (λ x. x < 2 ^ n) words.now }
    ensures { IfOk result (λ value. view value ≡ word_texts n words.now) }
{
    let mut values = Vec::with_capacity(alloc, words.len())?;
    for word in words {
        values.push_reserved(word_value(alloc, n, *word)?);
    }
    Ok(Value::Array(values))
}

/// The list of the two values.
pub fn two_values(alloc: Global, first: Value, second: Value) -> Result<Value, AllocError>
    ensures { IfOk result (λ value. view value ≡ array (items_of (view first ∷ view second ∷ []))) }
{
    let mut values = Vec::with_capacity(alloc, 2)?;
    values.push_reserved(first);
    values.push_reserved(second);
    Ok(Value::Array(values))
}

/// Puts the value at the key.
fn put_at(alloc: Global, table: &mut Table, key: &str, value: Value) -> Result<(), AllocError>
    ensures { OnOk result (table_view table.new ≡ set_member key.now (view value) (table_view table.old)) }
{
    table.insert(String::from_str(alloc, key)?, value)?;
    Ok(())
}

/// Puts the value at the key of the field.
pub fn put(
    alloc: Global,
    table: &mut Table,
    name: FieldName,
    value: Value,
) -> Result<(), AllocError>
    ensures { OnOk result (table_view table.new ≡ put name (view value) (table_view table.old)) }
{
    put_at(alloc, table, name.text(), value)
}

/// Puts the texts of the words of length `n` at the key of the field.
pub fn put_words(
    alloc: Global,
    table: &mut Table,
    name: FieldName,
    n: u32,
    words: &[Word],
) -> Result<(), AllocError>
    requires room { n ≤ MAX_N }
    requires words { All (λ x. x < 2 ^ n) words.now }
    ensures { OnOk result (table_view table.new ≡ put name (word_texts n words.now) (table_view table.old)) }
{
    let value = word_values(alloc, n, words)?;
    put(alloc, table, name, value)
}

/// Puts the weight, if there is one.
pub fn put_weight(alloc: Global, table: &mut Table, w: Option<u32>) -> Result<(), AllocError>
    ensures { OnOk result (table_view table.new ≡ put_some FieldName.W (option_map (λ k. integer (pos k)) w) (table_view table.old)) }
{
    match w {
        Some(w) => put(alloc, table, FieldName::W, Value::from(w)),
        None => Ok(()),
    }
}

/// Puts the cites and, as they are for format 2 alone, that format, where there are any.
pub fn put_cites(alloc: Global, table: &mut Table, cites: &[Cite]) -> Result<(), AllocError>
    ensures table { OnOk result (table_view table.new ≡ put_cites cites.now (table_view table.old)) }
    ensures cites { OnOk result (All (λ cite. IsTrue (is_cite cite)) cites.now) }
{
    if cites.is_empty() {
        return Ok(());
    }
    put(alloc, table, FieldName::Format, Value::from(2u32))?;
    let value = cite_values(alloc, cites)?;
    put(alloc, table, FieldName::Cites, value)
}

/// The table of a document of the kind, with its length and its distance.
pub fn entry_table(alloc: Global, kind: &str, n: u32, d: u32) -> Result<Table, AllocError>
    ensures { IfOk result (λ table. table_view table ≡ entry_table kind.now n d) }
{
    let mut table = Table::new(alloc);
    put_entry(alloc, &mut table, kind, n, d)?;
    Ok(table)
}

/// Puts the kind, the length and the distance.
fn put_entry(alloc: Global, table: &mut Table, kind: &str, n: u32, d: u32) -> Result<(), AllocError>
    ensures { OnOk result (table_view table.new ≡ put FieldName.D (integer (pos d))
        (put FieldName.N (integer (pos n)) (set_member (codes "kind") (string kind.now) (table_view table.old)))) }
{
    put_at(alloc, table, "kind", Value::string(alloc, kind)?)?;
    put(alloc, table, FieldName::N, Value::from(n))?;
    put(alloc, table, FieldName::D, Value::from(d))
}
