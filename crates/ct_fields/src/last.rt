//! What is judged last of a document's fields, whatever its kind.
ghost use Rattle.std.specs.Prelude.{◌≡◌};
ghost use Rattle.std.specs.List.{list_any};
ghost use Rattle.std.specs.Str.{bytes_eq};
ghost use Rattle.toml.specs.View.{view, table_view};
ghost use Rattle.ct_fields.specs.Field.{field_text};
ghost use Rattle.ct_fields.specs.Fields.{is_named, keys_are_named, has_only};
ghost use Rattle.ct_fields.specs.Format.{may_cite};
ghost use Rattle.ct_fields.specs.LastFields.{all_fields, last_fields};

use crate::cites::are_right;
use crate::fault::DocumentFault;
use crate::field::FieldName;
use crate::formats::may_cite;
use toml::{Table, Value};

/// Refuses wrong cites of a document of format 2, and then a key that is neither `kind`, nor `format`, nor that of one of the
/// fields, which are those of its kind, nor, in format 2, `cites`. It takes no memory.
#[tactic(auto, unfolding(crate::specs::LastFields::last_fields))]
pub fn last_fields(document: &Value, names: &[FieldName]) -> Result<(), DocumentFault>
    ensures { result ≡ last_fields names.now (view document.now) }
{
    if !are_right(document) {
        return Err(DocumentFault::Field(FieldName::Cites));
    }
    if !has_only(document, may_cite(document), names) {
        return Err(DocumentFault::Unknown);
    }
    Ok(())
}

fn has_only(document: &Value, cites: bool, names: &[FieldName]) -> bool
    ensures { result ≡ has_only (all_fields cites names.now) (view document.now) }
{
    match document {
        Value::Table(table) => keys_are_named(table, cites, names),
        _ => false,
    }
}

fn keys_are_named(table: &Table, cites: bool, names: &[FieldName]) -> bool
    ensures { result ≡ keys_are_named (all_fields cites names.now) (table_view table.now) }
{
    for (key, _) in table {
        if !is_named(key.as_str(), cites, names) {
            return false;
        }
    }
    true
}

fn is_named(key: &str, cites: bool, names: &[FieldName]) -> bool
    ensures { result ≡ is_named (all_fields cites names.now) key.now }
{
    key == "kind" || key == "format" || (cites && key == "cites") || is_field(key, names)
}

fn is_field(key: &str, names: &[FieldName]) -> bool
    ensures { result ≡ list_any (λ name. bytes_eq key.now (field_text name)) names.now }
{
    names.iter().any(|name| key == name.text())
}
