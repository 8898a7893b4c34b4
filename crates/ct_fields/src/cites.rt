//! Where the evidence of a document comes from, as its key `cites` says it.
ghost use Rattle.std.specs.Prelude.{◌≡◌, ◌≤◌, All, IfOk, IsTrue, is_ok, is_some, length, option_map};
ghost use Rattle.toml.specs.Data.{string};
ghost use Rattle.toml.specs.View.{view, items_view};
ghost use Rattle.ct_names.specs.Cite.{is_cite};
ghost use Rattle.ct_fields.specs.Reads.{Reads};
ghost use Rattle.ct_fields.specs.Forms.{all_of, list_data};
ghost use Rattle.ct_fields.specs.Cites.{cite_in, cites_in, cites_of};

use crate::fault::DocumentFault;
use crate::field::FieldName;
use crate::formats::may_cite;
use ct_names::{Cite, is_cite};
use std::alloc::{AllocError, Global};
use toml::Value;

/// The greatest number of cites of a document.
pub const MAX_CITES: usize = 16;

/// The cites of the document, as the key `cites` of format 2 lists them; none where the key is left out, and in format 1.
pub fn cites_of(alloc: Global, document: &Value) -> Result<Vec<Cite>, DocumentFault>
    ensures { Reads (λ v. v.items) result (cites_of (view document.now)) }
{
    if !may_cite(document) {
        return Ok(Vec::new(alloc));
    }
    match document.get("cites") {
        None => Ok(Vec::new(alloc)),
        Some(value) => cites_in(alloc, value)?.ok_or(DocumentFault::Field(FieldName::Cites)),
    }
}

/// Whether the document has cites that can be read. It takes no memory.
pub(crate) fn are_right(document: &Value) -> bool
    ensures { result ≡ is_ok (cites_of (view document.now)) }
{
    if !may_cite(document) {
        return true;
    }
    match document.get("cites") {
        None => true,
        Some(value) => are_cites(value),
    }
}

/// The cites that the value lists, where it is a list of at most `MAX_CITES`.
fn cites_in(alloc: Global, value: &Value) -> Result<Option<Vec<Cite>>, AllocError>
    ensures { IfOk result (λ o. option_map (λ v. v.items) o ≡ cites_in (view value.now)) }
{
    match value {
        Value::Array(values) => {
            if values.len() > MAX_CITES {
                return Ok(None);
            }
            all_cites(alloc, values)
        }
        _ => Ok(None),
    }
}

fn are_cites(value: &Value) -> bool
    ensures { result ≡ is_some (cites_in (view value.now)) }
{
    match value {
        Value::Array(values) => {
            if values.len() > MAX_CITES {
                return false;
            }
            all_are_cites(values)
        }
        _ => false,
    }
}

/// The cite whose text the value is.
fn cite_in(alloc: Global, value: &Value) -> Result<Option<Cite>, AllocError>
    ensures { IfOk result (λ cite. cite ≡ cite_in (view value.now)) }
{
    match value {
        Value::String(text) => Cite::parse(alloc, text.as_bytes()),
        _ => Ok(None),
    }
}

fn is_cite_value(value: &Value) -> bool
    ensures { result ≡ is_some (cite_in (view value.now)) }
{
    match value {
        Value::String(text) => is_cite(text.as_bytes()),
        _ => false,
    }
}

fn all_cites(alloc: Global, values: &[Value]) -> Result<Option<Vec<Cite>>, AllocError>
    ensures { IfOk result (λ o. option_map (λ v. v.items) o ≡ all_of cite_in (items_view values.now)) }
{
    let mut cites = Vec::with_capacity(alloc, values.len())?;
    for value in values {
        let Some(cite) = cite_in(alloc, value)? else {
            return Ok(None);
        };
        cites.push_reserved(cite);
    }
    Ok(Some(cites))
}

fn all_are_cites(values: &[Value]) -> bool
    ensures { result ≡ is_some (all_of cite_in (items_view values.now)) }
{
    for value in values {
        if !is_cite_value(value) {
            return false;
        }
    }
    true
}

/// The cite as a value of a document.
fn cite_value(alloc: Global, cite: &Cite) -> Result<Value, AllocError>
    ensures value { IfOk result (λ value. view value ≡ string cite.now) }
    ensures cite { IsTrue (is_cite cite.now) }
{
    let text = Vec::from_slice(alloc, cite.text())?;
    Ok(Value::String(String::from_utf8(text).unwrap()))
}

/// The cites as a value of a document.
pub(crate) fn cite_values(alloc: Global, cites: &[Cite]) -> Result<Value, AllocError>
    ensures value { IfOk result (λ value. view value ≡ list_data string cites.now) }
    ensures cites { IfOk result (λ value. All (λ cite. IsTrue (is_cite cite)) cites.now) }
{
    let mut values = Vec::with_capacity(alloc, cites.len())?;
    for cite in cites {
        values.push_reserved(cite_value(alloc, cite)?);
    }
    Ok(Value::Array(values))
}
