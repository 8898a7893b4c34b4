//! The fields of documents of duals.
ghost use Rattle.std.specs.Prelude.{◌≡◌, IfOk};
ghost use Rattle.toml.specs.View.{view};
ghost use Rattle.ct_words.specs.Entry.{IsEntry};
ghost use Rattle.ct_fields.specs.Reads.{Reads};
ghost use Rattle.ct_fields.specs.Schema.{needed, optional};
ghost use Rattle.ct_dual_files.specs.Fields.{even_form, odd_size_form, multipliers_in, multipliers_form, allowances_in, allowances_form};

use ct_duals::{Allowances, Multipliers, are_allowances, are_multipliers};
use ct_fields::{DocumentFault, FieldName, all_of, number_field};
use ct_parity::MAX_ODD;
use ct_words::Entry;
use std::alloc::{AllocError, Global};
use toml::Value;

/// Whether the dual speaks of even distances alone, which it may at an even distance `d`.
pub(crate) fn even_field(d: u32, document: &Value) -> Result<Option<bool>, DocumentFault>
    ensures { result ≡ optional (even_form d) (view document.now) }
{
    match document.get(FieldName::Even.text()) {
        None => Ok(None),
        Some(Value::Boolean(even)) => {
            if *even && d % 2 != 0 {
                return Err(DocumentFault::Field(FieldName::Even));
            }
            Ok(Some(*even))
        }
        Some(_) => Err(DocumentFault::Field(FieldName::Even)),
    }
}

/// The number of words that parity may exclude.
pub(crate) fn odd_size_field(document: &Value) -> Result<u32, DocumentFault>
    ensures { result ≡ needed odd_size_form (view document.now) }
{
    let m = number_field(document, FieldName::M, 3, MAX_ODD)?;
    if m % 2 != 1 {
        return Err(DocumentFault::Field(FieldName::M));
    }
    Ok(m)
}

/// The multipliers that the value is, for a dual of the entry.
fn multipliers_in(
    alloc: Global,
    entry: Entry,
    value: &Value,
) -> Result<Option<Multipliers>, AllocError>
    requires { IsEntry entry }
    ensures { IfOk result (λ c. c ≡ multipliers_in entry (view value.now)) }
{
    let Value::Array(values) = value else {
        return Ok(None);
    };
    let Some(c) = all_of::<i64>(alloc, values)? else {
        return Ok(None);
    };
    if !are_multipliers(entry, &c) {
        return Ok(None);
    }
    Ok(Some(Multipliers::from_vec(c)))
}

/// The multipliers, for a dual of the entry.
pub(crate) fn multipliers_field(
    alloc: Global,
    entry: Entry,
    document: &Value,
) -> Result<Multipliers, DocumentFault>
    requires { IsEntry entry }
    ensures { Reads (λ c. c) result (needed (multipliers_form entry) (view document.now)) }
{
    match document.get(FieldName::C.text()) {
        Some(value) => {
            multipliers_in(alloc, entry, value)?.ok_or(DocumentFault::Field(FieldName::C))
        }
        None => Err(DocumentFault::Field(FieldName::C)),
    }
}

/// What the value, a list of pairs, allows, for a dual of the entry with the mark `even`.
fn allowances_in(
    alloc: Global,
    entry: Entry,
    even: bool,
    value: &Value,
) -> Result<Option<Allowances>, AllocError>
    requires { IsEntry entry }
    ensures { IfOk result (λ y. y ≡ allowances_in entry even (view value.now)) }
{
    let Value::Array(values) = value else {
        return Ok(None);
    };
    let Some(y) = all_of::<(u32, i64)>(alloc, values)? else {
        return Ok(None);
    };
    if !are_allowances(entry, even, &y) {
        return Ok(None);
    }
    Ok(Some(Allowances::from_vec(y)))
}

/// What is allowed, for a dual of the entry with the mark `even`.
pub(crate) fn allowances_field(
    alloc: Global,
    entry: Entry,
    even: bool,
    document: &Value,
) -> Result<Option<Allowances>, DocumentFault>
    requires { IsEntry entry }
    ensures { Reads (λ y. y) result (optional (allowances_form entry even) (view document.now)) }
{
    let Some(value) = document.get(FieldName::Y.text()) else {
        return Ok(None);
    };
    match allowances_in(alloc, entry, even, value)? {
        Some(y) => Ok(Some(y)),
        None => Err(DocumentFault::Field(FieldName::Y)),
    }
}
