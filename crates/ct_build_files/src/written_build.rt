//! The table of a build.
ghost use Rattle.std.specs.Prelude.{◌≡◌, ◌<◌, ◌≤◌, ◌^◌, All, IfOk, IfSome, OnOk, IsTrue, codes, option_map, pos};
ghost use Rattle.std.specs.Str.{IsAscii};
ghost use Rattle.toml.specs.Data.{string, integer};
ghost use Rattle.toml.specs.View.{view, table_view};
ghost use Rattle.ct_words.specs.declared.limits.TheConstants.{MAX_N};
ghost use Rattle.ct_words.specs.Text.{word_text};
ghost use Rattle.ct_names.specs.Id.{is_id};
ghost use Rattle.ct_build.specs.Build.{FieldsFit};
ghost use Rattle.ct_fields.specs.Written.{put};
ghost use Rattle.ct_fields.specs.WrittenSchema.{put_some, written_table};
ghost use Rattle.ct_build_files.specs.Operation.{operation_text, operation_of};
ghost use Rattle.ct_build_files.specs.WrittenBuild.{number_list, digits_text, step_fields, build_fields, put_fields};

use crate::operation::Operation;
use ct_build::Step;
use ct_fields::{FieldName, entry_table, id_value, put, put_weight, word_value};
use ct_names::Id;
use ct_words::{Entry, Word};
use std::alloc::{AllocError, Global};
use toml::{Table, Value};

/// The number as a value.
fn number_value(number: u32) -> Value
    ensures { view result ≡ integer (pos number) }
{
    Value::from(number)
}

/// The list of the numbers.
fn number_list(alloc: Global, numbers: &[u32]) -> Result<Value, AllocError>
    ensures { IfOk result (λ value. view value ≡ number_list numbers.now) }
{
    let mut values = Vec::with_capacity(alloc, numbers.len())?;
    for number in numbers {
        values.push(number_value(*number))?;
    }
    Ok(Value::Array(values))
}

/// The text of the digits.
fn digits_text(alloc: Global, digits: &[u32]) -> Result<Vec<u8>, AllocError>
    requires { All (λ a. a < 2) digits.now }
    ensures { IfOk result (λ text. text.items ≡ digits_text digits.now) }
{
    let mut text = Vec::with_capacity(alloc, digits.len())?;
    for digit in digits {
        text.push(b'0' + *digit as u8)?;
    }
    Ok(text)
}

/// The text as a value.
fn text_value(text: Vec<u8>) -> Value
    requires { IsAscii text.items }
    ensures { view result ≡ string text.items }
{
    Value::String(String::from_utf8(text).unwrap())
}

/// Puts the places of the step.
fn put_places(alloc: Global, table: &mut Table, places: &[u32]) -> Result<(), AllocError>
    ensures { OnOk result (table_view table.new ≡ put FieldName.Places (number_list places.now) (table_view table.old)) }
{
    let places = number_list(alloc, places)?;
    put(alloc, table, FieldName::Places, places)
}

/// Puts the digits of the step.
#[tactic(auto, using(crate::proofs::PutFields::IsAscii_digits_text))]
fn put_digits(alloc: Global, table: &mut Table, digits: &[u32]) -> Result<(), AllocError>
    requires { All (λ a. a < 2) digits.now }
    ensures { OnOk result (table_view table.new ≡ put FieldName.Digits (string (digits_text digits.now)) (table_view table.old)) }
{
    let text = digits_text(alloc, digits)?;
    put(alloc, table, FieldName::Digits, text_value(text))
}

/// Puts the word of length `n` of the step.
fn put_by(alloc: Global, table: &mut Table, n: u32, by: Word) -> Result<(), AllocError>
    requires room { n ≤ MAX_N }
    requires word { by < 2 ^ n }
    ensures { OnOk result (table_view table.new ≡ put FieldName.By (string (word_text n by)) (table_view table.old)) }
{
    let by = word_value(alloc, n, by)?;
    put(alloc, table, FieldName::By, by)
}

/// Puts the fields of the step, of words of the length of the entry.
#[tactic(auto, unfolding(ct_build::specs::Build::FieldsFit))]
fn put_step(alloc: Global, table: &mut Table, step: &Step, stated: Entry) -> Result<(), AllocError>
    requires room { stated.n ≤ MAX_N }
    requires fits { FieldsFit step.now stated }
    ensures { OnOk result (table_view table.new ≡ put_fields (step_fields step.now stated.n) (table_view table.old)) }
{
    match step {
        Step::Puncture(places) => put_places(alloc, table, places.as_slice()),
        Step::Shorten(places, digits) => {
            put_places(alloc, table, places.as_slice())?;
            put_digits(alloc, table, digits.as_slice())
        }
        Step::Translate(by) => put_by(alloc, table, stated.n, *by),
        Step::Select(by) => put_by(alloc, table, stated.n, *by),
        Step::Trim(size) => put(alloc, table, FieldName::Size, Value::from(*size)),
        _ => Ok(()),
    }
}

/// Puts the id at the key of the field.
fn put_id(alloc: Global, table: &mut Table, name: FieldName, id: &Id) -> Result<(), AllocError>
    ensures table { OnOk result (table_view table.new ≡ put name (string id.now) (table_view table.old)) }
    ensures id { IsTrue (is_id id.now) }
{
    let value = id_value(alloc, id)?;
    put(alloc, table, name, value)
}

/// Puts the id of the other piece, if there is one.
fn put_other(alloc: Global, table: &mut Table, other: Option<Id>) -> Result<(), AllocError>
    ensures table { OnOk result (table_view table.new ≡ put_some FieldName.Other (option_map string other) (table_view table.old)) }
    ensures id { IfSome other (λ id. IsTrue (is_id id)) }
{
    match other {
        Some(id) => put_id(alloc, table, FieldName::Other, &id),
        None => Ok(()),
    }
}

/// Puts the text of the operation of the step.
fn put_operation(alloc: Global, table: &mut Table, step: &Step) -> Result<(), AllocError>
    ensures { OnOk result (table_view table.new
        ≡ put FieldName.Op (string (operation_text (operation_of step.now))) (table_view table.old)) }
{
    let text = Value::string(alloc, Operation::of(step).text())?;
    put(alloc, table, FieldName::Op, text)
}

/// The table of a build.
pub fn build_table(
    alloc: Global,
    stated: Entry,
    step: &Step,
    part: Id,
    other: Option<Id>,
) -> Result<Table, AllocError>
    requires room { stated.n ≤ MAX_N }
    requires fits { FieldsFit step.now stated }
    ensures table { IfOk result (λ table. table_view table ≡ written_table (codes "build") (build_fields stated step.now part other)) }
    ensures part { IfOk result (λ table. IsTrue (is_id part)) }
    ensures other { IfOk result (λ table. IfSome other (λ id. IsTrue (is_id id))) }
{
    let mut table = entry_table(alloc, "build", stated.n, stated.d)?;
    put_weight(alloc, &mut table, stated.w)?;
    put_operation(alloc, &mut table, step)?;
    put_id(alloc, &mut table, FieldName::Part, &part)?;
    put_other(alloc, &mut table, other)?;
    put_step(alloc, &mut table, step, stated)?;
    Ok(table)
}
