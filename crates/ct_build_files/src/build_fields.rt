//! The own fields of documents of kind build.
ghost use Rattle.std.specs.Prelude.{◌≡◌, ◌≤◌, length, IfOk, codes, option_map};
ghost use Rattle.toml.specs.View.{view};
ghost use Rattle.ct_words.specs.declared.limits.TheConstants.{MAX_N};
ghost use Rattle.ct_words.specs.Text.{word_of};
ghost use Rattle.ct_build.specs.declared.step.Step.TheVariants as step;
ghost use Rattle.ct_fields.specs.Fields.{is_text};
ghost use Rattle.ct_fields.specs.Reads.{Reads};
ghost use Rattle.ct_fields.specs.Schema.{needed, passes};
ghost use Rattle.ct_build_files.specs.BuildFields.{ascend, are_left_out, digits_of, operation_form, places_form, id_form};

use crate::operation::Operation;
use ct_build::Step;
use ct_fields::{DocumentFault, FieldName, all_of, id_in};
use ct_names::Id;
use ct_words::{Listed, MAX_N, Word, parse_word};
use std::alloc::{AllocError, Global};
use toml::Value;

/// Whether the operation of the document is the text `select`.
pub fn selects(document: &Value) -> bool
    ensures { result ≡ passes FieldName.Op (is_text (codes "select")) (view document.now) }
{
    match document.get(FieldName::Op.text()) {
        Some(Value::String(found)) => found.as_str() == "select",
        _ => false,
    }
}

/// The operation.
pub fn operation_field(document: &Value) -> Result<Operation, DocumentFault>
    ensures { result ≡ needed operation_form (view document.now) }
{
    match document.get(FieldName::Op.text()) {
        Some(Value::String(text)) => match Operation::named(text.as_str()) {
            Some(operation) => Ok(operation),
            None => Err(DocumentFault::Field(FieldName::Op)),
        },
        _ => Err(DocumentFault::Field(FieldName::Op)),
    }
}

/// Whether the numbers ascend and are below `high`.
fn ascend(high: usize, numbers: &[u32]) -> bool
    ensures { result ≡ ascend 0 high numbers.now }
{
    let mut low: u64 = 0;
    for number in numbers {
        if u64::from(*number) < low || *number as usize >= high {
            return false;
        }
        low = u64::from(*number) + 1;
    }
    true
}

/// Whether these are places whose leaving out makes words of length `n`.
fn are_left_out(n: u32, places: &[u32]) -> bool
    requires { n ≤ MAX_N }
    ensures { result ≡ are_left_out n places.now }
{
    let count = places.len();
    if count < 1 || count > (MAX_N - n) as usize {
        return false;
    }
    ascend(n as usize + count, places)
}

/// The places whose leaving out makes words of length `n`.
pub fn places_field(alloc: Global, n: u32, document: &Value) -> Result<Vec<u32>, DocumentFault>
    requires { n ≤ MAX_N }
    ensures { Reads (λ v. v.items) result (needed (places_form n) (view document.now)) }
{
    match document.get(FieldName::Places.text()) {
        Some(Value::Array(values)) => match all_of::<u32>(alloc, values)? {
            Some(places) => {
                if !are_left_out(n, &places) {
                    return Err(DocumentFault::Field(FieldName::Places));
                }
                Ok(places)
            }
            None => Err(DocumentFault::Field(FieldName::Places)),
        },
        _ => Err(DocumentFault::Field(FieldName::Places)),
    }
}

/// The digits that the text writes, where it is so many.
#[tactic(auto, unfolding(crate::specs::BuildFields::digits_of))]
fn digits_of(alloc: Global, count: usize, text: &[u8]) -> Result<Option<Vec<u32>>, AllocError>
    ensures { IfOk result (λ o. option_map (λ v. v.items) o ≡ digits_of count text.now) }
{
    if text.len() != count {
        return Ok(None);
    }
    let mut digits = Vec::new(alloc);
    for byte in text {
        if *byte != b'0' && *byte != b'1' {
            return Ok(None);
        }
        digits.push(u32::from(*byte - b'0'))?;
    }
    Ok(Some(digits))
}

/// The step that leaves out the places where words have the digits that the text writes; none if it writes no such digits.
pub fn shortening(alloc: Global, places: Vec<u32>, text: &str) -> Result<Option<Step>, AllocError>
    ensures { IfOk result (λ found. found ≡ option_map (λ digits. step.Shorten places.items digits) (digits_of (length places.items) text.now)) }
{
    match digits_of(alloc, places.len(), text.as_bytes())? {
        Some(digits) => {
            let places = Listed::from_vec(places);
            Ok(Some(Step::Shorten(places, Listed::from_vec(digits))))
        }
        None => Ok(None),
    }
}

/// The word of length `n` that the text writes, if it writes one.
pub fn word_in(text: &str, n: u32) -> Option<Word>
    requires some { 1 ≤ n }
    requires room { n ≤ MAX_N }
    ensures { result ≡ word_of n text.now }
{
    parse_word(text.as_bytes(), n).ok()
}

/// The id at the field.
pub fn id_field(document: &Value, name: FieldName) -> Result<Id, DocumentFault>
    ensures { result ≡ needed (id_form name) (view document.now) }
{
    match document.get(name.text()) {
        Some(value) => match id_in(value) {
            Some(id) => Ok(id),
            None => Err(DocumentFault::Field(name)),
        },
        None => Err(DocumentFault::Field(name)),
    }
}
