//! The kind build: a step that makes a code of those of other pieces.
ghost use Rattle.std.specs.Prelude.{◌≡◌, ◌≤◌, ◌||◌, true, [], ◌∷◌, codes};
ghost use Rattle.toml.specs.View.{view};
ghost use Rattle.ct_words.specs.declared.limits.TheConstants.{MAX_N};
ghost use Rattle.ct_fields.specs.Fields.{has_field, is_text};
ghost use Rattle.ct_fields.specs.LastFields.{last_fields};
ghost use Rattle.ct_fields.specs.Reads.{Reads};
ghost use Rattle.ct_fields.specs.Schema.{read_by, passes};
ghost use Rattle.ct_build_files.specs.Operation.{step_names, build_names};
ghost use Rattle.ct_build_files.specs.BuildSchema.{step_schema, build_of, parts_schema, operation_schema, build_schema};

use crate::build_fields::{id_field, operation_field, places_field, selects, shortening, word_in};
use crate::operation::Operation;
use ct_build::{MAX_BUILT, Step};
use ct_fields::{
    DocumentFault, FieldName, distance_field, has_field, last_fields, length_field, number_field,
    text_field, weight_field,
};
use ct_kind::Evidence;
use ct_names::Id;
use ct_words::{Entry, Listed};
use std::alloc::Global;
use toml::Value;

/// Refuses wrong cites, and then another key than those of a build by the operation.
fn last_build_fields(operation: Operation, document: &Value) -> Result<(), DocumentFault>
    ensures { result ≡ last_fields (build_names operation) (view document.now) }
{
    use FieldName::{By, D, Digits, N, Op, Other, Part, Places, Size, W};
    match operation {
        Operation::Puncture => last_fields(document, &[N, D, W, Op, Places, Part]),
        Operation::Shorten => last_fields(document, &[N, D, W, Op, Places, Digits, Part]),
        Operation::Translate | Operation::Select => {
            last_fields(document, &[N, D, W, Op, By, Part])
        }
        Operation::Uuv | Operation::Juxtapose => {
            last_fields(document, &[N, D, W, Op, Part, Other])
        }
        Operation::Trim => last_fields(document, &[N, D, W, Op, Size, Part]),
        _ => last_fields(document, &[N, D, W, Op, Part]),
    }
}

/// The evidence of a build by the step that is found, none if a text of digits is wrong.
fn build_of(
    entry: Entry,
    found: Option<Step>,
    part: Id,
    other: Option<Id>,
) -> Result<Evidence, DocumentFault>
    ensures { result ≡ build_of entry found part other }
{
    match found {
        Some(step) => Ok(Evidence::Build {
            entry,
            step,
            part,
            other,
        }),
        None => Err(DocumentFault::Digits(0)),
    }
}

/// The evidence of a build by the operation with the step that is found, of the parts that the document names.
fn with_parts(
    entry: Entry,
    operation: Operation,
    found: Option<Step>,
    document: &Value,
) -> Result<Evidence, DocumentFault>
    ensures { result ≡ read_by (step_names operation) (parts_schema entry operation found) (view document.now) }
{
    let part = id_field(document, FieldName::Part)?;
    if operation.takes_other() {
        let other = id_field(document, FieldName::Other)?;
        last_build_fields(operation, document)?;
        return build_of(entry, found, part, Some(other));
    }
    last_build_fields(operation, document)?;
    build_of(entry, found, part, None)
}

/// The evidence of a build by the operation, with its own fields and its parts.
fn with_step(
    alloc: Global,
    entry: Entry,
    operation: Operation,
    document: &Value,
) -> Result<Evidence, DocumentFault>
    requires some { 1 ≤ entry.n }
    requires room { entry.n ≤ MAX_N }
    ensures { Reads (λ evidence. evidence) result (read_by (FieldName.N ∷ FieldName.D ∷ FieldName.W ∷ FieldName.Op ∷ [])
        (step_schema operation entry.n (parts_schema entry operation)) (view document.now)) }
{
    let n = entry.n;
    match operation {
        Operation::Lengthen => with_parts(entry, operation, Some(Step::Lengthen), document),
        Operation::AppendOne => with_parts(entry, operation, Some(Step::AppendOne), document),
        Operation::Parity => with_parts(entry, operation, Some(Step::Parity), document),
        Operation::Puncture => {
            let places = Listed::from_vec(places_field(alloc, n, document)?);
            with_parts(entry, operation, Some(Step::Puncture(places)), document)
        }
        Operation::Shorten => {
            let places = places_field(alloc, n, document)?;
            let text = text_field(document, FieldName::Digits)?;
            let found = shortening(alloc, places, text)?;
            with_parts(entry, operation, found, document)
        }
        Operation::Translate => {
            let by = text_field(document, FieldName::By)?;
            with_parts(
                entry,
                operation,
                word_in(by, n).map(Step::Translate),
                document,
            )
        }
        Operation::Complement => with_parts(entry, operation, Some(Step::Complement), document),
        Operation::Select => {
            let by = text_field(document, FieldName::By)?;
            with_parts(entry, operation, word_in(by, n).map(Step::Select), document)
        }
        Operation::Uuv => with_parts(entry, operation, Some(Step::Uuv), document),
        Operation::Juxtapose => with_parts(entry, operation, Some(Step::Juxtapose), document),
        Operation::Trim => {
            let size = number_field(document, FieldName::Size, 1, MAX_BUILT as u32)?;
            with_parts(entry, operation, Some(Step::Trim(size)), document)
        }
    }
}

/// The evidence of a build of the entry by the operation.
fn build_by(
    alloc: Global,
    entry: Entry,
    operation: Operation,
    document: &Value,
) -> Result<Evidence, DocumentFault>
    requires some { 1 ≤ entry.n }
    requires room { entry.n ≤ MAX_N }
    ensures { Reads (λ evidence. evidence) result (read_by (FieldName.N ∷ FieldName.D ∷ FieldName.W ∷ FieldName.Op ∷ [])
        (operation_schema entry operation) (view document.now)) }
{
    if !operation.makes_length(entry.n) {
        return Err(DocumentFault::Field(FieldName::N));
    }
    if !operation.takes_weight(entry.w) {
        return Err(DocumentFault::Field(FieldName::W));
    }
    with_step(alloc, entry, operation, document)
}

/// Whether the distance has to be even: beside a weight, and for `select`.
fn is_even(document: &Value) -> bool
    ensures { result ≡ (passes FieldName.W (λ d. true) (view document.now) || passes FieldName.Op (is_text (codes "select")) (view document.now)) }
{
    has_field(document, FieldName::W) || selects(document)
}

/// The evidence that the document states, of kind build.
pub fn build_evidence(alloc: Global, document: &Value) -> Result<Evidence, DocumentFault>
    ensures { Reads (λ evidence. evidence) result (read_by [] build_schema (view document.now)) }
{
    let n = length_field(document)?;
    let d = distance_field(is_even(document), document)?;
    let w = weight_field(n, document)?;
    let operation = operation_field(document)?;
    build_by(alloc, Entry { n, d, w }, operation, document)
}
