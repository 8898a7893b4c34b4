//! Pairs of ids in documents.
ghost use Rattle.std.specs.Prelude.{◌≡◌, IfOk, option_map};
ghost use Rattle.toml.specs.Data.{array};
ghost use Rattle.toml.specs.View.{view, items_view};
ghost use Rattle.ct_fields.specs.Reads.{Reads};
ghost use Rattle.ct_fields.specs.Schema.{needed};
ghost use Rattle.ct_partition_files.specs.Pairs.{is_pair_count, pairs_in, pairs_form};

use ct_fields::{DocumentFault, FieldName, all_of};
use ct_names::Id;
use ct_words::MAX_N;
use std::alloc::{AllocError, Global};
use toml::Value;

/// The pairs of ids of a product of the weight: exactly one if it has none, else at most `MAX_N + 1`.
pub(crate) fn pairs_field(
    alloc: Global,
    w: Option<u32>,
    document: &Value,
) -> Result<Vec<(Id, Id)>, DocumentFault>
    ensures { Reads (λ v. v.items) result (needed (pairs_form w) (view document.now)) }
{
    match document.get(FieldName::Pairs.text()) {
        Some(Value::Array(values)) => {
            pairs_of(alloc, w, values)?.ok_or(DocumentFault::Field(FieldName::Pairs))
        }
        _ => Err(DocumentFault::Field(FieldName::Pairs)),
    }
}

/// The pairs of ids that the values are, where they are as many as a product of the weight may have.
fn pairs_of(
    alloc: Global,
    w: Option<u32>,
    values: &[Value],
) -> Result<Option<Vec<(Id, Id)>>, AllocError>
    ensures { IfOk result (λ o. option_map (λ v. v.items) o ≡ pairs_in w (array (items_view values.now))) }
{
    if !is_pair_count(w, values.len()) {
        return Ok(None);
    }
    all_of(alloc, values)
}

/// Whether a product of the weight may have so many pairs.
fn is_pair_count(w: Option<u32>, count: usize) -> bool
    ensures { result ≡ is_pair_count w count }
{
    match w {
        None => count == 1,
        Some(_) => 1 <= count && count <= MAX_N as usize + 1,
    }
}
