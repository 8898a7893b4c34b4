//! The kind product: pairs of pieces that are partitions.
ghost use Rattle.std.specs.Prelude.{[]};
ghost use Rattle.toml.specs.View.{view};
ghost use Rattle.ct_fields.specs.Reads.{Reads};
ghost use Rattle.ct_fields.specs.Schema.{read_by};
ghost use Rattle.ct_partition_files.specs.Product.{product_schema};

use crate::pairs::pairs_field;
use ct_fields::{
    DocumentFault, FieldName, distance_field, has_field, last_fields, length_field, weight_field,
};
use ct_kind::Evidence;
use ct_words::{Entry, Listed};
use std::alloc::Global;
use toml::Value;

/// The evidence that the document states, of kind product.
pub fn product_evidence(alloc: Global, document: &Value) -> Result<Evidence, DocumentFault>
    ensures { Reads (λ evidence. evidence) result (read_by [] product_schema (view document.now)) }
{
    let n = length_field(document)?;
    let d = distance_field(has_field(document, FieldName::W), document)?;
    let w = weight_field(n, document)?;
    let entry = Entry { n, d, w };
    let pairs = pairs_field(alloc, w, document)?;
    let names = [FieldName::N, FieldName::D, FieldName::W, FieldName::Pairs];
    last_fields(document, &names)?;
    let pairs = Listed::from_vec(pairs);
    Ok(Evidence::Product { entry, pairs })
}
