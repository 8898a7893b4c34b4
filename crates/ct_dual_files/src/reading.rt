//! Documents of kind dual, odd, jdual and jlocal.
ghost use Rattle.std.specs.Prelude.{[]};
ghost use Rattle.toml.specs.View.{view};
ghost use Rattle.ct_fields.specs.Reads.{Reads};
ghost use Rattle.ct_fields.specs.Schema.{read_by};
ghost use Rattle.ct_dual_files.specs.Dual.{dual_schema, odd_schema, johnson_dual_schema, local_dual_schema};

use crate::fields::{allowances_field, even_field, multipliers_field, odd_size_field};
use ct_duals::{Allowances, Dual};
use ct_fields::{
    DocumentFault, FieldName, distance_field, last_fields, length_field, number_field,
};
use ct_kind::Evidence;
use ct_words::{Entry, MAX_N};
use std::alloc::Global;
use toml::Value;

/// The evidence that the document states, of kind dual.
pub fn dual_evidence(alloc: Global, document: &Value) -> Result<Evidence, DocumentFault>
    ensures { Reads (λ evidence. evidence) result (read_by [] dual_schema (view document.now)) }
{
    let n = length_field(document)?;
    let d = number_field(document, FieldName::D, 3, MAX_N)?;
    let entry = Entry { n, d, w: None };
    let even = even_field(d, document)?.unwrap_or(false);
    let c = multipliers_field(alloc, entry, document)?;
    let y = allowances_field(alloc, entry, even, document)?;
    let names = [
        FieldName::N,
        FieldName::D,
        FieldName::Even,
        FieldName::C,
        FieldName::Y,
    ];
    last_fields(document, &names)?;
    let y = y.unwrap_or(Allowances::from_vec(Vec::new(alloc)));
    Ok(Evidence::Dual(Dual { entry, even, c, y }))
}

/// The evidence that the document states, of kind odd.
pub fn odd_evidence(alloc: Global, document: &Value) -> Result<Evidence, DocumentFault>
    ensures { Reads (λ evidence. evidence) result (read_by [] odd_schema (view document.now)) }
{
    let n = length_field(document)?;
    let d = number_field(document, FieldName::D, 3, MAX_N)?;
    let entry = Entry { n, d, w: None };
    let even = even_field(d, document)?.unwrap_or(false);
    let m = odd_size_field(document)?;
    let c = multipliers_field(alloc, entry, document)?;
    let y = allowances_field(alloc, entry, even, document)?;
    let names = [
        FieldName::N,
        FieldName::D,
        FieldName::Even,
        FieldName::M,
        FieldName::C,
        FieldName::Y,
    ];
    last_fields(document, &names)?;
    let y = y.unwrap_or(Allowances::from_vec(Vec::new(alloc)));
    let dual = Dual { entry, even, c, y };
    Ok(Evidence::Odd { dual, m })
}

/// The evidence that the document states, of kind jdual.
pub fn johnson_dual_evidence(alloc: Global, document: &Value) -> Result<Evidence, DocumentFault>
    ensures { Reads (λ evidence. evidence) result (read_by [] johnson_dual_schema (view document.now)) }
{
    let n = length_field(document)?;
    let d = distance_field(true, document)?;
    let w = number_field(document, FieldName::W, 0, n)?;
    let entry = Entry { n, d, w: Some(w) };
    let c = multipliers_field(alloc, entry, document)?;
    let names = [FieldName::N, FieldName::D, FieldName::W, FieldName::C];
    last_fields(document, &names)?;
    let y = Allowances::from_vec(Vec::new(alloc));
    Ok(Evidence::JohnsonDual(Dual {
        entry,
        even: false,
        c,
        y,
    }))
}

/// The evidence that the document states, of kind jlocal.
pub fn local_dual_evidence(alloc: Global, document: &Value) -> Result<Evidence, DocumentFault>
    ensures { Reads (λ evidence. evidence) result (read_by [] local_dual_schema (view document.now)) }
{
    let n = length_field(document)?;
    let d = distance_field(true, document)?;
    let w = number_field(document, FieldName::W, 0, n)?;
    let entry = Entry { n, d, w: Some(w) };
    let c = multipliers_field(alloc, entry, document)?;
    let y = allowances_field(alloc, entry, false, document)?;
    let names = [
        FieldName::N,
        FieldName::D,
        FieldName::W,
        FieldName::C,
        FieldName::Y,
    ];
    last_fields(document, &names)?;
    let y = y.unwrap_or(Allowances::from_vec(Vec::new(alloc)));
    Ok(Evidence::JohnsonLocal(Dual {
        entry,
        even: false,
        c,
        y,
    }))
}
