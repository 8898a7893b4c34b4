//! The kind cosets: a basis and representatives.
ghost use Rattle.std.specs.Prelude.{◌≡◌, ◌+◌, ◌≤◌, ◌^◌, ◌<◌, [], length};
ghost use Rattle.toml.specs.View.{view};
ghost use Rattle.ct_words.specs.declared.limits.TheConstants.{MAX_N};
ghost use Rattle.ct_fields.specs.Reads.{Reads, texts_behind};
ghost use Rattle.ct_fields.specs.Schema.{read_by};
ghost use Rattle.ct_word_files.specs.Cosets.{coset_count, cosets_of_texts, cosets_schema};

use ct_fields::{
    DocumentFault, FieldName, last_fields, length_field, number_field, texts_field, words_from,
};
use ct_kind::Evidence;
use ct_words::{Entry, Listed, MAX_N, MAX_REPRESENTATIVES, Word};
use std::alloc::Global;
use toml::Value;

/// Refuses more than `MAX_N` basis words, and no representative or more than `MAX_REPRESENTATIVES`.
fn coset_count(basis: &[Word], representatives: &[Word]) -> Result<(), DocumentFault>
    ensures { result ≡ coset_count basis.now representatives.now }
{
    if basis.len() > MAX_N as usize {
        return Err(DocumentFault::Size(basis.len() as u64));
    }
    let count = representatives.len();
    if count == 0 || count > MAX_REPRESENTATIVES {
        return Err(DocumentFault::Size(count as u64));
    }
    Ok(())
}

/// The evidence of the texts of a basis and of representatives, for the entry.
fn cosets_of_texts(
    alloc: Global,
    entry: Entry,
    basis_texts: &[&str],
    texts: &[&str],
) -> Result<Evidence, DocumentFault>
    requires some { 1 ≤ entry.n }
    requires room { entry.n ≤ MAX_N }
    requires places { length basis_texts.now + length texts.now < 2 ^ 64 }
    ensures { Reads (λ evidence. evidence) result
        (cosets_of_texts entry (texts_behind basis_texts.now) (texts_behind texts.now)) }
{
    let basis = words_from(alloc, entry.n, 0, basis_texts)?;
    let representatives = words_from(alloc, entry.n, basis_texts.len(), texts)?;
    coset_count(&basis, &representatives)?;
    let basis = Listed::from_vec(basis);
    let representatives = Listed::from_vec(representatives);
    Ok(Evidence::Cosets {
        entry,
        basis,
        representatives,
    })
}

/// The evidence that the document states, of kind cosets.
pub fn cosets_evidence(alloc: Global, document: &Value) -> Result<Evidence, DocumentFault>
    ensures { Reads (λ evidence. evidence) result (read_by [] cosets_schema (view document.now)) }
{
    let n = length_field(document)?;
    let d = number_field(document, FieldName::D, 3, MAX_N)?;
    let entry = Entry { n, d, w: None };
    let basis_texts = texts_field(alloc, document, FieldName::Basis)?;
    let texts = texts_field(alloc, document, FieldName::Representatives)?;
    let names = [
        FieldName::N,
        FieldName::D,
        FieldName::Basis,
        FieldName::Representatives,
    ];
    last_fields(document, &names)?;
    cosets_of_texts(alloc, entry, &basis_texts, &texts)
}
