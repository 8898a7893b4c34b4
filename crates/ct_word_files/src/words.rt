//! The kind words: the words of a code, one by one.
ghost use Rattle.std.specs.Prelude.{◌≡◌, ◌≤◌, ◌^◌, ◌<◌, [], length};
ghost use Rattle.toml.specs.View.{view};
ghost use Rattle.ct_words.specs.declared.limits.TheConstants.{MAX_N};
ghost use Rattle.ct_fields.specs.Reads.{Reads, texts_behind};
ghost use Rattle.ct_fields.specs.Schema.{read_by};
ghost use Rattle.ct_word_files.specs.Words.{word_count, words_of_texts, words_schema};

use ct_fields::{
    DocumentFault, FieldName, distance_field, has_field, last_fields, length_field, texts_field,
    weight_field, words_from,
};
use ct_kind::Evidence;
use ct_words::{Entry, Listed, MAX_WORDS, Word};
use std::alloc::Global;
use toml::Value;

/// Refuses a number of words that is 0 or above `MAX_WORDS`.
fn word_count(words: &[Word]) -> Result<(), DocumentFault>
    ensures { result ≡ word_count words.now }
{
    let count = words.len();
    if count == 0 || count > MAX_WORDS {
        return Err(DocumentFault::Size(count as u64));
    }
    Ok(())
}

/// The evidence of the texts of words, for the entry.
fn words_of_texts(alloc: Global, entry: Entry, texts: &[&str]) -> Result<Evidence, DocumentFault>
    requires some { 1 ≤ entry.n }
    requires room { entry.n ≤ MAX_N }
    requires places { length texts.now < 2 ^ 64 }
    ensures { Reads (λ evidence. evidence) result (words_of_texts entry (texts_behind texts.now)) }
{
    let words = words_from(alloc, entry.n, 0, texts)?;
    word_count(&words)?;
    let words = Listed::from_vec(words);
    Ok(Evidence::Words { entry, words })
}

/// The evidence that the document states, of kind words.
pub fn words_evidence(alloc: Global, document: &Value) -> Result<Evidence, DocumentFault>
    ensures { Reads (λ evidence. evidence) result (read_by [] words_schema (view document.now)) }
{
    let n = length_field(document)?;
    let d = distance_field(has_field(document, FieldName::W), document)?;
    let w = weight_field(n, document)?;
    let entry = Entry { n, d, w };
    let texts = texts_field(alloc, document, FieldName::Words)?;
    let names = [FieldName::N, FieldName::D, FieldName::W, FieldName::Words];
    last_fields(document, &names)?;
    words_of_texts(alloc, entry, &texts)
}
