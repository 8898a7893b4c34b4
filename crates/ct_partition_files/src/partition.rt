//! The kind partition: the words of each class, one by one.
ghost use Rattle.std.specs.Prelude.{◌≡◌, ◌≤◌, []};
ghost use Rattle.toml.specs.View.{view};
ghost use Rattle.ct_words.specs.declared.limits.TheConstants.{MAX_N};
ghost use Rattle.ct_classes.specs.Partition.{word_lists};
ghost use Rattle.ct_fields.specs.Reads.{Reads};
ghost use Rattle.ct_partition_files.specs.Lists.{lists_behind, class_count};
ghost use Rattle.ct_fields.specs.Schema.{read_by};
ghost use Rattle.ct_partition_files.specs.Partition.{partition_of_lists, partition_schema};

use crate::lists::{classes_from, text_lists_field};
use ct_fields::{
    DocumentFault, FieldName, distance_field, has_field, last_fields, length_field, number_field,
    weight_field,
};
use ct_kind::{Evidence, WordLists};
use ct_partitions::wrong_count;
use ct_words::{Entry, Word};
use std::alloc::Global;
use toml::Value;

/// Refuses no class or more than `ct_partitions::MAX_CLASSES`, or else a class without words, or else more than
/// `ct_words::MAX_WORDS` words.
fn class_count(classes: &[Vec<Word>]) -> Result<(), DocumentFault>
    ensures { result ≡ class_count (word_lists classes.now) }
{
    match wrong_count(classes) {
        Some(count) => Err(DocumentFault::Size(count)),
        None => Ok(()),
    }
}

/// The evidence of the texts of the classes, for the entry and the distance between classes.
fn partition_of_lists(
    alloc: Global,
    entry: Entry,
    between: u32,
    lists: &[Vec<&str>],
) -> Result<Evidence, DocumentFault>
    requires some { 1 ≤ entry.n }
    requires room { entry.n ≤ MAX_N }
    ensures { Reads (λ evidence. evidence) result (partition_of_lists entry between (lists_behind lists.now)) }
{
    let classes = classes_from(alloc, entry.n, lists)?;
    class_count(&classes)?;
    let classes = WordLists::from_vec(classes);
    Ok(Evidence::Partition {
        entry,
        between,
        classes,
    })
}

/// The evidence that the document states, of kind partition.
pub fn partition_evidence(alloc: Global, document: &Value) -> Result<Evidence, DocumentFault>
    ensures { Reads (λ evidence. evidence) result (read_by [] partition_schema (view document.now)) }
{
    let n = length_field(document)?;
    let d = distance_field(has_field(document, FieldName::W), document)?;
    let w = weight_field(n, document)?;
    let entry = Entry { n, d, w };
    let between = number_field(document, FieldName::D1, 1, d)?;
    let lists = text_lists_field(alloc, document, FieldName::Classes)?;
    let names = [
        FieldName::N,
        FieldName::D,
        FieldName::W,
        FieldName::D1,
        FieldName::Classes,
    ];
    last_fields(document, &names)?;
    partition_of_lists(alloc, entry, between, &lists)
}
