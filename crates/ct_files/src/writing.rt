//! Evidence, and documents, written as bytes.
ghost use Rattle.std.specs.Prelude.{◌≡◌, ◌≤◌, length, Some, Ok, IfOk};
ghost use Rattle.toml.specs.Data.{Data};
ghost use Rattle.toml.specs.View.{table_view};
ghost use Rattle.ct_fields.specs.Document.{table_of};
ghost use Rattle.ct_fields.specs.declared.cites.TheConstants.{MAX_CITES};
ghost use Rattle.ct_files.specs.Evidence.{IsSound, read_without_limit, read_of};
ghost use Rattle.ct_files.specs.Document.{value_of, without_cites, document_without_limit, document_read_of, WritesFormat};
ghost use Rattle.ct_files.specs.Lengths.{most_bytes, most_document_bytes};
ghost use Rattle.ct_files.specs.Inside.Written.{evidence_table, HasIds};

use crate::contents::Document;
use ct_build_files::build_table;
use ct_dual_files::{dual_table, johnson_dual_table, local_dual_table, odd_table};
use ct_fields::{put_cites, table_bytes};
use ct_kind::Evidence;
use ct_partition_files::{partition_table, product_table};
use ct_word_files::{cosets_table, words_table};
use std::alloc::{AllocError, Global};
use toml::Table;

fn evidence_table(alloc: Global, evidence: &Evidence) -> Result<Table, AllocError>
    requires { IsSound evidence.now }
    ensures table { IfOk result (λ table. table_view table ≡ evidence_table evidence.now) }
    ensures ids { IfOk result (λ table. HasIds evidence.now) }
{
    match evidence {
        Evidence::Words { entry, words } => { words_table(alloc, *entry, words.as_slice()) }
        Evidence::Cosets {
            entry,
            basis,
            representatives,
        } => cosets_table(alloc, *entry, basis.as_slice(), representatives.as_slice()),
        Evidence::Partition {
            entry,
            between,
            classes,
        } => partition_table(alloc, *entry, *between, classes.as_slice()),
        Evidence::Product { entry, pairs } => product_table(alloc, *entry, pairs.as_slice()),
        Evidence::Build {
            entry,
            step,
            part,
            other,
        } => build_table(alloc, *entry, step, *part, *other),
        Evidence::Dual(dual) => dual_table(alloc, dual),
        Evidence::JohnsonDual(dual) => johnson_dual_table(alloc, dual),
        Evidence::Odd { dual, m } => odd_table(alloc, dual, *m),
        Evidence::JohnsonLocal(dual) => local_dual_table(alloc, dual),
    }
}

/// The document of the evidence, whose fields have the forms, ranges and counts of its kind: a TOML table with its keys
/// in the order of their bytes. `Err` is want of memory.
///
/// It reads as the same evidence, which cites nothing, and has at most `most_bytes` bytes, so that it is within the limit of a document.
pub fn write_evidence(alloc: Global, evidence: &Evidence) -> Result<Vec<u8>, AllocError>
    requires { IsSound evidence.now }
    ensures without_limit { IfOk result (λ bytes. read_without_limit bytes.items ≡ Ok evidence.now) }
    ensures read { IfOk result (λ bytes. read_of bytes.items ≡ Ok evidence.now) }
    ensures length { IfOk result (λ bytes. length bytes.items ≤ most_bytes evidence.now) }
    ensures document_without_limit { IfOk result (λ bytes.
        document_without_limit bytes.items ≡ Ok (without_cites evidence.now)) }
    ensures document { IfOk result (λ bytes. document_read_of bytes.items ≡ Ok (without_cites evidence.now)) }
{
    let table = evidence_table(alloc, evidence)?;
    table_bytes(alloc, &table)
}

/// The document, whose evidence has the forms, ranges and counts of its kind, as bytes: a TOML table with its keys in the order
/// of their bytes, of format 1, without the key `format`, exactly where nothing is cited, and else of format 2. `Err` is want of
/// memory.
///
/// It reads as the same document, and has at most `most_document_bytes` bytes, so that it is within the limit.
pub fn write_document(alloc: Global, document: &Document) -> Result<Vec<u8>, AllocError>
    requires sound { IsSound document.now.evidence }
    requires few { length document.now.cites.items ≤ MAX_CITES }
    ensures without_limit { IfOk result (λ bytes.
        document_without_limit bytes.items ≡ Ok (value_of document.now)) }
    ensures read { IfOk result (λ bytes. document_read_of bytes.items ≡ Ok (value_of document.now)) }
    ensures format { IfOk result (λ bytes. (written : Data) → table_of bytes.items ≡ Some written →
        WritesFormat document.now.cites.items written) }
    ensures length { IfOk result (λ bytes. length bytes.items ≤ most_document_bytes (value_of document.now)) }
{
    let mut table = evidence_table(alloc, &document.evidence)?;
    put_cites(alloc, &mut table, &document.cites)?;
    table_bytes(alloc, &table)
}
