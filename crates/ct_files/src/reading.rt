//! The evidence of a document, and what is cited for it.
ghost use Rattle.std.specs.Prelude.{◌≡◌, ◌≢◌, ◌≤◌, All, Ok, Err, IfOk, IfErr, IsTrue, length};
ghost use Rattle.toml.specs.View.{view};
ghost use Rattle.ct_names.specs.Cite.{is_cite};
ghost use Rattle.ct_fields.specs.declared.cites.TheConstants.{MAX_CITES};
ghost use Rattle.ct_fields.specs.Reads.{Reads};
ghost use Rattle.ct_files.specs.Kinds.{kind_in, evidence_by};
ghost use Rattle.ct_files.specs.Evidence.{IsSound, evidence_of, read_without_limit, read_of};
ghost use Rattle.ct_files.specs.Document.{value_of, document_of, document_without_limit, document_read_of};

use crate::contents::Document;
use crate::kind::Kind;
use ct_build_files::build_evidence;
use ct_dual_files::{dual_evidence, johnson_dual_evidence, local_dual_evidence, odd_evidence};
use ct_fields::{DocumentFault, MAX_DOCUMENT, cites_of, format_of, is_of_kind, read_table};
use ct_kind::Evidence;
use ct_partition_files::{partition_evidence, product_evidence};
use ct_word_files::{cosets_evidence, words_evidence};
use std::alloc::Global;
use toml::Value;

/// The kind that the document names.
fn kind_in(document: &Value) -> Result<Kind, DocumentFault>
    ensures { result ≡ kind_in (view document.now) }
{
    if is_of_kind(document, "words") {
        return Ok(Kind::Words);
    }
    if is_of_kind(document, "cosets") {
        return Ok(Kind::Cosets);
    }
    if is_of_kind(document, "partition") {
        return Ok(Kind::Partition);
    }
    if is_of_kind(document, "build") {
        return Ok(Kind::Build);
    }
    if is_of_kind(document, "product") {
        return Ok(Kind::Product);
    }
    if is_of_kind(document, "dual") {
        return Ok(Kind::Dual);
    }
    if is_of_kind(document, "jdual") {
        return Ok(Kind::JohnsonDual);
    }
    if is_of_kind(document, "odd") {
        return Ok(Kind::Odd);
    }
    if is_of_kind(document, "jlocal") {
        return Ok(Kind::JohnsonLocal);
    }
    Err(DocumentFault::Kind)
}

/// The evidence of a document of the kind.
fn evidence_by(alloc: Global, kind: Kind, document: &Value) -> Result<Evidence, DocumentFault>
    ensures { Reads (λ evidence. evidence) result (evidence_by kind (view document.now)) }
{
    match kind {
        Kind::Words => words_evidence(alloc, document),
        Kind::Cosets => cosets_evidence(alloc, document),
        Kind::Partition => partition_evidence(alloc, document),
        Kind::Build => build_evidence(alloc, document),
        Kind::Product => product_evidence(alloc, document),
        Kind::Dual => dual_evidence(alloc, document),
        Kind::JohnsonDual => johnson_dual_evidence(alloc, document),
        Kind::Odd => odd_evidence(alloc, document),
        Kind::JohnsonLocal => local_dual_evidence(alloc, document),
    }
}

#[tactic(auto, unfolding(crate::specs::Evidence::evidence_of))]
fn evidence(alloc: Global, document: &Value) -> Result<Evidence, DocumentFault>
    ensures { Reads (λ evidence. evidence) result (evidence_of (view document.now)) }
{
    let kind = kind_in(document)?;
    format_of(document)?;
    evidence_by(alloc, kind, document)
}

#[tactic(auto, unfolding(crate::specs::Document::document_of))]
fn document(alloc: Global, table: &Value) -> Result<Document, DocumentFault>
    ensures { Reads value_of result (document_of (view table.now)) }
{
    let evidence = evidence(alloc, table)?;
    let cites = cites_of(alloc, table)?;
    Ok(Document { evidence, cites })
}

#[tactic(auto, unfolding(crate::specs::Evidence::read_without_limit))]
fn read_without_limit(alloc: Global, bytes: &[u8]) -> Result<Evidence, DocumentFault>
    ensures { Reads (λ evidence. evidence) result (read_without_limit bytes.now) }
{
    let table = read_table(alloc, bytes)?;
    evidence(alloc, &table)
}

#[tactic(auto, unfolding(crate::specs::Document::document_without_limit))]
fn document_without_limit(alloc: Global, bytes: &[u8]) -> Result<Document, DocumentFault>
    ensures { Reads value_of result (document_without_limit bytes.now) }
{
    let table = read_table(alloc, bytes)?;
    document(alloc, &table)
}

#[tactic(auto, unfolding(crate::specs::Evidence::read_of))]
fn read(alloc: Global, bytes: &[u8]) -> Result<Evidence, DocumentFault>
    ensures { Reads (λ evidence. evidence) result (read_of bytes.now) }
{
    if bytes.len() > MAX_DOCUMENT {
        return Err(DocumentFault::Bytes(bytes.len() as u64));
    }
    read_without_limit(alloc, bytes)
}

#[tactic(auto, unfolding(crate::specs::Document::document_read_of))]
fn read_whole(alloc: Global, bytes: &[u8]) -> Result<Document, DocumentFault>
    ensures { Reads value_of result (document_read_of bytes.now) }
{
    if bytes.len() > MAX_DOCUMENT {
        return Err(DocumentFault::Bytes(bytes.len() as u64));
    }
    document_without_limit(alloc, bytes)
}

/// The document that the bytes write: the evidence that `read_evidence` reads, and what is cited for it.
///
/// For bytes that write none the answer is the fault that `read_evidence` gives. `Memory` is want of memory.
pub fn read_document(alloc: Global, bytes: &[u8]) -> Result<Document, DocumentFault>
    ensures read { IfOk result (λ document. document_read_of bytes.now ≡ Ok (value_of document)) }
    ensures fault { IfErr result (λ fault. fault ≢ DocumentFault.Memory → document_read_of bytes.now ≡ Err fault) }
    ensures sound { IfOk result (λ document. IsSound document.evidence) }
    ensures few { IfOk result (λ document. length document.cites.items ≤ MAX_CITES) }
    ensures each { IfOk result (λ document. All (λ cite. IsTrue (is_cite cite)) document.cites.items) }
{
    read_whole(alloc, bytes)
}

/// The evidence that a document states, as its bytes give it.
///
/// The bytes are at most `MAX_DOCUMENT`, and a TOML document with the keys `kind`, `n`, an integer from 1 to `MAX_N`, `d`,
/// one from 3 to `MAX_N`, those of its kind, and no others. Words are texts of `n` digits `0` and `1`. Where the key `w`
/// stands, the weight, it is an integer from 0 to n, and d is even.
///
/// The key `format` may stand too, with 1 or 2; where it is left out the format is 1. In format 2 the key `cites` may stand: a
/// list of at most `MAX_CITES` texts, each of 1 to `ct_names::MAX_CITE` bytes from 32 to 126. In format 1 no kind names it.
///
/// | `kind` | further keys |
/// |---|---|
/// | `words` | `w`, which may be left out; `words`, a list of 1 to `ct_words::MAX_WORDS` words |
/// | `cosets` | `basis`, a list of at most `MAX_N` words; `representatives`, one of 1 to `ct_words::MAX_REPRESENTATIVES` |
/// | `partition` | `w`, which may be left out; `d1`, an integer from 1 to d; `classes`, a list of 1 to `ct_partitions::MAX_CLASSES` lists of 1 or more words, at most `ct_words::MAX_WORDS` in all |
/// | `build` | `w`, as the operation has it; `op`, the operation; the fields of the operation; `part`, an id; `other`, an id |
/// | `product` | `w`, which may be left out; `pairs`, a list of 1 to `MAX_N + 1` lists of two ids, of one alone where `w` is left out |
/// | `dual` | `even`, a truth value, true only with an even d, false where it is left out; `c`, a list of 1 to n + 1 whole numbers of at least 0; `y`, a list of pairs `[i, v]`, empty where it is left out, i ascending from d to n, even ones alone where `even` is set, v at least 0 |
/// | `jdual` | `w`, with an even d; `c`, a list of 1 to m + 1 whole numbers of at least 0, m the least of w and n - w |
/// | `odd` | `even`, as of a `dual`; `m`, an odd integer from 3 to `ct_parity::MAX_ODD`; `c` and `y`, as of a `dual` |
/// | `jlocal` | `w` and `c`, as of a `jdual`; `y`, a list of pairs `[i, v]`, empty where it is left out, i ascending from d/2 to m, v at least 0 |
///
/// An operation is named for the `Step` that it is. `append_one`, `lengthen`, `parity` and `juxtapose` make words of at least
/// 2 digits, `uuv` of an even number. `puncture`, `translate` and `uuv` take no weight, `select` takes one. `puncture` and
/// `shorten` have `places`, a list of 1 or more places, distinct and ascending, of words with so many digits more, at most
/// `MAX_N`; `shorten` has `digits`, a text of as many digits; `translate` and `select` have `by`, a word; `trim` has `size`,
/// from 1 to `ct_build::MAX_BUILT`. `uuv` and `juxtapose` have `other`. Of a build by `select` d is even in any case.
///
/// Whole numbers are those of 64 signed bits. A `c` that is shorter than it may be stands for one with zeros at its end.
///
/// For every other document the answer is its first fault, in the order of `DocumentFault`: `Field(Format)` comes after `Kind` and
/// before all other fields, `Field(Cites)` after them. `Memory` is want of memory.
pub fn read_evidence(alloc: Global, bytes: &[u8]) -> Result<Evidence, DocumentFault>
    ensures read { IfOk result (λ evidence. read_of bytes.now ≡ Ok evidence) }
    ensures fault { IfErr result (λ fault. fault ≢ DocumentFault.Memory → read_of bytes.now ≡ Err fault) }
    ensures sound { IfOk result IsSound }
{
    read(alloc, bytes)
}
