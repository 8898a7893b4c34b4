//! Why a submission is refused, in words.

ghost use Rattle.std.specs.Prelude.{◌≡◌, ◌++◌, OnOk, IfOk};
ghost use Rattle.ct_files.specs.Refusal.{file_fault_text, submit_fault_text};

use ct_build_files::put_build_fault;
use ct_dual_files::put_dual_fault;
use ct_fields::DocumentFault;
use ct_kind::{SubmitFault, put_named};
use ct_partition_files::put_partition_fault;
use ct_text::put_numbered;
use ct_word_files::put_code_fault;
use std::alloc::{AllocError, Global};

/// Puts at the end of the text why a document is not read.
fn put_file_fault(alloc: Global, text: &mut Vec<u8>, fault: DocumentFault) -> Result<(), AllocError>
    ensures { OnOk result (text.new.items ≡ text.old.items ++ file_fault_text fault) }
{
    match fault {
        DocumentFault::Bytes(count) => put_numbered(alloc, text, b"bytes", count),
        DocumentFault::NotToml => text.extend_from_slice(b"toml"),
        DocumentFault::Kind => text.extend_from_slice(b"kind"),
        DocumentFault::Field(name) => {
            text.extend_from_slice(b"field ")?;
            text.extend_from_slice(name.text().as_bytes())
        }
        DocumentFault::Unknown => text.extend_from_slice(b"unknown"),
        DocumentFault::Digits(i) => put_numbered(alloc, text, b"digits", i as u64),
        DocumentFault::Size(count) => put_numbered(alloc, text, b"size", count),
        DocumentFault::Memory => Ok(()),
    }
}

/// Puts at the end of the text why a submission makes no piece.
fn put_submit_fault(alloc: Global, text: &mut Vec<u8>, fault: SubmitFault) -> Result<(), AllocError>
    ensures { OnOk result (text.new.items ≡ text.old.items ++ submit_fault_text fault) }
{
    match fault {
        SubmitFault::Taken => text.extend_from_slice(b"taken"),
        SubmitFault::FullPieces(count) => put_numbered(alloc, text, b"full pieces", count),
        SubmitFault::File(reason) => put_file_fault(alloc, text, reason),
        SubmitFault::NoSuch(part) => put_named(text, b"nosuch ", part),
        SubmitFault::WrongPart(part) => put_named(text, b"part ", part),
        SubmitFault::Code(reason) => put_code_fault(alloc, text, reason),
        SubmitFault::Partition(reason) => put_partition_fault(alloc, text, reason),
        SubmitFault::Build(reason) => put_build_fault(alloc, text, reason),
        SubmitFault::Dual(reason) => put_dual_fault(alloc, text, reason),
        SubmitFault::FullWords(total) => put_numbered(alloc, text, b"full words", total),
        SubmitFault::Memory => Ok(()),
    }
}

/// Why a submission is refused, in words, as a reply has them after `refused `; want of memory has none. `Err` is want of memory.
pub fn submit_refusal(alloc: Global, fault: &SubmitFault) -> Result<Vec<u8>, AllocError>
    ensures { IfOk result (λ text. text.items ≡ submit_fault_text fault.now) }
{
    let mut text = Vec::new(alloc);
    put_submit_fault(alloc, &mut text, *fault)?;
    Ok(text)
}
