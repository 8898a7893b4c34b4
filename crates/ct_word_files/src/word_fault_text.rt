//! The texts of faults of words and of cosets.

ghost use Rattle.std.specs.Prelude.{◌≡◌, ◌++◌, OnOk};
ghost use Rattle.ct_word_files.specs.WordFaultText.{code_fault_text};

use ct_text::{put_numbered, put_numbered_pair, put_spaced};
use ct_words::CodeFault;
use std::alloc::{AllocError, Global};

/// Puts at the end of the text why words are no code. `Err` is want of memory.
pub fn put_code_fault(alloc: Global, text: &mut Vec<u8>, fault: CodeFault) -> Result<(), AllocError>
    ensures { OnOk result (text.new.items ≡ text.old.items ++ code_fault_text fault) }
{
    match fault {
        CodeFault::Size(count) => put_numbered(alloc, text, b"size", count),
        CodeFault::Weight(i) => put_numbered(alloc, text, b"weight", i as u64),
        CodeFault::Repeated(i, j) => {
            put_numbered_pair(alloc, text, b"repeated", i as u64, j as u64)
        }
        CodeFault::Close(i, j, distance) => {
            put_numbered_pair(alloc, text, b"close", i as u64, j as u64)?;
            put_spaced(alloc, text, u64::from(distance))
        }
        CodeFault::Work(work) => put_numbered(alloc, text, b"work", work),
        CodeFault::Memory => Ok(()),
    }
}
