//! What is read of a document, in words.

use ct_files::{DocumentFault, read_evidence};
use std::alloc::{AllocError, Global};

/// The fault as it is called, with its number, or the key of its field.
pub fn name_of(alloc: Global, fault: DocumentFault) -> Result<String, AllocError> {
    match fault {
        DocumentFault::Bytes(count) => format!(in alloc; "Bytes({count})"),
        DocumentFault::NotToml => "NotToml".to_string(alloc),
        DocumentFault::Kind => "Kind".to_string(alloc),
        DocumentFault::Field(field) => format!(in alloc; "Field({})", field.text()),
        DocumentFault::Unknown => "Unknown".to_string(alloc),
        DocumentFault::Digits(place) => format!(in alloc; "Digits({place})"),
        DocumentFault::Size(count) => format!(in alloc; "Size({count})"),
        DocumentFault::Memory => "Memory".to_string(alloc),
    }
}

/// The fault of a document, as it is called, or `none`.
pub fn fault_text(alloc: Global, document: &[u8]) -> Result<String, AllocError> {
    match read_evidence(alloc, document).err() {
        Some(fault) => name_of(alloc, fault),
        None => "none".to_string(alloc),
    }
}
