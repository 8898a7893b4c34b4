//! The table of a document, and its kind.
ghost use Rattle.std.specs.Prelude.{◌≡◌, ◌≤◌, false, length, Some, IfOk};
ghost use Rattle.toml.specs.Data.{table, members_depth};
ghost use Rattle.toml.specs.Text.{IsDocumentText};
ghost use Rattle.toml.specs.View.{view, table_view};
ghost use Rattle.ct_fields.specs.Reads.{Reads};
ghost use Rattle.ct_fields.specs.Fields.{is_of_kind};
ghost use Rattle.ct_fields.specs.Document.{table_of, read_table};
ghost use Rattle.ct_fields.specs.Inside.Room.{IsSimpleTable, table_room};

use crate::fault::DocumentFault;
use std::alloc::{AllocError, Global};
use toml::{Table, Value};

/// The greatest number of bytes of a document.
pub const MAX_DOCUMENT: usize = 4194304;

/// The table that the bytes write, or `NotToml`.
pub fn read_table(alloc: Global, bytes: &[u8]) -> Result<Value, DocumentFault>
    ensures { Reads view result (read_table bytes.now) }
{
    match toml::table_from_slice(alloc, bytes) {
        Ok(table) => Ok(Value::Table(table)),
        Err(error) => {
            if error.is_memory() {
                return Err(DocumentFault::Memory);
            }
            Err(DocumentFault::NotToml)
        }
    }
}

/// Whether the document is of the kind.
pub fn is_of_kind(document: &Value, kind: &str) -> bool
    ensures { result ≡ is_of_kind kind.now (view document.now) }
{
    match document.get("kind") {
        Some(Value::String(found)) => found.as_str() == kind,
        _ => false,
    }
}

/// The text of a table that is no deeper than the reader follows. `Err` is want of memory.
pub fn table_bytes(alloc: Global, members: &Table) -> Result<Vec<u8>, AllocError>
    requires { members_depth (table_view members.now) ≤ 80 }
    ensures written { IfOk result (λ bytes. table_of bytes.items ≡ Some (table (table_view members.now))) }
    ensures text { IfOk result (λ bytes. IsDocumentText false (table_view members.now) bytes.items) }
    ensures room { IfOk result (λ bytes. IsSimpleTable (table_view members.now) →
        length bytes.items ≤ table_room (table_view members.now)) }
{
    match toml::table_to_string(alloc, members) {
        Ok(text) => Ok(text.into_bytes()),
        Err(_) => Err(AllocError),
    }
}
