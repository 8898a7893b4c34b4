//! Evidence by its kind: documents, whose bytes are read and written, and what evidence comes to, how it is checked and which code it states.
#![tactic(auto)]

mod by_kind;
mod checked;
mod code;
mod contents;
mod kind;
mod named_parts;
mod reading;
mod refusal;
mod writing;

pub use by_kind::{build_of, kind_of, names, partition_of, stored_for};
pub use checked::{Checked, check_listed};
pub use code::listed_code;
pub use contents::Document;
pub use ct_fields::{DocumentFault, FieldName, MAX_CITES, MAX_DOCUMENT};
pub use ct_kind::Evidence;
pub use ct_names::Cite;
pub use named_parts::{has_part, has_parts};
pub use reading::{read_document, read_evidence};
pub use refusal::submit_refusal;
pub use writing::{write_document, write_evidence};
