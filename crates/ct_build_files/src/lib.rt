//! Documents of builds, read and written.
#![tactic(auto)]

mod build;
mod build_fault_text;
mod build_fields;
pub mod build_kind;
mod codes;
mod operation;
mod written_build;

pub use build::build_evidence;
pub use build_fault_text::put_build_fault;
pub use codes::Codes;
pub use written_build::build_table;
