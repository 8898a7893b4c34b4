//! Documents of duals, read and written.
#![tactic(auto)]

mod dual_fault_text;
pub mod dual_kind;
mod fields;
mod reading;
mod written;

pub use dual_fault_text::put_dual_fault;
pub use reading::{dual_evidence, johnson_dual_evidence, local_dual_evidence, odd_evidence};
pub use written::{dual_table, johnson_dual_table, local_dual_table, odd_table};
