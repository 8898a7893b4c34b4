//! Documents of partitions and of products of them, read and written.
#![tactic(auto)]

mod lists;
mod pairs;
mod partition;
mod partition_fault_text;
pub mod partition_kind;
mod product;
pub mod product_kind;
mod written;

pub use partition::partition_evidence;
pub use partition_fault_text::put_partition_fault;
pub use product::product_evidence;
pub use written::{partition_table, product_table};
