//! Partitions of words into codes: their check and their products.
#![tactic(auto)]

mod check;
mod close;
mod listing;
mod product;

pub use check::{check_partition, partition_fault, word_count, wrong_count};
pub use ct_classes::{MAX_CLASSES, Partition, PartitionFault};
pub use listing::product_list;
pub use product::{product_distance, product_size};
