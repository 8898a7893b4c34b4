//! Words in classes: what a partition is, as it is proved and as a document states it, and why lists of words are none.
#![tactic(auto)]

mod fault;
mod partition;
mod stated;
mod word_lists;

pub use fault::{MAX_CLASSES, PartitionFault};
pub use partition::Partition;
pub use stated::StatedPartition;
pub use word_lists::WordLists;
