//! Partitions as their documents state them.

ghost use Rattle.std.specs.Prelude.{◌≡◌, IfOk};
ghost use Rattle.ct_classes.specs.Partition.{word_lists, IsSoundPartition};

use crate::partition::Partition;
use ct_words::{Entry, Word};
use std::alloc::{AllocError, Global};
use std::marker::Model;

/// A partition as its document states it. Contracts see the partition.
#[derive(Drop)]
pub struct StatedPartition<'a> {
    entry: Entry,
    between: u32,
    classes: &'a [Vec<Word>],
}

impl<'a> Model for StatedPartition<'a> {
    ghost use Rattle.ct_classes.specs.Partition.{word_lists, PartitionValue};

    ghost Value = { PartitionValue };

    ghost view = { λ p. record { entry = p.entry; between = p.between; classes = word_lists p.classes.now } };
}

impl<'a> StatedPartition<'a> {
    /// The partition of the entry with these classes.
    pub fn new(entry: Entry, between: u32, classes: &'a [Vec<Word>]) -> StatedPartition<'a>
        ensures { result ≡ record { entry = entry; between = between; classes = word_lists classes.now } }
    {
        StatedPartition {
            entry,
            between,
            classes,
        }
    }

    /// The entry of which each class is stated as a code.
    pub fn entry(&self) -> Entry
        ensures { result ≡ self.now.entry }
    {
        self.entry
    }

    /// The partition by itself, where it is one.
    pub fn copied(&self, alloc: Global) -> Result<Partition, AllocError>
        requires { IsSoundPartition self.now }
        ensures { IfOk result (λ partition. partition ≡ self.now) }
    {
        let classes = Vec::from_clones(alloc, self.classes)?;
        Ok(Partition::from_classes(self.entry, self.between, classes))
    }
}
