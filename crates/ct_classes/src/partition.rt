//! Partitions.

ghost use Rattle.std.specs.Prelude.{◌≡◌, map};
ghost use Rattle.ct_classes.specs.Partition.{word_lists, PartitionValue, IsSoundPartition};

use ct_words::{Entry, Word};
use std::marker::Model;

/// A code of a smaller distance that is put together from codes of an entry, its classes: two words of one class have
/// the distance of the entry at least, two of different classes the distance between classes.
pub struct Partition {
    entry: Entry,
    between: u32,
    classes: Vec<Vec<Word>>,
}

impl Drop for Partition {
    fn drop(self) {
        let Partition {
            entry: _,
            between: _,
            classes: _,
        } = self;
    }
}

impl Model for Partition {
    ghost Value = { PartitionValue };

    ghost view = { λ p. record { entry = p.entry; between = p.between; classes = map (λ c. c.items) p.classes.items } };

    ghost invariant = { λ p. IsSoundPartition
        (record { entry = p.entry; between = p.between; classes = map (λ c. c.items) p.classes.items }) };
}

impl Partition {
    /// The partition of classes that are one. Nothing is tested, and no memory taken.
    pub fn from_classes(entry: Entry, between: u32, classes: Vec<Vec<Word>>) -> Partition
        requires partition { IsSoundPartition
            (record { entry = entry; between = between; classes = word_lists classes.items }) }
        ensures value { result ≡ record { entry = entry; between = between; classes = word_lists classes.items } }
    {
        Partition {
            entry,
            between,
            classes,
        }
    }

    /// The entry of which each class is a code.
    pub fn entry(&self) -> Entry
        ensures value { result ≡ self.now.entry }
        ensures sound { IsSoundPartition self.now }
    {
        self.entry
    }

    /// The distance that two words of different classes have at least.
    pub fn between(&self) -> u32
        ensures value { result ≡ self.now.between }
        ensures sound { IsSoundPartition self.now }
    {
        self.between
    }

    /// The classes, as they were handed in.
    pub fn classes(&self) -> &[Vec<Word>]
        ensures value { word_lists result.now ≡ self.now.classes }
        ensures sound { IsSoundPartition self.now }
    {
        &self.classes
    }
}
