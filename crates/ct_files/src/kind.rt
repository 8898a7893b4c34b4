//! The kinds of evidence documents.

/// A kind of evidence document.
#[derive(Clone, Copy)]
pub enum Kind {
    /// The words of a code.
    Words,
    /// A basis and representatives of cosets.
    Cosets,
    /// The classes of a partition.
    Partition,
    /// A step that makes a code of those of other pieces.
    Build,
    /// Pairs of partitions.
    Product,
    /// A dual of Delsarte's linear program for an entry without weight.
    Dual,
    /// One for an entry with weight.
    JohnsonDual,
    /// A dual for an entry without weight, with an odd number of words that it may exclude.
    Odd,
    /// A dual for an entry with weight that looks at a code from one of its words.
    JohnsonLocal,
}
