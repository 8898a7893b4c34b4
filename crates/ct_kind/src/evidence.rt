//! The kinds of evidence.

use ct_build::Step;
use ct_classes::WordLists;
use ct_duals::Dual;
use ct_names::Id;
use ct_words::{Entry, Listed, Word};

/// A piece of evidence for a bound.
pub enum Evidence {
    /// Words that are stated as a code of the entry, in the order of the document.
    Words {
        entry: Entry,
        words: Listed<Word>,
    },
    /// A basis and representatives: the sums of each representative with all sums of basis words are stated as a code of
    /// the entry, which has no weight.
    Cosets {
        entry: Entry,
        basis: Listed<Word>,
        representatives: Listed<Word>,
    },
    /// Classes that are stated as a partition: each is a code of the entry, and words of different classes have a distance of
    /// at least `between`.
    Partition {
        entry: Entry,
        between: u32,
        classes: WordLists,
    },
    /// A step that is stated to make a code of the entry of the code of the piece `part` and, where the step needs another
    /// code, of that of the piece `other`, which is named exactly there.
    Build {
        entry: Entry,
        step: Step,
        part: Id,
        other: Option<Id>,
    },
    /// Pairs of pieces that are partitions, whose product is stated as a code of the entry. Pairs may be equal.
    Product {
        entry: Entry,
        pairs: Listed<(Id, Id)>,
    },
    /// A dual of Delsarte's linear program for an entry without weight.
    Dual(Dual),
    /// One for an entry with weight: it speaks of no even distances alone, and allows nothing.
    JohnsonDual(Dual),
    /// A dual for an entry without weight, and a number of words, odd and from 3 to `ct_parity::MAX_ODD`, which it may exclude: where
    /// f adds up to more over the pairs of any `m` words than it does over those of a code.
    Odd {
        dual: Dual,
        m: u32,
    },
    /// A dual for an entry with weight that looks at a code from one of its words: it speaks of no even distances alone, and may allow
    /// something at the indices that two words of a code may have.
    JohnsonLocal(Dual),
}

impl Drop for Evidence {
    fn drop(self) {
        match self {
            Evidence::Words { entry: _, words: _ } => {}
            Evidence::Cosets {
                entry: _,
                basis: _,
                representatives: _,
            } => {}
            Evidence::Partition {
                entry: _,
                between: _,
                classes: _,
            } => {}
            Evidence::Build {
                entry: _,
                step: _,
                part: _,
                other: _,
            } => {}
            Evidence::Product { entry: _, pairs: _ } => {}
            Evidence::Dual(_) | Evidence::JohnsonDual(_) | Evidence::JohnsonLocal(_) => {}
            Evidence::Odd { dual: _, m: _ } => {}
        }
    }
}
