//! Why lists of words are no partition.

use std::alloc::AllocError;

/// The greatest number of classes.
pub const MAX_CLASSES: usize = 4096;

/// Why lists of words are no partition. Places number the words through all classes, from 0.
#[derive(Clone, Copy, Debug, PartialEq, Eq)]
pub enum PartitionFault {
    /// The number of classes, which is 0 or above `MAX_CLASSES`; or else 0, for a class without words; or else the number
    /// of words, which is above `MAX_WORDS`.
    Size(u64),
    /// The place of the first word that has not the weight of the entry.
    Weight(usize),
    /// The least pair of places that hold equal words.
    Repeated(usize, usize),
    /// The least pair of places whose words are closer than they need to be.
    Close {
        /// The first place.
        i: usize,
        /// The second place.
        j: usize,
        /// The distance of the two words.
        distance: u32,
        /// The class of the first word.
        class_i: usize,
        /// The class of the second word.
        class_j: usize,
        /// The distance that they need: that of a class where they are in one, else that between classes.
        need: u32,
    },
    /// Memory ran out.
    Memory,
}

impl From<AllocError> for PartitionFault {
    ghost use Rattle.std.specs.Prelude.{◌≡◌};
    ghost use Rattle.ct_classes.specs.declared.fault.PartitionFault.TheVariants.{Memory};

    ghost from_gives = { λ _ e. e ≡ Memory };

    fn from(_error: AllocError) -> PartitionFault {
        PartitionFault::Memory
    }
}
