//! Why a document is not read.
ghost use Rattle.std.specs.Prelude.{◌≡◌};
ghost use Rattle.ct_fields.specs.declared.fault.DocumentFault.TheVariants.{Memory};

use crate::field::FieldName;
use std::alloc::{AllocError, AllocFailed};

/// Why a document is not read: the first of these that holds, in this order.
#[derive(Clone, Copy, PartialEq, Eq)]
pub enum DocumentFault {
    /// The number of its bytes, which is above `MAX_DOCUMENT`.
    Bytes(u64),
    /// The bytes are no TOML document, of version 1.1 in UTF-8.
    NotToml,
    /// The key `kind` is missing, or holds the text of no kind.
    Kind,
    /// The first field that is missing, of another type than its own, or out of its range.
    Field(FieldName),
    /// There is a key that the kind doesn't name.
    Unknown,
    /// The place, counted from 0, of the first text of a word that isn't of its length in digits `0` and `1`. The one text of
    /// digits of a build, `by` or `digits`, has place 0.
    Digits(usize),
    /// The count that is wrong: of words, which is 0 or above `ct_words::MAX_WORDS`; of the words of a basis or the
    /// representatives of cosets; of the classes of a partition or their words, as `ct_partitions::wrong_count` says it.
    Size(u64),
    /// Memory ran out.
    Memory,
}

impl From<AllocError> for DocumentFault {
    ghost from_gives = { λ _ e. e ≡ Memory };

    fn from(_e: AllocError) -> DocumentFault {
        DocumentFault::Memory
    }
}

impl<T: Drop> From<AllocFailed<T>> for DocumentFault {
    ghost from_gives = { λ _ e. e ≡ Memory };

    fn from(_e: AllocFailed<T>) -> DocumentFault {
        DocumentFault::Memory
    }
}
