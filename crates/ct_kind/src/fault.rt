//! Why a submission is refused.

ghost use Rattle.std.specs.Prelude.{◌≡◌};

use ct_build::BuildFault;
use ct_classes::PartitionFault;
use ct_duals::DualFault;
use ct_fields::DocumentFault;
use ct_names::Id;
use ct_words::CodeFault;
use std::alloc::{AllocError, AllocFailed};

/// Why a submission makes no piece: the first of these that holds, in this order.
#[derive(Clone, Copy)]
pub enum SubmitFault {
    /// A standing piece has the id.
    Taken,
    /// So many pieces stand that there is no room for another: `MAX_PIECES`.
    FullPieces(u64),
    /// The document is not read. The fault is never want of memory.
    File(DocumentFault),
    /// The first part that is named, in the order of the document, and that does not stand.
    NoSuch(Id),
    /// The first part that is named and that does not fit. Of a build: it is of a kind without a code, or has not the length or
    /// the weight that the step asks for. Of a product, pair by pair: it is no partition, has not the length that it needs
    /// or, where a weight is stated, not the weight.
    WrongPart(Id),
    /// The words are no code of the entry. The fault is never want of memory.
    Code(CodeFault),
    /// The classes are no partition. The fault is never want of memory.
    Partition(PartitionFault),
    /// The step makes no code of the entry, or the distance of the product is too short. The fault is never a wrong part nor
    /// want of memory.
    Build(BuildFault),
    /// The dual is not accepted.
    Dual(DualFault),
    /// With the piece so many words would be stored, which is more than `MAX_STORED`.
    FullWords(u64),
    /// Memory ran out.
    Memory,
}

impl SubmitFault {
    ghost use Rattle.std.specs.Prelude.{◌≡◌, ◌↔◌, IsTrue};

    /// Whether memory ran out.
    pub fn is_memory(&self) -> bool
        ensures { IsTrue result ↔ (self.now ≡ SubmitFault.Memory) }
    {
        matches!(self, SubmitFault::Memory)
    }
}

impl From<AllocError> for SubmitFault {
    ghost use Rattle.std.specs.Prelude.{◌≡◌};
    ghost use Rattle.ct_kind.specs.declared.fault.SubmitFault.TheVariants.{Memory};

    ghost from_gives = { λ _ e. e ≡ Memory };

    fn from(_error: AllocError) -> SubmitFault {
        SubmitFault::Memory
    }
}

impl<T: Drop> From<AllocFailed<T>> for SubmitFault {
    ghost use Rattle.std.specs.Prelude.{◌≡◌};
    ghost use Rattle.ct_kind.specs.declared.fault.SubmitFault.TheVariants.{Memory};

    ghost from_gives = { λ _ e. e ≡ Memory };

    fn from(_error: AllocFailed<T>) -> SubmitFault {
        SubmitFault::Memory
    }
}
