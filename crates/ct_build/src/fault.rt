//! Why no code is made.

use std::alloc::{AllocError, AllocFailed};

/// Why a construction makes no code.
#[derive(Clone, Copy, Debug, PartialEq, Eq)]
pub enum BuildFault {
    /// The part (0) or the other part (1) has another length or weight than the step asks for.
    WrongPart(u32),
    /// The distance that the construction gives, and the greater one that is wanted.
    Short(u32, u32),
    /// The number of words of a part or of the result, above the limit.
    Size(u64),
    /// The number of words that there are, and the greater one that is wanted.
    Few(u64, u64),
    /// No word results.
    Empty,
    /// Memory ran out.
    Memory,
}

impl From<AllocError> for BuildFault {
    ghost use Rattle.std.specs.Prelude.{◌≡◌};
    ghost use Rattle.ct_build.specs.declared.fault.BuildFault.TheVariants.{Memory};

    ghost from_gives = { λ _ e. e ≡ Memory };

    fn from(_error: AllocError) -> BuildFault {
        BuildFault::Memory
    }
}

impl<T: Drop> From<AllocFailed<T>> for BuildFault {
    ghost use Rattle.std.specs.Prelude.{◌≡◌};
    ghost use Rattle.ct_build.specs.declared.fault.BuildFault.TheVariants.{Memory};

    ghost from_gives = { λ _ e. e ≡ Memory };

    fn from(_failed: AllocFailed<T>) -> BuildFault {
        BuildFault::Memory
    }
}
