//! Why words are no code of an entry.

use std::alloc::AllocError;

/// The greatest number of words of a code that is handed in.
pub const MAX_WORDS: usize = 16384;

/// The greatest number of representatives of a coset code. Its basis has at most `MAX_N` words.
pub const MAX_REPRESENTATIVES: usize = 4096;

/// The greatest work of checking a coset code of r representatives and k basis words: r(r + 1)/2 · 2^k comparisons of
/// two words.
pub const MAX_COSET_WORK: u64 = 16777216;

/// Why words are no code of an entry. Places count from 0: those of a list as it was handed in, and for cosets the
/// numbers of the choices.
#[derive(Clone, Copy, Debug, PartialEq, Eq)]
pub enum CodeFault {
    /// The number of words, which is 0 or above `MAX_WORDS`; for cosets the number of basis words, which is above
    /// `MAX_N`, or else of representatives, which is 0 or above `MAX_REPRESENTATIVES`.
    Size(u64),
    /// The place of the first word that has not the weight of the entry. It never comes for cosets.
    Weight(usize),
    /// The least pair of places that hold equal words. It never comes for cosets.
    Repeated(usize, usize),
    /// The least pair of places whose words are too close, and their distance, which for cosets may be 0.
    Close(usize, usize, u32),
    /// The work of the check of cosets, which is above `MAX_COSET_WORK`. `check_words` never answers this.
    Work(u64),
    /// Memory ran out. `check_words` never answers this.
    Memory,
}

impl From<AllocError> for CodeFault {
    ghost use Rattle.std.specs.Prelude.{◌≡◌};
    ghost use Rattle.ct_words.specs.declared.fault.CodeFault.TheVariants.{Memory};

    ghost from_gives = { λ _ e. e ≡ Memory };

    fn from(_error: AllocError) -> CodeFault {
        CodeFault::Memory
    }
}
