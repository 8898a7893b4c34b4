//! Why a withdrawal is refused.

ghost use Rattle.std.specs.Prelude.{◌≡◌};

use ct_names::Id;
use std::alloc::AllocError;

/// Why a piece is not withdrawn.
#[derive(Clone, Copy)]
pub enum WithdrawFault {
    /// No piece has the id.
    NoSuch,
    /// The first standing piece that names it.
    InUse(Id),
    /// Memory ran out.
    Memory,
}

impl From<AllocError> for WithdrawFault {
    ghost use Rattle.std.specs.Prelude.{◌≡◌};
    ghost use Rattle.ct_piece.specs.declared.fault.WithdrawFault.TheVariants.{Memory};

    ghost from_gives = { λ _ e. e ≡ Memory };

    fn from(_error: AllocError) -> WithdrawFault {
        WithdrawFault::Memory
    }
}
