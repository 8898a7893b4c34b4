use crate::failed::Failed;
use crate::line_fault::LineFault;
use std::alloc::AllocError;

/// Why a run over a source and a sink is broken off.
#[derive(Clone, Copy)]
pub enum RunFault {
    /// The source failed.
    Read,
    /// The sink failed.
    Write,
    /// More than `MAX_INPUT` bytes were taken.
    TooLong,
    /// Memory ran out.
    Memory,
}

impl From<AllocError> for RunFault {
    ghost use Rattle.std.specs.Prelude.{◌≡◌};
    ghost use Rattle.ct_io.specs.declared.run_fault.RunFault.TheVariants.{Memory};

    ghost from_gives = { λ _ fault. fault ≡ Memory };

    fn from(_: AllocError) -> RunFault {
        RunFault::Memory
    }
}

impl From<LineFault> for RunFault {
    ghost use Rattle.std.specs.Prelude.{◌≡◌};
    ghost use Rattle.ct_io.specs.Told.{fault_of_read};

    ghost from_gives = { λ e fault. fault ≡ fault_of_read e };

    fn from(e: LineFault) -> RunFault {
        match e {
            LineFault::ReadFault => RunFault::Read,
            LineFault::TooLong(_) => RunFault::TooLong,
            LineFault::Memory => RunFault::Memory,
        }
    }
}

impl From<Failed> for RunFault {
    ghost use Rattle.std.specs.Prelude.{◌≡◌};
    ghost use Rattle.ct_io.specs.declared.run_fault.RunFault.TheVariants.{Write};

    // What failed by itself, apart from the reading of lines, is a sink.
    ghost from_gives = { λ _ fault. fault ≡ Write };

    fn from(_: Failed) -> RunFault {
        RunFault::Write
    }
}
