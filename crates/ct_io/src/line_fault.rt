use std::alloc::AllocError;

/// Why no line was given.
#[derive(Clone, Copy, Debug)]
pub enum LineFault {
    /// A read of the source failed.
    ReadFault,
    /// So many bytes were taken, which is above `MAX_INPUT`.
    TooLong(u64),
    /// There was no memory for more bytes or for the line.
    Memory,
}

impl From<AllocError> for LineFault {
    ghost use Rattle.std.specs.Prelude.{◌≡◌};
    ghost use Rattle.ct_io.specs.declared.line_fault.LineFault.TheVariants.{Memory};

    ghost from_gives = { λ _ fault. fault ≡ Memory };

    fn from(_: AllocError) -> LineFault {
        LineFault::Memory
    }
}
