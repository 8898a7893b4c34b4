//! How a run of the program ends.

/// How a run of the program ends.
#[derive(Clone, Copy, Debug)]
pub enum Status {
    /// The input was read to its end and each reply was written; none is a refusal.
    Done,
    /// The same, and some reply is a refusal.
    Refused,
    /// The words are no command; the usage line was written.
    Usage,
    /// The source failed.
    ReadFault,
    /// The sink failed.
    WriteFault,
    /// More bytes were taken than the limit.
    TooLong,
    /// Memory ran out.
    Memory,
}

impl Status {
    ghost use Rattle.std.specs.Prelude.{◌≡◌};
    ghost use Rattle.std.specs.Option.{option_copied};
    ghost use Rattle.ct_run.specs.Exit.{has_failed, status_number, status_reason};

    /// The number with which the program ends: 0 for `Done`, and 1 to 6 for the others in their order.
    pub fn number(self) -> u8
        ensures { result ≡ status_number self }
    {
        match self {
            Status::Done => 0,
            Status::Refused => 1,
            Status::Usage => 2,
            Status::ReadFault => 3,
            Status::WriteFault => 4,
            Status::TooLong => 5,
            Status::Memory => 6,
        }
    }

    /// Whether a device failed, or memory ran out.
    pub fn has_failed(self) -> bool
        ensures { result ≡ has_failed self }
    {
        matches!(
            self,
            Status::ReadFault | Status::WriteFault | Status::Memory
        )
    }

    /// What is said of a run that ends so, where it is broken off.
    pub fn reason(self) -> Option<&'static str>
        ensures { option_copied result ≡ status_reason self }
    {
        match self {
            Status::Done | Status::Refused | Status::Usage => None,
            Status::ReadFault => Some("a read failed"),
            Status::WriteFault => Some("a write failed"),
            Status::TooLong => Some("the input is longer than 67108864 bytes"),
            Status::Memory => Some("out of memory"),
        }
    }
}
