//! A run of the program over bytes in memory.

ghost use Rattle.std.specs.Prelude.{◌≡◌, ◌≤◌, IfOk};
ghost use Rattle.ct_command_line.specs.CommandLine.{mode_of, bytes_of};
ghost use Rattle.ct_run.specs.Answer.{IsAnswer};

use crate::dispatch::run;
use crate::status::Status;
use ct_io::{Failed, MemSource, Sink};
use std::alloc::{AllocError, Global};

/// What a run gives: its output, and how it ended, which is `Done`, `Refused`, `Usage` or `TooLong`.
#[derive(Drop)]
pub struct Outcome {
    /// What was written.
    pub output: Vec<u8>,
    /// How the run ended.
    pub status: Status,
}

/// A sink that keeps all bytes, and fails only where memory runs out.
#[derive(Drop)]
struct Kept {
    bytes: Vec<u8>,
    faults: u64,
}

impl Sink for Kept {
    ghost use Rattle.std.specs.Prelude.{Some};

    ghost holds = { λ s. Some s.bytes.items };

    ghost faults = { λ s. s.faults };

    fn write(&mut self, piece: &[u8]) -> Result<usize, Failed> {
        match self.bytes.extend_from_slice(piece) {
            Ok(()) => Ok(piece.len()),
            Err(_) => {
                self.faults = self.faults.saturating_add(1);
                Err(Failed)
            }
        }
    }
}

/// Runs the program on the words after its name and on these bytes as its input, and gives what it writes: the usage line where the words name no mode,
/// else an output of the mode, what it says of codes being true, or that the input is too long (`Status::TooLong`), where nothing is said of the bytes.
/// `Err` is want of memory.
pub fn answer(alloc: Global, words: &[String], input: Vec<u8>) -> Result<Outcome, AllocError>
    ensures answer { IfOk result (λ a. IsAnswer (mode_of (bytes_of words.now)) input.items a.output.items a.status) }
{
    let mut source = MemSource::new(input, Vec::new(alloc), usize::MAX);
    let mut sink = Kept {
        bytes: Vec::new(alloc),
        faults: 0,
    };
    let status = run(alloc, words, &mut source, &mut sink);
    if status.has_failed() {
        return Err(AllocError);
    }
    Ok(Outcome {
        output: sink.bytes,
        status,
    })
}
