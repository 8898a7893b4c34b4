ghost use Rattle.std.specs.Prelude.{◌≡◌, ◌+◌, ◌-◌, ◌^◌, ◌<◌, ◌≤◌, IfOk, OnErr, None, min, length, if◌then◌else◌, is_ok};
ghost use Rattle.std.specs.Io.KnownBytes.{WriteAppends};
ghost use Rattle.ct_io.specs.Faults.{Rose};

use crate::failed::Failed;
use crate::sink::Sink;
use std::io::Write;

/// A sink over a writer of std, as standard output. It tells no bytes. Make it with `faults` 0.
#[derive(Drop)]
pub struct StdSink<W: Write + Drop> {
    /// The writer.
    pub inner: W,
    /// How many writes failed, up to `u64::MAX`.
    pub faults: u64,
}

impl<W: Write + Drop> Sink for StdSink<W> {
    ghost holds = { λ _. None };

    ghost faults = { λ s. s.faults };

    /// A write that takes nothing of a piece that isn't empty is a failure too.
    fn write(&mut self, piece: &[u8]) -> Result<usize, Failed>
        ensures within { IfOk result (λ n. n ≤ length piece.now) }
        ensures some { IfOk result (λ n. 0 < length piece.now → 0 < n) }
        ensures bytes { WriteAppends None None result piece.now }
        ensures counted { self.old.faults ≤ self.new.faults }
        ensures failed { OnErr result (Rose self.old.faults self.new.faults) }

        // It is one write of the writer, whose bytes may be known, and its failure is counted.
        ensures passes { WriteAppends (W.contents self.old.inner) (W.contents self.new.inner)
            result piece.now }
        ensures faults { self.new.faults
            ≡ (if is_ok result then self.old.faults else min (self.old.faults + 1) (2 ^ 64 - 1)) }
    {
        match self.inner.write(piece) {
            Ok(count) if count > 0 || piece.is_empty() => Ok(count),
            _ => {
                self.faults = self.faults.saturating_add(1);
                Err(Failed)
            }
        }
    }
}
