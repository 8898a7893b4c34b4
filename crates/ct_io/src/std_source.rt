ghost use Rattle.std.specs.Prelude.{◌≡◌, ◌+◌, ◌-◌, ◌^◌, ◌≤◌, IfOk, OnErr, None, min, length, if◌then◌else◌, is_ok};
ghost use Rattle.std.specs.Io.KnownBytes.{ReadConsumes};
ghost use Rattle.ct_io.specs.Faults.{Rose};

use crate::failed::Failed;
use crate::source::Source;
use std::io::Read;

/// A source over a reader of std, as standard input. It tells no bytes. Make it with `faults` 0.
#[derive(Drop)]
pub struct StdSource<R: Read + Drop> {
    /// The reader.
    pub inner: R,
    /// How many reads failed, up to `u64::MAX`.
    pub faults: u64,
}

impl<R: Read + Drop> Source for StdSource<R> {
    ghost left = { λ _. None };

    ghost faults = { λ s. s.faults };

    fn read(&mut self, into: &mut [u8]) -> Result<usize, Failed>
        ensures within { IfOk result (λ n. n ≤ length into.new) }
        ensures bytes { ReadConsumes None None result into.new }
        ensures counted { self.old.faults ≤ self.new.faults }
        ensures failed { OnErr result (Rose self.old.faults self.new.faults) }

        // It is one read of the reader, whose bytes may be known, and its failure is counted.
        ensures passes { ReadConsumes (R.remaining self.old.inner) (R.remaining self.new.inner)
            result into.new }
        ensures faults { self.new.faults
            ≡ (if is_ok result then self.old.faults else min (self.old.faults + 1) (2 ^ 64 - 1)) }
    {
        match self.inner.read(into) {
            Ok(count) => Ok(count),
            Err(_) => {
                self.faults = self.faults.saturating_add(1);
                Err(Failed)
            }
        }
    }
}
