ghost use Rattle.std.specs.Prelude.{ℕ, ◌≤◌, List, Option, IfOk, OnErr, length};
ghost use Rattle.std.specs.Io.KnownBytes.{ReadConsumes};
ghost use Rattle.ct_io.specs.Faults.{Rose};

use crate::failed::Failed;

/// What bytes are read from.
pub trait Source {
    // The bytes that are left to read, where the source tells them.
    ghost left: { Self → Option (List ℕ) };

    // How many faults there were. The count never falls.
    ghost faults: { Self → ℕ };

    /// Puts bytes at the front of `into` and gives their number. Zero at an `into` that isn't
    /// empty is the end of the input. `Failed` comes only where the count of faults rose in this
    /// call or stands at its last value, and then no byte was taken.
    fn read(&mut self, into: &mut [u8]) -> Result<usize, Failed>
        ensures within { IfOk result (λ n. n ≤ length into.new) }
        ensures bytes { ReadConsumes (left self.old) (left self.new) result into.new }
        ensures counted { faults self.old ≤ faults self.new }
        ensures failed { OnErr result (Rose (faults self.old) (faults self.new)) };
}
