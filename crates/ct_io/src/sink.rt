ghost use Rattle.std.specs.Prelude.{◌≡◌, ℕ, ◌<◌, ◌≤◌, List, Option, IfOk, IfErr, OnOk, OnErr, length, take};
ghost use Rattle.std.specs.Io.KnownBytes.{Appends, WriteAppends};
ghost use Rattle.ct_io.specs.Faults.{Rose};
ghost use Rattle.ct_io.specs.Told.{AppendsProperPrefix};

use crate::failed::Failed;
use crate::run_fault::RunFault;

/// What bytes are written to.
pub trait Sink {
    // The bytes that the sink holds, where it tells them.
    ghost holds: { Self → Option (List ℕ) };

    // How many faults there were. The count never falls.
    ghost faults: { Self → ℕ };

    /// Takes bytes from the front of `piece` and gives their number, which is zero only where
    /// `piece` is empty. `Failed` comes only where the count of faults rose in this call or stands
    /// at its last value, and then no byte was taken.
    fn write(&mut self, piece: &[u8]) -> Result<usize, Failed>
        ensures within { IfOk result (λ n. n ≤ length piece.now) }
        ensures some { IfOk result (λ n. 0 < length piece.now → 0 < n) }
        ensures bytes { WriteAppends (holds self.old) (holds self.new) result piece.now }
        ensures counted { faults self.old ≤ faults self.new }
        ensures failed { OnErr result (Rose (faults self.old) (faults self.new)) };
}

/// Writes all of `bytes`, in as many calls of the sink as it takes: `Ok` where the sink took them
/// all. `Failed` comes only where the sink's count of faults rose in this call or stands at its last
/// value, and then the sink has taken a prefix of the bytes, and some are left. It takes no memory.
pub fn write_all<K: Sink>(sink: &mut K, bytes: &[u8]) -> Result<(), Failed>
    ensures written { OnOk result (Appends (K.holds sink.old) (K.holds sink.new) bytes.now) }
    ensures prefix { OnErr result ((n : ℕ) × (n ≤ length bytes.now)
        × Appends (K.holds sink.old) (K.holds sink.new) (take n bytes.now)) }
    ensures unwritten { OnErr result
        (AppendsProperPrefix (K.holds sink.old) (K.holds sink.new) bytes.now) }
    ensures failed { OnErr result (Rose (K.faults sink.old) (K.faults sink.new)) }
    ensures counted { K.faults sink.old ≤ K.faults sink.new }
{
    let mut at = 0;
    while at < bytes.len() {
        at += sink.write(&bytes[at..])?;
    }
    Ok(())
}

/// Writes all of the output of a run, as `write_all` does.
pub fn write_text<K: Sink>(sink: &mut K, text: &[u8]) -> Result<(), RunFault>
    ensures written { OnOk result (Appends (K.holds sink.old) (K.holds sink.new) text.now) }
    ensures unwritten { OnErr result (AppendsProperPrefix (K.holds sink.old) (K.holds sink.new) text.now) }
    ensures fault { IfErr result (λ fault. fault ≡ RunFault.Write) }
    ensures failed { OnErr result (Rose (K.faults sink.old) (K.faults sink.new)) }
{
    write_all(sink, text)?;
    Ok(())
}
