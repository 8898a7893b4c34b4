//! The mode `sample`: the summary, which a sink gets.

ghost use Rattle.std.specs.Prelude.{◌≡◌, ◌≢◌, ◌⊎◌, Err, IfErr, OnOk, List, ℕ};
ghost use Rattle.std.specs.Io.KnownBytes.{Appends};
ghost use Rattle.ct_io.specs.Faults.{Rose};
ghost use Rattle.ct_io.specs.Told.{AppendsProperPrefix};
ghost use Rattle.ct_sample.specs.Summary.{IsSampleOutput};

use crate::summary::{sample, summary_text};
use ct_io::{RunFault, Sink, write_text};
use std::alloc::Global;

/// Makes the sample of so many commands, and writes its seven lines. It reads nothing.
pub fn write_sample<K: Sink>(alloc: Global, number: u32, sink: &mut K) -> Result<(), RunFault>
    ensures written { OnOk result ((output : List ℕ) × IsSampleOutput number output × Appends (K.holds sink.old) (K.holds sink.new) output) }

    // Where the sink failed, a part of the lines from their beginning on was written, and else nothing.
    ensures written_in_part { result ≡ Err RunFault.Write
        → (output : List ℕ) × IsSampleOutput number output × AppendsProperPrefix (K.holds sink.old) (K.holds sink.new) output }
    ensures unwritten { IfErr result (λ fault. fault ≢ RunFault.Write → sink.new ≡ sink.old) }

    // When each fault comes.
    ensures fault { IfErr result (λ fault. (fault ≡ RunFault.Write) ⊎ (fault ≡ RunFault.Memory)) }
    ensures write_fault { result ≡ Err RunFault.Write → Rose (K.faults sink.old) (K.faults sink.new) }
{
    let summary = sample(alloc, number)?;
    let text = summary_text(alloc, &summary)?;
    write_text(sink, &text)
}
