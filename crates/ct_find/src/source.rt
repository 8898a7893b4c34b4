//! The replies to the lines of a source.

ghost use Rattle.std.specs.Prelude.{◌≡◌, ◌≢◌, ◌≤◌, ◌+◌, ◌↔◌, Err, IfOk, IfErr, OnOk, length};
ghost use Rattle.std.specs.Io.KnownBytes.{Appends, IsAtEnd};
ghost use Rattle.ct_io.specs.Faults.{Rose};
ghost use Rattle.ct_io.specs.Told.{AppendsProperPrefix, IsAboveLimit, WhereTold};
ghost use Rattle.ct_io.specs.declared.TheConstants.{MAX_INPUT, MAX_READ};
ghost use Rattle.ct_find.specs.Reply.{Writes, WritesInPart};

use crate::reply::replies_to;
use ct_io::{RunFault, Sink, Source, read_input, write_text};
use std::alloc::Global;

/// Proposes duals for the entries that the lines of the source name: reads the source to its end, finds the duals, and writes the replies to
/// its lines, in order. `Ok` tells whether one of the replies is a refusal.
pub fn find_source<S: Source, K: Sink>(
    alloc: Global,
    source: &mut S,
    sink: &mut K,
) -> Result<bool, RunFault>
    // The input was read to its end, and the replies to its lines were written.
    ensures written { IfOk result (λ refused. Writes (S.left source.old) (K.holds sink.old) (K.holds sink.new) refused) }
    ensures to_end { OnOk result (IsAtEnd (S.left source.new)) }

    // Where the sink failed, a part of the replies from their beginning on was written, and after each other fault nothing.
    ensures written_in_part { result ≡ Err RunFault.Write → WritesInPart (S.left source.old) (K.holds sink.old) (K.holds sink.new) }
    ensures unwritten { IfErr result (λ fault. fault ≢ RunFault.Write → sink.new ≡ sink.old) }

    // When each fault comes.
    ensures read_fault { result ≡ Err RunFault.Read → Rose (S.faults source.old) (S.faults source.new) }
    ensures write_fault { result ≡ Err RunFault.Write → Rose (K.faults sink.old) (K.faults sink.new) }
    ensures too_long { WhereTold (S.left source.old) (S.left source.new)
        (λ before after. (result ≡ Err RunFault.TooLong) ↔ IsAboveLimit before after) }
    ensures one_read_past { WhereTold (S.left source.old) (S.left source.new)
        (λ before after. length before ≤ length after + MAX_INPUT + MAX_READ) }
{
    let input = read_input(alloc, source)?;
    let replies = replies_to(alloc, &input)?;
    write_text(sink, &replies.text)?;
    Ok(replies.refused)
}
