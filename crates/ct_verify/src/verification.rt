//! The verdict on a derivation document that comes from a source.

ghost use Rattle.std.specs.Prelude.{◌≡◌, ◌≢◌, ◌≤◌, ◌+◌, ◌↔◌, Err, IfOk, IfErr, IfSome, OnOk, length};
ghost use Rattle.std.specs.Io.KnownBytes.{Appends, IsAtEnd};
ghost use Rattle.ct_io.specs.Faults.{Rose};
ghost use Rattle.ct_io.specs.Told.{AppendsProperPrefix, IsAboveLimit, WhereTold};
ghost use Rattle.ct_io.specs.declared.TheConstants.{MAX_INPUT, MAX_READ};
ghost use Rattle.ct_verify.specs.Inside.Verdict.{verdict_of};
ghost use Rattle.ct_verify.specs.Verification.{is_no, verdict_line};

use crate::text::verdict_text;
use crate::verdict::Verdict;
use crate::verifying::verify;
use ct_io::{RunFault, Sink, Source, read_input, write_text};
use ct_text::LINE_FEED;
use std::alloc::{AllocError, Global};

/// Whether the verdict is no.
fn is_no(verdict: Verdict) -> bool
    ensures { result ≡ is_no verdict }
{
    match verdict {
        Verdict::Yes => false,
        Verdict::No(_, _) => true,
    }
}

/// The verdict as a line, with a line feed at its end. `Err` is want of memory.
fn verdict_line(alloc: Global, verdict: &Verdict) -> Result<Vec<u8>, AllocError>
    ensures { IfOk result (λ line. line.items ≡ verdict_line verdict.now) }
{
    let mut line = verdict_text(alloc, verdict)?;
    line.push(LINE_FEED)?;
    Ok(line)
}

/// Verifies the derivation document that the source has left: reads it to its end, and writes the verdict as a line. `Ok` tells whether
/// the verdict is no.
pub fn verify_source<S: Source, K: Sink>(
    alloc: Global,
    source: &mut S,
    sink: &mut K,
) -> Result<bool, RunFault>
    // The input was read to its end, and the verdict on it was written.
    ensures verdict { IfOk result (λ refused. IfSome (S.left source.old) (λ input. refused ≡ is_no (verdict_of input))) }
    ensures written { OnOk result (IfSome (S.left source.old) (λ input.
        Appends (K.holds sink.old) (K.holds sink.new) (verdict_line (verdict_of input)))) }
    ensures to_end { OnOk result (IsAtEnd (S.left source.new)) }

    // Where the sink failed, a part of the line from its beginning on was written, and after each other fault nothing.
    ensures written_in_part { result ≡ Err RunFault.Write → IfSome (S.left source.old) (λ input.
        AppendsProperPrefix (K.holds sink.old) (K.holds sink.new) (verdict_line (verdict_of input))) }
    ensures unwritten { IfErr result (λ fault. fault ≢ RunFault.Write → sink.new ≡ sink.old) }

    // When each fault comes.
    ensures read_fault { result ≡ Err RunFault.Read → Rose (S.faults source.old) (S.faults source.new) }
    ensures write_fault { result ≡ Err RunFault.Write → Rose (K.faults sink.old) (K.faults sink.new) }
    ensures too_long { WhereTold (S.left source.old) (S.left source.new)
        (λ before after. (result ≡ Err RunFault.TooLong) ↔ IsAboveLimit before after) }
    ensures one_read_past { WhereTold (S.left source.old) (S.left source.new)
        (λ before after. length before ≤ length after + MAX_INPUT + MAX_READ) }
{
    let input = read_input(alloc, source)?;
    let verdict = verify(alloc, &input)?;
    let refused = is_no(verdict);
    let line = verdict_line(alloc, &verdict)?;
    write_text(sink, &line)?;
    Ok(refused)
}
