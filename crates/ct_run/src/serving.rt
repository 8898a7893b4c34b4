//! Serving a session whose commands a ledger answers.

ghost use Rattle.std.specs.Prelude.{◌≡◌, ◌≤◌, ◌+◌, ◌↔◌, Err, IfOk, OnOk, length};
ghost use Rattle.std.specs.Io.KnownBytes.{IsAtEnd};
ghost use Rattle.ct_io.specs.Faults.{Rose};
ghost use Rattle.ct_io.specs.Told.{WhereTold, IsAboveLimit};
ghost use Rattle.ct_io.specs.declared.TheConstants.{MAX_INPUT, MAX_READ};
ghost use Rattle.ct_session.specs.Ending.{Ends};
ghost use Rattle.ct_session.specs.Serve.{WritesRun, WritesRunPrefix, WritesRunProperPrefix, AnswersTaken, AnswersButLastBytes, WritesWholeReplies};

use crate::answering::LedgerAnswers;
use ct_io::{RunFault, Sink, Source};
use ct_session::serve_lines;
use std::alloc::Global;

/// Serves a session, as `serve_session` does.
fn serve_ledger<S: Source, K: Sink>(
    alloc: Global,
    source: &mut S,
    sink: &mut K,
) -> Result<bool, RunFault>
    ensures { Ends result (S.left source.old) (S.left source.new) (K.holds sink.old) (K.holds sink.new)
        (S.faults source.old) (S.faults source.new) (K.faults sink.old) (K.faults sink.new) }
{
    let Ok(answers) = LedgerAnswers::new(alloc) else {
        return Err(RunFault::Memory);
    };
    serve_lines(alloc, answers, source, sink)
}

/// Serves a session: takes the lines of the source to its end, and writes the replies to the sink. `Ok` tells whether any reply is a
/// refusal.
///
/// Replies are written at the latest before the source is read again, and whole replies before the session is broken off.
pub fn serve_session<S: Source, K: Sink>(
    alloc: Global,
    source: &mut S,
    sink: &mut K,
) -> Result<bool, RunFault>
    // The input was read to its end, and what was written is a run.
    ensures run { IfOk result (WritesRun (S.left source.old) (K.holds sink.old) (K.holds sink.new)) }
    ensures to_end { OnOk result (IsAtEnd (S.left source.new)) }

    // Whatever comes of it, a prefix of a run was written; each fault says how much of it.
    ensures prefix { WritesRunPrefix (S.left source.old) (K.holds sink.old) (K.holds sink.new) }
    ensures written_in_part { result ≡ Err RunFault.Write
        → WritesRunProperPrefix (S.left source.old) (K.holds sink.old) (K.holds sink.new) }
    ensures taken_answered { result ≡ Err RunFault.Read
        → AnswersTaken (S.left source.old) (S.left source.new) (K.holds sink.old) (K.holds sink.new) }
    ensures last_bytes_unanswered { result ≡ Err RunFault.TooLong
        → AnswersButLastBytes (S.left source.old) (S.left source.new) (K.holds sink.old) (K.holds sink.new) }
    ensures whole_replies { result ≡ Err RunFault.Memory
        → WritesWholeReplies (S.left source.old) (S.left source.new) (K.holds sink.old) (K.holds sink.new) }

    // When each fault comes.
    ensures read_fault { result ≡ Err RunFault.Read → Rose (S.faults source.old) (S.faults source.new) }
    ensures write_fault { result ≡ Err RunFault.Write → Rose (K.faults sink.old) (K.faults sink.new) }
    ensures too_long { WhereTold (S.left source.old) (S.left source.new)
        (λ before after. (result ≡ Err RunFault.TooLong) ↔ IsAboveLimit before after) }
    ensures one_read_past { WhereTold (S.left source.old) (S.left source.new)
        (λ before after. length before ≤ length after + MAX_INPUT + MAX_READ) }
{
    serve_ledger(alloc, source, sink)
}
